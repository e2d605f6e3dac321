// Rounds, until one changes nothing.
ghost use Rattle.std.specs.Prelude.{◌≡◌, ◌*◌, length, replicate};
ghost use Rattle.source.specs.Shows.{stated};
ghost use Rattle.rules.specs.Cells.{heads, weights_after, reasons_after};
ghost use Rattle.settle.specs.Settled.{Settles};

use crate::changes::note_changes;
use crate::round::Round;
use crate::rounds::offer_all;
use credential::Entity;
use heads::Admitted;
use rules::Reason;
use scale::Scale;
use source::Source;

// The reason of an entry that no round has made better, as the rules have it: a number and no Option, since
// settle leaves exactly their reasons.
const NO_REASON: Reason = Reason {
    place: 65_535,
    middle: Entity(0),
};

// No more credentials than this are settled, and so no more heads. Flags are fixed memory: there is no heap.
const MOST_HEADS: usize = 512;

// A loop: std's fill asks that a clone cannot fail, which no bound on a scale says.
fn fill<T: Copy>(list: &mut [T], value: T)
    ensures { list.new ≡ replicate (length list.old) value }
{
    for x in list.iter_mut() {
        *x = value;
    }
}

// Settles what a source shows, on lists that are as long as the cells: answers the number of rounds, and
// leaves the table in both weight lists and the reasons in theirs, which are apart as decide is lent them.
pub fn settle<R: Source, S: Scale>(
    admitted: &Admitted<'_, R>,
    former: &mut [Option<S>],
    latest: &mut [Option<S>],
    reasons: &mut [Reason],
) -> usize
    requires former_long { length former.old ≡ length (heads (stated (R.Source.shows admitted.now.source.now))) * admitted.now.entities }
    requires latest_long { length latest.old ≡ length (heads (stated (R.Source.shows admitted.now.source.now))) * admitted.now.entities }
    requires reasons_long { length reasons.old ≡ length (heads (stated (R.Source.shows admitted.now.source.now))) * admitted.now.entities }
    ensures former { former.new ≡ weights_after S.Scale.meaning admitted.now.entities (stated (R.Source.shows admitted.now.source.now)) result }
    ensures latest { latest.new ≡ weights_after S.Scale.meaning admitted.now.entities (stated (R.Source.shows admitted.now.source.now)) result }
    ensures reasons { reasons.new ≡ reasons_after S.Scale.meaning admitted.now.entities (stated (R.Source.shows admitted.now.source.now)) result }
    ensures settles { Settles S.Scale.meaning admitted.now.entities (stated (R.Source.shows admitted.now.source.now)) result }
{
    fill(former, None);
    fill(latest, None);
    fill(reasons, NO_REASON);
    let mut flags = [false; MOST_HEADS];
    let changed = &mut flags[..admitted.index.count()];
    let mut rounds = 0;
    'rounds: loop {
        let moved = (rounds > 0).then_some(&*changed);
        let round = Round {
            admitted,
            former: &*former,
            changed: moved,
        };
        offer_all(&round, latest, reasons);
        rounds += 1;
        if !note_changes(former, latest, admitted.entities, changed) {
            return rounds;
        }
        former.copy_from_slice(latest);
    }
}
