// One round, over all the credentials that a source shows.
ghost use Rattle.std.specs.Prelude.{◌≡◌, length, filter};
ghost use Rattle.source.specs.Shows.{stated};
ghost use Rattle.rules.specs.Cells.{heads};
ghost use Rattle.rules.specs.Ways.{ways};
ghost use Rattle.settle.specs.Entries.{entry_at, offered, shown, Spread};
ghost use Rattle.settle.specs.Moves.{flags, worth};

use crate::offers::offer_credential;
use crate::round::Round;
use rules::Reason;
use scale::Scale;
use source::Source;

pub(crate) fn offer_all<R: Source, S: Scale>(
    round: &Round<'_, '_, R, S>,
    latest: &mut [Option<S>],
    reasons: &mut [Reason],
)
    requires latest_level { length latest.old ≡ length round.now.former.now }
    requires reasons_level { length reasons.old ≡ length round.now.former.now }
    ensures { let cs = stated (R.Source.shows round.now.admitted.now.source.now) in let n = round.now.admitted.now.entities in Spread (heads cs) n (λ q. offered S.Scale.meaning (shown (heads cs) n round.now.former.now) (filter (worth (heads cs) (flags round.now.changed)) (ways S.Scale.meaning n cs q))) (entry_at latest.old reasons.old) (entry_at latest.new reasons.new) }
{
    for (place, c) in round.admitted.source.iter().enumerate() {
        offer_credential(round, place as u16, c, latest, reasons);
    }
}
