// What a round changed: a flag for each head's row.
ghost use Rattle.std.specs.Prelude.{◌≡◌, ◌*◌, ◌≤◌, length};
ghost use Rattle.settle.specs.Moves.{RowChanged, Noted};

use scale::Scale;
use scale::weight::at_least;

// Says whether some entry of a row weighs more than it did.
fn row_changed<S: Scale>(former: &[Option<S>], latest: &[Option<S>]) -> bool
    requires level { length latest.now ≡ length former.now }
    ensures { RowChanged S.Scale.meaning former.now latest.now 0 (length former.now) result }
{
    former
        .iter()
        .zip(latest)
        .any(|(was, is)| !at_least(*was, *is))
}

// Notes which rows changed, and says whether one did. Rows are cut by their number: `chunks` asks that a row is not
// empty, and after a zip with `iter_mut` nothing is known of what was written.
pub(crate) fn note_changes<S: Scale>(
    former: &[Option<S>],
    latest: &[Option<S>],
    entities: usize,
    changed: &mut [bool],
) -> bool
    requires room { length changed.old * entities ≤ length former.now }
    requires level { length latest.now ≡ length former.now }
    ensures { Noted S.Scale.meaning entities (length changed.old) former.now latest.now changed.new result }
{
    let mut any = false;
    for (head, moved) in changed.iter_mut().enumerate() {
        let start = head * entities;
        let end = start + entities;
        *moved = row_changed(&former[start..end], &latest[start..end]);
        any |= *moved;
    }
    any
}
