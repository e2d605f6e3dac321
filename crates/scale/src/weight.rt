// The weights of a scale, none among them, and lists of weights.
ghost use Rattle.std.specs.Prelude.{◌≡◌, ◌<◌, ◌≤◌, false, length, None, Decides, slice_index_or, slice_set};
ghost use Rattle.scale.specs.Scale.{better_of, combined, AtLeast, Stricter};
ghost use Rattle.scale.specs.Best.{best_of};

use crate::Scale;

pub fn better_of<S: Scale>(x: Option<S>, y: Option<S>) -> Option<S>
    ensures { result ≡ better_of S.Scale.meaning x y }
{
    let Some(a) = x else {
        return y;
    };
    Some(y.map_or(a, |b| a.better_of(b)))
}

pub fn combine<S: Scale>(x: Option<S>, y: Option<S>) -> Option<S>
    ensures { result ≡ combined S.Scale.meaning x y }
{
    x?.combine(y?)
}

pub fn at_least<S: Scale>(x: Option<S>, y: Option<S>) -> bool
    ensures { Decides result (AtLeast S.Scale.meaning x y) }
{
    // Tested one by one, the bound first: as a pair they take twice the tests in each offer of a round.
    match y {
        Some(b) => x.is_some_and(|a| a.at_least(b)),
        None => true,
    }
}

// The test that fails more often comes first.
pub fn strictly_better<S: Scale>(x: Option<S>, y: Option<S>) -> bool
    ensures { Decides result (Stricter S.Scale.meaning x y) }
{
    !at_least(y, x) && at_least(x, y)
}

// The best of a list of weights, none where the list is empty.
pub fn best<S: Scale>(list: &[Option<S>]) -> Option<S>
    ensures { result ≡ best_of S.Scale.meaning list.now }
{
    list.iter().copied().fold(None, better_of)
}

// Raises an entry to the better of itself and x, and says whether it is now strictly better than
// it was. Past the end there is nothing to raise.
pub fn raise<S: Scale>(list: &mut [Option<S>], i: usize, x: Option<S>) -> bool
    ensures entry { i < length list.old → list.new ≡ slice_set list.old i (better_of S.Scale.meaning (slice_index_or list.old i None) x) }
    ensures raised { Decides result (Stricter S.Scale.meaning (slice_index_or list.new i None) (slice_index_or list.old i None)) }
    ensures past { length list.old ≤ i → (result ≡ false) × (list.new ≡ list.old) }
{
    let Some(&was) = list.get(i) else {
        return false;
    };
    // Written by index: of a slice's `get_mut` no proof knows which entry it changed.
    list[i] = better_of(was, x);
    !at_least(was, x)
}
