ghost use Rattle.std.specs.Prelude.{◌≡◌, ◌≤◌, List, length};
ghost use Rattle.std.specs.List.{slice_get};
ghost use Rattle.source.specs.Shows.{stated, credential_at, origin_at};

use crate::credentials::Credentials;
use credential::Credential;

// Where a credential comes from: the number of its layer, and its place there. Layers have numbers and
// no enum, since a source of another crate may be a layer of its own.
#[derive(Clone, Copy, PartialEq, Eq, Debug)]
pub struct Origin {
    pub layer: u8,
    pub place: u16,
}

// What a source shows at a place.
#[derive(Clone, Copy, PartialEq, Eq, Debug)]
pub struct Shown {
    pub credential: Credential,
    pub origin: Origin,
}

// A list of credentials with their origins. Reading it changes nothing.
pub trait Source {
    ghost use Rattle.source.specs.declared.sources.Shown.{Shown};

    // What it shows at each place: its whole meaning.
    ghost shows: { Self → List Shown };

    ghost short: { (s : Self) → length (shows s) ≤ 65535 };

    fn count(&self) -> usize
        ensures value { result ≡ length (shows self.now) }
        ensures bound { result ≤ 65535 };

    // Nothing exactly when the place is not below the count.
    fn shown(&self, place: usize) -> Option<Shown>
        ensures { result ≡ slice_get (shows self.now) place };

    fn credential(&self, place: usize) -> Option<Credential>
        ensures { result ≡ credential_at (shows self.now) place }
    {
        self.shown(place).map(|s| s.credential)
    }

    fn origin(&self, place: usize) -> Option<Origin>
        ensures { result ≡ origin_at (shows self.now) place }
    {
        self.shown(place).map(|s| s.origin)
    }

    // The credentials in order of place.
    final fn iter(&self) -> Credentials<'_, Self>
        ensures all { result ≡ stated (shows self.now) }
        ensures bound { length result ≤ 65535 }
    {
        Credentials::new(self)
    }
}
