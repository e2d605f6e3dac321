// What a round reads.
ghost use Rattle.std.specs.Prelude.{◌≡◌, ◌*◌, ◌||◌, length};
ghost use Rattle.source.specs.Shows.{stated};
ghost use Rattle.rules.specs.Cells.{heads, number};
ghost use Rattle.heads.specs.Enrolled.{RoleIn};
ghost use Rattle.settle.specs.Entries.{weight_at, Held, IsRow};
ghost use Rattle.settle.specs.Moves.{flag_of, flags};

use credential::Role;
use heads::Admitted;
use scale::Scale;
use source::Source;

// The weights that the rounds before left, and which rows the last of them changed; before the first
// round there is none that did.
#[derive(Drop)]
pub(crate) struct Round<'a, 's, R: Source, S: Scale> {
    pub admitted: &'a Admitted<'s, R>,
    pub former: &'a [Option<S>],
    pub changed: Option<&'a [bool]>,
    ghost level: { length former.now ≡ length (heads (stated (R.Source.shows admitted.now.source.now))) * admitted.now.entities },
}

impl<'a, 's, R: Source, S: Scale> Round<'a, 's, R, S> {
    // The number of a role, where it is a head.
    pub fn head_of(&self, role: Role) -> Option<u16>
        requires { RoleIn self.now.admitted.now.entities role }
        ensures value { result ≡ number (heads (stated (R.Source.shows self.now.admitted.now.source.now))) role }
        ensures held { Held (length self.now.former.now) self.now.admitted.now.entities result }
    {
        self.admitted.head_of(role)
    }

    // The weights of a head's members.
    pub fn row(&self, head: Option<u16>) -> Option<&'a [Option<S>]>
        requires { Held (length self.now.former.now) self.now.admitted.now.entities head }
        ensures { IsRow self.now.admitted.now.entities (weight_at self.now.former.now self.now.admitted.now.entities head) result }
    {
        let start = head? as usize * self.admitted.entities;
        Some(&self.former[start..start + self.admitted.entities])
    }

    // Says whether the last round changed the row of a head; a role that is no head has none.
    pub fn has_moved(&self, head: Option<u16>) -> bool
        ensures { result ≡ flag_of (flags self.now.changed) head }
    {
        let (Some(changed), Some(head)) = (self.changed, head) else {
            return false;
        };
        changed.get(head as usize).copied().unwrap_or(false)
    }

    pub fn either_moved(&self, first: Option<u16>, second: Option<u16>) -> bool
        ensures { result ≡ (flag_of (flags self.now.changed) first || flag_of (flags self.now.changed) second) }
    {
        self.has_moved(first) || self.has_moved(second)
    }
}
