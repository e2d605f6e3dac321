ghost use Rattle.std.specs.Prelude.{◌≡◌, ◌<◌, IfSome, slice_get};
ghost use Rattle.rules.specs.Grants.{rests_with};
ghost use Rattle.source.specs.Shows.{stated};
ghost use Rattle.heads.specs.Enrolled.{RoleIn, BodyIn};
ghost use Rattle.derivation.specs.Trail.{cell_count, cell_of, cell_if, step_at, HasReasons};

use credential::{Body, Credential, Entity, Role};
use heads::Admitted;
use rules::Reason;
use source::Source;
use walk::{CellStep, Reasons};

// The reasons of a settled table, with what it was settled from.
#[derive(Drop)]
pub(crate) struct Trail<'a, R: Source> {
    pub admitted: &'a Admitted<'a, R>,
    pub reasons: &'a [Reason],
    ghost has_reasons: { HasReasons (stated (R.Source.shows admitted.now.source.now)) admitted.now.entities reasons.now },
}

impl<'a, R: Source> Trail<'a, R> {
    // The cell of a membership, where its role is the head of a credential.
    pub fn cell_of(&self, role: Role, member: Entity) -> Option<u16>
        requires role { RoleIn self.now.admitted.now.entities role }
        requires member { member.0 < self.now.admitted.now.entities }
        ensures { let a = self.now.admitted.now in result ≡ cell_of (stated (R.Source.shows a.source.now)) a.entities (record { role = role; member = member }) }
    {
        let entities = self.admitted.entities;
        self.admitted
            .head_of(role)
            .map(|h| (h as usize * entities + member.0 as usize) as u16)
    }

    // The cells that a credential rests on by its rule.
    fn premises(
        &self,
        credential: Option<Credential>,
        member: Entity,
        middle: Entity,
    ) -> (Option<u16>, Option<u16>)
        requires body { IfSome credential (λ c. BodyIn self.now.admitted.now.entities c.body) }
        requires member { member.0 < self.now.admitted.now.entities }
        requires middle { middle.0 < self.now.admitted.now.entities }
        ensures { let a = self.now.admitted.now in
            let cs = stated (R.Source.shows a.source.now) in
            let ps = rests_with member.0 middle.0 credential in
            result ≡ (cell_if cs a.entities (slice_get ps 0), cell_if cs a.entities (slice_get ps 1)) }
    {
        match credential.map(|c| c.body) {
            None | Some(Body::Member(_, _)) => (None, None),
            Some(Body::Delegation(b)) => (self.cell_of(b, member), None),
            Some(Body::Link(b, name)) => {
                let linked = Role {
                    entity: middle,
                    name,
                };
                (self.cell_of(b, middle), self.cell_of(linked, member))
            }
            Some(Body::Intersection(b, c)) => (self.cell_of(b, member), self.cell_of(c, member)),
        }
    }
}

impl<'a, R: Source> Reasons for Trail<'a, R> {
    ghost cells = { λ t. let a = t.admitted.now in cell_count (stated (R.Source.shows a.source.now)) a.entities };

    ghost leads = { λ t. let a = t.admitted.now in step_at (stated (R.Source.shows a.source.now)) a.entities t.reasons.now };

    fn step_of(&self, cell: u16) -> CellStep {
        let Reason { place, middle } = self.reasons[cell as usize];
        let member = Entity((cell as usize % self.admitted.entities) as u8);
        let credential = self.admitted.source.credential(place as usize);
        let (first, second) = self.premises(credential, member, middle);
        CellStep {
            place,
            member,
            middle,
            first,
            second,
        }
    }
}
