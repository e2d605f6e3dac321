ghost use Rattle.std.specs.Prelude.{◌≡◌, ◌*◌, ◌≤◌, length};
ghost use Rattle.source.specs.Shows.{stated};
ghost use Rattle.rules.specs.Cells.{heads, number};
ghost use Rattle.heads.specs.Enrolled.{RoleIn, AllIn, AllIn-prop};
ghost use Rattle.heads.specs.Index.{Indexed, head_at};

use crate::index::HeadIndex;
use credential::Role;
use source::Source;

// A source whose credentials can all be settled, with the numbers of their heads.
#[derive(Drop)]
pub struct Admitted<'a, R: Source> {
    pub source: &'a R,
    // How many are enrolled.
    pub entities: usize,
    pub index: HeadIndex,
    pub ghost few: { entities ≤ 64 },
    pub ghost known: { AllIn entities (stated (R.Source.shows source.now)) } by { AllIn-prop entities (stated (R.Source.shows source.now)) },
    pub ghost short: { length (stated (R.Source.shows source.now)) ≤ 512 },
    pub ghost indexed: { Indexed index (heads (stated (R.Source.shows source.now))) },
}

impl<'a, R: Source> Admitted<'a, R> {
    // A cell for each member that each head may have.
    #[tactic(auto, using(crate::proofs::Fewer::few_cells))]
    pub fn cells(&self) -> usize
        ensures value { result ≡ length (heads (stated (R.Source.shows self.now.source.now))) * self.now.entities }
        ensures bound { result ≤ 32768 }
    {
        self.index.count() * self.entities
    }

    // The number of a head, if the role is one.
    pub fn head_of(&self, role: Role) -> Option<u16>
        requires known { RoleIn self.now.entities role }
        ensures slot { result ≡ head_at self.now.index role }
        ensures number { result ≡ number (heads (stated (R.Source.shows self.now.source.now))) role }
    {
        self.index.head_of(role)
    }
}
