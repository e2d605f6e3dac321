ghost use Rattle.std.specs.Prelude.{◌≡◌, ℕ, ◌<◌};
ghost use Rattle.walk.specs.declared.reasons.CellStep.{CellStep};

use credential::Entity;

// A step whose premises are named by cell, not yet by step number.
#[derive(Clone, Copy)]
pub struct CellStep {
    pub place: u16,
    pub member: Entity,
    pub middle: Entity,
    pub first: Option<u16>,
    pub second: Option<u16>,
}

// A reason for each cell of a table.
pub trait Reasons {
    // How many cells there are.
    ghost cells: { Self → ℕ };

    // The step that each cell's reason makes.
    ghost leads: { Self → ℕ → CellStep };

    fn step_of(&self, cell: u16) -> CellStep
        requires { cell < cells self.now }
        ensures { result ≡ leads self.now cell };
}
