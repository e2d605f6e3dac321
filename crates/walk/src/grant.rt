ghost use Rattle.std.specs.Prelude.{◌≡◌, ℕ, ◌<◌, ◌≤◌, ◌++◌, map, length, drop};
ghost use Rattle.std.specs.List.{All};
ghost use Rattle.walk.specs.Walk.{Acyclic};
ghost use Rattle.walk.specs.Grant.{number_of, numbered, CellGrant};

use crate::number::CellNumber;
use crate::order::{Order, put_in_order};
use crate::reasons::{CellStep, Reasons};
use arrayvec::ArrayVec;
use rules::Step;

// As many as a table has at most: 512 heads of 64 entities.
pub const CELLS: usize = 32_768;

impl Order {
    // The number of a premise, and 0 where there is none.
    fn cited(&self, premise: Option<u16>) -> u16
        ensures { result ≡ number_of self.now.numbers premise }
    {
        premise.and_then(|c| self.number_of(c)).unwrap_or(0)
    }

    // The step, its premises cited by number.
    fn numbered(&self, step: CellStep) -> Step
        ensures { result ≡ numbered self.now.numbers step }
    {
        Step {
            place: step.place,
            member: step.member,
            middle: step.middle,
            first: self.cited(step.first),
            second: self.cited(step.second),
        }
    }

    // Writes the steps of the cells, each by its place: after a zip over `iter_mut` no element is known.
    fn write_steps<G: Reasons>(&self, reasons: &G, steps: &mut [Step])
        requires inside { All (λ c. c < G.Reasons.cells reasons.now) self.now.cells.items }
        requires room { length self.now.cells.items ≤ length steps.old }
        ensures { steps.new ≡ map (λ c. numbered self.now.numbers (G.Reasons.leads reasons.now c)) self.now.cells.items ++ drop (length self.now.cells.items) steps.old }
    {
        for (k, cell) in self.cells.iter().enumerate() {
            steps[k] = self.numbered(reasons.step_of(*cell));
        }
    }
}

// Writes the steps that the reasons lead to from the goal, and answers how many they are.
pub fn write_grant<G: Reasons>(reasons: &G, goal: u16, steps: &mut [Step]) -> usize
    requires acyclic { Acyclic (G.Reasons.leads reasons.now) (G.Reasons.cells reasons.now) }
    requires small { G.Reasons.cells reasons.now ≤ CELLS }
    requires inside { goal < G.Reasons.cells reasons.now }
    requires room { G.Reasons.cells reasons.now ≤ length steps.old }
    ensures granted { CellGrant (G.Reasons.leads reasons.now) goal steps.old steps.new result }
    ensures few { result ≤ G.Reasons.cells reasons.now }
{
    let mut order = Order {
        numbers: [CellNumber::none(); CELLS],
        cells: ArrayVec::new(),
    };
    put_in_order(reasons, goal, &mut order);
    order.write_steps(reasons, steps);
    order.cells.len()
}
