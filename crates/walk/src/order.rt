ghost use Rattle.std.specs.Prelude.{◌≡◌, ◌<◌, ◌≤◌, [], None, replicate};
ghost use Rattle.walk.specs.Walk.{number_in, opened, open_premise, Acyclic, Ordered};

use crate::grant::CELLS;
use crate::number::CellNumber;
use crate::reasons::{CellStep, Reasons};
use arrayvec::ArrayVec;

// Cells in the order of their steps, and the number of each cell's step, in fixed memory, since no walk may want any.
#[derive(Drop)]
pub(crate) struct Order {
    pub numbers: [CellNumber; CELLS],
    pub cells: ArrayVec<u16, CELLS>,
}

impl Order {
    // The number of a cell, where it has one yet.
    pub fn number_of(&self, cell: u16) -> Option<u16>
        ensures { result ≡ number_in self.now.numbers cell }
    {
        self.numbers.get(cell as usize)?.get()
    }

    // The cell, where it has no number yet.
    fn opened(&self, cell: Option<u16>) -> Option<u16>
        ensures { result ≡ opened self.now.numbers cell }
    {
        cell.filter(|c| self.number_of(*c).is_none())
    }

    // The first premise that has no number yet.
    fn open_premise(&self, step: CellStep) -> Option<u16>
        ensures { result ≡ open_premise self.now.numbers step }
    {
        self.opened(step.first).or_else(|| self.opened(step.second))
    }
}

// Puts the cells that the reasons lead to from the goal into an order that has none yet, premises first and goal
// last. The stack has the cells whose premises are not all numbered, each a premise of the one below it. The order
// is lent: one that is handed out is copied, all its room.
pub(crate) fn put_in_order<G: Reasons>(reasons: &G, goal: u16, order: &mut Order)
    requires acyclic { Acyclic (G.Reasons.leads reasons.now) (G.Reasons.cells reasons.now) }
    requires small { G.Reasons.cells reasons.now ≤ CELLS }
    requires inside { goal < G.Reasons.cells reasons.now }
    requires unnumbered { order.old.numbers ≡ replicate CELLS None }
    requires empty { order.old.cells.items ≡ [] }
    ensures { Ordered (G.Reasons.leads reasons.now) (G.Reasons.cells reasons.now) goal order.new.numbers order.new.cells.items }
{
    let mut stack = ArrayVec::<u16, CELLS>::new();
    stack.push(goal);
    while let Some(&top) = stack.last() {
        match order.open_premise(reasons.step_of(top)) {
            Some(p) => stack.push(p),
            None => {
                order.numbers[top as usize] = CellNumber::some(order.cells.len() as u16);
                order.cells.push(top);
                stack.pop();
            }
        }
    }
}
