// Cells number the memberships of a table: head number times the entities enrolled, plus member.
ghost use Rattle.std.specs.Prelude.{◌≡◌, ◌+◌, ◌*◌, ◌<◌, MatchOption};

#[derive(Clone, Copy, PartialEq, Eq, Debug)]
pub struct Cell {
    pub head: usize,
    pub member: usize,
}

// The head and the member of a cell; with no entities there are no cells.
pub fn split_cell(cell: usize, entities: usize) -> Option<Cell>
    ensures { MatchOption result (entities ≡ 0) (λ c. (c.head * entities + c.member ≡ cell) × (c.member < entities)) }
{
    Some(Cell {
        head: cell.checked_div(entities)?,
        member: cell.checked_rem(entities)?,
    })
}
