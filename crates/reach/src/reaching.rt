// Whether the cells of the first iterations are in memory.
ghost use Rattle.std.specs.Prelude.{◌≡◌, ℕ, ◌<◌, ◌≤◌, Decides, MatchOption};
ghost use Rattle.model.specs.Loop.{cell as cell_of};
ghost use Rattle.model.specs.Pipelining.{InMemory};
ghost use Rattle.operations.specs.Seen.{seen};
ghost use Rattle.dependence.specs.Loops.{loop_seen};
ghost use Rattle.reach.specs.Cells.{cell_held};

use dependence::loops::Loop;
use operations::{Cell, Operand, Operation};

// The cell of an iteration, if it is one of so many.
pub fn find_cell(cell: Cell, iteration: usize, cells: usize) -> Option<usize>
    ensures { MatchOption result (cells ≤ cell_of cell.stride cell.offset iteration) (λ x. (x ≡ cell_of cell.stride cell.offset iteration) × (x < cells)) }
{
    let start = cell.stride.checked_mul(iteration)?;
    let place = start.checked_add(cell.offset)?;
    if place < cells { Some(place) } else { None }
}

// Whether the cell that an operation touches in an iteration, if it touches one, is one of so many.
pub fn is_held<A: Operand>(operation: &Operation<A>, iteration: usize, cells: usize) -> bool
    ensures { result ≡ cell_held (seen A.shown operation.now) iteration cells }
{
    match operation.cell() {
        Some(cell) => find_cell(cell, iteration, cells).is_some(),
        None => true,
    }
}

// Whether each cell that iterations 0 to trips - 1 touch is one of so many. The last iteration touches the greatest cells.
pub fn cells_in_memory(l: &Loop, trips: usize, cells: usize) -> bool
    ensures { Decides result (InMemory (loop_seen l.now) trips cells) }
{
    trips == 0
        || l.operations()
            .iter()
            .all(|operation| is_held(operation, trips - 1, cells))
}
