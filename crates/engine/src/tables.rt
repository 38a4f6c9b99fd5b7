// The machine's own state: the tables of the questions, and the registers whose writes are due.
ghost use Rattle.std.specs.Prelude.{◌≡◌, ℕ, [], replicate};
ghost use Rattle.model.specs.declared.Status.TheVariants.{Never};
ghost use Rattle.engine_slots.specs.Boards.{taken_in};
ghost use Rattle.engine_writes.specs.Lists.{lists_of};

use engine_slots::board::Board;
use engine_writes::dues::Dues;

#[derive(Clone, Copy)]
pub struct Tables {
    pub board: Board,
    pub dues: Dues,
}

impl Tables {
    // At first no register has landed or awaits a write, and no unit is taken.
    pub fn new() -> Tables
        ensures statuses { result.board.statuses.status ≡ replicate 256 Never }
        ensures units { (u y : ℕ) → taken_in result.board.units u y ≡ 0 }
        ensures dues { (x : ℕ) → lists_of result.dues x ≡ [] }
    {
        Tables {
            board: Board::new(),
            dues: Dues::new(),
        }
    }
}
