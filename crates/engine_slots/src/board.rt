// The tables by which the questions are answered.
ghost use Rattle.std.specs.Prelude.{◌≡◌, ℕ, replicate};
ghost use Rattle.model.specs.declared.Status.TheVariants.{Never};
ghost use Rattle.engine_slots.specs.Boards.{taken_in};

use crate::statuses::Statuses;
use crate::units::Units;

#[derive(Clone, Copy)]
pub struct Board {
    pub statuses: Statuses,
    pub units: Units,
}

impl Board {
    // At first no register has landed or awaits a write, and no unit is taken.
    pub fn new() -> Board
        ensures statuses { result.statuses.status ≡ replicate 256 Never }
        ensures units { (u y : ℕ) → taken_in result.units u y ≡ 0 }
    {
        Board {
            statuses: Statuses::new(),
            units: Units::new(),
        }
    }
}
