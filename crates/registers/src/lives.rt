// A table of lives, with room for all that it may hold. It is within the limits at all times.
ghost use Rattle.model.specs.Lives.{Limits};
ghost use Rattle.few.specs.Held.{held};

use few::Few;
use model::Life;

// The most lives in a table.
pub(crate) const MOST: usize = 32;

#[derive(Clone, Copy)]
pub struct Lives {
    pub(crate) interval: usize,
    pub(crate) lives: Few<Life, MOST>,
    ghost limits: { Limits (record { interval = interval; lives = held lives }) },
}
