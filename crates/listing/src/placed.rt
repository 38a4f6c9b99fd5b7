// An operation with its place in a schedule.
ghost use Rattle.std.specs.Prelude.{◌<◌};

use dependence::operation::Operation;

// The variable is the number of those that are defined before it.
#[derive(Clone, Copy)]
pub struct Placed {
    pub(crate) operation: Operation,
    pub(crate) variable: usize,
    pub(crate) stage: usize,
    pub(crate) row: usize,
    ghost early: { stage < 65536 },
}
