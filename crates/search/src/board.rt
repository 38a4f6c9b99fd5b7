// The operations that are placed, with the reservations that they hold.
ghost use Rattle.std.specs.Prelude.{length};
ghost use Rattle.std.proofs.Props.{props};
ghost use Rattle.search.specs.Tables.{Sound, AloneFits};
ghost use Rattle.search.specs.Weighed.{Weighed};

use crate::task::Task;
use reservation::{ReservationTable, TimeTable};

// The table counts the operations that are placed, and one alone fits.
#[derive(Clone, Copy)]
pub struct Board<'a> {
    pub(crate) task: &'a Task<'a>,
    pub(crate) time: TimeTable,
    pub(crate) table: ReservationTable,
    ghost sound: { Sound task.now.timings.now table time } by { Prim.hlevel props },
    ghost alone: { AloneFits task.now.timings.now table },
    ghost weighed: { Weighed task.now.edges.now (length task.now.timings.now) table.interval task.now.weights.now } by { Prim.hlevel props },
}
