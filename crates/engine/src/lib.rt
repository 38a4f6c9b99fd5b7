// The driving machine.
#![tactic(auto)]

pub mod answer;
mod cycles;
mod driver;
pub mod driving;
pub mod run;
mod tables;

// The parts of the machine, under this crate's name too.
pub use engine_slots::{asking, board, examining, held, program, slot, slots, statuses, units};
pub use engine_writes::{dues, landing, operands, reading, waiting};
