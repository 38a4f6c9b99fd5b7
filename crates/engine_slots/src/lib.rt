// The slots of a row as they issue, and the questions about them.
#![tactic(auto)]

pub mod asking;
pub mod board;
pub mod examining;
pub mod held;
mod names;
pub mod program;
mod shown;
pub mod slot;
pub mod slots;
pub mod statuses;
pub mod units;
