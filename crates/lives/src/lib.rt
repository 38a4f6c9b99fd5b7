// The lives of a schedule, its stages, and the sequential schedule.
#![tactic(auto)]

mod ends;
mod fill;
mod stages;
mod start;

pub use fill::lives_of;
pub use stages::stages_of;
pub use start::in_sequence;
// what in_sequence answers
pub use timing::Schedule as Sequence;
