// The plan of a loop.
#![tactic(auto)]

mod answer;
mod attempt;
mod choice;
mod choose;
mod plan;
mod problem;

pub use answer::{NoSchedule, Scheduled};
pub use choice::Choice;
pub use plan::schedule_loop;
