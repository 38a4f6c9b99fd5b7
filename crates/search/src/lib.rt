// The search at an interval.
#![tactic(auto)]

mod board;
mod crowds;
mod moves;
mod outcome;
mod pick;
mod run;
mod slot;
mod state;
mod step;
mod task;
mod weight;
mod weight_table;
mod weights;

pub use outcome::{NoSearch, Outcome};
pub use run::search;
