// A list of a few items in fixed memory.
#![tactic(auto)]

mod list;
mod methods;

pub use list::{Few, Full};
