// The edges of a loop on a machine, listed into room that is reserved once.
#![tactic(auto)]

mod build;
mod list;
mod memory;
mod push;

pub use list::Edges;
