// What issues in a cycle: the interface between code and the machine that runs it.
#![tactic(auto)]

pub mod form;
pub mod issue;
mod shown;
