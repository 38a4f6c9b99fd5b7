// The loop with its definers, and its dependences.
#![tactic(auto)]

pub mod fault;
pub mod hardware;
pub mod loops;
pub mod operation;
pub mod reading;
pub mod shown;
