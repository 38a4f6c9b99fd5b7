// What an operation does, whatever its operands are.
#![tactic(auto)]

mod asking;
mod operation;

pub use operation::{Cell, Operand, Operation};
