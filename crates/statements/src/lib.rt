// The loop text: its statements and their reading, names not yet looked up.
#![tactic(auto)]

mod forms;
mod loop_form;
pub mod loop_text;
mod operands;
pub mod readings;
pub mod shown;
pub mod statement;
pub mod statements;
