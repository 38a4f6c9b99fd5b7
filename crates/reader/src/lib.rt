// Cuts the lines of a text into tokens that borrow it.
#![tactic(auto)]

pub mod asking;
pub mod lines;
pub mod reader;
pub mod row;
pub mod shapes;
pub mod token;
pub mod words;
