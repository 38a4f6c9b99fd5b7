// Call scripts: what each line of a script says.
#![tactic(auto)]

pub mod cells;
pub mod escapes;
pub mod line;
pub mod reading;
pub mod words;
