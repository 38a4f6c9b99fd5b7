// The machine text: its record and its reading. What both texts share stands here too: names, faults and the reading line by line.
#![tactic(auto)]

pub mod entries;
pub mod fault;
mod forms;
pub mod machine;
pub mod machine_text;
pub mod name;
pub mod naming;
pub mod readings;
pub mod record;
