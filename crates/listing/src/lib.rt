// The listing: a loop in its schedule, written out in names of registers as front, kernel and rest.
#![tactic(auto)]

pub mod body;
pub mod filling;
pub mod listing;
pub mod naming;
pub mod parts;
pub mod place;
pub mod placed;
pub mod preparing;
pub mod reading;
pub mod refusal;
pub mod rows;
pub mod slot;
pub mod telling;
pub mod writing;
