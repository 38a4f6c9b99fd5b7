// Register schemes: tables of lives, what a scheme is, and the rotating and the expanded scheme.
#![tactic(auto)]

pub mod expanded;
pub mod expansion;
pub mod lives;
pub mod rotating;
pub mod rotation;
pub mod scheme;
pub mod table;
