// Which cells a loop touches.
#![tactic(auto)]

pub mod reaching;
