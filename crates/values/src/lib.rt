// Value domains: what a domain is, words, floats, and work over a lent memory of either.
#![tactic(auto)]

pub mod domain;
pub mod floats;
pub mod memory;
pub mod words;
