// A register scheme of a third party, and code that knows nothing of a scheme but the trait.
#![tactic(auto)]

pub mod asking;
pub mod lane_scheme;
pub mod lanes;
