// What stands in a packer, and the two calls that read a text.
#![tactic(auto)]

mod desk;
mod fault;
mod plan;
mod reading;
mod showing;
mod standing;
mod telling;
mod working;

pub use desk::Desk;
pub use fault::PackFault;
pub use plan::{Body, Plan};
pub use standing::Standing;
