// The packer: five calls, and lists of them.
#![tactic(auto)]

mod calls;
mod hardware;
mod packer;
mod play;
mod request;
mod telling;

pub use packer::Packer;
pub use request::{Buffers, Call, Entry, Outcome};
