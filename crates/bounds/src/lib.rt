// The minimum of a loop with its witness, and heights, by one relaxation over the edges.
#![tactic(auto)]

mod answer;
mod bound;
mod circuit;
mod graph;
mod height;
mod limits;
mod marking;
mod path;
mod relax;
mod resource;
mod row;

pub use answer::{Minimum, NoMinimum, Witness};
pub use bound::minimum;
pub use height::{NoHeights, heights};
pub use limits::machine_fits;
pub use path::Path;
