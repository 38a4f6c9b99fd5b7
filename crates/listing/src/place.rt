// A place in a listing.
use model::Part;

// A pass of a part, and the pass of the run for which it is written.
#[derive(Clone, Copy)]
pub struct Place {
    pub part: Part,
    pub written: usize,
    pub pass: usize,
}
