// The minimum and its witness.
use crate::Path;

// What excludes each smaller interval: a class by its uses, or a circuit by its delays.
#[derive(Clone, Copy)]
pub enum Witness {
    Class(usize),
    Circuit(Path),
}

#[derive(Clone, Copy)]
pub struct Minimum {
    pub value: usize,
    pub witness: Witness,
}

// Why there is no minimum.
#[derive(Clone, Copy, PartialEq, Eq, Debug)]
pub enum NoMinimum {
    // what was handed in is outside the limits
    Outside,
    // a circuit has delays and no distance
    Standing,
}
