// What a machine text has said so far: its classes, and the timing of each code.
use crate::name::Name;
use few::Few;
use model::Timing;

#[derive(Clone, Copy)]
pub struct Class {
    pub name: Name,
    pub units: usize,
}

#[derive(Clone, Copy)]
pub struct Entries {
    pub classes: Few<Class, 8>,
    pub timings: [Option<Timing>; 6],
}
