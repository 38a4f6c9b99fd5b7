// What a line of a call script can say.
use crate::words::Words;

#[derive(Clone, Copy, PartialEq, Eq, Debug)]
pub enum SchemeName {
    Rotating,
    Expanded,
}

#[derive(Clone, Copy, PartialEq, Eq, Debug)]
pub enum DomainName {
    Words,
    Floats,
}

// The lengths of the three buffers that a run is lent, and the first cells of its memory as they are written.
#[derive(Clone, Copy)]
pub struct Run<'a> {
    pub memory: usize,
    pub values: usize,
    pub waiting: usize,
    pub cells: Words<'a>,
}

// The texts of `Machine` and `Loop` are as they stand between the quotes, with their escapes.
#[derive(Clone, Copy)]
pub enum Call<'a> {
    Machine(&'a [u8]),
    Loop(&'a [u8]),
    Plan,
    Expand(usize),
    Run(Run<'a>),
}

#[derive(Clone, Copy)]
pub enum Line<'a> {
    Blank,
    Scheme(SchemeName),
    Domain(DomainName),
    Call(Call<'a>),
}
