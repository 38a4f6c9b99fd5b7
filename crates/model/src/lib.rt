// The words that every layer shares, and the functions that carry the theorems about the definitions in specs/.
#![tactic(auto)]

mod display;

// What an operation does.
#[derive(Clone, Copy, PartialEq, Eq, Debug)]
pub enum Code {
    Load,
    Store,
    Add,
    Sub,
    Mul,
    Move,
}

// The codes that compute a value from two.
#[derive(Clone, Copy, PartialEq, Eq, Debug)]
pub enum Operator {
    Plus,
    Minus,
    Times,
}

// An edge asks that `to` starts, `distance` iterations later, at least `delay` cycles after `from`.
#[derive(Clone, Copy, PartialEq, Eq, Debug)]
pub struct Edge {
    pub from: usize,
    pub to: usize,
    pub delay: usize,
    pub distance: usize,
}

// The forms of a line of the machine text.
#[derive(Clone, Copy, PartialEq, Eq, Debug)]
pub enum MachineForm {
    Unit,
    Op,
}

// What a code or an operation takes of the machine: a unit of its class for `busy` cycles, and `latency` cycles until its result lands.
#[derive(Clone, Copy, PartialEq, Eq, Debug)]
pub struct Timing {
    pub class: usize,
    pub latency: usize,
    pub busy: usize,
}

// The life of a variable: its first and its last cycle.
#[derive(Clone, Copy, PartialEq, Eq, Debug)]
pub struct Life {
    pub start: usize,
    pub end: usize,
}

// Of a register of the driving machine: no write has landed, a write is awaited, a write has landed and none is awaited.
#[derive(Clone, Copy, PartialEq, Eq, Debug)]
pub enum Status {
    Never,
    Waits,
    Landed,
}

// What the driving machine asks about each slot, in this order.
#[derive(Clone, Copy, PartialEq, Eq, Debug)]
pub enum Question {
    UnitFree,
    OperandsLanded,
    IterationRuns,
    CellInMemory,
    ResultFree,
}

// The parts of a listing.
#[derive(Clone, Copy, PartialEq, Eq, Debug)]
pub enum Part {
    Front,
    Kernel,
    Rest,
}

// The passes that are written in each part, and how often the kernel repeats.
#[derive(Clone, Copy, PartialEq, Eq, Debug)]
pub struct Parts {
    pub front: usize,
    pub kernel: usize,
    pub repeats: usize,
    pub rest: usize,
}

// The layer in which a call is refused.
#[derive(Clone, Copy, PartialEq, Eq, Debug)]
pub enum Layer {
    Text,
    Graph,
    Plan,
    Code,
}
