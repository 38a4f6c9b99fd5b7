// A slot as it issues: the registers are resolved, and its timing is known.
use model::{Question, Timing};
use operations::Operation;

// A number that stands in the code, or a register.
#[derive(Clone, Copy)]
pub enum Resolved {
    Literal(i32),
    Register(usize),
}

#[derive(Clone, Copy)]
pub struct Slot {
    pub operation: Operation<Resolved>,
    pub stage: usize,
    pub target: usize,
    pub timing: Timing,
}

// A row as it issues: its pass, its cycle, and its places in the code.
#[derive(Clone, Copy)]
pub struct Row {
    pub pass: usize,
    pub cycle: usize,
    pub first: usize,
    pub end: usize,
}

// The iterations of the loop, and the cells of the memory.
#[derive(Clone, Copy)]
pub struct Bounds {
    pub trips: usize,
    pub cells: usize,
}

// A no to a question about a slot, by its number in the row.
#[derive(Clone, Copy)]
pub struct Denial {
    pub question: Question,
    pub slot: usize,
}

// The timing of each code, by its number, and the units of each class.
#[derive(Clone, Copy)]
pub struct Hardware {
    pub timings: [Timing; 6],
    pub units: [usize; 8],
}
