// What issues, in names of registers.
// A number that stands in the code, or a register by its name.
#[derive(Clone, Copy)]
pub enum Source {
    Literal(i32),
    Register(usize),
}

pub type Operation = operations::Operation<Source>;

// An operation as it issues, for the iteration pass - stage, and the name of its result register; a store has none.
#[derive(Clone, Copy)]
pub struct Issue {
    pub operation: Operation,
    pub stage: usize,
    pub result: Option<usize>,
}
