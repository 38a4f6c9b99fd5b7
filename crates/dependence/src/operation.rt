// Operations whose operands name their definers.
// A literal, or the value that an operation made so many iterations earlier.
#[derive(Clone, Copy)]
pub enum Operand {
    Literal(i32),
    Variable { definer: usize, distance: usize },
}

pub type Operation = operations::Operation<Operand>;
