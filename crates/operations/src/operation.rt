// Operations over operands of any kind.
use model::Operator;

// In iteration i this is the cell stride * i + offset.
#[derive(Clone, Copy, PartialEq, Eq, Debug)]
pub struct Cell {
    pub stride: usize,
    pub offset: usize,
}

#[derive(Clone, Copy)]
pub enum Operation<A> {
    Load(Cell),
    Store(A, Cell),
    Binary(Operator, A, A),
    Move(A),
}

// What an operand stands for.
pub trait Operand: Copy {
    ghost Shown: { Type 0 };

    ghost shown: { Self → Shown };
}
