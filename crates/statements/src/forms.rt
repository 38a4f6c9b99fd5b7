// The lines of a loop text by their forms, each with its tokens.
use model::Operator;
use reader::token::{Number, Operand, Word};

// STRIDE OFFSET
#[derive(Clone, Copy)]
pub(crate) struct Place<'a> {
    pub stride: Number<'a>,
    pub offset: Number<'a>,
}

// NAME = load PLACE, store OPERAND PLACE, NAME = add OPERAND OPERAND, NAME = move OPERAND
#[derive(Clone, Copy)]
pub(crate) enum Form<'a> {
    Load(Word<'a>, Place<'a>),
    Store(Operand<'a>, Place<'a>),
    Binary(Word<'a>, Operator, Operand<'a>, Operand<'a>),
    Move(Word<'a>, Operand<'a>),
}
