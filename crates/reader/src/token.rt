// The tokens of a line. Each shape is a type of its own, so what a token is, its type says.
ghost use Rattle.std.specs.Prelude.{◌≡◌, true};
ghost use Rattle.model.specs.Shapes.{is_name, is_number, is_earlier, is_negative};

// A part of the text, with its line and the column of its first byte.
#[derive(Clone, Copy)]
pub struct Part<'a> {
    pub text: &'a [u8],
    pub line: usize,
    pub column: usize,
}

// 1 to 8 letters.
#[derive(Clone, Copy)]
pub struct Word<'a> {
    pub part: Part<'a>,
    ghost shape: { is_name part.text.now ≡ true },
}

// 1 to 5 digits.
#[derive(Clone, Copy)]
pub struct Number<'a> {
    pub part: Part<'a>,
    ghost shape: { is_number part.text.now ≡ true },
}

// A minus and a number.
#[derive(Clone, Copy)]
pub struct Negative<'a> {
    pub part: Part<'a>,
    ghost shape: { is_negative part.text.now ≡ true },
}

// A name, an @ and a number: the value of so many iterations earlier.
#[derive(Clone, Copy)]
pub struct Earlier<'a> {
    pub part: Part<'a>,
    ghost shape: { is_earlier part.text.now ≡ true },
}

// Words and numbers are operands too.
#[derive(Clone, Copy)]
pub enum Operand<'a> {
    Word(Word<'a>),
    Number(Number<'a>),
    Negative(Negative<'a>),
    Earlier(Earlier<'a>),
}

#[derive(Clone, Copy)]
pub enum Token<'a> {
    Operand(Operand<'a>),
    Other(Part<'a>),
}
