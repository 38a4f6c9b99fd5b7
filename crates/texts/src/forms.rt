// The lines of a machine text by their forms, each with its tokens.
ghost use Rattle.std.specs.Prelude.{◌≡◌, Some};
ghost use Rattle.model.specs.Shapes.{code_of};
ghost use Rattle.reader.specs.Seen.{seen};

use model::Code;
use reader::token::{Number, Token, Word};

// unit NAME COUNT
#[derive(Clone, Copy)]
pub(crate) struct UnitLine<'a> {
    pub name: Word<'a>,
    pub count: Number<'a>,
}

// op CODE NAME LATENCY BUSY
#[derive(Clone, Copy)]
pub(crate) struct OpLine<'a> {
    pub code: Code,
    pub code_token: Token<'a>,
    pub class: Word<'a>,
    pub latency: Number<'a>,
    pub busy: Number<'a>,
    ghost known: { code_of (seen code_token).bytes ≡ Some code },
}
