// The tokens of a line, as far as a form can reach.
ghost use Rattle.std.specs.Prelude.{◌≡◌, map, take};
ghost use Rattle.few.specs.Held.{held};
ghost use Rattle.model.specs.Lines.{tokens, is_word, is_digits, is_operand};
ghost use Rattle.reader.specs.Seen.{seen, shown, or_none};

use crate::reader::Reader;
use crate::token::{Operand, Part, Token};
use few::Few;

// No form has more than five tokens, so six tell whether a line has too many.
pub type Row<'a> = Few<Token<'a>, 6>;

// The first six tokens of a line. Written out where it is called, since a row that is answered is copied.
#[inline(always)]
pub fn row_of<'a>(line: &'a [u8], number: usize) -> Row<'a>
    ensures { map seen (held result) ≡ take 6 (tokens (record { number = number; bytes = line.now })) }
{
    let mut row = Few::new(Token::Other(part_of(None)));
    for token in Reader::new(line, number).take(6) {
        // There is room for six.
        let _ = row.push(token);
    }
    row
}

// The part of the text that a token is; an empty one for none.
pub fn part_of<'a>(t: Option<Token<'a>>) -> Part<'a>
    ensures text { result.text.now ≡ (or_none (shown t.entry)).bytes }
    ensures line { result.line ≡ (or_none (shown t.entry)).line }
    ensures column { result.column ≡ (or_none (shown t.entry)).column }
{
    match t {
        Some(token) => token.part(),
        None => Part {
            text: b"",
            line: 0,
            column: 0,
        },
    }
}

pub fn text_of<'a>(t: Option<Token<'a>>) -> &'a [u8]
    ensures { result.now ≡ (or_none (shown t.entry)).bytes }
{
    part_of(t).text
}

// Whether there is a token with the shape of a name.
pub fn is_word(t: Option<Token<'_>>) -> bool
    ensures { result ≡ is_word (or_none (shown t.entry)).kind }
{
    matches!(t, Some(Token::Operand(Operand::Word(_))))
}

pub fn is_digits(t: Option<Token<'_>>) -> bool
    ensures { result ≡ is_digits (or_none (shown t.entry)).kind }
{
    matches!(t, Some(Token::Operand(Operand::Number(_))))
}

// Words and numbers are operands too.
pub fn is_operand(t: Option<Token<'_>>) -> bool
    ensures { result ≡ is_operand (or_none (shown t.entry)).kind }
{
    matches!(t, Some(Token::Operand(_)))
}
