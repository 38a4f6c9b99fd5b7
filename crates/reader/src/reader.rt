// The tokens of a line, one after another.
ghost use Rattle.std.specs.Prelude.{◌≡◌, ◌+◌, ◌^◌, ◌<◌, ◌≤◌, [], length, None};
ghost use Rattle.std.specs.List.{prefix_len};
ghost use Rattle.std.specs.Iterator.{YieldsFirstBy, item_count};
ghost use Rattle.model.specs.Lines.{space, solid, lexeme, tokens};
ghost use Rattle.reader.specs.Seen.{seen, left, taken};

use crate::shapes::{is_earlier, is_name, is_negative, is_number};
use crate::token::{Earlier, Negative, Number, Operand, Part, Token, Word};

// A part as a token, by its shape.
fn token_of<'a>(text: &'a [u8], line: usize, at: usize) -> Token<'a>
    requires { at + 1 < 2 ^ 64 }
    ensures { seen result ≡ lexeme text.now line at }
{
    let part = Part {
        text,
        line,
        column: at + 1,
    };
    if is_name(text) {
        Token::Operand(Operand::Word(Word { part }))
    } else if is_number(text) {
        Token::Operand(Operand::Number(Number { part }))
    } else if is_earlier(text) {
        Token::Operand(Operand::Earlier(Earlier { part }))
    } else if is_negative(text) {
        Token::Operand(Operand::Negative(Negative { part }))
    } else {
        Token::Other(part)
    }
}

// How many spaces a text begins with.
fn space_len(s: &[u8]) -> usize
    ensures value { result ≡ prefix_len space s.now }
    ensures within { result ≤ length s.now }
{
    s.iter().take_while(|b| **b == b' ').count()
}

// How many bytes that are no spaces a text begins with.
pub fn solid_len(s: &[u8]) -> usize
    ensures value { result ≡ prefix_len solid s.now }
    ensures within { result ≤ length s.now }
{
    s.iter().take_while(|b| **b != b' ').count()
}

#[derive(Clone, Copy)]
pub struct Reader<'a> {
    text: &'a [u8],
    line: usize,
    at: usize,
    ghost within: { at ≤ length text.now },
}

impl<'a> Reader<'a> {
    // Reads the line of this number from its start.
    pub fn new(text: &'a [u8], line: usize) -> Reader<'a>
        ensures { left result.line result.text.now result.at ≡ tokens (record { number = line; bytes = text.now }) }
    {
        Reader { text, line, at: 0 }
    }

    // The next token; none at the end of the line.
    pub fn next_token(&mut self) -> Option<Token<'a>>
        ensures token { left self.old.line self.old.text.now self.old.at ≡ taken result (left self.old.line self.old.text.now self.new.at) }
        ensures finished { result ≡ None → left self.old.line self.old.text.now self.new.at ≡ [] }
        ensures text { self.new.text.now ≡ self.old.text.now }
        ensures line { self.new.line ≡ self.old.line }
    {
        let text = self.text;
        let start = self.at + space_len(&text[self.at..]);
        let end = start + solid_len(&text[start..]);
        self.at = end;
        if start == end {
            return None;
        }
        Some(token_of(&text[start..end], self.line, start))
    }
}

impl<'a> Iterator for Reader<'a> {
    type Item = Token<'a>;

    ghost next_gives = { YieldsFirstBy seen (λ s. left s.line s.text.now s.at) };

    ghost remaining = { item_count (λ s. left s.line s.text.now s.at) };

    fn next(&mut self) -> Option<Token<'a>> {
        self.next_token()
    }
}
