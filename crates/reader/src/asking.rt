// What is asked of a token.
ghost use Rattle.std.specs.Prelude.{◌≡◌, ◌<◌, drop};
ghost use Rattle.std.specs.Str.{bytes_eq};
ghost use Rattle.model.specs.Shapes.{value as amount_of, name_of, after_at};
ghost use Rattle.reader.specs.Seen.{seen, operand_part, part_in, operand_in, word_in, number_in};

use crate::shapes::{after_at, name_of, tail};
use crate::token::{Earlier, Negative, Number, Operand, Part, Token, Word};
use crate::words::value_of;

impl<'a> Token<'a> {
    pub fn part(&self) -> Part<'a>
        ensures { result ≡ part_in self.now }
    {
        match self {
            Token::Operand(operand) => operand.part(),
            Token::Other(part) => *part,
        }
    }

    // Whether the token is this word.
    pub fn says(&self, word: &[u8]) -> bool
        ensures { result ≡ bytes_eq (seen self.now).bytes word.now }
    {
        self.part().text == word
    }

    pub fn operand(&self) -> Option<Operand<'a>>
        ensures { result ≡ operand_in self.now }
    {
        match self {
            Token::Operand(operand) => Some(*operand),
            Token::Other(_) => None,
        }
    }

    pub fn word(&self) -> Option<Word<'a>>
        ensures { result ≡ word_in self.now }
    {
        match self.operand()? {
            Operand::Word(word) => Some(word),
            _ => None,
        }
    }

    pub fn number(&self) -> Option<Number<'a>>
        ensures { result ≡ number_in self.now }
    {
        match self.operand()? {
            Operand::Number(number) => Some(number),
            _ => None,
        }
    }
}

impl<'a> Operand<'a> {
    pub fn part(&self) -> Part<'a>
        ensures { result ≡ operand_part self.now }
    {
        match self {
            Operand::Word(word) => word.part,
            Operand::Number(number) => number.part,
            Operand::Negative(number) => number.part,
            Operand::Earlier(operand) => operand.part,
        }
    }
}

impl<'a> Number<'a> {
    pub fn value(&self) -> usize
        ensures value { result ≡ amount_of self.now.part.text.now }
        ensures small { result < 100000 }
    {
        value_of(self.part.text)
    }
}

impl<'a> Negative<'a> {
    // The number behind the minus.
    pub fn size(&self) -> usize
        ensures value { result ≡ amount_of (drop 1 self.now.part.text.now) }
        ensures small { result < 100000 }
    {
        value_of(tail(self.part.text, 1))
    }
}

impl<'a> Earlier<'a> {
    // The name before the @.
    pub fn name(&self) -> Word<'a>
        ensures text { result.part.text.now ≡ name_of self.now.part.text.now }
        ensures line { result.part.line ≡ self.now.part.line }
        ensures column { result.part.column ≡ self.now.part.column }
    {
        let part = Part {
            text: name_of(self.part.text),
            ..self.part
        };
        Word { part }
    }

    // The number behind the @.
    pub fn distance(&self) -> usize
        ensures value { result ≡ amount_of (after_at self.now.part.text.now) }
        ensures small { result < 100000 }
    {
        value_of(after_at(self.part.text))
    }
}
