// The form of a line of the loop text.
ghost use Rattle.std.specs.Prelude.{◌≡◌, map};
ghost use Rattle.model.specs.declared.Code.TheVariants.{Load, Store, Move};
ghost use Rattle.reader.specs.Seen.{seen};
ghost use Rattle.statements.specs.Forms.{Formed, FormFound, BinaryFormed, NameDefined, binary_word};

use crate::forms::{Form, Place};
use model::Operator;
use reader::token::{Token, Word};

// The name in front of an equals sign.
fn defined_name<'a>(name: &Token<'a>, equals: &Token<'a>) -> Option<Word<'a>>
    ensures { NameDefined (seen name.now) (seen equals.now) result }
{
    if !equals.says(b"=") {
        return None;
    }
    name.word()
}

fn load_form<'a>(row: &[Token<'a>]) -> Option<Form<'a>>
    ensures { Formed Load (map seen row.now) result }
{
    let [name, equals, code, stride, offset] = row else {
        return None;
    };
    let name = defined_name(name, equals)?;
    if !code.says(b"load") {
        return None;
    }
    let place = Place {
        stride: stride.number()?,
        offset: offset.number()?,
    };
    Some(Form::Load(name, place))
}

fn store_form<'a>(row: &[Token<'a>]) -> Option<Form<'a>>
    ensures { Formed Store (map seen row.now) result }
{
    let [code, value, stride, offset] = row else {
        return None;
    };
    if !code.says(b"store") {
        return None;
    }
    let value = value.operand()?;
    let place = Place {
        stride: stride.number()?,
        offset: offset.number()?,
    };
    Some(Form::Store(value, place))
}

// The word of a sum, a difference or a product.
fn word_of(operator: Operator) -> &'static [u8]
    ensures { result.now ≡ binary_word operator }
{
    match operator {
        Operator::Plus => b"add",
        Operator::Minus => b"sub",
        Operator::Times => b"mul",
    }
}

// Written out where it is called, where the operator is known.
#[inline(always)]
fn binary_form<'a>(row: &[Token<'a>], operator: Operator) -> Option<Form<'a>>
    ensures { BinaryFormed operator (map seen row.now) result }
{
    let [name, equals, code, left, right] = row else {
        return None;
    };
    let name = defined_name(name, equals)?;
    if !code.says(word_of(operator)) {
        return None;
    }
    let left = left.operand()?;
    let right = right.operand()?;
    Some(Form::Binary(name, operator, left, right))
}

fn move_form<'a>(row: &[Token<'a>]) -> Option<Form<'a>>
    ensures { Formed Move (map seen row.now) result }
{
    let [name, equals, code, value] = row else {
        return None;
    };
    let name = defined_name(name, equals)?;
    if !code.says(b"move") {
        return None;
    }
    Some(Form::Move(name, value.operand()?))
}

// What a line that has a form is.
pub(crate) fn find_loop_form<'a>(row: &[Token<'a>]) -> Option<Form<'a>>
    ensures { FormFound (map seen row.now) result }
{
    if let Some(form) = load_form(row) {
        return Some(form);
    }
    if let Some(form) = store_form(row) {
        return Some(form);
    }
    if let Some(form) = binary_form(row, Operator::Plus) {
        return Some(form);
    }
    if let Some(form) = binary_form(row, Operator::Minus) {
        return Some(form);
    }
    if let Some(form) = binary_form(row, Operator::Times) {
        return Some(form);
    }
    move_form(row)
}
