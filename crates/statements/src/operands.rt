// Operands and cells of a line, with question 3: is each number in range?
ghost use Rattle.std.specs.Prelude.{◌≡◌, [], ◌∷◌, Ok};
ghost use Rattle.model.specs.LoopText.{use_of, operand_check, at_most, a_stride, an_offset};
ghost use Rattle.model.specs.Shapes.{value as amount_of};
ghost use Rattle.reader.specs.Seen.{operand_seen, number_seen};
ghost use Rattle.texts.specs.Seen.{answered};
ghost use Rattle.statements.specs.Statements.{use_seen, in_range_or, cell_seen};
ghost use Rattle.statements.specs.Forms.{WrittenAs};

use crate::forms::Place;
use crate::statement::{Use, Written};
use operations::Cell;
use reader::token::{Number, Operand};
use texts::fault::TextFault;
use texts::name::Name;

// What an operand says, unless its number is out of range.
fn written_of(operand: Operand<'_>) -> Option<Written>
    ensures { WrittenAs (operand_seen operand.entry) result }
{
    match operand {
        Operand::Word(word) => Some(Written::Named(Name::from(word), 0)),
        Operand::Number(number) => {
            let size = number.value();
            if size > 32767 {
                return None;
            }
            Some(Written::Numeral(size as i32))
        }
        Operand::Negative(number) => {
            let size = number.size();
            if size > 32768 {
                return None;
            }
            Some(Written::Numeral(-(size as i32)))
        }
        Operand::Earlier(earlier) => {
            let distance = earlier.distance();
            if !(1..=7).contains(&distance) {
                return None;
            }
            Some(Written::Named(Name::from(earlier.name()), distance))
        }
    }
}

// An operand, unless its number is out of range.
pub(crate) fn use_of(operand: Operand<'_>) -> Result<Use, TextFault>
    ensures { answered use_seen result ≡ in_range_or (operand_check (operand_seen operand.entry) ∷ []) (Ok (use_of (operand_seen operand.entry))) }
{
    let part = operand.part();
    let operand = written_of(operand).ok_or(TextFault::out_of_range(part))?;
    Ok(Use {
        operand,
        line: part.line,
        column: part.column,
    })
}

// A number, unless it is above a bound.
fn number_to(number: Number<'_>, most: usize) -> Result<usize, TextFault>
    ensures { answered (λ n. n) result ≡ in_range_or (at_most most (number_seen number.entry) ∷ []) (Ok (amount_of number.entry.part.text.now)) }
{
    let n = number.value();
    if n > most {
        return Err(TextFault::out_of_range(number.part));
    }
    Ok(n)
}

// A stride and an offset, unless one of them is out of range.
pub(crate) fn cell_of(place: Place<'_>) -> Result<Cell, TextFault>
    ensures { answered cell_seen result ≡ in_range_or (a_stride (number_seen place.entry.stride) ∷ an_offset (number_seen place.entry.offset) ∷ []) (Ok (amount_of place.entry.stride.part.text.now, amount_of place.entry.offset.part.text.now)) }
{
    let stride = number_to(place.stride, 16)?;
    let offset = number_to(place.offset, 65535)?;
    Ok(Cell { stride, offset })
}
