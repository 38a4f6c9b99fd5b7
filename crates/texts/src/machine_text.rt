// The reading of the machine text.
ghost use Rattle.std.specs.Prelude.{◌≡◌, not, ◌&&◌, map, position};
ghost use Rattle.model.specs.Shapes.{is_reserved, every, has_some};
ghost use Rattle.model.specs.MachineText.{Machine, machine_rules, names_class, code_number};
ghost use Rattle.reader.specs.Seen.{seen, shown, or_none, word_seen, number_seen};
ghost use Rattle.texts.specs.declared.fault.TextFault.TheVariants.{OutOfRange, WrongName};
ghost use Rattle.texts.specs.Seen.{told, entries_seen, classes_seen, unit_step, op_step};
ghost use Rattle.texts.specs.Forms.{UnitFormed, OpFormed, called};

use crate::entries::{Class, Entries};
use crate::fault::TextFault;
use crate::forms::{OpLine, UnitLine};
use crate::name::Name;
use crate::record::Record;
use few::Few;
use model::{Code, Timing};
use reader::row::{part_of, row_of};
use reader::shapes::all_between;
use reader::token::Token;
use reader::words::{find_code, is_reserved};

fn unit_form<'a>(row: &[Token<'a>]) -> Option<UnitLine<'a>>
    ensures { UnitFormed (map seen row.now) result }
{
    let [head, name, count] = row else {
        return None;
    };
    if !head.says(b"unit") {
        return None;
    }
    Some(UnitLine {
        name: name.word()?,
        count: count.number()?,
    })
}

fn op_form<'a>(row: &[Token<'a>]) -> Option<OpLine<'a>>
    ensures { OpFormed (map seen row.now) result }
{
    let [head, code_token, class, latency, busy] = row else {
        return None;
    };
    if !head.says(b"op") {
        return None;
    }
    Some(OpLine {
        code: find_code(code_token.part().text)?,
        code_token: *code_token,
        class: class.word()?,
        latency: latency.number()?,
        busy: busy.number()?,
    })
}

// The number of a code.
pub fn code_number(c: Code) -> usize
    ensures { result ≡ code_number c }
{
    c as usize
}

// Where a class stands by its name.
fn place_of(classes: &[Class], word: &[u8]) -> Option<usize>
    ensures { result ≡ position (called word.now) classes.now }
{
    classes.iter().position(|c| word == c.name.text())
}

// Whether a name may be given to a class.
fn is_free(classes: &[Class], word: &[u8]) -> bool
    ensures { result ≡ (not (is_reserved word.now) && not (names_class (classes_seen classes.now) word.now)) }
{
    !is_reserved(word) && place_of(classes, word).is_none()
}

// A number out of range.
pub fn out_of_range(t: Option<Token<'_>>) -> TextFault
    ensures { result ≡ OutOfRange (or_none (shown t.entry)).line (or_none (shown t.entry)).column }
{
    TextFault::out_of_range(part_of(t))
}

// A name or a code that may not stand here.
pub fn wrong_name(t: Option<Token<'_>>) -> TextFault
    ensures { result ≡ WrongName (or_none (shown t.entry)).line (or_none (shown t.entry)).column }
{
    TextFault::wrong_name(part_of(t))
}

fn unit_line(m: &mut Entries, number: usize, said: UnitLine<'_>) -> Result<(), TextFault>
    ensures { told result (entries_seen m.new) ≡ unit_step (entries_seen m.old) number (word_seen said.entry.name) (number_seen said.entry.count) }
{
    let units = said.count.value();
    if !(1..=8).contains(&units) {
        return Err(TextFault::out_of_range(said.count.part));
    }
    if !is_free(m.classes.as_slice(), said.name.part.text) {
        return Err(TextFault::wrong_name(said.name.part));
    }
    let class = Class {
        name: Name::from(said.name),
        units,
    };
    let pushed = m.classes.push(class);
    pushed.map_err(|_| TextFault::ManyClasses { line: number })
}

fn op_line(m: &mut Entries, said: OpLine<'_>) -> Result<(), TextFault>
    ensures { told result (entries_seen m.new) ≡ op_step (entries_seen m.old) (seen said.entry.code_token) (word_seen said.entry.class) (number_seen said.entry.latency) (number_seen said.entry.busy) }
{
    let latency = said.latency.value();
    if !(1..=8).contains(&latency) {
        return Err(TextFault::out_of_range(said.latency.part));
    }
    let busy = said.busy.value();
    if !(1..=latency).contains(&busy) {
        return Err(TextFault::out_of_range(said.busy.part));
    }
    let code = code_number(said.code);
    if m.timings[code].is_some() {
        return Err(TextFault::wrong_name(said.code_token.part()));
    }
    let place = place_of(m.classes.as_slice(), said.class.part.text);
    let class = place.ok_or(TextFault::wrong_name(said.class.part))?;
    m.timings[code] = Some(Timing {
        class,
        latency,
        busy,
    });
    Ok(())
}

// Whether each code is put on a class.
fn all_timed(timings: &[Option<Timing>]) -> bool
    ensures { result ≡ every has_some timings.now }
{
    timings.iter().all(|t| t.is_some())
}

impl Record for Entries {
    ghost Seen = { Machine };

    ghost seen = { entries_seen };

    ghost rules = { machine_rules };

    fn new() -> Entries {
        let unnamed = Class {
            name: Name::new(b""),
            units: 0,
        };
        Entries {
            classes: Few::new(unnamed),
            timings: [None; 6],
        }
    }

    fn add_line(&mut self, line: &[u8], number: usize) -> Result<(), TextFault> {
        if !all_between(line, 32, 126) {
            return Err(TextFault::Unprintable { line: number });
        }
        let row = &row_of(line, number);
        let row = row.as_slice();
        if row.is_empty() {
            return Ok(());
        }
        if let Some(said) = unit_form(row) {
            return unit_line(self, number, said);
        }
        if let Some(said) = op_form(row) {
            return op_line(self, said);
        }
        Err(TextFault::NoForm { line: number })
    }

    fn finish(&self) -> Result<(), TextFault> {
        if !all_timed(&self.timings) {
            return Err(TextFault::CodeMissing);
        }
        Ok(())
    }
}
