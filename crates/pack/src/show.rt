// What was read, in a form that people like to read.
use dependence::loops::Loop;
use dependence::operation::{Operand, Operation};
use model::{Code, Timing};
use operations::Cell;
use statements::statement::Statement;
use statements::statements::Statements;
use std::alloc::{AllocError, Global};
use std::io;
use std::io::Write;
use std::str::from_utf8;
use texts::entries::Class;
use texts::machine::Machine;

// The codes in the order of their numbers.
const CODES: [Code; 6] = [
    Code::Load,
    Code::Store,
    Code::Add,
    Code::Sub,
    Code::Mul,
    Code::Move,
];

pub(crate) fn as_text(bytes: &[u8]) -> &str {
    match from_utf8(bytes) {
        Ok(text) => text,
        Err(_) => "?",
    }
}

fn show_class(out: &mut impl Write, class: &Class) -> io::Result<()> {
    let name = as_text(class.name.text());
    let units = class.units;
    let plural = if units == 1 { "" } else { "s" };
    writeln!(out, "  unit   {name:<8} {units} unit{plural}")
}

fn show_timing(
    out: &mut impl Write,
    code: Code,
    timing: Timing,
    classes: &[Class],
) -> io::Result<()> {
    let latency = timing.latency;
    let busy = timing.busy;
    let name = match classes.get(timing.class) {
        Some(class) => as_text(class.name.text()),
        None => "?",
    };
    writeln!(out, "  {code:<6} {name:<8} latency {latency}  busy {busy}")
}

// The classes with their units, and the codes with class, latency and busy time.
pub(crate) fn show_machine(out: &mut impl Write, machine: &Machine) -> io::Result<()> {
    let entries = machine.entries;
    let classes = entries.classes.as_slice();
    for class in classes {
        show_class(out, class)?;
    }
    for (code, timing) in CODES.iter().zip(entries.timings.iter()) {
        if let Some(timing) = timing {
            show_timing(out, *code, *timing, classes)?;
        }
    }
    Ok(())
}

// The name that operation i defines.
pub(crate) fn name_at(statements: &[Statement], i: usize) -> &str {
    match statements.get(i) {
        Some(
            Statement {
                defines: Some(name),
                ..
            },
        ) => as_text(name.text()),
        _ => "?",
    }
}

fn cell_text(heap: Global, cell: Cell) -> Result<String, AllocError> {
    let stride = cell.stride;
    let offset = cell.offset;
    match (stride, offset) {
        (0, _) => format!(in heap; "cell {offset}"),
        (1, 0) => format!(in heap; "cell i"),
        (1, _) => format!(in heap; "cell i + {offset}"),
        (_, 0) => format!(in heap; "cell {stride}i"),
        _ => format!(in heap; "cell {stride}i + {offset}"),
    }
}

// A literal, or a variable with the operation that defines it.
fn operand_text(
    heap: Global,
    operand: Operand,
    statements: &[Statement],
) -> Result<String, AllocError> {
    match operand {
        Operand::Literal(value) => format!(in heap; "{value}"),
        Operand::Variable { definer, distance } => {
            let name = name_at(statements, definer);
            if distance == 0 {
                return format!(in heap; "{name} (of {definer})");
            }
            format!(in heap; "{name}@{distance} (of {definer})")
        }
    }
}

// An operation by its number: the code, what it writes and what it reads.
fn show_operation(
    out: &mut impl Write,
    heap: Global,
    number: usize,
    operation: &Operation,
    statements: &[Statement],
) -> io::Result<()> {
    let stored = match operation {
        Operation::Store(_, cell) => Some(cell_text(heap, *cell)?),
        _ => None,
    };
    let writes = match &stored {
        Some(cell) => cell.as_str(),
        None => name_at(statements, number),
    };
    let reads = match operation {
        Operation::Load(cell) => cell_text(heap, *cell)?,
        Operation::Store(value, _) | Operation::Move(value) => {
            operand_text(heap, *value, statements)?
        }
        Operation::Binary(_, left, right) => {
            let mut both = operand_text(heap, *left, statements)?;
            both.push_str(", ")?;
            both.push_str(operand_text(heap, *right, statements)?.as_str())?;
            both
        }
    };
    let code = operation.code();
    writeln!(out, "  {number:<3} {code:<6} {writes:<18} {reads}")
}

// The operations in text order, under a heading.
pub(crate) fn show_loop(
    out: &mut impl Write,
    heap: Global,
    body: &Loop,
    named: &Statements,
) -> io::Result<()> {
    let statements = named.items.as_slice();
    writeln!(
        out,
        "  {:<3} {:<6} {:<18} {}",
        "", "code", "writes", "reads"
    )?;
    for (number, operation) in body.operations().iter().enumerate() {
        show_operation(out, heap, number, operation, statements)?;
    }
    Ok(())
}
