// The edges and the minimum, in sentences that can be checked by hand.
use crate::show::{as_text, name_at};
use bounds::{Minimum, Witness, minimum};
use dependence::hardware::{timings_of, units_of};
use dependence::loops::Loop;
use dependence::operation::{Operand, Operation};
use model::{Edge, Timing};
use statements::statements::Statements;
use std::fmt::Display;
use std::io::Write;
use std::{fmt, io};
use texts::machine::Machine;

// The word for the code of operation i.
#[derive(Clone, Copy)]
struct CodeAt<'a>(&'a [Operation], usize);

impl fmt::Display for CodeAt<'_> {
    fn fmt<W: fmt::Write>(&self, f: &mut fmt::Formatter<W>) -> fmt::Result {
        match self.0.get(self.1) {
            Some(operation) => operation.code().fmt(f),
            None => f.pad("?"),
        }
    }
}

fn plural(n: usize) -> &'static str {
    if n == 1 { "" } else { "s" }
}

fn is_variable(operand: &Operand) -> bool {
    matches!(operand, Operand::Variable { .. })
}

// How many operands of an operation name a variable: so many edges lead to it.
fn variables_of(operation: &Operation) -> usize {
    match operation {
        Operation::Load(_) => 0,
        Operation::Store(value, _) | Operation::Move(value) => usize::from(is_variable(value)),
        Operation::Binary(_, left, right) => {
            usize::from(is_variable(left)) + usize::from(is_variable(right))
        }
    }
}

fn operand_edges(operations: &[Operation]) -> usize {
    operations
        .iter()
        .map(variables_of)
        .fold(0, usize::saturating_add)
}

fn show_edge(
    out: &mut impl Write,
    number: usize,
    what: &str,
    edge: Edge,
    operations: &[Operation],
) -> io::Result<()> {
    let from = CodeAt(operations, edge.from);
    let to = CodeAt(operations, edge.to);
    let delay = edge.delay;
    let cycles = plural(delay);
    write!(
        out,
        "  {number}: {what} of '{from}' to '{to}', at least {delay} cycle{cycles} later"
    )?;
    let distance = edge.distance;
    if distance > 0 {
        let iterations = plural(distance);
        write!(out, ", {distance} iteration{iterations} on")?;
    }
    writeln!(out, "")
}

// Each edge by its number: whose value or whose cell, from which operation to which.
pub(crate) fn show_edges(
    out: &mut impl Write,
    body: &Loop,
    edges: &[Edge],
    named: &Statements,
) -> io::Result<()> {
    let operations = body.operations();
    let statements = named.items.as_slice();
    let values = operand_edges(operations);
    writeln!(out, "edges")?;
    for (i, edge) in edges.iter().enumerate() {
        let what = if i < values {
            name_at(statements, edge.from)
        } else {
            "the cell"
        };
        show_edge(out, i.saturating_add(1), what, *edge, operations)?;
    }
    Ok(())
}

fn busy_of(timings: &[Timing], class: usize) -> usize {
    timings
        .iter()
        .filter(|timing| timing.class == class)
        .map(|timing| timing.busy)
        .fold(0, usize::saturating_add)
}

fn show_class(
    out: &mut impl Write,
    machine: &Machine,
    timings: &[Timing],
    class: usize,
) -> io::Result<()> {
    let classes = machine.entries.classes.as_slice();
    if class >= classes.len() {
        return writeln!(out, "");
    }
    let name = as_text(classes[class].name.text());
    let units = classes[class].units;
    let busy = busy_of(timings, class);
    let cycles = plural(busy);
    let count = plural(units);
    writeln!(
        out,
        ": an iteration keeps class '{name}' busy for {busy} cycle{cycles}, and it has {units} unit{count}"
    )
}

fn show_circuit(
    out: &mut impl Write,
    numbers: &[usize],
    edges: &[Edge],
    operations: &[Operation],
) -> io::Result<()> {
    let mut delays: usize = 0;
    let mut distances: usize = 0;
    write!(out, ": around")?;
    for number in numbers {
        if let Some(edge) = edges.get(*number) {
            delays = delays.saturating_add(edge.delay);
            distances = distances.saturating_add(edge.distance);
            let from = CodeAt(operations, edge.from);
            let shown = number.saturating_add(1);
            write!(out, " '{from}' (edge {shown})")?;
        }
    }
    writeln!(out, " delays sum to {delays} and distances to {distances}")
}

fn show_witness(
    out: &mut impl Write,
    machine: &Machine,
    timings: &[Timing],
    edges: &[Edge],
    operations: &[Operation],
    found: &Minimum,
) -> io::Result<()> {
    let value = found.value;
    write!(out, "minimum interval {value}")?;
    match found.witness {
        Witness::Class(class) => show_class(out, machine, timings, class),
        Witness::Circuit(path) => show_circuit(out, path.numbers(), edges, operations),
    }
}

// The minimum, with what excludes each smaller interval.
pub(crate) fn show_minimum(
    out: &mut impl Write,
    machine: &Machine,
    body: &Loop,
    edges: &[Edge],
) -> io::Result<()> {
    let timings = timings_of(machine, body);
    let timings = timings.as_slice();
    let units = units_of(machine);
    let units = &units[0..machine.entries.classes.as_slice().len()];
    let operations = body.operations();
    match minimum(edges, timings, units) {
        Ok(found) => show_witness(out, machine, timings, edges, operations, &found),
        Err(_) => writeln!(out, "no minimum"),
    }
}
