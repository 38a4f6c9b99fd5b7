// What the answers look like.
use dependence::fault::GraphFault;
use model::{Edge, Layer};
use std::io;
use std::io::Write;
use texts::fault::TextFault;

// One line: the number, the layer, and the line and the column if the fault tells them.
fn print_refusal(
    out: &mut impl Write,
    call: &str,
    number: usize,
    layer: Layer,
    line: Option<usize>,
    column: Option<usize>,
) -> io::Result<()> {
    write!(out, "{call} refused {number} {layer}")?;
    if let Some(line) = line {
        write!(out, " line {line}")?;
    }
    if let Some(column) = column {
        write!(out, " column {column}")?;
    }
    writeln!(out, "")
}

// A call that stands on one that was not made.
pub(crate) fn print_too_early(out: &mut impl Write, call: &str) -> io::Result<()> {
    print_refusal(out, call, 10, Layer::Code, None, None)
}

pub(crate) fn print_text_fault(
    out: &mut impl Write,
    call: &str,
    fault: TextFault,
) -> io::Result<()> {
    print_refusal(
        out,
        call,
        fault.number(),
        Layer::Text,
        Some(fault.line()),
        fault.column(),
    )
}

pub(crate) fn print_graph_fault(
    out: &mut impl Write,
    call: &str,
    fault: GraphFault,
) -> io::Result<()> {
    print_refusal(
        out,
        call,
        fault.number(),
        fault.layer(),
        fault.line(),
        fault.column(),
    )
}

// The edges by their numbers, from 1.
pub(crate) fn print_edges(out: &mut impl Write, edges: &[Edge]) -> io::Result<()> {
    for (i, edge) in edges.iter().enumerate() {
        let number = i.saturating_add(1);
        let Edge {
            from,
            to,
            delay,
            distance,
        } = *edge;
        writeln!(out, "edge {number} {from} {to} {delay} {distance}")?;
    }
    Ok(())
}
