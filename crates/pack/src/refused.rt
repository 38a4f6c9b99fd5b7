// A refused text, as compilers tell it: the place, the number, what is wrong, and the line with its token marked.
use dependence::fault::GraphFault;
use reader::lines::Lines;
use std::io;
use std::io::Write;
use texts::fault::TextFault;

#[derive(Clone, Copy)]
pub struct Source<'a> {
    pub name: &'a str,
    pub text: &'a [u8],
}

// The line of this number, from 1; an empty one if there is none.
fn nth_line(text: &[u8], number: usize) -> &[u8] {
    for (n, line) in Lines::new(text) {
        if n == number {
            return line;
        }
    }
    b""
}

// A line with a mark for each byte that cannot be printed.
fn show_line(out: &mut impl Write, line: &[u8]) -> io::Result<()> {
    write!(out, "    ")?;
    for b in line {
        let c = if *b >= 32 && *b <= 126 { *b } else { b'?' };
        out.write_all(&[c])?;
    }
    writeln!(out, "")
}

// Carets under the token at a column.
fn show_carets(out: &mut impl Write, line: &[u8], column: usize) -> io::Result<()> {
    write!(out, "    ")?;
    let mut inside = true;
    for (i, b) in line.iter().enumerate() {
        if i + 1 < column {
            write!(out, " ")?;
        } else if *b == b' ' {
            inside = false;
        } else if inside {
            write!(out, "^")?;
        }
    }
    writeln!(out, "")
}

// Line 0 stands for the whole text.
fn show_refusal(
    out: &mut impl Write,
    source: Source<'_>,
    number: usize,
    line: usize,
    column: Option<usize>,
    sentence: &str,
) -> io::Result<()> {
    let name = source.name;
    if line == 0 {
        return writeln!(out, "{name}: refused {number}: {sentence}");
    }
    let bytes = nth_line(source.text, line);
    match column {
        Some(column) => {
            writeln!(out, "{name}:{line}:{column}: refused {number}: {sentence}")?;
            show_line(out, bytes)?;
            show_carets(out, bytes, column)
        }
        None => {
            writeln!(out, "{name}:{line}: refused {number}: {sentence}")?;
            show_line(out, bytes)
        }
    }
}

fn sentence(fault: TextFault) -> &'static str {
    match fault {
        TextFault::TooLong => "the text has more than 4,096 bytes",
        TextFault::Unprintable { .. } => "the line has a byte that is not printable",
        TextFault::NoForm { .. } => "the line has none of the forms of this text",
        TextFault::OutOfRange { .. } => "the number is out of range",
        TextFault::WrongName { .. } => "the name is reserved or taken, or no line above defines it",
        TextFault::ManyClasses { .. } => "there are more than 8 unit classes",
        TextFault::CodeMissing => "one of the six codes is on no unit class",
        TextFault::ManyOperations { .. } => {
            "there are more than 32 operations, or more than 16 loads and stores"
        }
        TextFault::NoOperation => "there is no operation",
    }
}

// Tells a refusal; the program then ends with an error.
pub(crate) fn machine_refused(
    out: &mut impl Write,
    source: Source<'_>,
    fault: TextFault,
) -> io::Result<()> {
    let words = sentence(fault);
    show_refusal(
        out,
        source,
        fault.number(),
        fault.line(),
        fault.column(),
        words,
    )?;
    Err(io::Error::other("refused"))
}

pub(crate) fn loop_refused(
    out: &mut impl Write,
    source: Source<'_>,
    fault: GraphFault,
) -> io::Result<()> {
    let words = match fault {
        GraphFault::Text(text) => sentence(text),
        GraphFault::UnknownName { .. } => "the variable is not defined, or not above this line",
    };
    let line = fault.line().unwrap_or(0);
    show_refusal(out, source, fault.number(), line, fault.column(), words)?;
    Err(io::Error::other("refused"))
}
