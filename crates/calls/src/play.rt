// The calls of a script, one after another.
use crate::print::{print_edges, print_graph_fault, print_text_fault, print_too_early};
use dependence::loops::Loop;
use edge_list::Edges;
use script::escapes::unescape;
use script::line::{Call, DomainName, Line, SchemeName};
use script::reading::read_line;
use std::alloc::{AllocError, Global};
use std::io;
use std::io::Write;
use texts::machine::Machine;

// The settings, whether a call was made, and what stands.
#[derive(Drop)]
pub struct Session {
    scheme: SchemeName,
    domain: DomainName,
    called: bool,
    machine: Option<Machine>,
    edges: Edges,
}

// The text that is written between quotes.
fn text_of(heap: Global, body: &[u8]) -> Result<Vec<u8>, AllocError> {
    let mut text = vec![in heap; 0u8; body.len()]?;
    let length = unescape(body, text.as_mut_slice()).unwrap_or(0);
    text.truncate(length);
    Ok(text)
}

impl Session {
    pub(crate) fn new(heap: Global) -> Result<Session, AllocError> {
        let edges = Edges::new(heap)?;
        Ok(Session {
            scheme: SchemeName::Rotating,
            domain: DomainName::Words,
            called: false,
            machine: None,
            edges,
        })
    }

    fn play_machine(&mut self, out: &mut impl Write, text: &[u8]) -> io::Result<()> {
        match Machine::read(text) {
            Ok(machine) => {
                self.machine = Some(machine);
                writeln!(out, "machine ok")
            }
            Err(fault) => print_text_fault(out, "machine", fault),
        }
    }

    fn play_loop(&mut self, out: &mut impl Write, text: &[u8]) -> io::Result<()> {
        let Some(machine) = self.machine else {
            return print_too_early(out, "loop");
        };
        match Loop::read(text) {
            Ok(body) => {
                self.edges.build(&machine, &body);
                writeln!(out, "loop ok")?;
                print_edges(out, self.edges.as_slice())
            }
            Err(fault) => print_graph_fault(out, "loop", fault),
        }
    }

    fn play_call(&mut self, out: &mut impl Write, heap: Global, call: Call<'_>) -> io::Result<()> {
        match call {
            Call::Machine(body) => self.play_machine(out, text_of(heap, body)?.as_slice()),
            Call::Loop(body) => self.play_loop(out, text_of(heap, body)?.as_slice()),
            Call::Plan => writeln!(out, "plan not built"),
            Call::Expand(_) => writeln!(out, "expand not built"),
            Call::Run(_) => writeln!(out, "run not built"),
        }
    }

    // Plays the line of this number, and answers whether the script goes on.
    pub(crate) fn play_line(
        &mut self,
        out: &mut impl Write,
        heap: Global,
        line: &[u8],
        number: usize,
    ) -> io::Result<bool> {
        let Some(line) = read_line(line, self.domain, self.called) else {
            writeln!(out, "script error line {number}")?;
            return Ok(false);
        };
        match line {
            Line::Blank => {}
            Line::Scheme(scheme) => self.scheme = scheme,
            Line::Domain(domain) => self.domain = domain,
            Line::Call(call) => {
                self.called = true;
                self.play_call(out, heap, call)?;
            }
        }
        Ok(true)
    }
}
