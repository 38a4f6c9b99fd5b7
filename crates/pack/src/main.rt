// Reads a machine file and a loop file, and prints what they say.
#![tactic(auto)]

mod evidence;
mod refused;
mod show;

use dependence::loops::Loop;
use edge_list::Edges;
use evidence::{show_edges, show_minimum};
use refused::{Source, loop_refused, machine_refused};
use show::{show_loop, show_machine};
use statements::statements::Statements;
use std::io::{BufWriter, Write};
use std::{env, fs, io};
use texts::machine::Machine;

// The worked example, which is shown where no file is named.
const WORKED_MACHINE: &[u8] =
    b"unit alu 1\nunit mem 1\nop load mem 2 1\nop store mem 1 1\nop mul alu 3 1\nop add alu 1 1\nop sub alu 1 1\nop move alu 1 1\n";

const WORKED_LOOP: &[u8] = b"a = load 1 0\ns = add s@1 a\nstore s 1 64\n";

fn pack_machine(rt: &HostRuntime, source: Source<'_>) -> io::Result<Machine> {
    let machine = match Machine::read(source.text) {
        Ok(machine) => machine,
        Err(fault) => {
            machine_refused(&mut rt.stderr(), source, fault)?;
            return Err(io::Error::other("refused"));
        }
    };
    let mut out = BufWriter::new(rt.alloc(), rt.stdout())?;
    let name = source.name;
    writeln!(out, "machine {name}")?;
    show_machine(&mut out, &machine)?;
    out.flush()?;
    Ok(machine)
}

fn pack_loop(rt: &HostRuntime, source: Source<'_>, machine: &Machine) -> io::Result<()> {
    let body = match Loop::read(source.text) {
        Ok(body) => body,
        Err(fault) => return loop_refused(&mut rt.stderr(), source, fault),
    };
    let mut out = BufWriter::new(rt.alloc(), rt.stdout())?;
    let name = source.name;
    writeln!(out, "loop {name}")?;
    let mut edges = Edges::new(rt.alloc())?;
    edges.build(machine, &body);
    if let Ok(named) = Statements::read(source.text) {
        show_loop(&mut out, rt.alloc(), &body, &named)?;
        show_edges(&mut out, &body, edges.as_slice(), &named)?;
    }
    show_minimum(&mut out, machine, &body, edges.as_slice())?;
    out.flush()
}

fn pack_both(rt: &HostRuntime, machine: Source<'_>, body: Source<'_>) -> io::Result<()> {
    let machine = pack_machine(rt, machine)?;
    pack_loop(rt, body, &machine)
}

// The bytes of a file; one that cannot be read is named.
fn read_file(rt: &HostRuntime, name: &str) -> io::Result<Vec<u8>> {
    match fs::read(rt, name) {
        Ok(text) => Ok(text),
        Err(e) => {
            eprintln!(rt; "{name}: {e}")?;
            Err(e)
        }
    }
}

fn pack_files(rt: &HostRuntime, machine: &str, body: &str) -> io::Result<()> {
    let machine_text = read_file(rt, machine)?;
    let loop_text = read_file(rt, body)?;
    pack_both(
        rt,
        Source {
            name: machine,
            text: machine_text.as_slice(),
        },
        Source {
            name: body,
            text: loop_text.as_slice(),
        },
    )
}

fn pack_worked(rt: &HostRuntime) -> io::Result<()> {
    pack_both(
        rt,
        Source {
            name: "worked.machine",
            text: WORKED_MACHINE,
        },
        Source {
            name: "worked.loop",
            text: WORKED_LOOP,
        },
    )
}

fn main(rt: HostRuntime) -> io::Result<()> {
    let mut args = env::args(&rt)?;
    let _program = args.next();
    match (args.next(), args.next(), args.next()) {
        (None, _, _) => pack_worked(&rt),
        (Some(machine), Some(body), None) => pack_files(&rt, machine.as_str(), body.as_str()),
        _ => {
            eprintln!(rt; "usage: pack [MACHINE-FILE LOOP-FILE]")?;
            Err(io::Error::other("usage"))
        }
    }
}
