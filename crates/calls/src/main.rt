// Plays a call script from standard input, and prints every answer.
#![tactic(auto)]

mod play;
mod print;

use play::Session;
use reader::lines::Lines;
use std::io;
use std::io::{BufWriter, Read, Write};

// The lines of a script in order, up to the first that is none.
fn play_all(rt: &HostRuntime, script: &[u8]) -> io::Result<()> {
    let mut out = BufWriter::new(rt.alloc(), rt.stdout())?;
    let mut session = Session::new(rt.alloc())?;
    for (number, line) in Lines::new(script) {
        if !session.play_line(&mut out, rt.alloc(), line, number)? {
            break;
        }
    }
    out.flush()
}

fn main(rt: HostRuntime) -> io::Result<()> {
    let mut script = Vec::new(rt.alloc());
    rt.stdin().read_to_end(&mut script)?;
    play_all(&rt, script.as_slice())
}
