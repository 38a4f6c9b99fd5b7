// The reading of a line of a call script.
ghost use Rattle.std.specs.Prelude.{◌≡◌};
ghost use Rattle.script.specs.Script.{words_of, quoted, expand_of, cells_fit, next_length, rest as words_behind, run_of, setting_of, is_blank, line_of};
ghost use Rattle.script.specs.Script.{begins as begins_with};
ghost use Rattle.script.specs.Seen.{line_seen, body_seen, run_in};

use crate::cells::{count_of, is_cell, length_of};
use crate::escapes::text_len;
use crate::line::{Call, DomainName, Line, Run, SchemeName};
use crate::words::Words;
use reader::shapes::tail;

#[tactic(auto, unfolding(crate::specs::Script::begins))]
fn begins(line: &[u8], word: &[u8]) -> bool
    ensures { result ≡ begins_with word.now line.now }
{
    line.starts_with(word)
}

// The text between quotes behind a word, as it is written.
#[tactic(auto, unfolding(crate::specs::Script::begins, crate::specs::Script::quoted))]
fn quoted_body<'a>(line: &'a [u8], start: &[u8]) -> Option<&'a [u8]>
    ensures { body_seen result ≡ quoted start.now line.now }
{
    let (last, body) = line.strip_prefix(start)?.split_last()?;
    if *last != b'"' {
        return None;
    }
    text_len(body)?;
    Some(body)
}

#[tactic(auto, unfolding(crate::specs::Script::begins, crate::specs::Script::expand_of))]
fn expand_of(line: &[u8]) -> Option<usize>
    ensures { result ≡ expand_of line.now }
{
    count_of(line.strip_prefix(b"expand ")?)
}

// Whether each word is a cell of the domain, and there are at most so many.
fn cells_fit(domain: DomainName, most: usize, cells: Words<'_>) -> bool
    ensures { result ≡ cells_fit domain most (words_of cells.entry.bytes.now) }
{
    let mut n = 0;
    for cell in cells {
        if n >= most || !is_cell(domain, cell) {
            return false;
        }
        n += 1;
    }
    true
}

// The next word as the length of a buffer.
fn next_length(words: &mut Words<'_>) -> Option<usize>
    ensures value { result ≡ next_length (words_of words.old.bytes.now) }
    ensures after { words_of words.new.bytes.now ≡ words_behind (words_of words.old.bytes.now) }
{
    length_of(words.next()?)
}

#[tactic(auto, unfolding(crate::specs::Script::run_of))]
fn run_of<'a>(line: &'a [u8], domain: DomainName) -> Option<Run<'a>>
    ensures { run_in result ≡ run_of domain line.now }
{
    if !begins(line, b"run ") {
        return None;
    }
    let mut words = Words {
        bytes: tail(line, 3),
    };
    let memory = next_length(&mut words)?;
    let values = next_length(&mut words)?;
    let waiting = next_length(&mut words)?;
    if !cells_fit(domain, memory, words) {
        return None;
    }
    Some(Run {
        memory,
        values,
        waiting,
        cells: words,
    })
}

#[tactic(auto, unfolding(crate::specs::Script::setting_of))]
fn setting_of<'a>(line: &'a [u8]) -> Option<Line<'a>>
    ensures { line_seen result ≡ setting_of line.now }
{
    if line == b"scheme rotating".as_slice() {
        Some(Line::Scheme(SchemeName::Rotating))
    } else if line == b"scheme expanded".as_slice() {
        Some(Line::Scheme(SchemeName::Expanded))
    } else if line == b"domain words".as_slice() {
        Some(Line::Domain(DomainName::Words))
    } else if line == b"domain floats".as_slice() {
        Some(Line::Domain(DomainName::Floats))
    } else {
        None
    }
}

#[tactic(auto, unfolding(crate::specs::Script::is_blank))]
fn is_blank(line: &[u8]) -> bool
    ensures { result ≡ is_blank line.now }
{
    matches!(line, [] | [b'#', ..])
}

// What a line says in a domain, if it is a line of a script. Settings stand only before the first call.
pub fn read_line<'a>(line: &'a [u8], domain: DomainName, called: bool) -> Option<Line<'a>>
    ensures { line_seen result ≡ line_of domain called line.now }
{
    if is_blank(line) {
        return Some(Line::Blank);
    }
    if let Some(body) = quoted_body(line, b"machine \"") {
        return Some(Line::Call(Call::Machine(body)));
    }
    if let Some(body) = quoted_body(line, b"loop \"") {
        return Some(Line::Call(Call::Loop(body)));
    }
    if line == b"plan".as_slice() {
        return Some(Line::Call(Call::Plan));
    }
    if let Some(trips) = expand_of(line) {
        return Some(Line::Call(Call::Expand(trips)));
    }
    if let Some(run) = run_of(line, domain) {
        return Some(Line::Call(Call::Run(run)));
    }
    if called {
        return None;
    }
    setting_of(line)
}
