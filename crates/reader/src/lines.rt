// The lines of a text.
ghost use Rattle.std.specs.Prelude.{◌≡◌, ◌+◌, ◌^◌, ◌<◌, ◌≤◌, length, drop};
ghost use Rattle.std.specs.List.{prefix_len};
ghost use Rattle.std.specs.Iterator.{YieldsFirstBy, item_count};
ghost use Rattle.model.specs.Lines.{lines, numbered, lines_of};
ghost use Rattle.reader.specs.Seen.{inside, line_seen};

use crate::shapes::tail;

// Where the line that begins at `from` ends.
pub fn line_end(s: &[u8], from: usize) -> usize
    requires { from ≤ length s.now }
    ensures value { result ≡ from + prefix_len inside (drop from s.now) }
    ensures within { result ≤ length s.now }
    ensures after { from ≤ result }
{
    from + line_len(&s[from..])
}

// How many bytes the line that a text begins with has.
fn line_len(s: &[u8]) -> usize
    ensures value { result ≡ prefix_len inside s.now }
    ensures within { result ≤ length s.now }
{
    s.iter().take_while(|b| **b != b'\n').count()
}

// The lines that are left of a text, the first of them with this number.
#[derive(Clone, Copy)]
pub struct Lines<'a> {
    rest: &'a [u8],
    number: usize,
    ghost fits: { number + length rest.now < 2 ^ 64 },
}

impl<'a> Lines<'a> {
    // Every line counts, from 1.
    pub fn new(text: &'a [u8]) -> Lines<'a>
        ensures { numbered result.number (lines result.rest.now) ≡ lines_of text.now }
    {
        Lines {
            rest: text,
            number: 1,
        }
    }
}

impl<'a> Iterator for Lines<'a> {
    type Item = (usize, &'a [u8]);

    ghost next_gives = { YieldsFirstBy line_seen (λ s. numbered s.number (lines s.rest.now)) };

    ghost remaining = { item_count (λ s. numbered s.number (lines s.rest.now)) };

    fn next(&mut self) -> Option<(usize, &'a [u8])> {
        let text = self.rest;
        if text.is_empty() {
            return None;
        }
        let number = self.number;
        let end = line_end(text, 0);
        self.rest = tail(text, end + 1);
        self.number += 1;
        Some((number, &text[..end]))
    }
}
