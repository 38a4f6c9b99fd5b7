// Texts between quotes, with their escapes.
ghost use Rattle.std.specs.Prelude.{◌≡◌, ◌<◌, true, length};
ghost use Rattle.script.specs.Escapes.{hex_digit, hex_value, step_of, spelled, unescaped};
ghost use Rattle.script.specs.Spelling.{length_in, told, is_byte, fitting, filled};

// What stands before a byte: nothing of an escape, a backslash, \x, or \x and a digit.
#[derive(Clone, Copy, PartialEq, Eq, Debug)]
pub enum After {
    Plain,
    Backslash,
    Hex,
    Digit(u8),
}

// What a byte does, if it may stand there.
#[derive(Clone, Copy, PartialEq, Eq, Debug)]
pub enum Step {
    Turn(After),
    Put(u8),
}

pub(crate) fn is_hex(b: u8) -> bool
    ensures { result ≡ hex_digit b }
{
    matches!(b, b'0'..=b'9' | b'a'..=b'f')
}

pub(crate) fn hex_value(b: u8) -> u8
    ensures value { result ≡ hex_value b }
    ensures small { result < 16 }
{
    match b {
        b'0'..=b'9' => b - b'0',
        b'a'..=b'f' => b - b'a' + 10,
        _ => 0,
    }
}

// Outside an escape.
fn plain(b: u8) -> Option<Step>
    ensures { result ≡ step_of After.Plain b }
{
    match b {
        b'\\' => Some(Step::Turn(After::Backslash)),
        b'"' => None,
        _ => Some(Step::Put(b)),
    }
}

// Behind a backslash.
fn escape(b: u8) -> Option<Step>
    ensures { result ≡ step_of After.Backslash b }
{
    match b {
        b'n' => Some(Step::Put(10)),
        b'\\' | b'"' => Some(Step::Put(b)),
        b'x' => Some(Step::Turn(After::Hex)),
        _ => None,
    }
}

fn effect(after: After, b: u8) -> Option<Step>
    ensures { result ≡ step_of after b }
{
    match after {
        After::Plain => plain(b),
        After::Backslash => escape(b),
        After::Hex if is_hex(b) => Some(Step::Turn(After::Digit(b))),
        After::Digit(h) if is_hex(b) => Some(Step::Put(16 * hex_value(h) + hex_value(b))),
        After::Hex | After::Digit(_) => None,
    }
}

// What is left of a body, and what stands before it.
#[derive(Drop)]
struct Body<'a> {
    after: After,
    bytes: &'a [u8],
}

impl<'a> Body<'a> {
    fn new(bytes: &'a [u8]) -> Body<'a>
        ensures after { result.after ≡ After.Plain }
        ensures bytes { result.bytes.now ≡ bytes.now }
    {
        Body {
            after: After::Plain,
            bytes,
        }
    }

    // The next byte that is spelled, and none at the end, if the escapes up to there are in order.
    // Written out where it is called, since it runs for every byte.
    #[inline(always)]
    fn next_byte(&mut self) -> Option<Option<u8>>
        ensures value { spelled self.old.after self.old.bytes.now ≡ told result (spelled self.new.after self.new.bytes.now) }
        ensures shorter { is_byte result ≡ true → length self.new.bytes.now < length self.old.bytes.now }
    {
        while let Some((b, rest)) = self.bytes.split_first() {
            self.bytes = rest;
            match effect(self.after, *b)? {
                Step::Turn(next) => self.after = next,
                Step::Put(x) => {
                    self.after = After::Plain;
                    return Some(Some(x));
                }
            }
        }
        match self.after {
            After::Plain => Some(None),
            After::Backslash | After::Hex | After::Digit(_) => None,
        }
    }
}

// The length of the text that a body spells, if its escapes are in order.
pub(crate) fn text_len(body: &[u8]) -> Option<usize>
    ensures { result ≡ length_in (unescaped body.now) }
{
    let mut left = Body::new(body);
    let mut n: usize = 0;
    while let Some(_) = left.next_byte()? {
        n += 1;
    }
    Some(n)
}

// Writes the text that a body spells to the front of a buffer, and answers its length. Nothing is written if the escapes are not in order or the buffer is too short.
pub fn unescape(body: &[u8], out: &mut [u8]) -> Option<usize>
    ensures value { result ≡ fitting (length out.old) (unescaped body.now) }
    ensures after { out.new ≡ filled out.old (unescaped body.now) }
{
    let total = text_len(body)?;
    if total > out.len() {
        return None;
    }
    let mut left = Body::new(body);
    let mut n = 0;
    while let Some(b) = left.next_byte()? {
        out[n] = b;
        n += 1;
    }
    Some(total)
}
