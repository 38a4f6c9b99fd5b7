// The shapes of a token.
ghost use Rattle.std.specs.Prelude.{◌≡◌, ◌≤◌, ◌&&◌, length, drop};
ghost use Rattle.std.specs.List.{prefix_len};
ghost use Rattle.model.specs.Shapes.{every, between, digit, letter, is_name, is_number, is_negative, is_earlier, name_of, after_at};

// Whether each byte lies between two bounds.
pub fn all_between(s: &[u8], lo: u8, hi: u8) -> bool
    ensures { result ≡ every (between lo hi) s.now }
{
    s.iter().all(|b| (lo..=hi).contains(b))
}

pub(crate) fn is_name(s: &[u8]) -> bool
    ensures { result ≡ is_name s.now }
{
    (1..=8).contains(&s.len()) && all_between(s, b'a', b'z')
}

// Whether there are 1 to `most` decimal digits.
pub fn is_digits(s: &[u8], most: usize) -> bool
    ensures { result ≡ (between 1 most (length s.now) && every digit s.now) }
{
    (1..=most).contains(&s.len()) && all_between(s, b'0', b'9')
}

pub(crate) fn is_number(s: &[u8]) -> bool
    ensures { result ≡ is_number s.now }
{
    is_digits(s, 5)
}

// How many letters a token begins with.
fn letters(s: &[u8]) -> usize
    ensures value { result ≡ prefix_len letter s.now }
    ensures within { result ≤ length s.now }
{
    s.iter().take_while(|b| b.is_ascii_lowercase()).count()
}

// What is left of a token after its first n bytes.
pub fn tail(s: &[u8], n: usize) -> &[u8]
    ensures { result.now ≡ drop n s.now }
{
    s.get(n..).unwrap_or(b"")
}

// The name before the @ of an operand.
pub fn name_of(s: &[u8]) -> &[u8]
    ensures { result.now ≡ name_of s.now }
{
    &s[..letters(s)]
}

// What follows the @ of an operand.
pub fn after_at(s: &[u8]) -> &[u8]
    ensures { result.now ≡ after_at s.now }
{
    tail(s, letters(s) + 1)
}

// A minus and a number.
pub(crate) fn is_negative(s: &[u8]) -> bool
    ensures { result ≡ is_negative s.now }
{
    matches!(s, [b'-', digits @ ..] if is_number(digits))
}

// A name, an @ and a number.
pub(crate) fn is_earlier(s: &[u8]) -> bool
    ensures { result ≡ is_earlier s.now }
{
    let (name, rest) = s.split_at(letters(s));
    is_name(name) && matches!(rest, [b'@', digits @ ..] if is_number(digits))
}
