// Numbers and cells as a script writes them.
ghost use Rattle.std.specs.Prelude.{◌≡◌, ◌≤◌, length};
ghost use Rattle.model.specs.Shapes.{every};
ghost use Rattle.script.specs.Escapes.{hex_digit};
ghost use Rattle.script.specs.Cells.{count_of, length_of, word_of, hex_number, float_of, is_cell};

use crate::escapes::{hex_value, is_hex};
use crate::line::DomainName;
use reader::shapes::is_digits;
use reader::words::digits_value;
use std::num::f64_from_bits_with_nan;

// A number of 1 to 9 digits.
pub(crate) fn count_of(s: &[u8]) -> Option<usize>
    ensures { result ≡ count_of s.now }
{
    if is_digits(s, 9) {
        Some(digits_value(s))
    } else {
        None
    }
}

// The length of a buffer.
pub(crate) fn length_of(s: &[u8]) -> Option<usize>
    ensures { result ≡ length_of s.now }
{
    count_of(s).filter(|n| *n <= 1048576)
}

// A cell of words.
pub fn word_of(s: &[u8]) -> Option<u32>
    ensures { result ≡ word_of s.now }
{
    if !is_digits(s, 10) {
        return None;
    }
    u32::try_from(digits_value(s)).ok()
}

fn all_hex(s: &[u8]) -> bool
    ensures { result ≡ every hex_digit s.now }
{
    s.iter().all(|b| is_hex(*b))
}

// The value of at most 16 hexadecimal digits.
fn hex_number(s: &[u8]) -> u64
    requires { length s.now ≤ 16 }
    ensures { result ≡ hex_number s.now }
{
    s.iter()
        .fold(0u64, |n, b| n * 16 + u64::from(hex_value(*b)))
}

// A cell of floats.
pub fn float_of(s: &[u8]) -> Option<f64>
    ensures { result ≡ float_of s.now }
{
    if s == b"nan".as_slice() {
        return Some(f64::NAN);
    }
    if s.len() == 16 && all_hex(s) {
        return Some(f64_from_bits_with_nan(hex_number(s)));
    }
    None
}

pub(crate) fn is_cell(domain: DomainName, s: &[u8]) -> bool
    ensures { result ≡ is_cell domain s.now }
{
    match domain {
        DomainName::Words => word_of(s).is_some(),
        DomainName::Floats => float_of(s).is_some(),
    }
}
