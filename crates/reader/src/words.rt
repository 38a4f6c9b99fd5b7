// The reserved words and the values of numbers.
ghost use Rattle.std.specs.Prelude.{◌≡◌, ◌^◌, ◌<◌, ◌≤◌, true, length};
ghost use Rattle.model.specs.Shapes.{every, digit, is_number, value as amount_of, code_of, is_reserved};

use model::Code;

pub fn find_code(s: &[u8]) -> Option<Code>
    ensures { result ≡ code_of s.now }
{
    match s {
        b"load" => Some(Code::Load),
        b"store" => Some(Code::Store),
        b"add" => Some(Code::Add),
        b"sub" => Some(Code::Sub),
        b"mul" => Some(Code::Mul),
        b"move" => Some(Code::Move),
        _ => None,
    }
}

pub fn is_reserved(s: &[u8]) -> bool
    ensures { result ≡ is_reserved s.now }
{
    matches!(s, b"unit" | b"op" | b"start") || find_code(s).is_some()
}

// The value of at most ten decimal digits.
pub fn digits_value(s: &[u8]) -> usize
    requires digits { every digit s.now ≡ true }
    requires few { length s.now ≤ 10 }
    ensures value { result ≡ amount_of s.now }
    ensures small { result < 10 ^ length s.now }
{
    let mut n: usize = 0;
    for b in s {
        n = n * 10 + (*b - b'0') as usize;
    }
    n
}

// The value of a number.
pub fn value_of(s: &[u8]) -> usize
    requires { is_number s.now ≡ true }
    ensures value { result ≡ amount_of s.now }
    ensures small { result < 100000 }
{
    digits_value(s)
}
