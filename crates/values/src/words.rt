// Words of 32 bits, wrapping.
ghost use Rattle.model.specs.Domains.{words};

use crate::domain::Domain;

#[derive(Clone, Copy)]
pub struct Words;

impl Domain for Words {
    type Value = u32;

    ghost operations = { words };

    fn add(&self, a: u32, b: u32) -> u32 {
        a.wrapping_add(b)
    }

    fn sub(&self, a: u32, b: u32) -> u32 {
        a.wrapping_sub(b)
    }

    fn mul(&self, a: u32, b: u32) -> u32 {
        a.wrapping_mul(b)
    }

    fn literal(&self, n: i32) -> u32 {
        n.cast_unsigned()
    }
}
