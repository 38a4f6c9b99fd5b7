// Floats of 64 bits: each operation is rounded once.
ghost use Rattle.model.specs.Domains.{floats, LiteralsExact};

use crate::domain::Domain;

#[derive(Clone, Copy)]
pub struct Floats;

impl Domain for Floats {
    type Value = f64;

    ghost operations = { floats };

    fn add(&self, a: f64, b: f64) -> f64 {
        a + b
    }

    fn sub(&self, a: f64, b: f64) -> f64 {
        a - b
    }

    fn mul(&self, a: f64, b: f64) -> f64 {
        a * b
    }

    fn literal(&self, n: i32) -> f64 {
        f64::from(n)
    }
}

// The float of a literal is the literal itself: no rounding.
pub fn literals_exact()
    ensures { LiteralsExact }
{}
