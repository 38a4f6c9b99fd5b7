// The marks of a round.
ghost use Rattle.std.specs.Prelude.{◌≡◌, ◌<◌, Some, None, is_some, position, replicate, slice_set};
ghost use Rattle.bounds.specs.Noted.{noted};

use std::marker::Model;

// For each operation the number of the edge that raised it, if one did: kept as the number + 1 in 16 bits, 0 for none.
#[derive(Clone, Copy)]
pub struct Marks {
    kept: [u16; 32],
}

impl Model for Marks {
    ghost use Rattle.std.specs.Prelude.{◌≡◌, ℕ, List, Option, length};

    ghost Value = { List (Option ℕ) };

    ghost use Rattle.bounds.specs.Kept.{numbers_in, kept_as, kept_again};

    ghost view = { numbers_in };

    ghost invariant = { λ m. length m.kept ≡ 32 };

    ghost inverse = { kept_as };

    ghost inverse_ok = { λ m h. kept_again m };
}

impl Marks {
    // No operation is marked.
    pub(crate) fn none() -> Marks
        ensures { result ≡ replicate 32 None }
    {
        Marks { kept: [0; 32] }
    }

    // The edge that raised an operation.
    pub(crate) fn at(&self, operation: usize) -> Option<usize>
        requires { operation < 32 }
        ensures { result ≡ noted self.now operation }
    {
        usize::from(self.kept[operation]).checked_sub(1)
    }

    // Marks an operation with an edge.
    pub(crate) fn set(&mut self, operation: usize, number: usize)
        requires inside { operation < 32 }
        requires small { number < 65535 }
        ensures { self.new ≡ slice_set self.old operation (Some number) }
    {
        self.kept[operation] = (number + 1) as u16;
    }

    // The first operation that is marked.
    pub(crate) fn first(&self) -> Option<usize>
        ensures { result ≡ position is_some self.now }
    {
        self.kept.iter().position(|mark| *mark > 0)
    }
}
