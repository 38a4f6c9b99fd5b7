// How the lanes are given.
ghost use Rattle.std.specs.Prelude.{◌≡◌};
ghost use Rattle.registers.specs.Views.{table};
ghost use Rattle.guest_scheme.specs.Lane.{short, lanes_with};
ghost use Rattle.guest_scheme.specs.LaneMeaning.{lanes_meaning};
ghost use Rattle.std.proofs.Common.{refl, rules};

use crate::lanes::Lanes;
use registers::lives::Lives;
use registers::scheme::{BACK, Scheme, TURNS};

// The registers of the file.
const FILE: usize = 256;

// Whether no life is longer than eight intervals.
fn all_short(lives: &Lives) -> bool
    ensures { result ≡ short (table lives.now).interval (table lives.now).lives }
{
    let interval = lives.interval();
    lives
        .as_slice()
        .iter()
        .all(|life| life.end - life.start < 8 * interval)
}

impl Lanes {
    pub fn new() -> Lanes
        ensures { lanes_meaning result ≡ lanes_with 0 }
    {
        Lanes { variables: 0 }
    }
}

impl Scheme for Lanes {
    ghost meaning = { lanes_meaning };

    ghost place = { λ s. (lanes_meaning s).place };

    ghost placed = { λ _. refl };

    ghost lawful = { λ s. Prim.search rules };

    fn file(&self) -> usize {
        FILE
    }

    fn fit(&mut self, lives: &Lives) -> Option<usize> {
        if !all_short(lives) {
            return None;
        }
        self.variables = lives.as_slice().len();
        Some(if lives.as_slice().is_empty() {
            1
        } else {
            TURNS
        })
    }

    fn name(&self, variable: usize, copy: usize, back: usize) -> usize {
        if variable < self.variables && copy < TURNS && back <= BACK {
            TURNS * variable + (copy + (TURNS - 1) * back) % TURNS
        } else {
            0
        }
    }

    fn resolve(&self, name: usize, pass: usize) -> usize {
        if name < FILE { name } else { 0 }
    }
}
