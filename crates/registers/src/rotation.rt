// How the rotating scheme gives registers: each pass turns them by one.
ghost use Rattle.std.specs.Prelude.{◌≡◌, ℕ, ◌≤◌, true, length, is_some, slice_index};
ghost use Rattle.model.specs.Lives.{LifeWithin};
ghost use Rattle.model.specs.Schemes.{width as width_of, rotating_need, rotating, no_lives};
ghost use Rattle.few.specs.Held.{held};
ghost use Rattle.registers.specs.Views.{table};
ghost use Rattle.registers.specs.Fits.{Fitted};
ghost use Rattle.registers.specs.Meanings.{rotating_meaning};
ghost use Rattle.register_laws.proofs.Rotating.{rotating_lawful};
ghost use Rattle.std.proofs.Common.{refl};

use crate::lives::Lives;
use crate::rotating::Rotating;
use crate::scheme::{BACK, FILE, Scheme};
use few::Few;
use model::Life;

// The registers that a life takes: as many as it touches stages.
fn width(interval: usize, life: &Life) -> usize
    requires { LifeWithin interval life.now }
    ensures { result ≡ width_of interval life.now }
{
    life.end / interval - life.start / interval + 1
}

impl Rotating {
    // A fresh scheme, without variables.
    pub fn new() -> Rotating
        ensures { rotating_meaning result ≡ rotating no_lives }
    {
        Rotating { bases: Few::new(0) }
    }

    // The registers that a table needs.
    pub fn need(lives: &Lives) -> usize
        ensures { result ≡ rotating_need (table lives.now) }
    {
        let interval = lives.interval;
        lives
            .as_slice()
            .iter()
            .map(|life| width(interval, life))
            .sum()
    }

    // Gives each life its width, one behind the other: the scheme, and what all of them need.
    fn laid_out(lives: &Lives) -> (Rotating, usize)
        ensures meaning { rotating_meaning result.0 ≡ rotating (table lives.now) }
        ensures need { result.1 ≡ rotating_need (table lives.now) }
    {
        let interval = lives.interval;
        let mut bases = Few::new(0);
        let mut below = 0usize;
        for life in lives.as_slice() {
            let base = (below + FILE - life.start / interval) % FILE;
            bases.push(base as u8).unwrap();
            below += width(interval, life);
        }
        (Rotating { bases }, below)
    }
}

impl Scheme for Rotating {
    ghost meaning = { rotating_meaning };

    ghost place = { λ s. (rotating_meaning s).place };

    ghost placed = { λ _. refl };

    ghost lawful = { λ s. rotating_lawful (length (held s.bases)) (λ v. slice_index (held s.bases) v) };

    fn file(&self) -> usize {
        FILE
    }

    fn fit(&mut self, lives: &Lives) -> Option<usize>
        ensures fitted { Fitted rotating_meaning (λ s. (rotating_meaning s).place) self.old self.new (table lives.now) result }
        ensures formula { is_some result ≡ true → rotating_meaning self.new ≡ rotating (table lives.now) }
    {
        let (laid, need) = Rotating::laid_out(lives);
        if need > FILE {
            return None;
        }
        *self = laid;
        Some(1)
    }

    fn name(&self, variable: usize, copy: usize, back: usize) -> usize {
        match self.bases.as_slice().get(variable) {
            Some(base) if copy < 1 && back <= BACK => (usize::from(*base) + back) % FILE,
            _ => 0,
        }
    }

    fn resolve(&self, name: usize, pass: usize) -> usize {
        if name < FILE {
            (name + FILE - pass % FILE) % FILE
        } else {
            0
        }
    }
}
