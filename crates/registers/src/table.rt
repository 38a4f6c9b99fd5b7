// How a table of lives is made, filled and read.
ghost use Rattle.std.specs.Prelude.{◌≡◌, ◌≤◌, [], length, All, MatchOption};
ghost use Rattle.model.specs.Lives.{LifeWithin, Limits};
ghost use Rattle.registers.specs.Views.{table, Filled};

use crate::lives::{Lives, MOST};
use few::Few;
use model::Life;

// The last cycle in which a life may end.
const LAST: usize = 4095;

impl Lives {
    // An empty table; there is none at an interval outside 1 to 256.
    pub fn new(interval: usize) -> Option<Lives>
        ensures { MatchOption result ((1 ≤ interval) × (interval ≤ 256) → ⊥) (λ l. table l ≡ record { interval = interval; lives = [] }) }
    {
        if !(1..=256).contains(&interval) {
            return None;
        }
        let blank = Life { start: 0, end: 0 };
        Some(Lives {
            interval,
            lives: Few::new(blank),
        })
    }

    // Adds the life of the next variable. One that is outside the limits, or beyond the last place, is refused and changes nothing.
    pub fn push(&mut self, life: Life) -> bool
        ensures { Filled self.old self.new life result }
    {
        self.as_slice().len() < MOST
            && life.start < 8 * self.interval
            && life.start <= life.end
            && life.end <= LAST
            && self.lives.push(life).is_ok()
    }

    pub fn interval(&self) -> usize
        ensures { result ≡ (table self.now).interval }
    {
        self.interval
    }

    // The lives, variable by variable.
    pub fn as_slice(&self) -> &[Life]
        ensures lives { result.now ≡ (table self.now).lives }
        ensures few { length result.now ≤ 32 }
        ensures limits { Limits (table self.now) }
        ensures each { All (LifeWithin (table self.now).interval) result.now }
    {
        self.lives.as_slice()
    }
}
