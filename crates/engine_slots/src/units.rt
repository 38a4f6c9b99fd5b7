// The units that are taken in this cycle and the seven behind it.
ghost use Rattle.std.specs.Prelude.{◌≡◌, ℕ, ◌+◌, ◌-◌, ◌%◌, ◌^◌, ◌<◌, ◌≤◌, ◌≢◌, slice_index};
ghost use Rattle.engine_laws.specs.Tracks.{unit_free_by, use_for};
ghost use Rattle.engine_slots.specs.Boards.{taken_in};

// The cycles, and the classes, for which units are counted.
pub const AHEAD: usize = 8;

pub const CLASSES: usize = 8;

// By cycle modulo 8, and by class.
#[derive(Clone, Copy)]
pub struct Units {
    pub taken: [[usize; CLASSES]; AHEAD],
}

// One unit more of a class, in a cycle.
fn count_one(row: &mut [usize; CLASSES], class: usize)
    requires few { class < 8 }
    requires room { slice_index row.old class < 2 ^ 64 - 1 }
    ensures one { slice_index row.new class ≡ slice_index row.old class + 1 }
    ensures others { (u : ℕ) → (u ≢ class) → slice_index row.new u ≡ slice_index row.old u }
{
    row[class] += 1;
}

impl Units {
    pub fn new() -> Units
        ensures { (u y : ℕ) → taken_in result u y ≡ 0 }
    {
        Units {
            taken: [[0; CLASSES]; AHEAD],
        }
    }

    // Whether in each of so many cycles fewer units of a class are taken than it has.
    pub fn are_free(&self, units: usize, cycle: usize, class: usize, busy: usize) -> bool
        requires { (class < 8) × ((busy ≤ 8) × (cycle + 8 < 2 ^ 64)) }
        ensures { result ≡ unit_free_by (taken_in self.now) units cycle class busy }
    {
        (cycle..cycle + busy).all(|y| self.taken[y % AHEAD][class] < units)
    }

    // Takes a unit of a class for so many cycles.
    pub fn take(&mut self, cycle: usize, class: usize, busy: usize)
        requires small { (class < 8) × ((busy ≤ 8) × (cycle + 8 < 2 ^ 64)) }
        requires room { (b : ℕ) → b < busy → taken_in self.old class (cycle + b) < 2 ^ 64 - 1 }
        ensures { (u y : ℕ) → u < 8 → cycle ≤ y → y < cycle + 8 →
            taken_in self.new u y ≡ taken_in self.old u y + use_for u y cycle class busy }
    {
        for y in cycle..cycle + busy {
            count_one(&mut self.taken[y % AHEAD], class);
        }
    }

    // Forgets a cycle: its places now stand for the one eight cycles later.
    pub fn clear(&mut self, cycle: usize)
        ensures cleared { (u y : ℕ) → u < 8 → y % 8 ≡ cycle % 8 → taken_in self.new u y ≡ 0 }
        ensures others { (u y : ℕ) → u < 8 → (y % 8 ≢ cycle % 8) → taken_in self.new u y ≡ taken_in self.old u y }
    {
        self.taken[cycle % AHEAD] = [0; CLASSES];
    }
}
