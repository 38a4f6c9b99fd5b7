// The registers that await a write, by the cycle modulo 8 in which it is due.
ghost use Rattle.std.specs.Prelude.{◌≡◌, ℕ, ◌%◌, ◌≤◌, ◌<◌, ◌≢◌, [], ◌∷◌, ◌++◌, length, take, MatchOption};
ghost use Rattle.engine_laws.specs.Dues.{Pushed};
ghost use Rattle.engine_writes.specs.Lists.{lists_of};

use engine_slots::units::AHEAD;

// The places of a list. A full list stands for all registers: so many writes pay for a look at each of them.
pub const LIST: usize = 32;

// The places of each list, and how many of them are taken. Those behind say nothing, so that to forget a list is to set one count.
#[derive(Clone, Copy)]
pub struct Dues {
    pub places: [[usize; LIST]; AHEAD],
    pub counts: [usize; AHEAD],
}

// Puts a register behind the others of a list, if there is a place.
fn put(places: &mut [usize; LIST], count: &mut usize, r: usize)
    ensures more { count.old < 32 → take count.new places.new ≡ take count.old places.old ++ r ∷ [] }
    ensures full { 32 ≤ count.old → (32 ≤ length (take count.old places.old)) × (take count.new places.new ≡ take count.old places.old) }
{
    if *count < LIST {
        places[*count] = r;
        *count += 1;
    }
}

// The registers of a list that is not full.
fn taken(places: &[usize; LIST], count: usize) -> Option<&[usize]>
    ensures { MatchOption result (32 ≤ length (take count places.now)) (λ list. (list.now ≡ take count places.now) × (length list.now < 32)) }
{
    if count < LIST {
        Some(&places[..count])
    } else {
        None
    }
}

impl Dues {
    pub fn new() -> Dues
        ensures { (x : ℕ) → lists_of result x ≡ [] }
    {
        Dues {
            places: [[0; LIST]; AHEAD],
            counts: [0; AHEAD],
        }
    }

    // Puts a register into the list of its due cycle. A full list stays so.
    pub fn push(&mut self, due: usize, r: usize)
        ensures { Pushed due r (lists_of self.old) (lists_of self.new) }
    {
        let list = due % AHEAD;
        put(&mut self.places[list], &mut self.counts[list], r);
    }

    // The registers whose writes are due in a cycle, if they are listed.
    pub fn listed(&self, cycle: usize) -> Option<&[usize]>
        ensures { MatchOption result (32 ≤ length (lists_of self.now (cycle % 8))) (λ list. (list.now ≡ lists_of self.now (cycle % 8)) × (length list.now < 32)) }
    {
        let list = cycle % AHEAD;
        taken(&self.places[list], self.counts[list])
    }

    // Forgets a cycle: its list now stands for the one eight cycles later.
    pub fn clear(&mut self, cycle: usize)
        ensures cleared { lists_of self.new (cycle % 8) ≡ [] }
        ensures others { (x : ℕ) → (x ≢ cycle % 8) → lists_of self.new x ≡ lists_of self.old x }
        ensures places { self.new.places ≡ self.old.places }
    {
        self.counts[cycle % AHEAD] = 0;
    }
}
