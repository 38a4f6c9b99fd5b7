// The counts of a reservation table alone.
ghost use Rattle.std.specs.Prelude.{◌≡◌, ℕ, ◌<◌, slice_index};
ghost use Rattle.reservation.specs.Cells.{cell};
ghost use Rattle.reservation.specs.Uses.{uses_of, Repeated, Stepped};

use crate::uses::Uses;

// 256 rows for each of eight classes.
#[derive(Clone, Copy)]
pub struct Rows {
    pub(crate) counts: [[u8; 256]; 8],
}

impl Rows {
    pub(crate) fn new() -> Rows
        ensures { (u r : ℕ) → cell result.counts u r ≡ 0 }
    {
        Rows {
            counts: [[0; 256]; 8],
        }
    }

    // There are no uses in a row that there is not.
    pub(crate) fn count(&self, class: usize, row: usize) -> usize
        ensures inside { class < 8 → row < 256 → result ≡ cell self.now.counts class row }
        ensures outside { ((class < 8) × (row < 256) → ⊥) → result ≡ 0 }
    {
        self.counts
            .get(class)
            .and_then(|rows| rows.get(row))
            .map_or(0, |count| usize::from(*count))
    }

    // The uses of a class in a row that there is.
    pub(crate) fn at(&self, class: usize, row: usize) -> usize
        requires { (class < 8) × (row < 256) }
        ensures { result ≡ cell self.now.counts class row }
    {
        usize::from(self.counts[class][row])
    }

    // A step of the count for each use.
    pub(crate) fn change<F: Fn(u8) -> u8>(&mut self, uses: &Uses, step: F)
        requires { (n : ℕ) → n < 256 → F.pre step n }
        ensures { Stepped (F.post step) uses.now (cell self.old.counts) (cell self.new.counts) }
    {
        change_class(&mut self.counts[uses.class], uses, step);
    }
}

fn change_class<F: Fn(u8) -> u8>(counts: &mut [u8; 256], uses: &Uses, step: F)
    requires { (n : ℕ) → n < 256 → F.pre step n }
    ensures { (r : ℕ) → r < 256 → Repeated (F.post step) (uses_of uses.now r) (slice_index counts.old r) (slice_index counts.new r) }
{
    for cycle in uses.time..uses.time + uses.busy {
        let row = uses.row(cycle);
        counts[row] = step(counts[row]);
    }
}
