// How a reservation table is made, asked and changed.
ghost use Rattle.std.specs.Prelude.{◌≡◌, ℕ, ◌+◌, ◌<◌, ◌≤◌, true, false, not, ◌&&◌, Decides, MatchOption, slice_index};
ghost use Rattle.reservation.specs.Cells.{bookable};
ghost use Rattle.search_laws.specs.Counts.{Has, over, over_in};
ghost use Rattle.reservation.specs.Views.{count, units_of, FewUnits, Possible, Empty, crowds_of, fits_of, Booked, Released};
ghost use Rattle.reservation.specs.Uses.{UsesAt, HasUses, overfull_by, overfull_among};

use crate::rows::Rows;
use crate::table::ReservationTable;
use crate::uses::Uses;
use model::Timing;

const CLASSES: usize = 8;

const UNITS: usize = 8;

const BUSY: usize = 8;

const LAST: usize = 99_999;

// The units of eight classes, unless there are too many.
fn unit_counts(units: &[usize]) -> Option<[usize; 8]>
    ensures { MatchOption result (FewUnits units.now → ⊥) (λ a. FewUnits units.now × ((u : ℕ) → slice_index a u ≡ slice_index units.now u)) }
{
    if units.len() > CLASSES || units.iter().any(|count| *count > UNITS) {
        return None;
    }
    let mut counts = [0; 8];
    counts[..units.len()].copy_from_slice(units);
    Some(counts)
}

impl ReservationTable {
    // An empty table, where there can be one.
    pub fn new(units: &[usize], interval: usize) -> Option<ReservationTable>
        ensures { MatchOption result (Possible units.now interval → ⊥) (λ t. Possible units.now interval × Empty units.now interval t) }
    {
        if !(1..=256).contains(&interval) {
            return None;
        }
        let counts = unit_counts(units)?;
        Some(ReservationTable {
            rows: Rows::new(),
            units: counts,
            interval,
        })
    }

    // The uses of a class in a row.
    pub fn in_use(&self, class: usize, row: usize) -> usize
        ensures inside { class < 8 → row < 256 → result ≡ count self.now class row }
        ensures held { class < 8 → result ≤ units_of self.now class }
        ensures outside { ((class < 8) × (row < 256) → ⊥) → result ≡ 0 }
    {
        self.rows.count(class, row)
    }

    // The uses of a class for so many cycles from a time on, if the table takes them.
    fn uses(&self, class: usize, busy: usize, time: usize) -> Option<Uses>
        ensures { MatchOption result (bookable class busy time ≡ false) (UsesAt self.now.interval class busy time) }
    {
        if class < CLASSES && busy <= BUSY && time <= LAST {
            Some(Uses {
                interval: self.interval,
                class,
                time,
                busy,
            })
        } else {
            None
        }
    }

    // With these uses too a row would be overfull.
    fn overfull(&self, uses: &Uses, row: usize) -> bool
        requires { row < 256 }
        ensures { result ≡ overfull_by self.now uses.now row }
    {
        self.rows.at(uses.class, row) + uses.in_row(row) > self.units[uses.class]
    }

    // One of the other uses is in a row that would be overfull.
    fn overfull_in(&self, uses: &Uses, others: &Uses) -> bool
        ensures { result ≡ overfull_among self.now uses.now others.now }
    {
        others
            .cycles()
            .any(|cycle| self.overfull(uses, uses.row(cycle)))
    }

    // Another operation of the class, from `from` on for so many cycles, is in a row that an operation at `time` would make overfull.
    pub fn crowds(&self, timing: Timing, time: usize, from: usize, cycles: usize) -> bool
        ensures { result ≡ (bookable timing.class timing.busy time && bookable timing.class cycles from) && crowds_of self.now timing time from cycles }
    {
        let uses = self.uses(timing.class, timing.busy, time);
        let others = self.uses(timing.class, cycles, from);
        uses.zip(others)
            .is_some_and(|(uses, others)| self.overfull_in(&uses, &others))
    }

    // The uses of an operation at `time`, if they fit beside those booked.
    fn fitting(&self, timing: Timing, time: usize) -> Option<Uses>
        ensures { MatchOption result (fits_of self.now timing time ≡ false) (λ u. (fits_of self.now timing time ≡ true) × UsesAt self.now.interval timing.class timing.busy time u) }
    {
        self.uses(timing.class, timing.busy, time)
            .filter(|uses| !self.overfull_in(uses, uses))
    }

    // The uses of an operation at `time` fit beside those booked.
    pub fn fits(&self, timing: Timing, time: usize) -> bool
        ensures { result ≡ fits_of self.now timing time }
    {
        self.fitting(timing, time).is_some()
    }

    // Books an operation, if it fits.
    pub fn book(&mut self, timing: Timing, time: usize) -> bool
        ensures { Booked self.old self.new timing time result }
    {
        let Some(uses) = self.fitting(timing, time) else {
            return false;
        };
        self.rows.change(&uses, |count| count.saturating_add(1));
        true
    }

    // The uses are booked.
    fn holds(&self, uses: &Uses) -> bool
        ensures { Decides result (HasUses self.now uses.now) }
    {
        uses.cycles().all(|cycle| {
            let row = uses.row(cycle);
            uses.in_row(row) <= self.rows.at(uses.class, row)
        })
    }

    // Releases an operation, if it is booked.
    pub fn release(&mut self, timing: Timing, time: usize) -> bool
        ensures { Released self.old self.new timing time result }
    {
        let Some(uses) = self.uses(timing.class, timing.busy, time) else {
            return false;
        };
        if !self.holds(&uses) {
            return false;
        }
        self.rows.change(&uses, |count| count.saturating_sub(1));
        true
    }
}
