// The questions about a slot, by the tables.
ghost use Rattle.std.specs.Prelude.{◌≡◌, ℕ, ◌+◌, ◌-◌, ◌^◌, ◌<◌, ◌&&◌, Ok, nat_le, nat_lt};
ghost use Rattle.model.specs.declared.Status.{Status as OneStatus};
ghost use Rattle.engine_laws.specs.Parts.{status_after, taken_after};
ghost use Rattle.engine_laws.specs.Tracks.{Tracks, verdict_by};
ghost use Rattle.engine_slots.specs.Slots.{slot_of, SlotWithin};
ghost use Rattle.engine_slots.specs.Rows.{question_answered};
ghost use Rattle.engine_slots.specs.Boards.{taken_in};

use crate::board::Board;
use crate::slot::{Bounds, Row, Slot};
use model::Question;
use reach::reaching::is_held;

fn does_run(pass: usize, stage: usize, trips: usize) -> bool
    ensures { result ≡ (nat_le stage pass && nat_lt (pass - stage) trips) }
{
    stage <= pass && pass - stage < trips
}

impl Board {
    // The first question about a slot that is answered no; its class has so many units.
    pub fn ask(&self, units: usize, bounds: Bounds, row: Row, slot: &Slot) -> Result<(), Question>
        requires { (SlotWithin 256 slot.now) × (row.cycle + 8 < 2 ^ 64) }
        ensures { result ≡ question_answered (verdict_by self.now.statuses.status (taken_in self.now.units) (λ _. units) bounds.trips bounds.cells row.pass row.cycle (slot_of slot.now)) }
    {
        let timing = slot.timing;
        if !self
            .units
            .are_free(units, row.cycle, timing.class, timing.busy)
        {
            return Err(Question::UnitFree);
        }
        if !self.statuses.have_landed(slot.operation) {
            return Err(Question::OperandsLanded);
        }
        if !does_run(row.pass, slot.stage, bounds.trips) {
            return Err(Question::IterationRuns);
        }
        let iteration = row.pass.saturating_sub(slot.stage);
        if !is_held(&slot.operation, iteration, bounds.cells) {
            return Err(Question::CellInMemory);
        }
        if slot.operation.makes() && self.statuses.does_await(slot.target) {
            return Err(Question::ResultFree);
        }
        Ok(())
    }

    // Asks about a slot; where nothing is answered no, it takes its unit and its result register awaits a write.
    pub fn admit(
        &mut self,
        units: usize,
        bounds: Bounds,
        row: Row,
        slot: &Slot,
    ) -> Result<(), Question>
        requires { (SlotWithin 256 slot.now) × (row.cycle + 8 < 2 ^ 64) }
        ensures verdict { result ≡ question_answered (verdict_by self.old.statuses.status (taken_in self.old.units) (λ _. units) bounds.trips bounds.cells row.pass row.cycle (slot_of slot.now)) }
        ensures tracked { (s : ℕ → OneStatus) (t : ℕ → ℕ → ℕ) → Tracks row.cycle self.old.statuses.status (taken_in self.old.units) s t → result ≡ Ok tt →
            Tracks row.cycle self.new.statuses.status (taken_in self.new.units) (status_after (slot_of slot.now) s) (taken_after row.cycle (slot_of slot.now) t) }
    {
        self.ask(units, bounds, row, slot)?;
        self.units
            .take(row.cycle, slot.timing.class, slot.timing.busy);
        if slot.operation.makes() {
            self.statuses.await_write(slot.target);
        }
        Ok(())
    }
}
