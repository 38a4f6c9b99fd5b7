// The examination of a row.
ghost use Rattle.std.specs.Prelude.{◌≡◌, ◌+◌, ◌^◌, ◌<◌};
ghost use Rattle.engine_laws.specs.Rows.{slots_from, Examined};
ghost use Rattle.engine_slots.specs.Rows.{slot_at, units_of, answered};
ghost use Rattle.engine_slots.specs.Boards.{taken_in};

use crate::board::Board;
use crate::program::Program;
use crate::slot::{Bounds, Denial, Row};
use code::form::Code;
use registers::scheme::Scheme;

impl Board {
    // Asks about each slot of a row, and answers the first no.
    pub fn examine<C: Code, S: Scheme>(
        &mut self,
        program: &Program<'_, C, S>,
        bounds: Bounds,
        row: Row,
    ) -> Result<(), Denial>
        requires { row.cycle + 8 < 2 ^ 64 }
        ensures { Examined (units_of program.now.held.hardware.now.units) bounds.trips bounds.cells row.pass row.cycle
            (slots_from (slot_at (S.meaning program.now.scheme.now).resolve program.now.held.hardware.now.timings (C.issued program.now.code.now) row.pass) row.end row.first)
            self.old.statuses.status (taken_in self.old.units) self.new.statuses.status (taken_in self.new.units) (answered result) }
    {
        let mut n = 0;
        for place in row.first..row.end {
            let Some(slot) = program.fetch(row.pass, place) else {
                continue;
            };
            let units = program.held.hardware.units[slot.timing.class];
            if let Err(question) = self.admit(units, bounds, row, &slot) {
                return Err(Denial { question, slot: n });
            }
            n += 1;
        }
        Ok(())
    }
}
