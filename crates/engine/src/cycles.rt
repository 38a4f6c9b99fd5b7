// One cycle.
ghost use Rattle.std.specs.Prelude.{◌≡◌, ℕ, ◌+◌, ◌/◌, ◌%◌, ◌^◌, ◌<◌, ◌≤◌, length};
ghost use Rattle.model.specs.Codes.{form_of};
ghost use Rattle.engine_laws.specs.Dues.{Registers};
ghost use Rattle.engine_slots.specs.Rows.{units_of};
ghost use Rattle.engine_writes.specs.Lists.{lists_of};
ghost use Rattle.engine.specs.Runs.{CycleKept};

use crate::driver::Driver;
use crate::run::Moment;
use crate::tables::Tables;
use code::form::Code;
use engine_slots::slot::{Bounds, Denial, Row};
use engine_writes::issuing::{await_all, store_all};
use engine_writes::landing::land;
use engine_writes::operands::Operands;
use engine_writes::waiting::Waiting;
use registers::scheme::Scheme;
use values::domain::Domain;

impl<C: Code, S: Scheme, D: Domain> Driver<'_, C, S, D> {
    // Runs one cycle; a no leaves memory and files as they are after the landings.
    pub(crate) fn run_cycle(
        &self,
        moment: Moment,
        memory: &mut [D::Value],
        values: &mut [D::Value],
        waiting: &mut [Waiting<D::Value>],
        tables: &mut Tables,
    ) -> Result<(), Denial>
        requires soon { moment.cycle + 8 < 2 ^ 64 }
        requires fits { ((S.meaning self.now.program.scheme.now).file ≤ length values.old) × ((S.meaning self.now.program.scheme.now).file ≤ length waiting.old) }
        requires kept { Registers (lists_of tables.old.dues) (S.meaning self.now.program.scheme.now).file }
        ensures { (k : ℕ) → moment.cycle / k ≡ moment.pass → moment.cycle % k ≡ moment.row →
            CycleKept D.operations (units_of self.now.program.held.hardware.now.units) self.now.trips (S.meaning self.now.program.scheme.now).file k moment.cycle
            (form_of (S.meaning self.now.program.scheme.now).resolve self.now.program.held.hardware.now.timings k (C.form self.now.program.code.now))
            memory.old values.old waiting.old tables.old
            memory.new values.new waiting.new tables.new result }
    {
        let program = &self.program;
        land(
            moment.cycle,
            program.scheme.file(),
            &mut tables.dues,
            waiting,
            &mut tables.board.statuses,
            values,
        );
        let (first, end) = program.code.row(moment.pass, moment.row);
        let row = Row {
            pass: moment.pass,
            cycle: moment.cycle,
            first,
            end,
        };
        let bounds = Bounds {
            trips: self.trips,
            cells: memory.len(),
        };
        tables.board.examine(program, bounds, row)?;
        let operands = Operands {
            domain: self.domain,
            values,
        };
        await_all(program, &operands, memory, row, waiting, &mut tables.dues);
        store_all(program, &operands, row, memory);
        tables.board.units.clear(moment.cycle);
        Ok(())
    }
}
