// The slots of a row issue: results begin to wait, and then stores write.
ghost use Rattle.std.specs.Prelude.{◌≡◌, ℕ, ◌+◌, ◌^◌, ◌<◌, ◌≤◌, [], ◌∷◌, length};
ghost use Rattle.engine_laws.specs.Rows.{slots_from};
ghost use Rattle.engine_slots.specs.Slots.{slot_of, SlotWithin};
ghost use Rattle.engine_slots.specs.Rows.{slot_at};
ghost use Rattle.engine_writes.specs.Lists.{lists_of};
ghost use Rattle.engine_writes.specs.Steps.{Waited, Stored};

use crate::dues::Dues;
use crate::operands::Operands;
use crate::waiting::Waiting;
use code::form::Code;
use engine_slots::program::Program;
use engine_slots::slot::{Row, Slot};
use operations::Operation;
use reach::reaching::find_cell;
use registers::scheme::Scheme;
use values::domain::Domain;

// The result of a slot begins to wait.
fn await_one<D: Domain>(
    operands: &Operands<'_, D>,
    memory: &[D::Value],
    row: Row,
    slot: Slot,
    waiting: &mut [Waiting<D::Value>],
    dues: &mut Dues,
)
    requires { (SlotWithin (length operands.now.values.now) slot) × ((slot.target < length waiting.old) × (row.cycle + 8 < 2 ^ 64)) }
    ensures { (file : ℕ) → slot.target < file → Waited D.operations operands.now.values.now row.pass memory.now row.cycle file (slot_of slot ∷ [])
        waiting.old (lists_of dues.old) waiting.new (lists_of dues.new) }
{
    if slot.operation.makes() {
        let iteration = row.pass.saturating_sub(slot.stage);
        let value = operands.evaluate(memory, slot.operation, iteration);
        let due = row.cycle + slot.timing.latency;
        waiting[slot.target] = Waiting { due, value };
        dues.push(due, slot.target);
    }
}

// A store writes, if its cell is in memory.
fn store_one<D: Domain>(operands: &Operands<'_, D>, row: Row, slot: Slot, memory: &mut [D::Value])
    requires { SlotWithin (length operands.now.values.now) slot }
    ensures { Stored D.operations operands.now.values.now row.pass (slot_of slot ∷ []) memory.old memory.new }
{
    if let Operation::Store(source, cell) = slot.operation {
        let iteration = row.pass.saturating_sub(slot.stage);
        if let Some(x) = find_cell(cell, iteration, memory.len()) {
            memory[x] = operands.read(source);
        }
    }
}

// All results of a row begin to wait.
pub fn await_all<C: Code, S: Scheme, D: Domain>(
    program: &Program<'_, C, S>,
    operands: &Operands<'_, D>,
    memory: &[D::Value],
    row: Row,
    waiting: &mut [Waiting<D::Value>],
    dues: &mut Dues,
)
    requires soon { row.cycle + 8 < 2 ^ 64 }
    requires fits { ((S.meaning program.now.scheme.now).file ≤ length operands.now.values.now) × ((S.meaning program.now.scheme.now).file ≤ length waiting.old) }
    ensures { Waited D.operations operands.now.values.now row.pass memory.now row.cycle (S.meaning program.now.scheme.now).file
        (slots_from (slot_at (S.meaning program.now.scheme.now).resolve program.now.held.hardware.now.timings (C.issued program.now.code.now) row.pass) row.end row.first)
        waiting.old (lists_of dues.old) waiting.new (lists_of dues.new) }
{
    for place in row.first..row.end {
        if let Some(slot) = program.fetch(row.pass, place) {
            await_one(operands, memory, row, slot, waiting, dues);
        }
    }
}

// All stores of a row write, in order.
pub fn store_all<C: Code, S: Scheme, D: Domain>(
    program: &Program<'_, C, S>,
    operands: &Operands<'_, D>,
    row: Row,
    memory: &mut [D::Value],
)
    requires { (S.meaning program.now.scheme.now).file ≤ length operands.now.values.now }
    ensures { Stored D.operations operands.now.values.now row.pass
        (slots_from (slot_at (S.meaning program.now.scheme.now).resolve program.now.held.hardware.now.timings (C.issued program.now.code.now) row.pass) row.end row.first)
        memory.old memory.new }
{
    for place in row.first..row.end {
        if let Some(slot) = program.fetch(row.pass, place) {
            store_one(operands, row, slot, memory);
        }
    }
}
