// What a slot loads, computes or stores.
ghost use Rattle.std.specs.Prelude.{◌≡◌, ℕ, length, slice_index_or};
ghost use Rattle.model.specs.Loop.{cell as cell_of};
ghost use Rattle.model.specs.Plain.{nought, evaluate as evaluated};
ghost use Rattle.model.specs.Driving.{source_value};
ghost use Rattle.engine_slots.specs.Slots.{source_of, operation_of, SourceWithin, OperationWithin};
ghost use Rattle.engine_writes.specs.Files.{value_file};

use crate::operands::Operands;
use engine_slots::slot::Resolved;
use operations::{Cell, Operation};
use reach::reaching::find_cell;
use values::domain::Domain;

// What a load of an iteration finds; the value of 0 outside memory.
pub fn load<D: Domain>(domain: &D, memory: &[D::Value], cell: Cell, iteration: usize) -> D::Value
    ensures { result ≡ slice_index_or memory.now (cell_of cell.stride cell.offset iteration) (nought D.operations) }
{
    match find_cell(cell, iteration, memory.len()) {
        Some(x) => memory[x],
        None => domain.literal(0),
    }
}

impl<D: Domain> Operands<'_, D> {
    // What an operand is worth.
    pub fn read(&self, source: Resolved) -> D::Value
        requires { SourceWithin (length self.now.values.now) source }
        ensures { result ≡ source_value D.operations (value_file (nought D.operations) self.now.values.now) (source_of source) }
    {
        match source {
            Resolved::Literal(z) => self.domain.literal(z),
            Resolved::Register(r) => self.values[r],
        }
    }

    pub fn evaluate(
        &self,
        memory: &[D::Value],
        operation: Operation<Resolved>,
        iteration: usize,
    ) -> D::Value
        requires { OperationWithin (length self.now.values.now) operation }
        ensures { result ≡ evaluated D.operations (source_value D.operations (value_file (nought D.operations) self.now.values.now)) (operation_of operation) iteration memory.now }
    {
        match operation {
            Operation::Load(cell) => load(self.domain, memory, cell, iteration),
            Operation::Store(value, _) | Operation::Move(value) => self.read(value),
            Operation::Binary(operator, left, right) => {
                let a = self.read(left);
                let b = self.read(right);
                self.domain.apply(operator, a, b)
            }
        }
    }
}
