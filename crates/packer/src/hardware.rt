// The machine as the driving machine takes it.
ghost use Rattle.std.specs.Prelude.{◌≡◌, ℕ, slice_index};
ghost use Rattle.model.specs.Soundness.{units_of};
ghost use Rattle.guarantee.specs.Guarantees.{code_timings};
ghost use Rattle.texts.specs.Records.{machine_seen};
ghost use Rattle.engine_slots.specs.Rows.{units_of as units_in};

use dependence::hardware::{timing_of, units_of};
use engine_slots::slot::Hardware;
use model::Code;
use texts::machine::Machine;

pub(crate) fn hardware_of(machine: &Machine) -> Hardware
    ensures timings { result.timings ≡ code_timings (machine_seen machine.now) }
    ensures units { (u : ℕ) → units_in result.units u ≡ slice_index (units_of (machine_seen machine.now)) u }
{
    Hardware {
        timings: [
            timing_of(machine, Code::Load),
            timing_of(machine, Code::Store),
            timing_of(machine, Code::Add),
            timing_of(machine, Code::Sub),
            timing_of(machine, Code::Mul),
            timing_of(machine, Code::Move),
        ],
        units: units_of(machine),
    }
}
