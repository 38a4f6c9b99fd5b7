// What a loop takes of a machine.
ghost use Rattle.std.specs.Prelude.{◌≡◌, ℕ, ◌+◌, ◌<◌, ◌≤◌, map, length, take, slice_index};
ghost use Rattle.few.specs.Held.{held};
ghost use Rattle.model.specs.Soundness.{timing_of, timings_of, units_of};
ghost use Rattle.texts.specs.Records.{machine_seen};
ghost use Rattle.dependence.specs.Operations.{operation_seen};
ghost use Rattle.dependence.specs.Loops.{loop_seen};

use crate::loops::Loop;
use few::Few;
use model::{Code, Timing};
use texts::machine::Machine;
use texts::machine_text::code_number;

// What a machine makes of a code.
pub fn timing_of(machine: &Machine, code: Code) -> Timing
    ensures { result ≡ timing_of (machine_seen machine.now) code }
{
    let said = machine.entries.timings[code_number(code)];
    match said {
        Some(timing) => timing,
        None => Timing {
            class: 0,
            latency: 0,
            busy: 0,
        },
    }
}

// What each operation takes of the machine.
pub fn timings_of(machine: &Machine, l: &Loop) -> Few<Timing, 32>
    ensures { held result ≡ timings_of (machine_seen machine.now) (loop_seen l.now) }
{
    let nothing = Timing {
        class: 0,
        latency: 0,
        busy: 0,
    };
    l.body
        .map(nothing, |operation| timing_of(machine, operation.code()))
}

// The units of each class, and 0 behind the last.
pub fn units_of(machine: &Machine) -> [usize; 8]
    ensures whole { length result ≡ 8 }
    ensures value { take (length (held machine.now.entries.classes)) result ≡ units_of (machine_seen machine.now) }
    ensures behind { (u : ℕ) → length (held machine.now.entries.classes) ≤ u → slice_index result u ≡ 0 }
{
    let mut units = [0usize; 8];
    let classes = machine.entries.classes.as_slice();
    for (place, class) in classes.iter().enumerate() {
        units[place] = class.units;
    }
    units
}
