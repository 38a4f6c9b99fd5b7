// The run.
ghost use Rattle.std.specs.Prelude.{◌≡◌, ℕ, ◌+◌, ◌*◌, ◌^◌, ◌<◌, ◌≤◌, true, length, MatchOption, OnOk};
ghost use Rattle.model.specs.Limits.{timing};
ghost use Rattle.model.specs.Driving.{all_below, run as run_of, drive as driven};
ghost use Rattle.model.specs.Codes.{form_of};
ghost use Rattle.engine_slots.specs.Slots.{TimingsHeld};
ghost use Rattle.engine_slots.specs.Rows.{units_of};
ghost use Rattle.engine.specs.Answers.{timing_held, begins, lent, Driven, Ran};

use crate::answer::{Fault, Halt, Refusal};
use crate::driver::Driver;
use crate::run::{Moment, Run};
use crate::tables::Tables;
use code::form::Code;
use engine_slots::held::Held;
use engine_slots::program::Program;
use engine_slots::slot::Hardware;
use engine_slots::units::{AHEAD, CLASSES};
use engine_writes::waiting::Waiting;
use model::Timing;
use registers::scheme::Scheme;
use values::domain::Domain;

// The codes of operations.
const CODES: usize = 6;

// The most cycles: a due cycle may lie so many behind the last one.
const MOST: usize = usize::MAX - AHEAD;

fn is_held(timing: Timing) -> bool
    ensures { result ≡ timing_held timing }
{
    timing.class < CLASSES && timing.latency <= AHEAD && timing.busy <= AHEAD
}

// Whether the tables can follow each timing.
fn are_held(timings: &[Timing; CODES]) -> bool
    ensures is { result ≡ all_below (λ j. timing_held (timing timings.now j)) 6 }
    ensures held { result ≡ true → TimingsHeld timings.now }
{
    timings.iter().all(|timing| is_held(*timing))
}

fn count_cycles(run: Run) -> Option<usize>
    ensures { MatchOption result (2 ^ 64 ≤ run.passes * run.interval + 8) (λ n. (n ≡ run.passes * run.interval) × (n + 8 < 2 ^ 64)) }
{
    let cycles = run.passes.checked_mul(run.interval)?;
    if cycles > MOST { None } else { Some(cycles) }
}

// The cycles of a run for which so many entries are lent, or why it is not begun.
fn begin(
    timings: &[Timing; CODES],
    file: usize,
    values: usize,
    waiting: usize,
    run: Run,
) -> Result<usize, Refusal>
    ensures is { result ≡ begins timings.now file values waiting (run.passes * run.interval) }
    ensures held { OnOk result (TimingsHeld timings.now) }
{
    if !are_held(timings) {
        return Err(Refusal::Timing);
    }
    if values < file || waiting < file {
        return Err(Refusal::Files);
    }
    count_cycles(run).ok_or(Refusal::Cycles)
}

impl<C: Code, S: Scheme, D: Domain> Driver<'_, C, S, D> {
    // Runs so many cycles, each pass one interval, unless a no stops them.
    fn run_cycles(
        &self,
        interval: usize,
        cycles: usize,
        memory: &mut [D::Value],
        values: &mut [D::Value],
        waiting: &mut [Waiting<D::Value>],
    ) -> Result<(), Fault>
        requires soon { cycles + 8 < 2 ^ 64 }
        requires passes { interval ≡ 0 → cycles ≡ 0 }
        requires fits { ((S.meaning self.now.program.scheme.now).file ≤ length values.old) × ((S.meaning self.now.program.scheme.now).file ≤ length waiting.old) }
        ensures { Ran D.operations
            (run_of D.operations (units_of self.now.program.held.hardware.now.units) interval self.now.trips
            (form_of (S.meaning self.now.program.scheme.now).resolve self.now.program.held.hardware.now.timings interval (C.form self.now.program.code.now)) cycles
            (lent D.operations memory.old values.old waiting.old))
            memory.new values.new waiting.new result }
    {
        let mut tables = Tables::new();
        let mut pass = 0;
        let mut row = 0;
        for cycle in 0..cycles {
            let moment = Moment { pass, row, cycle };
            if let Err(denial) = self.run_cycle(moment, memory, values, waiting, &mut tables) {
                return Err(Fault {
                    question: denial.question,
                    cycle,
                    slot: denial.slot,
                });
            }
            row += 1;
            if row == interval {
                row = 0;
                pass += 1;
            }
        }
        Ok(())
    }
}

// Runs code on the driving machine, with memory and both files lent, and answers its cycles.
pub fn drive<'a, C: Code, S: Scheme, D: Domain>(
    code: &'a C,
    scheme: &'a S,
    domain: &'a D,
    hardware: &'a Hardware,
    run: Run,
    memory: &mut [D::Value],
    values: &mut [D::Value],
    waiting: &mut [Waiting<D::Value>],
) -> Result<usize, Halt>
    ensures { Driven D.operations
        (begins hardware.now.timings (S.meaning scheme.now).file (length values.old) (length waiting.old) (run.passes * run.interval))
        (driven D.operations (units_of hardware.now.units) run.interval run.trips
        (form_of (S.meaning scheme.now).resolve hardware.now.timings run.interval (C.form code.now)) run.passes
        (lent D.operations memory.old values.old waiting.old))
        memory.old values.old waiting.old memory.new values.new waiting.new result }
{
    let cycles = begin(
        &hardware.timings,
        scheme.file(),
        values.len(),
        waiting.len(),
        run,
    )?;
    let driver = Driver {
        program: Program {
            code,
            scheme,
            held: Held { hardware },
        },
        domain,
        trips: run.trips,
    };
    driver.run_cycles(run.interval, cycles, memory, values, waiting)?;
    Ok(cycles)
}
