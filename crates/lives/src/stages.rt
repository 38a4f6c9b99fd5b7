// The stages of a schedule.
ghost use Rattle.std.specs.Prelude.{◌≡◌, ℕ, ◌+◌, ◌/◌, max, length, fold};
ghost use Rattle.model.specs.Schedule.{stages};
ghost use Rattle.dependence.specs.Loops.{loop_seen};
ghost use Rattle.timing.specs.Seen.{schedule_seen};

use dependence::loops::Loop;
use timing::{Schedule, stage_and_row};

// The greatest stage of these times + 1.
fn stages_among(times: &[u16], interval: usize) -> usize
    ensures { result ≡ fold (λ stages time. max stages (time / interval + 1)) 0 times.now }
{
    times.iter().fold(0, |stages, time| {
        let (stage, _) = stage_and_row(usize::from(*time), interval);
        stages.max(stage + 1)
    })
}

// The greatest stage + 1.
pub fn stages_of(l: &Loop, schedule: &Schedule) -> usize
    ensures { result ≡ stages (schedule_seen schedule.now) (length (loop_seen l.now)) }
{
    stages_among(&schedule.times[..l.operations().len()], schedule.interval)
}
