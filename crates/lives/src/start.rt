// How the sequential schedule is made.
ghost use Rattle.std.specs.Prelude.{◌≡◌, ◌≤◌};
ghost use Rattle.lives.specs.Schedules.{SequenceOf};

use model::Timing;
use timing::Schedule;

const OPERATIONS: usize = 32;

const LONGEST: usize = 256;

// The sequential schedule of operations with these timings; none for more than 32, or where the sum of the latencies is above 256.
pub fn in_sequence(timings: &[Timing]) -> Option<Schedule>
    ensures { SequenceOf timings.now result }
{
    if timings.len() > OPERATIONS {
        return None;
    }
    let mut times = [0; 32];
    let mut interval = 0;
    for (j, timing) in timings.iter().enumerate() {
        times[j] = interval as u16;
        if timing.latency > LONGEST - interval {
            return None;
        }
        interval += timing.latency;
    }
    Some(Schedule { interval, times })
}
