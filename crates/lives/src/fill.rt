// The table of lives of a schedule.
ghost use Rattle.std.specs.Prelude.{◌≡◌, ℕ, ◌+◌, ◌-◌, ◌<◌, ◌≤◌, max, Bool, MatchOption};
ghost use Rattle.model.specs.Limits.{timing};
ghost use Rattle.dependence.specs.Loops.{loop_seen};
ghost use Rattle.timing.specs.Seen.{schedule_seen};
ghost use Rattle.lives.specs.Schedules.{LivesOf};

use crate::ends::last_reads;
use dependence::loops::Loop;
use model::{Life, Timing};
use registers::lives::Lives;
use timing::Schedule;

// The last cycle in which a life may end.
const LAST: usize = 4095;

// The latency of an operation, 0 without a timing.
fn latency_of(timings: &[Timing], operation: usize) -> usize
    ensures { result ≡ (timing timings.now operation).latency }
{
    timings.get(operation).map_or(0, |timing| timing.latency)
}

// From the time of its definer until a value is about to land, or to its last read if that is later; none if it would land too late for any table.
fn life(time: u16, latency: usize, last_read: usize) -> Option<Life>
    ensures { MatchOption result (4095 < time + latency - 1) (λ l. l ≡ record { start = time; end = max (time + latency - 1) last_read }) }
{
    if latency > LAST + 1 {
        return None;
    }
    let start = usize::from(time);
    let landing = (start + latency).saturating_sub(1);
    Some(Life {
        start,
        end: landing.max(last_read),
    })
}

// The lives of the variables of a loop in a schedule, unless they are beyond the limits of a table.
pub fn lives_of(l: &Loop, timings: &[Timing], schedule: &Schedule) -> Option<Lives>
    ensures { LivesOf (loop_seen l.now) timings.now (schedule_seen schedule.now) result }
{
    let mut lives = Lives::new(schedule.interval)?;
    let reads = last_reads(l, schedule);
    for (j, operation) in l.operations().iter().enumerate() {
        if operation.makes() {
            let life = life(schedule.times[j], latency_of(timings, j), reads[j])?;
            if !lives.push(life) {
                return None;
            }
        }
    }
    Some(lives)
}
