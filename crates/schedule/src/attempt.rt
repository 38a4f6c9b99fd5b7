// The attempt at an interval.
ghost use Rattle.std.specs.Prelude.{◌≡◌, ℕ, ◌<◌, ◌≤◌, length, slice_index};
ghost use Rattle.std.specs.Option.{unwrap_or};
ghost use Rattle.model.specs.Lives.{Limits};
ghost use Rattle.model.specs.Schedule.{stages};
ghost use Rattle.reservation.specs.Times.{times_of};
ghost use Rattle.timing.specs.Seen.{schedule_seen};
ghost use Rattle.lives.specs.Schedules.{latencies};
ghost use Rattle.schedule.specs.Problems.{operations_in, lives_in};
ghost use Rattle.schedule.specs.Choices.{OfferOf, AttemptOf};

use crate::choice::{Attempt, Choice};
use crate::problem::Problem;
use lives::{lives_of, stages_of};
use registers::scheme::Scheme;
use reservation::TimeTable;
use search::search;
use std::array;
use timing::Schedule;

// The most stages of a schedule.
const STAGES: usize = 8;

// The times of all operations, 0 for one without.
fn times_of(table: &TimeTable) -> [u16; 32]
    ensures { (j : ℕ) → slice_index result j ≡ unwrap_or (times_of table.now j) 0 }
{
    array::from_fn(|j| table.at(j).unwrap_or(0))
}

impl Problem<'_> {
    // Offers a schedule to the scheme, if it has few enough stages.
    pub(crate) fn offer<S: Scheme>(&self, scheme: &mut S, schedule: Schedule) -> Option<Choice>
        requires { stages (schedule_seen schedule) (length (operations_in self.now)) ≤ 8 → Limits (lives_in self.now (schedule_seen schedule)) }
        ensures { OfferOf S.meaning S.place self.now schedule scheme.old scheme.new result }
    {
        let stages = stages_of(self.source, &schedule);
        if stages > STAGES {
            return None;
        }
        let lives = lives_of(self.source, self.timings, &schedule)?;
        let turns = scheme.fit(&lives)?;
        Some(Choice {
            schedule,
            stages,
            turns,
        })
    }

    // Searches at an interval, and offers what is found.
    pub(crate) fn attempt<S: Scheme>(&self, scheme: &mut S, interval: usize) -> Attempt
        requires low { self.now.minimum.value ≤ interval }
        requires below { interval < latencies self.now.timings.now (length self.now.timings.now) }
        ensures { AttemptOf S.meaning S.place self.now interval scheme.old scheme.new result }
    {
        let outcome = search(self.edges, self.timings, self.units, interval).unwrap();
        let steps = outcome.steps;
        let Some(table) = outcome.times else {
            return Attempt {
                choice: None,
                steps,
            };
        };
        let times = times_of(&table);
        let choice = self.offer(scheme, Schedule { interval, times });
        Attempt { choice, steps }
    }
}
