// The choice of an interval.
ghost use Rattle.schedule.specs.Choices.{ChoiceOf};

use crate::answer::Scheduled;
use crate::problem::Problem;
use lives::in_sequence;
use registers::scheme::Scheme;

impl Problem<'_> {
    // The first interval from the minimum on at which an attempt succeeds; at the sum of the latencies the sequential schedule, if the scheme takes it.
    pub(crate) fn choose<S: Scheme>(&self, scheme: &mut S) -> Option<Scheduled>
        ensures { ChoiceOf S.meaning S.place self.now scheme.old scheme.new result }
    {
        let minimum = self.minimum;
        let sequence = in_sequence(self.timings)?;
        let mut steps = 0;
        for interval in minimum.value..sequence.interval {
            let attempt = self.attempt(scheme, interval);
            steps += attempt.steps;
            if let Some(choice) = attempt.choice {
                return Some(Scheduled {
                    minimum,
                    choice,
                    steps,
                });
            }
        }
        let choice = self.offer(scheme, sequence)?;
        Some(Scheduled {
            minimum,
            choice,
            steps,
        })
    }
}
