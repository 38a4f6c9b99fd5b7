// The plan: the first interval at which a search succeeds, or the sequential schedule.
ghost use Rattle.texts.specs.Records.{machine_seen};
ghost use Rattle.dependence.specs.Loops.{loop_seen};
ghost use Rattle.schedule.specs.Answers.{ScheduleOf};

use crate::answer::{NoSchedule, Scheduled};
use crate::problem::Problem;
use bounds::minimum;
use dependence::hardware::{timings_of, units_of};
use dependence::loops::Loop;
use model::Edge;
use registers::scheme::Scheme;
use texts::machine::Machine;

// Schedules a loop with these edges, for a register scheme, which has then accepted the lives.
pub fn schedule_loop<S: Scheme>(
    machine: &Machine,
    l: &Loop,
    edges: &[Edge],
    scheme: &mut S,
) -> Result<Scheduled, NoSchedule>
    ensures { ScheduleOf S.meaning S.place (machine_seen machine.now) (loop_seen l.now) edges.now scheme.old scheme.new result }
{
    let timings = timings_of(machine, l);
    let units = units_of(machine);
    let timings = timings.as_slice();
    let classes = machine.entries.classes.as_slice();
    let units = &units[..classes.len()];
    let minimum = minimum(edges, timings, units)?;
    let problem = Problem {
        source: l,
        edges,
        timings,
        units,
        minimum,
    };
    problem.choose(scheme).ok_or(NoSchedule::NotTaken)
}
