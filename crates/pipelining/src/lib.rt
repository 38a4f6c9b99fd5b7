// The functions that carry the pipelining theorem: it stands in their contracts.
#![tactic(auto)]

ghost use Rattle.model.specs.Pipelining.{Pipelining, StagesByTimes};
ghost use Rattle.model.specs.ScheduleLives.{LivesLast};

// The driving machine, on any schedule of at most eight stages, with any lawful places and any code form that means the schedule's issues,
// does what the plain loop does, for every kind of value.
pub fn pipelining_stands<V>()
    ensures { Pipelining V }
{}

// The lives of a schedule last to their landings and last reads, and fit a table of lives.
pub fn lives_last()
    ensures { LivesLast }
{}

// At most eight stages, and all times below eight intervals, are one.
pub fn stages_by_times()
    ensures { StagesByTimes }
{}
