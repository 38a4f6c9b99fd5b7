// A loop on its machine, and a plan for it.
ghost use Rattle.std.specs.Prelude.{◌≤◌, length};
ghost use Rattle.model.specs.Schedule.{IsSchedule, stages};
ghost use Rattle.model.specs.Soundness.{hardware};
ghost use Rattle.texts.specs.Records.{machine_seen};
ghost use Rattle.dependence.specs.Loops.{loop_seen};
ghost use Rattle.schedule.specs.Answers.{schedule_of};

use dependence::loops::Loop;
use schedule::Scheduled;
use texts::machine::Machine;

#[derive(Clone, Copy)]
pub struct Body {
    pub machine: Machine,
    pub source: Loop,
}

// A schedule of this very loop on this machine, of at most eight stages.
#[derive(Clone, Copy)]
pub struct Plan {
    pub body: Body,
    pub scheduled: Scheduled,
    ghost schedule: { ∥ IsSchedule (loop_seen body.source) (hardware (machine_seen body.machine) (loop_seen body.source)) (schedule_of scheduled) ∥₁ },
    ghost few: { stages (schedule_of scheduled) (length (loop_seen body.source)) ≤ 8 },
}
