// The last reads of the values of iteration 0.
ghost use Rattle.std.specs.Prelude.{◌≡◌, ℕ, ◌≤◌, length, slice_index};
ghost use Rattle.model.specs.Loop.{EachOperand};
ghost use Rattle.model.specs.ScheduleLives.{last_read};
ghost use Rattle.dependence.specs.Operations.{operand_seen, operation_seen};
ghost use Rattle.dependence.specs.Loops.{loop_seen};
ghost use Rattle.timing.specs.Seen.{schedule_seen};
ghost use Rattle.lives.specs.Reads.{Near, Noted, NotedAll};

use dependence::loops::Loop;
use dependence::operation::{Operand, Operation};
use timing::Schedule;

// Notes when an operand of an operation at `time` reads.
fn note(ends: &mut [usize; 32], operand: Operand, time: u16, interval: usize)
    requires near { Near (operand_seen operand) }
    requires interval { interval ≤ 256 }
    ensures { Noted time interval (operand_seen operand) ends.old ends.new }
{
    if let Operand::Variable { definer, distance } = operand {
        let last = usize::from(time) + distance * interval;
        ends[definer] = ends[definer].max(last);
    }
}

// Notes when an operation at `time` reads.
fn note_operation(ends: &mut [usize; 32], operation: Operation, time: u16, interval: usize)
    requires near { EachOperand Near (operation_seen operation) }
    requires interval { interval ≤ 256 }
    ensures { NotedAll time interval (operation_seen operation) ends.old ends.new }
{
    match operation {
        Operation::Load(_) => {}
        Operation::Store(value, _) => note(ends, value, time, interval),
        Operation::Binary(_, left, right) => {
            note(ends, left, time, interval);
            note(ends, right, time, interval);
        }
        Operation::Move(value) => note(ends, value, time, interval),
    }
}

// When what each operation makes is last read, 0 if it is not.
pub(crate) fn last_reads(l: &Loop, schedule: &Schedule) -> [usize; 32]
    requires { schedule.now.interval ≤ 256 }
    ensures { (v : ℕ) → slice_index result v ≡ last_read (loop_seen l.now) (schedule_seen schedule.now) v (length (loop_seen l.now)) }
{
    let mut ends = [0; 32];
    for (operation, time) in l.operations().iter().zip(&schedule.times) {
        note_operation(&mut ends, *operation, *time, schedule.interval);
    }
    ends
}
