// How a loop in its schedule is prepared for writing, and how deep and how far back it goes.
ghost use Rattle.std.specs.Prelude.{◌≡◌, ℕ, ◌≤◌, length};
ghost use Rattle.few.specs.Held.{held};
ghost use Rattle.model.specs.Schedule.{stages as stages_of};
ghost use Rattle.model.specs.ScheduleLives.{greatest};
ghost use Rattle.model.specs.Listing.{distance as distance_of, farthest as farthest_of};
ghost use Rattle.timing.specs.Seen.{schedule_seen};
ghost use Rattle.dependence.specs.Operations.{operand_seen, operation_seen};
ghost use Rattle.dependence.specs.Loops.{loop_seen};
ghost use Rattle.listing.specs.Placed.{operations_placed, AllPlaced};
ghost use Rattle.listing.specs.Views.{loop_of, schedule_of};

use crate::body::Body;
use crate::placed::Placed;
use dependence::loops::Loop;
use dependence::operation::{Operand, Operation};
use few::Few;
use registers::scheme::Scheme;
use timing::{Schedule, stage_and_row};

// Each operation of a loop with its place in a schedule.
fn place_all(source: &Loop, schedule: &Schedule) -> Few<Placed, 32>
    ensures operations { operations_placed (held result) ≡ loop_seen source.now }
    ensures standing { AllPlaced (loop_seen source.now) (schedule_seen schedule.now) (held result) }
{
    let mut all = Few::new(Placed {
        operation: Operation::Move(Operand::Literal(0)),
        variable: 0,
        stage: 0,
        row: 0,
    });
    let mut variable = 0usize;
    for (operation, time) in source.operations().iter().zip(&schedule.times) {
        let (stage, row) = stage_and_row(usize::from(*time), schedule.interval);
        let placed = Placed {
            operation: *operation,
            variable,
            stage,
            row,
        };
        let Ok(()) = all.push(placed) else {
            unreachable!();
        };
        variable += usize::from(operation.makes());
    }
    all
}

fn distance(operand: Operand) -> usize
    ensures { result ≡ distance_of (operand_seen operand) }
{
    match operand {
        Operand::Literal(_) => 0,
        Operand::Variable { distance, .. } => distance,
    }
}

fn greatest_distance(operation: Operation) -> usize
    ensures { result ≡ greatest distance_of (operation_seen operation) }
{
    match operation {
        Operation::Load(_) => 0,
        Operation::Store(a, _) | Operation::Move(a) => distance(a),
        Operation::Binary(_, a, b) => distance(a).max(distance(b)),
    }
}

impl<'a, S: Scheme> Body<'a, S> {
    pub(crate) fn new(
        source: &Loop,
        schedule: &Schedule,
        scheme: &'a S,
        turns: usize,
        trips: usize,
    ) -> Body<'a, S>
        requires { 1 ≤ turns }
        ensures source { loop_of result ≡ loop_seen source.now }
        ensures schedule { result.schedule ≡ schedule.now }
        ensures scheme { result.scheme.now ≡ scheme.now }
        ensures turns { result.turns ≡ turns }
        ensures trips { result.trips ≡ trips }
    {
        Body {
            placed: place_all(source, schedule),
            schedule: *schedule,
            scheme,
            turns,
            trips,
        }
    }

    // The operations in their places, in text order.
    pub(crate) fn placed(&self) -> &[Placed]
        ensures { result.now ≡ held self.now.placed }
    {
        self.placed.as_slice()
    }

    // The number of stages.
    pub(crate) fn depth(&self) -> usize
        ensures { result ≡ stages_of (schedule_of self.now) (length (loop_of self.now)) }
    {
        self.placed()
            .iter()
            .fold(0, |depth, placed| depth.max(placed.stage + 1))
    }

    // The greatest distance of an operand.
    pub(crate) fn farthest(&self) -> usize
        ensures { result ≡ farthest_of (loop_of self.now) (length (loop_of self.now)) }
    {
        self.placed().iter().fold(0, |farthest, placed| {
            farthest.max(greatest_distance(placed.operation))
        })
    }
}
