// What issues in a pass, in names of registers.
ghost use Rattle.std.specs.Prelude.{◌≡◌, ◌≤◌, ◌==◌, ◌&&◌, ◌-◌, length, nat_le, nat_lt};
ghost use Rattle.model.specs.Loop.{on_operands};
ghost use Rattle.operations.specs.Seen.{EachOwn};
ghost use Rattle.dependence.specs.Operations.{operand_seen, operation_seen};
ghost use Rattle.code.specs.Seen.{source_seen, code_operation_seen};
ghost use Rattle.listing.specs.Views.{slot_seen, loop_of, KnownOperand};
ghost use Rattle.listing.specs.Rows.{operand_of, result_of, slot_of};

use crate::body::Body;
use crate::place::Place;
use crate::placed::Placed;
use crate::slot::Slot;
use code::issue::{Issue, Operation as Issued, Source};
use dependence::operation::{Operand, Operation};
use registers::scheme::Scheme;

impl Placed {
    // Whether it issues in a row of a pass, of so many trips.
    pub(crate) fn issues(&self, trips: usize, pass: usize, row: usize) -> bool
        ensures { result ≡ (self.now.row == row && (nat_le self.now.stage pass && nat_lt (pass - self.now.stage) trips)) }
    {
        self.row == row && self.stage <= pass && pass - self.stage < trips
    }
}

impl<S: Scheme> Body<'_, S> {
    // Where an operand of what stands in a stage comes from; a value from before iteration 0 is the literal 0.
    fn source(&self, pass: usize, stage: usize, operand: Operand) -> Source
        requires begun { stage ≤ pass }
        requires known { KnownOperand (length (loop_of self.now)) operand }
        ensures { source_seen result ≡ operand_of self.now S.meaning pass stage (operand_seen operand) }
    {
        match operand {
            Operand::Literal(z) => Source::Literal(z),
            Operand::Variable { distance, .. } if distance > pass - stage => Source::Literal(0),
            Operand::Variable { definer, distance } => Source::Register(
                self.scheme.name(
                    self.placed()[definer].variable,
                    pass % self.turns,
                    stage + distance,
                ),
            ),
        }
    }

    // An operation over names.
    fn in_names(&self, pass: usize, stage: usize, operation: Operation) -> Issued
        requires begun { stage ≤ pass }
        requires known { EachOwn (KnownOperand (length (loop_of self.now))) operation }
        ensures { code_operation_seen result ≡ on_operands (operand_of self.now S.meaning pass stage) (operation_seen operation) }
    {
        operation.map(|operand| self.source(pass, stage, operand))
    }

    // The name of what an operation makes; a store makes nothing.
    fn result(&self, pass: usize, placed: &Placed) -> Option<usize>
        ensures { result ≡ result_of self.now S.meaning pass placed.now }
    {
        if !placed.operation.makes() {
            return None;
        }
        Some(
            self.scheme
                .name(placed.variable, pass % self.turns, placed.stage),
        )
    }

    // An operation as it is written.
    pub(crate) fn slot(&self, place: Place, placed: &Placed) -> Slot
        requires begun { placed.now.stage ≤ place.pass }
        requires known { EachOwn (KnownOperand (length (loop_of self.now))) placed.now.operation }
        ensures { slot_seen result ≡ slot_of self.now S.meaning place placed.now }
    {
        Slot {
            part: place.part,
            pass: place.written,
            row: placed.row,
            issue: Issue {
                operation: self.in_names(place.pass, placed.stage, placed.operation),
                stage: placed.stage,
                result: self.result(place.pass, placed),
            },
        }
    }
}
