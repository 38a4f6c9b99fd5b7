// From what code issues to slots: names become registers, and each code has its timing.
ghost use Rattle.std.specs.Prelude.{◌≡◌, ◌<◌, IfSome};
ghost use Rattle.model.specs.MachineText.{code_number};
ghost use Rattle.model.specs.Codes.{slot_in};
ghost use Rattle.code.specs.Seen.{slot_seen};
ghost use Rattle.engine_laws.specs.Parts.{turned};
ghost use Rattle.engine_slots.specs.Slots.{slot_of, TimingsHeld, SlotWithin};
ghost use Rattle.engine_slots.specs.Rows.{slot_at};

use crate::names::Names;
use crate::program::Program;
use crate::slot::Slot;
use code::form::Code;
use code::issue::Issue;
use model::Timing;
use registers::scheme::Scheme;

// The number of a code.
fn code_number(code: model::Code) -> usize
    ensures is { result ≡ code_number code }
    ensures below { result < 6 }
{
    match code {
        model::Code::Load => 0,
        model::Code::Store => 1,
        model::Code::Add => 2,
        model::Code::Sub => 3,
        model::Code::Mul => 4,
        model::Code::Move => 5,
    }
}

// What issues in a pass, with registers and its timing.
fn resolve<S: Scheme>(scheme: &S, timings: &[Timing; 6], pass: usize, issue: Issue) -> Slot
    ensures is { slot_of result ≡ slot_in (S.meaning scheme.now).resolve timings.now pass (slot_seen issue) }
    ensures within { TimingsHeld timings.now → SlotWithin (S.meaning scheme.now).file result }
{
    let names = Names { scheme, pass };
    Slot {
        operation: names.operation(&issue.operation),
        stage: issue.stage,
        target: names.target(issue.result),
        timing: timings[code_number(issue.operation.code())],
    }
}

// The slot that issues in a pass from a place of the code, if any does.
pub fn fetch<C: Code, S: Scheme>(
    code: &C,
    scheme: &S,
    timings: &[Timing; 6],
    pass: usize,
    place: usize,
) -> Option<Slot>
    ensures is { turned slot_of result ≡ turned (slot_in (S.meaning scheme.now).resolve timings.now pass) (C.issued code.now pass place) }
    ensures within { TimingsHeld timings.now → IfSome result (SlotWithin (S.meaning scheme.now).file) }
{
    let issue = code.issue(pass, place)?;
    Some(resolve(scheme, timings, pass, issue))
}

impl<C: Code, S: Scheme> Program<'_, C, S> {
    // The slot that issues in a pass from a place of the code, if any does.
    pub fn fetch(&self, pass: usize, place: usize) -> Option<Slot>
        ensures is { turned slot_of result ≡ slot_at (S.meaning self.now.scheme.now).resolve self.now.held.hardware.now.timings (C.issued self.now.code.now) pass place }
        ensures within { IfSome result (SlotWithin (S.meaning self.now.scheme.now).file) }
    {
        let timings = &self.held.hardware.timings;
        fetch(self.code, self.scheme, timings, pass, place)
    }
}
