// A slot as it is written.
ghost use Rattle.std.specs.Prelude.{◌≡◌, option_map};
ghost use Rattle.code.specs.Seen.{source_seen};
ghost use Rattle.listing.specs.Views.{slot_seen};

use code::issue::{Issue, Source};
use model::{Code, Part};

// Where it stands, and what issues there.
#[derive(Clone, Copy)]
pub struct Slot {
    pub part: Part,
    pub pass: usize,
    pub row: usize,
    pub issue: Issue,
}

// What its code lacks is absent, and the operand of a store and of a move is the left one.
impl Slot {
    pub fn stage(&self) -> usize
        ensures { result ≡ (slot_seen self.now).stage }
    {
        self.issue.stage
    }

    pub fn code(&self) -> Code
        ensures { result ≡ (slot_seen self.now).code }
    {
        self.issue.operation.code()
    }

    pub fn result(&self) -> Option<usize>
        ensures { result ≡ (slot_seen self.now).result }
    {
        self.issue.result
    }

    pub fn left(&self) -> Option<Source>
        ensures { option_map source_seen result ≡ (slot_seen self.now).left }
    {
        self.issue.operation.operands().0
    }

    pub fn right(&self) -> Option<Source>
        ensures { option_map source_seen result ≡ (slot_seen self.now).right }
    {
        self.issue.operation.operands().1
    }

    pub fn stride(&self) -> Option<usize>
        ensures { result ≡ (slot_seen self.now).stride }
    {
        self.issue.operation.cell().map(|cell| cell.stride)
    }

    pub fn offset(&self) -> Option<usize>
        ensures { result ≡ (slot_seen self.now).offset }
    {
        self.issue.operation.cell().map(|cell| cell.offset)
    }
}
