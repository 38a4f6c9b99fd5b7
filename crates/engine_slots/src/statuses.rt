// What each register awaits.
ghost use Rattle.std.specs.Prelude.{◌≡◌, ℕ, ◌<◌, replicate, slice_index_or, slice_set};
ghost use Rattle.model.specs.declared.Status.TheVariants.{Never, Waits, Landed};
ghost use Rattle.model.specs.Loop.{operands};
ghost use Rattle.model.specs.Driving.{all_of, awaits};
ghost use Rattle.engine_laws.specs.Tracks.{readable_by};
ghost use Rattle.engine_slots.specs.Slots.{source_of, operation_of, SourceWithin, OperationWithin};

use crate::slot::Resolved;
use model::Status;
use operations::Operation;

// The registers whose status is kept.
pub const REGISTERS: usize = 256;

#[derive(Clone, Copy)]
pub struct Statuses {
    pub status: [Status; REGISTERS],
}

impl Statuses {
    // At first no register has landed or awaits a write.
    pub fn new() -> Statuses
        ensures { result.status ≡ replicate 256 Never }
    {
        Statuses {
            status: [Status::Never; REGISTERS],
        }
    }

    fn is_readable(&self, source: Resolved) -> bool
        requires { SourceWithin 256 source }
        ensures { result ≡ readable_by self.now.status (source_of source) }
    {
        match source {
            Resolved::Literal(_) => true,
            Resolved::Register(r) => self.status[r] == Status::Landed,
        }
    }

    // Whether each register that an operation reads has landed and awaits no write.
    pub fn have_landed(&self, operation: Operation<Resolved>) -> bool
        requires { OperationWithin 256 operation }
        ensures { result ≡ all_of (readable_by self.now.status) (operands (operation_of operation)) }
    {
        match operation {
            Operation::Load(_) => true,
            Operation::Store(value, _) | Operation::Move(value) => self.is_readable(value),
            Operation::Binary(_, left, right) => self.is_readable(left) && self.is_readable(right),
        }
    }

    pub fn does_await(&self, r: usize) -> bool
        requires { r < 256 }
        ensures { result ≡ awaits (slice_index_or self.now.status r Never) }
    {
        self.status[r] == Status::Waits
    }

    // A register awaits a write.
    pub fn await_write(&mut self, r: usize)
        requires { r < 256 }
        ensures { self.new.status ≡ slice_set self.old.status r Waits }
    {
        self.status[r] = Status::Waits;
    }

    // The write to a register has landed.
    pub fn land(&mut self, r: usize)
        requires { r < 256 }
        ensures { self.new.status ≡ slice_set self.old.status r Landed }
    {
        self.status[r] = Status::Landed;
    }
}
