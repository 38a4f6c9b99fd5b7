// A loop in its schedule, prepared for writing in the names of a register scheme.
ghost use Rattle.std.specs.Prelude.{⊤, ◌≡◌, ◌≤◌, true};
ghost use Rattle.few.specs.Held.{held};
ghost use Rattle.model.specs.Soundness.{sound_loop};
ghost use Rattle.timing.specs.Seen.{schedule_seen};
ghost use Rattle.listing.specs.Placed.{operations_placed, AllPlaced};

use crate::placed::Placed;
use few::Few;
use std::alloc::AllocError;
use timing::Schedule;

pub struct Body<'a, S> {
    pub(crate) placed: Few<Placed, 32>,
    pub(crate) schedule: Schedule,
    pub(crate) scheme: &'a S,
    pub(crate) turns: usize,
    pub(crate) trips: usize,
    ghost turning: { 1 ≤ turns },
    ghost sound: { sound_loop (operations_placed (held placed)) ≡ true },
    ghost standing: { AllPlaced (operations_placed (held placed)) (schedule_seen schedule) (held placed) },
}

// Copied with any scheme, since the scheme is lent.
impl<S> Clone for Body<'_, S> {
    ghost is_clone = { λ x y. y ≡ x };

    ghost is_infallible = { λ _. ⊤ };

    fn clone(&self) -> Result<Self, AllocError> {
        Ok(*self)
    }
}

impl<S> Copy for Body<'_, S> {}
