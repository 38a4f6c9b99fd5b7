// How a listing is made, written and read.
ghost use Rattle.std.specs.Prelude.{◌≡◌, ℕ, List, [], IfOk};
ghost use Rattle.model.specs.Listing.{all_front as all_front_passes};
ghost use Rattle.dependence.specs.Loops.{loop_seen};
ghost use Rattle.timing.specs.Seen.{schedule_seen};
ghost use Rattle.listing.specs.Forms.{rows_said};
ghost use Rattle.listing.specs.Written.{Answered, Meant};

use crate::body::Body;
use crate::listing::Listing;
use crate::parts::{all_front, split};
use crate::refusal::Unwritable;
use crate::rows::Rows;
use dependence::loops::Loop;
use registers::scheme::Scheme;
use std::alloc::{AllocError, Global};
use timing::Schedule;

// The most slots; and the most rows, of 36 passes at interval 256, with the end of the last.
const SLOTS: usize = 1152;

const STARTS: usize = 9217;

impl Listing {
    // An empty listing with all the room that a listing may need.
    pub fn new(heap: Global) -> Result<Listing, AllocError>
        ensures slots { IfOk result (λ l. l.rows.slots.items ≡ []) }
        ensures parts { IfOk result (λ l. l.parts ≡ all_front_passes 0) }
        ensures says { IfOk result (λ l. (p q : ℕ) → rows_said l p q ≡ []) }
    {
        let slots = Vec::with_capacity(heap, SLOTS)?;
        let mut starts = Vec::with_capacity(heap, STARTS)?;
        starts.push_reserved(0);
        Ok(Listing {
            rows: Rows { slots, starts },
            parts: all_front(0),
            trips: 0,
            interval: 1,
        })
    }

    // Writes the listing of a loop in a schedule, with the names and the turns of a register scheme, for so many trips.
    // What it does not write leaves the listing as it was.
    pub fn write<S: Scheme>(
        &mut self,
        source: &Loop,
        schedule: &Schedule,
        scheme: &S,
        turns: usize,
        trips: usize,
    ) -> Result<(), Unwritable>
        ensures written { Answered self.old self.new (loop_seen source.now) (schedule_seen schedule.now) (S.meaning scheme.now).name turns trips result }
        ensures means { Meant self.new (loop_seen source.now) (schedule_seen schedule.now) (S.meaning scheme.now) turns trips result }
    {
        if !(1..=256).contains(&schedule.interval) {
            return Err(Unwritable::Interval);
        }
        if !(1..=8).contains(&turns) {
            return Err(Unwritable::Turns);
        }
        if trips > 4096 {
            return Err(Unwritable::Trips);
        }
        let body = Body::new(source, schedule, scheme, turns, trips);
        let stages = body.depth();
        if stages > 8 {
            return Err(Unwritable::Stages);
        }
        let parts = split(stages - 1 + body.farthest(), stages, turns, trips);
        self.rows.write(&body, parts);
        self.parts = parts;
        self.trips = trips;
        self.interval = schedule.interval;
        Ok(())
    }
}
