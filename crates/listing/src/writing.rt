// How rows are written: operation by operation, row by row, pass by pass.
ghost use Rattle.std.specs.Prelude.{◌≡◌, ◌+◌, ◌≤◌, [], ◌∷◌, ◌++◌, map, length, vec_len, vec_capacity};
ghost use Rattle.model.specs.Listing.{parts_of, passes_run};
ghost use Rattle.listing.specs.Views.{slot_seen, loop_of, schedule_of};
ghost use Rattle.listing.specs.Kept.{all_slots, Keeps, Room, Appended};
ghost use Rattle.listing.specs.Rows.{slots_of_row, rows_of_place, rows_of_passes, all_rows};

use crate::body::Body;
use crate::place::Place;
use crate::rows::Rows;
use crate::slot::Slot;
use model::{Part, Parts};
use registers::scheme::Scheme;

// Puts the slots of a row of a pass behind the others.
fn push_slots<S: Scheme>(slots: &mut Vec<Slot>, body: &Body<S>, place: Place, row: usize)
    requires { vec_len slots.old + length (slots_of_row body.now S.meaning place row) ≤ vec_capacity slots.old }
    ensures items { map slot_seen slots.new.items ≡ map slot_seen slots.old.items ++ slots_of_row body.now S.meaning place row }
    ensures len { vec_len slots.new ≡ vec_len slots.old + length (slots_of_row body.now S.meaning place row) }
    ensures capacity { vec_capacity slots.new ≡ vec_capacity slots.old }
{
    for placed in body.placed() {
        if placed.issues(body.trips, place.pass, row) {
            slots.push_reserved(body.slot(place, placed));
        }
    }
}

impl Rows {
    fn push_row<S: Scheme>(&mut self, body: &Body<S>, place: Place, row: usize)
        requires { Room self.old (slots_of_row body.now S.meaning place row ∷ []) }
        ensures { Appended self.old self.new (slots_of_row body.now S.meaning place row ∷ []) }
    {
        push_slots(&mut self.slots, body, place, row);
        self.starts.push_reserved(self.slots.len());
    }

    fn push_pass<S: Scheme>(&mut self, body: &Body<S>, place: Place)
        requires { Room self.old (rows_of_place body.now S.meaning place) }
        ensures { Appended self.old self.new (rows_of_place body.now S.meaning place) }
    {
        for row in 0..body.schedule.interval {
            self.push_row(body, place, row);
        }
    }

    // Writes so many passes of a part, the first of them for pass `first` of the run.
    pub(crate) fn push_part<S: Scheme>(
        &mut self,
        body: &Body<S>,
        part: Part,
        first: usize,
        passes: usize,
    )
        requires few { first + passes ≤ 65535 }
        requires room { Room self.old (rows_of_passes body.now S.meaning part first passes) }
        ensures { Appended self.old self.new (rows_of_passes body.now S.meaning part first passes) }
    {
        for written in 0..passes {
            let place = Place {
                part,
                written,
                pass: first + written,
            };
            self.push_pass(body, place);
        }
    }

    // No rows.
    fn clear(&mut self)
        ensures keeps { Keeps self.new [] }
        ensures slots { vec_len self.new.slots ≡ 0 }
        ensures starts { vec_len self.new.starts ≡ 1 }
    {
        self.slots.clear();
        self.starts.clear();
        self.starts.push_reserved(0);
    }

    // Writes all parts anew.
    pub(crate) fn write<S: Scheme>(&mut self, body: &Body<S>, parts: Parts)
        requires parts { parts ≡ parts_of (loop_of body.now) (schedule_of body.now) body.now.turns body.now.trips }
        requires few { passes_run parts + parts.kernel ≤ 65535 }
        requires slots { length (all_slots (all_rows body.now S.meaning)) ≤ 1152 }
        requires rows { length (all_rows body.now S.meaning) ≤ 9216 }
        ensures keeps { Keeps self.new (all_rows body.now S.meaning) }
        ensures starts { vec_len self.new.starts ≡ length (all_rows body.now S.meaning) + 1 }
    {
        self.clear();
        self.push_part(body, Part::Front, 0, parts.front);
        self.push_part(body, Part::Kernel, parts.front, parts.kernel);
        let rest = parts.front + parts.repeats * parts.kernel;
        self.push_part(body, Part::Rest, rest, parts.rest);
    }
}
