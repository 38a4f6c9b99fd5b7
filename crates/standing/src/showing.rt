// The edges of the loop that stands, and the slots of the listing.
ghost use Rattle.std.specs.Prelude.{◌≡◌, map};
ghost use Rattle.guarantee.specs.Calls.{loop_in};
ghost use Rattle.listing.specs.Views.{slot_seen};
ghost use Rattle.standing.specs.Seen.{standing_seen, slots_held};
ghost use Rattle.standing.specs.Tied.{edges_told};

use crate::desk::Desk;
use crate::standing::Standing;
use listing::slot::Slot;
use model::Edge;

impl Desk {
    // The edges of the loop that stands, in the order of their numbers; none without a loop.
    pub fn edges(&self) -> &[Edge]
        ensures { result.now ≡ edges_told (loop_in (standing_seen self.now.standing)) }
    {
        match self.standing {
            Standing::Nothing => &[],
            Standing::Machine(_) => &[],
            Standing::Loop(_) => self.edges.as_slice(),
            Standing::Plan(_) => self.edges.as_slice(),
            Standing::Listing(_, _) => self.edges.as_slice(),
        }
    }

    // The slots of the listing that stands, in their order; none without a listing.
    pub fn slots(&self) -> &[Slot]
        ensures { map slot_seen result.now ≡ slots_held self.now.standing self.now.listing }
    {
        match self.standing {
            Standing::Nothing => &[],
            Standing::Machine(_) => &[],
            Standing::Loop(_) => &[],
            Standing::Plan(_) => &[],
            Standing::Listing(_, _) => self.listing.slots(),
        }
    }
}
