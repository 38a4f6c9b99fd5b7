// What stands, with the edges of the loop and the slots of the listing; the room for both is there from the making on.
ghost use Rattle.std.specs.Prelude.{◌≡◌, true};
ghost use Rattle.guarantee.specs.Calls.{loop_in};
ghost use Rattle.standing.specs.Seen.{standing_seen};
ghost use Rattle.standing.specs.Tied.{edges_tied};

use crate::standing::Standing;
use edge_list::Edges;
use listing::listing::Listing;

#[derive(Drop)]
pub struct Desk {
    pub standing: Standing,
    pub edges: Edges,
    pub listing: Listing,
    ghost tied: { edges_tied (loop_in (standing_seen standing)) edges.list.items ≡ true },
}
