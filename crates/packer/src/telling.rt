// What stands in a packer.
ghost use Rattle.std.specs.Prelude.{◌≡◌, map};
ghost use Rattle.guarantee.specs.Calls.{loop_in};
ghost use Rattle.listing.specs.Views.{slot_seen};
ghost use Rattle.standing.specs.Seen.{standing_seen};
ghost use Rattle.standing.specs.Tied.{edges_told};
ghost use Rattle.packer_laws.specs.States.{state};

use crate::packer::Packer;
use listing::slot::Slot;
use model::Edge;
use registers::scheme::Scheme;
use standing::Standing;
use values::domain::Domain;

impl<S: Scheme, D: Domain> Packer<S, D> {
    pub fn standing(&self) -> &Standing
        ensures { result.now ≡ self.now.desk.standing }
    {
        &self.desk.standing
    }

    pub fn scheme(&self) -> &S
        ensures { result.now ≡ self.now.scheme }
    {
        &self.scheme
    }

    // The edges of the loop that stands, in the order of their numbers; none without a loop.
    pub fn edges(&self) -> &[Edge]
        ensures { result.now ≡ edges_told (loop_in (standing_seen self.now.desk.standing)) }
    {
        self.desk.edges()
    }

    // The slots of the listing that stands, in their order; none without a listing.
    pub fn slots(&self) -> &[Slot]
        ensures { map slot_seen result.now ≡ (state self.now.scheme self.now.desk).slots }
    {
        self.desk.slots()
    }
}
