// What a listing tells.
ghost use Rattle.std.specs.Prelude.{◌≡◌};
ghost use Rattle.model.specs.Listing.{passes_run};

use crate::listing::Listing;
use crate::slot::Slot;
use model::Parts;

impl Listing {
    // The slots by part, pass, row and operation.
    pub fn slots(&self) -> &[Slot]
        ensures { result.now ≡ self.now.rows.slots.items }
    {
        self.rows.slots.as_slice()
    }

    pub fn parts(&self) -> Parts
        ensures { result ≡ self.now.parts }
    {
        self.parts
    }

    // The passes of a run.
    pub fn passes(&self) -> usize
        ensures { result ≡ passes_run self.now.parts }
    {
        self.parts.front + self.parts.repeats * self.parts.kernel + self.parts.rest
    }

    pub fn trips(&self) -> usize
        ensures { result ≡ self.now.trips }
    {
        self.trips
    }

    pub fn interval(&self) -> usize
        ensures { result ≡ self.now.interval }
    {
        self.interval
    }
}
