// A listing as code: what issues in each row of each pass.
ghost use Rattle.listing.specs.Forms.{issued_at, rows_said};

use crate::listing::Listing;
use crate::parts::written_pass;
use code::form::Code as CodeForm;
use code::issue::Issue;

impl CodeForm for Listing {
    ghost form = { rows_said };

    ghost issued = { issued_at };

    fn row(&self, pass: usize, row: usize) -> (usize, usize) {
        if pass >= self.passes() || row >= self.interval {
            return (0, 0);
        }
        let number = written_pass(self.parts, pass) * self.interval + row;
        (self.rows.starts[number], self.rows.starts[number + 1])
    }

    fn issue(&self, pass: usize, place: usize) -> Option<Issue> {
        self.rows.slots.get(place).map(|slot| slot.issue)
    }
}
