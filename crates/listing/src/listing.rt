// A listing: its rows, the passes of its parts, the trip count and the interval, with room for the longest.
ghost use Rattle.std.specs.Prelude.{◌≡◌, ◌+◌, ◌*◌, ◌≤◌, vec_len};
ghost use Rattle.model.specs.Listing.{passes_run, passes_written};

use crate::rows::Rows;
use model::Parts;

#[derive(Drop)]
pub struct Listing {
    pub(crate) rows: Rows,
    pub(crate) parts: Parts,
    pub(crate) trips: usize,
    pub(crate) interval: usize,
    ghost counted: { vec_len rows.starts ≡ passes_written parts * interval + 1 },
    ghost short: { passes_written parts ≤ 36 },
    ghost runs: { passes_run parts ≤ 65535 },
    ghost narrow: { interval ≤ 256 },
}
