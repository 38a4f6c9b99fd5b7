// The edges between each two operations as one number.
ghost use Rattle.std.specs.Prelude.{ℕ, ◌≤◌, [], slice_index, slice_index_or};

// The raised weight from one operation to another, or 0 where they have no edge.
#[derive(Clone, Copy)]
pub struct Weights {
    pub(crate) between: [[u16; 32]; 32],
    ghost low: { (p q : ℕ) → slice_index (slice_index_or between p []) q ≤ 1801 },
}
