// The slots of a listing row by row, and where each row starts; the last start is the end of the last row.
ghost use Rattle.std.specs.Prelude.{◌≤◌, vec_capacity};

use crate::slot::Slot;

#[derive(Drop)]
pub struct Rows {
    pub(crate) slots: Vec<Slot>,
    pub(crate) starts: Vec<usize>,
    ghost slot_room: { 1152 ≤ vec_capacity slots },
    ghost row_room: { 9217 ≤ vec_capacity starts },
}
