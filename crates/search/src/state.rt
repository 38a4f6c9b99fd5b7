// A search as it stands.
use crate::board::Board;
use reservation::TimeTable;

#[derive(Clone, Copy)]
pub struct Progress<'a> {
    pub(crate) board: Board<'a>,
    pub(crate) last: TimeTable,
    pub(crate) taken: usize,
}
