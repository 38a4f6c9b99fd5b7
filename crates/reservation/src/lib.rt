// The times of a schedule, the stage and the row of a time, and the reservation table.
#![tactic(auto)]

mod booking;
mod rows;
mod table;
mod time_table;
mod times;
mod uses;

pub use table::ReservationTable;
pub use time_table::TimeTable;
pub use timing::stage_and_row as stage_row;
