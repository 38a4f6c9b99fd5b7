// What the slots of a row write: results that wait until they land, and stores.
#![tactic(auto)]

pub mod dues;
pub mod issuing;
pub mod landing;
pub mod operands;
pub mod reading;
pub mod waiting;
