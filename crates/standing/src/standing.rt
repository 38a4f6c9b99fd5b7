// What stands: a loop only with its machine, a plan only with its loop, a listing, by its trip count, only with its plan.
use crate::plan::{Body, Plan};
use texts::machine::Machine;

#[derive(Clone, Copy)]
pub enum Standing {
    Nothing,
    Machine(Machine),
    Loop(Body),
    Plan(Plan),
    Listing(Plan, usize),
}
