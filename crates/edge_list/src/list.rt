// A list of edges with room for those of any loop: two operands for each of 32 operations, and an edge each way between any two of 16 loads and stores.
ghost use Rattle.std.specs.Prelude.{◌≤◌, vec_capacity};

use model::Edge;

#[derive(Drop)]
pub struct Edges {
    pub(crate) list: Vec<Edge>,
    ghost room: { 304 ≤ vec_capacity list },
}
