// A program on the driving machine, in the values of a domain, for so many iterations.
use engine_slots::program::Program;

#[derive(Drop)]
pub struct Driver<'a, C, S, D> {
    pub program: Program<'a, C, S>,
    pub domain: &'a D,
    pub trips: usize,
}
