// What runs: code, the scheme of its names, and the hardware.
use crate::held::Held;

#[derive(Drop)]
pub struct Program<'a, C, S> {
    pub code: &'a C,
    pub scheme: &'a S,
    pub held: Held<'a>,
}
