// The rotating scheme: of each variable the register of its instance 0.
use crate::lives::MOST;
use few::Few;

#[derive(Clone, Copy)]
pub struct Rotating {
    pub(crate) bases: Few<u8, MOST>,
}
