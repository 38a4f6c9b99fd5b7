// A name of at most eight bytes.
use few::Few;

#[derive(Clone, Copy)]
pub struct Name {
    pub(crate) bytes: Few<u8, 8>,
}
