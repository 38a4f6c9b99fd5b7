// A waiting entry: of the last write that was issued to a register, the due cycle and the value.
#[derive(Clone, Copy, Drop)]
pub struct Waiting<V> {
    pub due: usize,
    pub value: V,
}
