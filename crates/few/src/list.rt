// A list in fixed memory.
ghost use Rattle.std.specs.Prelude.{⊤, ◌≡◌, ◌≤◌, length};

use std::alloc::AllocError;

// At most N items; the places behind them say nothing.
pub struct Few<T, const N: usize> {
    pub(crate) items: [T; N],
    pub(crate) len: usize,
    ghost whole: { length items ≡ N },
    ghost fits: { len ≤ N },
}

// There is no place for another item.
#[derive(Clone, Copy, PartialEq, Eq, Debug)]
pub struct Full;

impl<T: Copy, const N: usize> Clone for Few<T, N> {
    ghost is_clone = { λ x y. y ≡ x };

    ghost is_infallible = { λ _. ⊤ };

    fn clone(&self) -> Result<Few<T, N>, AllocError> {
        Ok(*self)
    }
}

impl<T: Copy, const N: usize> Copy for Few<T, N> {}
