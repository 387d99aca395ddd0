// A fixed array of which the first entries are in use. It holds no memory but its own, and can be copied.
ghost use Rattle.std.specs.Prelude.{◌≡◌, ◌≤◌, ⊤, length};

use std::alloc::AllocError;

pub mod entries;

pub struct Filled<T, const N: usize> {
    items: [T; N],
    len: usize,
    ghost within: { len ≤ N },
    ghost all: { length items ≡ N },
}

// Written out, since no `Clone` is derived for a type with a parameter and a ghost field.
impl<T: Copy, const N: usize> Clone for Filled<T, N> {
    ghost is_clone = { λ x y. y ≡ x };

    ghost is_infallible = { λ _. ⊤ };

    fn clone(&self) -> Result<Self, AllocError> {
        Ok(*self)
    }
}

impl<T: Copy, const N: usize> Copy for Filled<T, N> {}
