// The table of a box, which lends its entries one at a time.
ghost use Rattle.std.specs.Prelude.{◌≡◌, ◌≤◌, ⊤, length};

use std::alloc::AllocError;
use tables::Table;

mod entry;

// The first `count` entries are in use. It is no `Filled`, since it lends its entries.
pub struct Inner<T> {
    pub(crate) count: usize,
    pub(crate) parties: Table<T>,
    ghost few: { count ≤ 8 },
    ghost eight: { length parties.items ≡ 8 },
}

// Written out, since no `Clone` is derived for a type with a parameter and a ghost field.
impl<T: Copy> Clone for Inner<T> {
    ghost is_clone = { λ x y. y ≡ x };

    ghost is_infallible = { λ _. ⊤ };

    fn clone(&self) -> Result<Self, AllocError> {
        Ok(*self)
    }
}

impl<T: Copy> Copy for Inner<T> {}
