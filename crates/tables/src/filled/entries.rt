// What is in use of a fixed array.
ghost use Rattle.std.specs.Prelude.{◌≡◌, ◌≤◌, [], ◌∷◌, ◌++◌, length, take, slice_set};
ghost use Rattle.tables.specs.Entries.{entries};

use super::Filled;

impl<T: Copy, const N: usize> Filled<T, N> {
    // No entry is in use; the filler stands at every place.
    pub fn new(filler: T) -> Self
        ensures { entries result ≡ [] }
    {
        Filled {
            items: [filler; N],
            len: 0,
        }
    }

    // The items are in use, as many as there are places for.
    pub fn of(items: &[T], filler: T) -> Self
        ensures { entries result ≡ take N items.now }
    {
        let len = items.len().min(N);
        let mut all = [filler; N];
        all[..len].copy_from_slice(&items[..len]);
        Filled { items: all, len }
    }

    // How many entries are in use.
    pub fn len(&self) -> usize
        ensures count { result ≡ length (entries self.now) }
        ensures most { result ≤ N }
    {
        self.len
    }

    // The entries in use, in their order.
    pub fn as_slice(&self) -> &[T]
        ensures { result.now ≡ entries self.now }
    {
        &self.items[..self.len]
    }

    // One more entry is in use, as long as there is a place for it.
    pub fn push(&mut self, entry: T)
        ensures { entries self.new ≡ take N (entries self.old ++ entry ∷ []) }
    {
        if self.len < N {
            self.items[self.len] = entry;
            self.len += 1;
        }
    }

    // The entry in use at a place is replaced.
    pub fn replace(&mut self, place: usize, entry: T)
        ensures { entries self.new ≡ slice_set (entries self.old) place entry }
    {
        if place < self.len {
            self.items[place] = entry;
        }
    }
}
