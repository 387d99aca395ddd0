// A table of eight entries that lends one at a time.
#![tactic(auto)]

pub mod filled;

ghost use Rattle.std.specs.Prelude.{◌≡◌, ℕ, ◌<◌, ltb, is_some, IfSome, if◌then◌else◌, Some, None, nat_lt, slice_index_or};
ghost use Rattle.std.specs.Borrow.{sem, follows, follows_if};
ghost use Rattle.std.specs.Option.{ghost_name_of as name_of};
ghost use Rattle.tables.specs.contracts.Table.{the_row};
ghost use Rattle.tables.specs.Tables.{put};

// Eight entries, of which one at a time is lent. The table is generic in its entries, since what a lender ends as is
// read only where its type has a parameter. Its size is none, since the proof that it lends goes by the layout of eight.
#[derive(Clone, Copy)]
pub struct Table<T> {
    items: [T; 8],
}

impl<T> Table<T> {
    // A table of these entries.
    pub fn new(items: [T; 8]) -> Self
        ensures { result ≡ record { items = items } }
    {
        Table { items }
    }

    // The entry p alone. The table ends as it was, but for what was left there.
    fn at(&mut self, p: usize) -> &mut T
        requires { p < 8 }
        ensures* ends { sem 𝓛 (follows (the_row T.row) T.row self.entry.ghost_name result.ghost_name (put self.old p)) }
        ensures is { (d : T) → result.now ≡ slice_index_or self.old.items p d }
    {
        &mut self.items[p]
    }

    // The entry p, or nothing past the last.
    pub fn lend(&mut self, p: usize) -> Option<&mut T>
        ensures* ends { sem 𝓛 (follows_if (the_row T.row) T.row self.entry.ghost_name (name_of result) (put self.old p) self.old) }
        ensures is { (is_some result ≡ nat_lt p 8) × IfSome result (λ x. (d : T) → x.now ≡ slice_index_or self.old.items p d) }
    {
        if p < 8 {
            return Some(self.at(p));
        }
        None
    }
}

impl<T: Copy> Table<T> {
    // A copy of the entry p, or nothing past the last.
    pub fn get(&self, p: usize) -> Option<T>
        ensures { (d : T) → result ≡ (if ltb p 8 then Some (slice_index_or self.now.items p d) else None) }
    {
        self.items.get(p).copied()
    }
}
