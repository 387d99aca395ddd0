// The entries of the table.
ghost use Rattle.std.specs.Prelude.{◌≡◌, ◌+◌, ◌<◌, is_some, IfSome, if◌then◌else◌, nat_lt};
ghost use Rattle.std.specs.Borrow.{sem, follows_if};
ghost use Rattle.std.specs.Option.{ghost_name_of as name_of};
ghost use Rattle.querybox.specs.contracts.inner.Inner.{the_row as inner_row};
ghost use Rattle.tables.specs.Tables.{put};
ghost use Rattle.querybox.specs.Entries.{entry_at, with_entry};

use super::Inner;
use histories::data::COUNTERPARTIES;
use tables::Table;

impl<T> Inner<T> {
    // The entry p alone, and none past the last. The table ends as it was, but for what was left there.
    pub(crate) fn lend(&mut self, p: usize) -> Option<&mut T>
        ensures* ends { sem 𝓛 (follows_if (inner_row T.row) T.row self.entry.ghost_name (name_of result) (with_entry self.old p) self.old) }
        ensures is { (is_some result ≡ nat_lt p 8) × IfSome result (λ x. (d : T) → x.now ≡ entry_at self.old p d) }
    {
        self.parties.lend(p)
    }
}

impl<T: Copy> Inner<T> {
    // A table with no entry in use; the filler stands at every place.
    pub(crate) fn new(filler: T) -> Inner<T>
        ensures { result.count ≡ 0 }
    {
        Inner {
            count: 0,
            parties: Table::new([filler; COUNTERPARTIES]),
        }
    }

    // A copy of the entry p.
    pub(crate) fn entry(&self, p: usize) -> T
        requires { p < self.now.count }
        ensures { (d : T) → result ≡ entry_at self.now p d }
    {
        self.parties.get(p).unwrap()
    }

    // A copy of the entry p, and none past the last in use.
    pub(crate) fn get(&self, p: usize) -> Option<T>
        ensures { (d : T) → result ≡ (if nat_lt p self.now.count then Some (entry_at self.now p d) else None) }
    {
        if p < self.count {
            Some(self.entry(p))
        } else {
            None
        }
    }

    // The entry p is replaced.
    pub(crate) fn put(&mut self, p: usize, entry: T)
        requires { p < 8 }
        ensures { self.new ≡ with_entry self.old p entry }
    {
        // `p < 8` says that an entry is lent.
        if let Some(place) = self.lend(p) {
            *place = entry;
        }
    }

    // One more entry counts.
    pub(crate) fn add(&mut self, entry: T)
        requires { self.old.count < 8 }
        ensures count { self.new.count ≡ self.old.count + 1 }
        ensures entries { self.new.parties ≡ put self.old.parties self.old.count entry }
    {
        let place = self.count;
        self.put(place, entry);
        self.count = place + 1;
    }
}
