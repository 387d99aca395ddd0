// What a box keeps of one counterparty.
ghost use Rattle.std.specs.Prelude.{◌+◌, ◌≤◌, length};
ghost use Rattle.tables.specs.Entries.{entries};
ghost use Rattle.querybox.specs.Room.{reserved};

use histories::data::{Entry, PLACES, Pending};
use sentences::lists::SentenceList;
use sheets::SheetSet;
use tables::filled::Filled;

mod log;

#[derive(Clone, Copy)]
pub struct Party {
    // the record that it started from
    pub(crate) start: SheetSet,
    pub(crate) secrets: SentenceList,
    pub(crate) log: Filled<Entry, PLACES>,
    // the record that now stands
    pub(crate) known: SheetSet,
    // the question that its slip is out for
    pub(crate) pending: Option<Pending>,
    // what is pending has a place in the log
    ghost room: { length (entries log) + reserved pending ≤ 64 },
}
