// Lists of sentences: house rules and secrets.
use sheets::SheetSet;
use tables::filled::Filled;

pub mod parse;

// The sets of up to eight sentences, in their order.
#[derive(Clone, Copy)]
pub struct SentenceList {
    sets: Filled<SheetSet, 8>,
}
