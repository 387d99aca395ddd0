// The names of a box's facts: one to eight, in their order.
ghost use Rattle.std.specs.Prelude.{◌≡◌, ◌≤◌, false, length};
ghost use Rattle.sentences.specs.Names.{is_found, first_bad_name, words_of};
ghost use Rattle.tables.specs.Entries.{entries};

use super::name::Name;
use tables::filled::Filled;

pub mod facts;

#[derive(Clone, Copy)]
pub struct Names {
    names: Filled<Name, 8>,
    ghost some: { 1 ≤ length (entries names) },
    ghost proper: { is_found (first_bad_name (words_of (entries names))) ≡ false },
}
