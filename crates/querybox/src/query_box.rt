// A box: a sheet, and the counterparties that put questions about it under one censor.
ghost use Rattle.std.specs.Prelude.{◌^◌, ◌<◌, length};
ghost use Rattle.sentences.specs.Naming.{words};

use super::inner::Inner;
use super::party::Party;
use sentences::lists::SentenceList;
use sentences::names::Names;

pub mod amend;
pub mod enrol;
pub mod enter;
pub mod judge;
pub mod look;
pub mod open;

#[derive(Drop)]
pub struct QueryBox<C> {
    censor: C,
    number: u8,
    names: Names,
    rules: SentenceList,
    sheet: u16,
    inner: Inner<Party>,
    ghost small: { sheet < 2 ^ length (words names) },
}
