// Why a line of a script is not carried out.
use super::command::BoxName;
use super::show::Quoted;
use std::alloc::{AllocError, AllocFailed};
use std::fmt;

// What is wrong with a line. Words of the line are kept as they stand in it.
#[derive(Clone, Copy)]
pub(crate) enum Flaw<'a> {
    UnknownWord(&'a [u8]),
    // what is missing
    MissingField(&'a str),
    NotNumber(&'a [u8]),
    TooLarge(&'a [u8]),
    // no quote ends the text
    UnfinishedText,
    // a backslash with none of the three escapes after it
    UnknownEscape,
    // the texts of a list have more than 65535 bytes
    LongList,
    // what stands after the end of the call
    AfterEnd(&'a [u8]),
    NotOpen(BoxName),
    OpenAlready(BoxName),
    NoSlip,
    // there is not enough memory, which ends the run
    NoMemory,
}

impl fmt::Display for Flaw<'_> {
    fn fmt<W: fmt::Write>(&self, f: &mut fmt::Formatter<W>) -> fmt::Result {
        match *self {
            Flaw::UnknownWord(word) => write!(f, "unknown word {}", Quoted::short(word)),
            Flaw::MissingField(what) => write!(f, "missing field: {what}"),
            Flaw::NotNumber(word) => write!(f, "not a number: {}", Quoted::short(word)),
            Flaw::TooLarge(word) => write!(f, "number too large: {}", Quoted::short(word)),
            Flaw::UnfinishedText => f.write_str("unfinished text"),
            Flaw::UnknownEscape => f.write_str("unknown escape in a text"),
            Flaw::LongList => f.write_str("the texts of a list have more than 65535 bytes"),
            Flaw::AfterEnd(rest) => write!(f, "something after the end: {}", Quoted::short(rest)),
            Flaw::NotOpen(name) => write!(f, "box not open: {name}"),
            Flaw::OpenAlready(name) => write!(f, "box open already: {name}"),
            Flaw::NoSlip => f.write_str("no slip is kept for the counterparty"),
            Flaw::NoMemory => f.write_str("not enough memory"),
        }
    }
}

impl From<AllocError> for Flaw<'_> {
    fn from(_error: AllocError) -> Self {
        Flaw::NoMemory
    }
}

impl<T: Drop> From<AllocFailed<T>> for Flaw<'_> {
    fn from(_refused: AllocFailed<T>) -> Self {
        Flaw::NoMemory
    }
}
