// The calls of a script.
use super::lists::ListField;
use super::show::Quoted;
use super::words::UnknownWord;
use censors::builtin::Builtin;
use histories::data::Change;
use std::fmt;

// The two boxes of a script.
#[derive(Clone, Copy, PartialEq, Eq)]
pub(crate) enum BoxName {
    A,
    B,
}

impl BoxName {
    fn other(self) -> BoxName {
        match self {
            BoxName::A => BoxName::B,
            BoxName::B => BoxName::A,
        }
    }
}

impl fmt::Display for BoxName {
    fn fmt<W: fmt::Write>(&self, f: &mut fmt::Formatter<W>) -> fmt::Result {
        f.write_str(match self {
            BoxName::A => "a",
            BoxName::B => "b",
        })
    }
}

impl TryFrom<&[u8]> for BoxName {
    type Error = UnknownWord;

    fn try_from(word: &[u8]) -> Result<BoxName, UnknownWord> {
        match word {
            b"a" => Ok(BoxName::A),
            b"b" => Ok(BoxName::B),
            _ => Err(UnknownWord),
        }
    }
}

// What a box is opened with.
#[derive(Drop)]
pub(crate) struct Opening {
    pub(crate) censor: Builtin,
    pub(crate) number: u8,
    pub(crate) sheet: u16,
    pub(crate) names: ListField,
    pub(crate) rules: ListField,
}

// What a counterparty is enrolled with.
#[derive(Drop)]
pub(crate) struct Enrolment {
    pub(crate) prior: Option<Vec<u8>>,
    pub(crate) secrets: ListField,
}

// A list of changes, and how long the list for notes is.
#[derive(Drop)]
pub(crate) struct Amendment {
    pub(crate) notes_len: usize,
    pub(crate) changes: Vec<Change>,
}

// A call that concerns one box, which has to be open. A number alone is a counterparty's.
#[derive(Drop)]
pub(crate) enum BoxCall {
    Enrol(Enrolment),
    Judge { counterparty: usize, text: Vec<u8> },
    Read(usize),
    Enter(usize),
    Amend(Amendment),
    Held { counterparty: usize, place: usize },
    Remaining(usize),
}

// What a line asks for, of the box that it names first.
#[derive(Drop)]
pub(crate) enum Command {
    Open {
        target: BoxName,
        opening: Opening,
    },
    // to enter the slip that the other box keeps for the counterparty
    EnterOther {
        target: BoxName,
        counterparty: usize,
    },
    Call {
        target: BoxName,
        call: BoxCall,
    },
}

// The call in short: lists and priors are left out, and long texts are cut.
impl fmt::Display for Command {
    fn fmt<W: fmt::Write>(&self, f: &mut fmt::Formatter<W>) -> fmt::Result {
        match self {
            Command::Open { target, opening } => write_opening(f, *target, opening),
            Command::EnterOther {
                target,
                counterparty,
            } => {
                let other = target.other();
                write!(f, "enter {target} {counterparty} from {other}")
            }
            Command::Call { target, call } => write_call(f, *target, call),
        }
    }
}

fn write_opening<W: fmt::Write>(
    f: &mut fmt::Formatter<W>,
    target: BoxName,
    opening: &Opening,
) -> fmt::Result {
    let censor = opening.censor;
    let number = opening.number;
    let sheet = opening.sheet;
    write!(f, "open {target} {censor} {number} {sheet}")
}

fn write_call<W: fmt::Write>(
    f: &mut fmt::Formatter<W>,
    target: BoxName,
    call: &BoxCall,
) -> fmt::Result {
    match call {
        BoxCall::Enrol(_) => write!(f, "enrol {target}"),
        BoxCall::Judge { counterparty, text } => {
            let text = Quoted::short(text.as_slice());
            write!(f, "judge {target} {counterparty} {text}")
        }
        BoxCall::Read(counterparty) => write!(f, "read {target} {counterparty}"),
        BoxCall::Enter(counterparty) => write!(f, "enter {target} {counterparty}"),
        BoxCall::Amend(amendment) => write_amendment(f, target, amendment),
        BoxCall::Held {
            counterparty,
            place,
        } => write!(f, "held {target} {counterparty} {place}"),
        BoxCall::Remaining(counterparty) => write!(f, "remaining {target} {counterparty}"),
    }
}

fn write_amendment<W: fmt::Write>(
    f: &mut fmt::Formatter<W>,
    target: BoxName,
    amendment: &Amendment,
) -> fmt::Result {
    let notes_len = amendment.notes_len;
    write!(f, "amend {target} {notes_len}")?;
    for change in amendment.changes.iter() {
        let fact = change.fact;
        let value = if change.value { "yes" } else { "no" };
        write!(f, " {fact}={value}")?;
    }
    Ok(())
}
