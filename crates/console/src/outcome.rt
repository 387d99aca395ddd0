// What a call answers, and how it is printed.
use super::flaws::Flaw;
use censors::question::Reply;
use histories::data::BoxFault;
use histories::refusals::{BoxRefusal, BoxReturned, SlipFace};
use sentences::faults::Returned;
use std::alloc::AllocError;
use std::fmt;

#[derive(Clone, Copy)]
pub(crate) enum Outcome {
    Opened,
    // with the counterparty's number
    Enrolled(usize),
    // a slip is kept, with what is written on it
    Slip(SlipFace),
    Replied(Reply),
    // with the number of notes
    Amended(usize),
    Held(Option<Reply>),
    Remaining(u16),
    Refused(BoxRefusal),
}

impl From<BoxFault> for Outcome {
    fn from(fault: BoxFault) -> Outcome {
        Outcome::Refused(fault.refusal())
    }
}

// Why a call is not carried out: the box refuses it, or it cannot be made.
#[derive(Clone, Copy)]
pub(crate) enum NotDone {
    Refused(BoxRefusal),
    Flawed(Flaw<'static>),
}

impl NotDone {
    // A refusal is an answer too.
    pub(crate) fn answer(self) -> Result<Outcome, Flaw<'static>> {
        match self {
            NotDone::Refused(refusal) => Ok(Outcome::Refused(refusal)),
            NotDone::Flawed(flaw) => Err(flaw),
        }
    }
}

impl From<BoxFault> for NotDone {
    fn from(fault: BoxFault) -> NotDone {
        NotDone::Refused(fault.refusal())
    }
}

impl From<BoxRefusal> for NotDone {
    fn from(refusal: BoxRefusal) -> NotDone {
        NotDone::Refused(refusal)
    }
}

impl From<Flaw<'static>> for NotDone {
    fn from(flaw: Flaw<'static>) -> NotDone {
        NotDone::Flawed(flaw)
    }
}

impl From<AllocError> for NotDone {
    fn from(error: AllocError) -> NotDone {
        NotDone::Flawed(error.into())
    }
}

impl fmt::Display for Outcome {
    fn fmt<W: fmt::Write>(&self, f: &mut fmt::Formatter<W>) -> fmt::Result {
        match *self {
            Outcome::Opened => f.write_str("opened"),
            Outcome::Enrolled(counterparty) => write!(f, "counterparty {counterparty}"),
            Outcome::Slip(face) => write_face(f, face),
            Outcome::Replied(reply) => write!(f, "reply {reply}"),
            Outcome::Amended(count) => write!(f, "amended, notes: {count}"),
            Outcome::Held(Some(reply)) => write!(f, "holds {reply}"),
            Outcome::Held(None) => f.write_str("nothing entered there"),
            Outcome::Remaining(count) => write!(f, "sheets remaining: {count}"),
            Outcome::Refused(refusal) => write_refusal(f, refusal),
        }
    }
}

fn write_face<W: fmt::Write>(f: &mut fmt::Formatter<W>, face: SlipFace) -> fmt::Result {
    let counterparty = face.counterparty;
    let place = face.place;
    write!(f, "slip of counterparty {counterparty}, place {place}")
}

fn write_refusal<W: fmt::Write>(f: &mut fmt::Formatter<W>, refusal: BoxRefusal) -> fmt::Result {
    let number = refusal.number;
    write!(f, "refusal {number}")?;
    if let Some(about) = refusal.about {
        write!(f, ", about the {about}")?;
    }
    if let Some(item) = refusal.item {
        write!(f, ", item {item}")?;
    }
    f.write_str(", returns ")?;
    write_returned(f, refusal.returned)
}

fn write_returned<W: fmt::Write>(f: &mut fmt::Formatter<W>, returned: BoxReturned) -> fmt::Result {
    match returned {
        BoxReturned::Part(part) => write_part(f, part),
        BoxReturned::Sheet(sheet) => write!(f, "sheet {sheet}"),
        BoxReturned::Counterparty(number) => write!(f, "counterparty {number}"),
        BoxReturned::Limit(limit) => write!(f, "limit {limit}"),
        BoxReturned::Slip(face) => write_face(f, face),
        BoxReturned::Nothing => f.write_str("nothing"),
    }
}

// What a refusal of a text or a list returns. The report writes a kind in other words, so the two share no Display.
fn write_part<W: fmt::Write>(f: &mut fmt::Formatter<W>, part: Returned) -> fmt::Result {
    match part {
        Returned::Place(place) => write!(f, "place {place}"),
        Returned::Index(index) => write!(f, "index {index}"),
        Returned::Kind(kind) => write!(f, "kind {kind}"),
    }
}
