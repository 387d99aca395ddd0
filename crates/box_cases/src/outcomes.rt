// What a call on a box comes to, and what is expected of it.
use censors::question::{Reply, Value};
use histories::data::{BoxFault, Note};
use histories::refusals::{About, BoxRefusal, BoxReturned, SlipFace};
use sentences::faults::{ListKind, Returned};

pub const YES: Reply = Reply::Said(Value::Yes);

pub const NO: Reply = Reply::Said(Value::No);

// Apart from what the console prints: tables write it short, and look at notes too.
#[derive(Clone, Copy, PartialEq, Debug)]
pub enum Outcome {
    Opened,
    Enrolled(usize),
    // the counterparty and the place on the slip
    Judged(usize, usize),
    // no slip is kept for the counterparty
    NoSlip,
    Replied(Reply),
    // the number of notes
    Amended(usize),
    // a note's counterparty, place and reply
    Note(usize, usize, Reply),
    // the list for notes ends before
    NoNote,
    // how many notes are as they were handed in
    Unwritten(usize),
    Held(Option<Reply>),
    Remaining(u16),
    Refused(BoxRefusal),
}

impl From<BoxFault> for Outcome {
    fn from(fault: BoxFault) -> Outcome {
        Outcome::Refused(fault.refusal())
    }
}

impl From<Note> for Outcome {
    fn from(note: Note) -> Outcome {
        Outcome::Note(note.counterparty, note.place, note.reply)
    }
}

// What a table says of a call: its outcome, or the number of a refusal with what it is about and what it returns.
#[derive(Clone, Copy)]
pub enum Expected {
    Is(Outcome),
    // a text that stands alone, refused at a place
    BadText(u8, About, usize),
    // a sentence of a list, by its index, refused at a place
    BadSentence(u8, About, usize, usize),
    // an item of a list, by its index: a pair, a name, a rule or a change
    BadItem(u8, About, usize),
    BadCount(About, ListKind),
    BadSheet(u16),
    NotGood,
    Counterparty(u8, usize),
    Limit(u8, usize),
    // a slip that is handed back, with the counterparty and the place on it
    SlipBack(usize, usize),
}

impl Expected {
    pub(crate) fn outcome(self) -> Outcome {
        match self {
            Expected::Is(outcome) => outcome,
            Expected::BadText(number, about, place) => {
                of_part(number, about, None, Returned::Place(place))
            }
            Expected::BadSentence(number, about, item, place) => {
                of_part(number, about, Some(item), Returned::Place(place))
            }
            Expected::BadItem(number, about, index) => {
                of_part(number, about, None, Returned::Index(index))
            }
            Expected::BadCount(about, kind) => of_part(7, about, None, Returned::Kind(kind)),
            Expected::BadSheet(sheet) => of_box(8, BoxReturned::Sheet(sheet)),
            Expected::NotGood => of_box(11, BoxReturned::Nothing),
            Expected::Counterparty(number, counterparty) => {
                of_box(number, BoxReturned::Counterparty(counterparty))
            }
            Expected::Limit(number, limit) => of_box(number, BoxReturned::Limit(limit)),
            Expected::SlipBack(counterparty, place) => {
                let face = SlipFace {
                    counterparty,
                    place,
                };
                of_box(15, BoxReturned::Slip(face))
            }
        }
    }
}

// A refusal of something that was handed in.
fn of_part(number: u8, about: About, item: Option<usize>, returned: Returned) -> Outcome {
    Outcome::Refused(BoxRefusal {
        number,
        about: Some(about),
        item,
        returned: BoxReturned::Part(returned),
    })
}

// A refusal that is about the box itself.
fn of_box(number: u8, returned: BoxReturned) -> Outcome {
    Outcome::Refused(BoxRefusal {
        number,
        about: None,
        item: None,
        returned,
    })
}
