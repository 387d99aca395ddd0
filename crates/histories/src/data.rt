// What a box keeps, hands out and refuses with.
ghost use Rattle.std.specs.Prelude.{◌≡◌};
ghost use Rattle.histories.specs.declared.data.BoxFault.TheVariants.{Amendment};

use censors::question::{Decision, Question, Reply};
use sentences::faults::{ListFault, SentenceFault};

// The most counterparties of a box.
pub const COUNTERPARTIES: usize = 8;

// The most questions of a log.
pub const PLACES: usize = 64;

// The most notes of an amendment: one for each place of each log.
pub const MOST_NOTES: usize = 512;

// A question that was entered, with the reply that stands.
#[derive(Clone, Copy)]
pub struct Entry {
    pub question: Question,
    pub reply: Reply,
}

// A question that was judged and is not entered yet.
#[derive(Clone, Copy)]
pub struct Pending {
    pub question: Question,
    pub decision: Decision,
}

// An amendment of one fact.
#[derive(Clone, Copy, PartialEq, Eq, Debug)]
pub struct Change {
    pub fact: usize,
    pub value: bool,
}

// Tells a counterparty that the reply at a place has changed.
#[derive(Clone, Copy, PartialEq, Eq, Debug)]
pub struct Note {
    pub counterparty: usize,
    pub place: usize,
    pub reply: Reply,
}

// What a list for notes is filled with before an amendment.
pub const BLANK_NOTE: Note = Note {
    counterparty: 0,
    place: 0,
    reply: Reply::Mum,
};

// What is wrong with an amendment.
#[derive(Clone, Copy, PartialEq, Eq, Debug)]
pub enum AmendFault {
    // the change with this index names no fact, or a fact that was listed before
    Fact(usize),
    // the new sheet makes the house rule with this index untrue
    HouseRule(usize),
}

// Why a box turns a call down. Faults of sentences and lists are carried whole.
#[derive(Clone, Copy, PartialEq, Eq, Debug)]
pub enum BoxFault {
    Names(ListFault),
    HouseRules(ListFault),
    // the sheet is no sheet of the box
    Sheet(u16),
    // the sheet makes the house rule with this index untrue
    HouseRule(usize),
    // eight counterparties are enrolled
    Full,
    Prior(SentenceFault),
    Secrets(ListFault),
    // the record to start from is not good
    NotGood,
    // there is no such counterparty
    NoCounterparty(usize),
    // the counterparty's slip is out
    SlipOut(usize),
    // 64 questions are entered
    LogFull,
    Question(SentenceFault),
    Amendment(AmendFault),
    // the list for notes is shorter than 512
    ShortNotes,
}

impl From<AmendFault> for BoxFault {
    ghost from_gives = { λ fault result. result ≡ Amendment fault };

    fn from(fault: AmendFault) -> BoxFault {
        BoxFault::Amendment(fault)
    }
}
