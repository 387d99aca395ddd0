// The table of refusals of a box: each fault with its number, what it is about, and what it returns.
ghost use Rattle.std.specs.Prelude.{◌≡◌, Some};
ghost use Rattle.histories.specs.Refusals.{about_word, box_refusal, slip_refusal, plain as plain_of, of_index, carried as carried_of};

use super::data::{AmendFault, BoxFault, COUNTERPARTIES, MOST_NOTES, PLACES};
use sentences::faults::{Refusal, Returned};
use std::fmt;

// What was handed in that a refusal is about.
#[derive(Clone, Copy, PartialEq, Eq, Debug)]
pub enum About {
    Names,
    HouseRules,
    Prior,
    Secrets,
    Question,
    Amendment,
}

impl About {
    // The word that it is written with.
    pub fn word(&self) -> &'static str
        ensures { result.now ≡ about_word self.now }
    {
        match *self {
            About::Names => "names",
            About::HouseRules => "house rules",
            About::Prior => "prior",
            About::Secrets => "secrets",
            About::Question => "question",
            About::Amendment => "amendment",
        }
    }
}

impl fmt::Display for About {
    ghost output = { λ about. Some (about_word about) };

    fn fmt<W: fmt::Write>(&self, f: &mut fmt::Formatter<W>) -> fmt::Result {
        f.write_str(self.word())
    }
}

// What is written on a slip.
#[derive(Clone, Copy, PartialEq, Eq, Debug)]
pub struct SlipFace {
    pub counterparty: usize,
    pub place: usize,
}

// What a refusal of a box hands back beside its number.
#[derive(Clone, Copy, PartialEq, Eq, Debug)]
pub enum BoxReturned {
    // of a text or a list
    Part(Returned),
    Sheet(u16),
    Counterparty(usize),
    Limit(usize),
    // the slip itself, with what is written on it
    Slip(SlipFace),
    Nothing,
}

// A line of the table, filled in, with the table's number. `item` is the index of the sentence in its list.
#[derive(Clone, Copy, PartialEq, Eq, Debug)]
pub struct BoxRefusal {
    pub number: u8,
    pub about: Option<About>,
    pub item: Option<usize>,
    pub returned: BoxReturned,
}

impl BoxFault {
    pub fn refusal(&self) -> BoxRefusal
        ensures { result ≡ box_refusal self.now }
    {
        match *self {
            BoxFault::Names(fault) => carried(About::Names, fault.refusal()),
            BoxFault::HouseRules(fault) => carried(About::HouseRules, fault.refusal()),
            BoxFault::Prior(fault) => carried(About::Prior, fault.refusal()),
            BoxFault::Secrets(fault) => carried(About::Secrets, fault.refusal()),
            BoxFault::Question(fault) => carried(About::Question, fault.refusal()),
            BoxFault::Sheet(sheet) => plain(8, BoxReturned::Sheet(sheet)),
            BoxFault::HouseRule(index) => of_index(9, About::HouseRules, index),
            BoxFault::Full => plain(10, BoxReturned::Limit(COUNTERPARTIES)),
            BoxFault::NotGood => plain(11, BoxReturned::Nothing),
            BoxFault::NoCounterparty(given) => plain(12, BoxReturned::Counterparty(given)),
            BoxFault::SlipOut(party) => plain(13, BoxReturned::Counterparty(party)),
            BoxFault::LogFull => plain(14, BoxReturned::Limit(PLACES)),
            BoxFault::Amendment(AmendFault::Fact(index)) => of_index(16, About::Amendment, index),
            BoxFault::Amendment(AmendFault::HouseRule(index)) => of_index(
                9,
                About::Amendment,
                index,
            ),
            BoxFault::ShortNotes => plain(17, BoxReturned::Limit(MOST_NOTES)),
        }
    }
}

impl SlipFace {
    // The line for a slip that enter hands back.
    pub fn refusal(self) -> BoxRefusal
        ensures { result ≡ slip_refusal self }
    {
        plain(15, BoxReturned::Slip(self))
    }
}

fn plain(number: u8, returned: BoxReturned) -> BoxRefusal
    ensures { result ≡ plain_of number returned }
{
    BoxRefusal {
        number,
        about: None,
        item: None,
        returned,
    }
}

fn of_index(number: u8, about: About, index: usize) -> BoxRefusal
    ensures { result ≡ of_index number about index }
{
    BoxRefusal {
        about: Some(about),
        ..plain(number, BoxReturned::Part(Returned::Index(index)))
    }
}

// A refusal of a text or a list, carried into the box's.
fn carried(about: About, inner: Refusal) -> BoxRefusal
    ensures { result ≡ carried_of about inner }
{
    BoxRefusal {
        number: inner.number,
        about: Some(about),
        item: inner.item,
        returned: BoxReturned::Part(inner.returned),
    }
}
