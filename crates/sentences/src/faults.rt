// What can be wrong with a text or a list, and the table of refusals that numbers it.
ghost use Rattle.std.specs.Prelude.{◌≡◌, Some};
ghost use Rattle.sentences.specs.Faults.{plain, kind_word, sentence_refusal, list_refusal};

use std::fmt;

// Why a text is no sentence, with the place of the byte at which reading stopped.
#[derive(Clone, Copy, PartialEq, Eq, Debug)]
pub enum SentenceFault {
    // the text has more than 256 bytes
    TooLong,
    // a byte that belongs to no token and is no blank
    Stray(usize),
    // a word that is no name
    Unknown(usize),
    // a token, or the text's end, where no sentence goes on
    Misfit(usize),
}

// The lists that a caller hands in.
#[derive(Clone, Copy, PartialEq, Eq, Debug)]
pub enum ListKind {
    Names,
    HouseRules,
    Secrets,
}

impl ListKind {
    // The word that a kind of list is written with.
    pub fn word(&self) -> &'static str
        ensures { result.now ≡ kind_word self.now }
    {
        match *self {
            ListKind::Names => "names",
            ListKind::HouseRules => "house rules",
            ListKind::Secrets => "secrets",
        }
    }
}

// A kind of list is written by its word.
impl fmt::Display for ListKind {
    ghost output = { λ kind. Some (kind_word kind) };

    fn fmt<W: fmt::Write>(&self, f: &mut fmt::Formatter<W>) -> fmt::Result {
        f.write_str(self.word())
    }
}

// Why a list is refused. A sentence's own fault is carried whole, beside the sentence's index.
#[derive(Clone, Copy, PartialEq, Eq, Debug)]
pub enum ListFault {
    // the list has too few or too many items
    Count(ListKind),
    // the pair with this index reaches past the block or into the pair in front of it
    BadPair(usize),
    // the name with this index is misspelled or was there before
    BadName(usize),
    Sentence(usize, SentenceFault),
}

// What a refusal hands back beside its number.
#[derive(Clone, Copy, PartialEq, Eq, Debug)]
pub enum Returned {
    Place(usize),
    Index(usize),
    Kind(ListKind),
}

// A line of the table of refusals, filled in, with the table's number. `item` is the index of the sentence in its list.
#[derive(Clone, Copy, PartialEq, Eq, Debug)]
pub struct Refusal {
    pub number: u8,
    pub item: Option<usize>,
    pub returned: Returned,
}

impl Refusal {
    // A refusal that is about no item of a list.
    fn plain(number: u8, returned: Returned) -> Refusal
        ensures { result ≡ plain number returned }
    {
        Refusal {
            number,
            item: None,
            returned,
        }
    }
}

impl SentenceFault {
    pub fn refusal(&self) -> Refusal
        ensures { result ≡ sentence_refusal self.now }
    {
        let (number, place) = match *self {
            SentenceFault::TooLong => (1, 256),
            SentenceFault::Stray(place) => (2, place),
            SentenceFault::Unknown(place) => (3, place),
            SentenceFault::Misfit(place) => (4, place),
        };
        Refusal::plain(number, Returned::Place(place))
    }
}

impl ListFault {
    pub fn refusal(&self) -> Refusal
        ensures { result ≡ list_refusal self.now }
    {
        match *self {
            ListFault::BadPair(index) => Refusal::plain(5, Returned::Index(index)),
            ListFault::BadName(index) => Refusal::plain(6, Returned::Index(index)),
            ListFault::Count(kind) => Refusal::plain(7, Returned::Kind(kind)),
            ListFault::Sentence(index, fault) => Refusal {
                item: Some(index),
                ..fault.refusal()
            },
        }
    }
}
