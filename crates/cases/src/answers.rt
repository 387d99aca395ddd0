// What the library answers in a case.
ghost use Rattle.std.specs.Prelude.{◌≡◌, IfOk, None};
ghost use Rattle.sentences.specs.declared.faults.Returned.TheVariants.{Place};
ghost use Rattle.cases.specs.Readings.{AnswersReading};

use sentences::faults::{Refusal, Returned, SentenceFault};
use sentences::reading::Meaning;
use std::alloc::{AllocError, Global};
use std::fmt;

#[derive(PartialEq, Drop)]
pub enum Answer {
    // the sheets in which a sentence is true, and the number of its tokens
    Meaning(Vec<u16>, usize),
    // in how many sheets a sentence is true
    Count(u16),
    // how many items a list has
    Accepted(usize),
    Refused(Refusal),
    // the first bad pair of a cut list
    BadPair(Option<usize>),
}

impl Answer {
    pub fn of_sentence(
        heap: Global,
        read: Result<Meaning, SentenceFault>,
    ) -> Result<Answer, AllocError>
        ensures { IfOk result (λ a. AnswersReading read a) }
    {
        match read {
            Ok(meaning) => Ok(Answer::Meaning(meaning.sheets.members(heap)?, meaning.tokens)),
            Err(fault) => Ok(Answer::Refused(fault.refusal())),
        }
    }
}

// A refusal of a sentence that stands alone.
pub fn refused_at(number: u8, place: usize) -> Refusal
    ensures number { result.number ≡ number }
    ensures item { result.item ≡ None }
    ensures place { result.returned ≡ Place place }
{
    Refusal {
        number,
        item: None,
        returned: Returned::Place(place),
    }
}

impl fmt::Display for Answer {
    fn fmt<W: fmt::Write>(&self, f: &mut fmt::Formatter<W>) -> fmt::Result {
        match self {
            Answer::Meaning(sheets, tokens) => write!(f, "sheets {sheets:?}, tokens {tokens}"),
            Answer::Count(count) => write!(f, "true in {count} sheets"),
            Answer::Accepted(count) => write!(f, "accepted, count {count}"),
            Answer::Refused(refusal) => write_refusal(f, refusal),
            Answer::BadPair(Some(index)) => write!(f, "bad pair {index}"),
            Answer::BadPair(None) => f.write_str("no bad pair"),
        }
    }
}

// The report puts a reason between these parts and other commas, so the two share no Display.
fn write_refusal<W: fmt::Write>(f: &mut fmt::Formatter<W>, refusal: &Refusal) -> fmt::Result {
    let number = refusal.number;
    write!(f, "refusal {number}")?;
    if let Some(item) = refusal.item {
        write!(f, ", sentence {item}")?;
    }
    match refusal.returned {
        Returned::Place(place) => write!(f, ", place {place}"),
        Returned::Index(index) => write!(f, ", index {index}"),
        Returned::Kind(kind) => write!(f, ", kind {kind}"),
    }
}
