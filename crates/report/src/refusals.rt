// What the refusals say, in plain words.
ghost use Rattle.std.specs.Prelude.{◌≡◌};
ghost use Rattle.sentences.specs.Faults.{sentence_refusal, list_refusal};
ghost use Rattle.report.specs.Reasons.{sentence_reason as sentence_reason_of, list_reason as list_reason_of};

use sentences::faults::{ListFault, Refusal, Returned, SentenceFault};
use std::fmt;

// A refusal with its reason and with what it hands back.
#[derive(Clone, Copy)]
pub struct ExplainedRefusal {
    refusal: Refusal,
    reason: &'static str,
}

impl ExplainedRefusal {
    pub fn of_sentence(fault: SentenceFault) -> ExplainedRefusal
        ensures refusal { result.refusal ≡ sentence_refusal fault }
        ensures reason { result.reason.now ≡ sentence_reason_of fault }
    {
        ExplainedRefusal {
            refusal: fault.refusal(),
            reason: sentence_reason(fault),
        }
    }

    pub fn of_list(fault: ListFault) -> ExplainedRefusal
        ensures refusal { result.refusal ≡ list_refusal fault }
        ensures reason { result.reason.now ≡ list_reason_of fault }
    {
        ExplainedRefusal {
            refusal: fault.refusal(),
            reason: list_reason(fault),
        }
    }
}

impl fmt::Display for ExplainedRefusal {
    fn fmt<W: fmt::Write>(&self, f: &mut fmt::Formatter<W>) -> fmt::Result {
        let number = self.refusal.number;
        let reason = self.reason;
        write!(f, "refusal {number}, {reason}: ")?;
        if let Some(item) = self.refusal.item {
            write!(f, "sentence {item}, ")?;
        }
        write_returned(f, self.refusal.returned)
    }
}

fn write_returned<W: fmt::Write>(f: &mut fmt::Formatter<W>, returned: Returned) -> fmt::Result {
    match returned {
        Returned::Place(place) => write!(f, "place {place}"),
        Returned::Index(index) => write!(f, "index {index}"),
        Returned::Kind(kind) => write!(f, "{kind}"),
    }
}

fn sentence_reason(fault: SentenceFault) -> &'static str
    ensures { result.now ≡ sentence_reason_of fault }
{
    match fault {
        SentenceFault::TooLong => "the text has more than 256 bytes",
        SentenceFault::Stray(_) => "a byte that belongs to no token",
        SentenceFault::Unknown(_) => "a word that is no name",
        SentenceFault::Misfit(_) => "a token, or the end of the text, that does not fit",
    }
}

fn list_reason(fault: ListFault) -> &'static str
    ensures { result.now ≡ list_reason_of fault }
{
    match fault {
        ListFault::Count(_) => "too few or too many items",
        ListFault::BadPair(_) => "a pair that reaches past the block or into the pair before it",
        ListFault::BadName(_) => "a name that is misspelled or was there before",
        ListFault::Sentence(_, inner) => sentence_reason(inner),
    }
}
