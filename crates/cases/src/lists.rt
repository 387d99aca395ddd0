// Lists of pieces as the library takes them, and what it answers to them.
ghost use Rattle.std.specs.Prelude.{◌≡◌, IfOk, map};
ghost use Rattle.sentences.specs.Lists.{sets_read};
ghost use Rattle.sentences.specs.Naming.{words};
ghost use Rattle.cases.specs.Answers.{counted, expected_answer, list_answer};

use super::answers::Answer;
use anyhow::{Context, anyhow};
use pieces::Pieces;
use sentences::cuts::CutList;
use sentences::faults::{ListFault, ListKind, Refusal, Returned};
use sentences::lists::SentenceList;
use sentences::names::Names;
use std::alloc::Global;

// What is said where a pair cannot reach a piece of a case.
pub(crate) const LEFT_OUT: &str = "a case's list is too long";

pub fn names_of(heap: Global, names: &[&str]) -> anyhow::Result<Names>
    ensures { IfOk result (λ r. words r ≡ map (λ p. p.now) names.now) }
{
    let pieces = Pieces::of(heap, names)?;
    let list = pieces.list().context(LEFT_OUT)?;
    Names::parse(&list).map_err(|_fault| anyhow!("the names of a case are refused"))
}

// The library's answer to the list as one of that kind.
pub fn read_list(kind: ListKind, names: &Names, list: &CutList) -> Answer
    ensures { result ≡ list_answer (words names.now) kind list.now }
{
    match kind {
        ListKind::Names => match Names::parse(list) {
            Ok(names) => Answer::Accepted(names.count()),
            Err(fault) => Answer::Refused(fault.refusal()),
        },
        ListKind::HouseRules => of_sentences(SentenceList::house_rules(names, list)),
        ListKind::Secrets => of_sentences(SentenceList::secrets(names, list)),
    }
}

fn of_sentences(read: Result<SentenceList, ListFault>) -> Answer
    ensures { result ≡ counted (sets_read read) }
{
    match read {
        Ok(list) => Answer::Accepted(list.sets().len()),
        Err(fault) => Answer::Refused(fault.refusal()),
    }
}

// What is expected of a list.
#[derive(Clone, Copy)]
pub enum Expected {
    Accepted(usize),
    BadCount(ListKind),
    BadItem {
        number: u8,
        index: usize,
    },
    BadSentence {
        number: u8,
        item: usize,
        place: usize,
    },
}

impl Expected {
    pub fn answer(self) -> Answer
        ensures { result ≡ expected_answer self }
    {
        match self {
            Expected::Accepted(count) => Answer::Accepted(count),
            Expected::BadCount(kind) => Answer::Refused(Refusal {
                number: 7,
                item: None,
                returned: Returned::Kind(kind),
            }),
            Expected::BadItem { number, index } => Answer::Refused(Refusal {
                number,
                item: None,
                returned: Returned::Index(index),
            }),
            Expected::BadSentence {
                number,
                item,
                place,
            } => Answer::Refused(Refusal {
                number,
                item: Some(item),
                returned: Returned::Place(place),
            }),
        }
    }
}
