// The names, secrets and questions that a box is filled with.
use super::plan::{Load, Plan};
use pieces::Pieces;
use std::alloc::{AllocError, Global};
use std::ops::Range;

const NAMES: [&str; 8] = [
    "full", "late", "sold", "dear", "damp", "owed", "held", "lost",
];

const LAST: usize = 7;

// A prior that leaves every sheet possible.
pub(crate) const PRIOR: &str = "full | !full";

// The texts of a plan, and where they are kept.
#[derive(Drop)]
pub(crate) struct Texts<'a> {
    pub(crate) heap: Global,
    pub(crate) plan: &'a Plan,
}

impl Texts<'_> {
    // The first names.
    pub(crate) fn names(&self) -> Result<Pieces, AllocError> {
        let count = self.plan.names.min(NAMES.len());
        Pieces::of(self.heap, &NAMES[..count])
    }

    pub(crate) fn secrets(&self) -> Result<Pieces, AllocError> {
        let mut pieces = Pieces::new(self.heap);
        for index in 0..self.plan.secrets {
            let text = match self.plan.load {
                Load::Usual => self.three_facts(index)?,
                Load::Hardest => self.not_all_facts(index)?,
            };
            pieces.add(text.as_bytes())?;
        }
        Ok(pieces)
    }

    // Three facts are true: a sheet with no true fact is outside every such secret.
    fn three_facts(&self, index: usize) -> Result<String, AllocError> {
        let first = self.name(index);
        let second = self.name(index.wrapping_add(1));
        let third = self.name(index.wrapping_add(3));
        format!(in self.heap; "{first} & {second} & {third}")
    }

    // Not all facts are true, of all facts in the last secret and of all but the first fact in the others: the sheets
    // outside come last, and what a question leaves of the sheets in which the first fact is untrue lies in the last secret alone.
    fn not_all_facts(&self, index: usize) -> Result<String, AllocError> {
        let is_last = index.wrapping_add(1) == self.plan.secrets;
        let first = if is_last { 0 } else { 1 };
        let mut text = String::from_str(self.heap, "!(")?;
        self.push_all(&mut text, first..self.plan.names)?;
        text.push_str(")")?;
        Ok(text)
    }

    // The text of the question that every counterparty puts at a place.
    pub(crate) fn question(&self, place: usize) -> Result<String, AllocError> {
        match self.plan.load {
            Load::Usual => self.mixed(place),
            Load::Hardest => self.all_true(),
        }
    }

    // Words with and without `!`, joined by `&` and `|` in turn.
    fn mixed(&self, place: usize) -> Result<String, AllocError> {
        let mut text = String::new(self.heap);
        for index in 0..self.plan.words {
            let step = index.wrapping_mul(3).wrapping_add(place);
            text.push_str(joint(index))?;
            text.push_str(if step % 5 < 2 { "!" } else { "" })?;
            text.push_str(self.name(step))?;
        }
        Ok(text)
    }

    // Words joined by `&`, the first fact's among them.
    fn all_true(&self) -> Result<String, AllocError> {
        let mut text = String::new(self.heap);
        self.push_all(&mut text, 0..self.plan.words)?;
        Ok(text)
    }

    // The names of the facts, joined by `&`.
    fn push_all(&self, text: &mut String, facts: Range<usize>) -> Result<(), AllocError> {
        for (index, fact) in facts.enumerate() {
            text.push_str(if index == 0 { "" } else { "&" })?;
            text.push_str(self.name(fact))?;
        }
        Ok(())
    }

    // The names of the box, over and over. Where there are more than eight, the last stands for the rest.
    fn name(&self, index: usize) -> &'static str {
        let place = index.checked_rem(self.plan.names).unwrap_or(LAST);
        NAMES[place.min(LAST)]
    }
}

// What stands in front of a word.
fn joint(index: usize) -> &'static str {
    match (index, index % 2) {
        (0, _) => "",
        (_, 0) => "|",
        (_, _) => "&",
    }
}
