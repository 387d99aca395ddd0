// The lines of an input file: a label, blanks, and the rest.
ghost use Rattle.std.specs.Prelude.{[], map, IfOk, Some, not, nat_eq, ◌≡◌, ℕ, ◌+◌, ◌<◌, ◌≤◌, length, take, MatchResult, ◌≢◌, slice_index};
ghost use Rattle.report.specs.Labels.{label_name, NamedBy};
ghost use Rattle.report.specs.Lines.{is_silent, words_of, Reads, Labelled};
ghost use Rattle.std.specs.List.{position_or_len};

use inputs::lines::first_place;
use std::alloc::{AllocError, Global};
use std::fmt;

// What a sentence is for.
#[derive(Clone, Copy)]
pub enum Label {
    Rule,
    Secret,
    // what the counterparty knows beforehand
    Prior,
    Question,
}

const LABELS: [Label; 4] = [Label::Rule, Label::Secret, Label::Prior, Label::Question];

impl Label {
    pub fn name(self) -> &'static str
        ensures { result.now ≡ label_name self }
    {
        match self {
            Label::Rule => "rule",
            Label::Secret => "secret",
            Label::Prior => "prior",
            Label::Question => "question",
        }
    }
}

impl fmt::Display for Label {
    ghost output = { λ label. Some (label_name label) };

    fn fmt<W: fmt::Write>(&self, f: &mut fmt::Formatter<W>) -> fmt::Result {
        f.write_str(self.name())
    }
}

// A word that is the name of no label.
#[derive(Clone, Copy)]
pub struct UnknownLabel;

// The censors' words are searched alike, each search in its place: one for both would need a clause of its closure that is longer than the search.
impl TryFrom<&[u8]> for Label {
    type Error = UnknownLabel;

    ghost try_from_gives = { λ word r. NamedBy word.now r };

    fn try_from(word: &[u8]) -> Result<Label, UnknownLabel> {
        LABELS
            .iter()
            .copied()
            .find(|label| word == label.name().as_bytes())
            .ok_or(UnknownLabel)
    }
}

// A line, taken apart. What follows the label is without the blanks in front.
#[derive(Drop)]
pub enum Line<'a> {
    // an empty line or a comment
    Nothing,
    Names(&'a [u8]),
    Sentence(Label, &'a [u8]),
    UnknownLabel(&'a [u8]),
}

pub fn read_line(line: &[u8]) -> Line<'_>
    ensures { Reads (is_silent line.now) line.now result }
{
    if matches!(line, [] | [b'#', ..]) {
        return Line::Nothing;
    }
    let end = first_place(line, b' ');
    let label = &line[0..end];
    let after = &line[end..];
    let rest = &after[leading_blanks(after)..];
    line_of(label, rest)
}

fn line_of<'a>(label: &'a [u8], rest: &'a [u8]) -> Line<'a>
    ensures { Labelled label.now rest.now result }
{
    if label == b"names".as_slice() {
        return Line::Names(rest);
    }
    match Label::try_from(label) {
        Ok(label) => Line::Sentence(label, rest),
        Err(UnknownLabel) => Line::UnknownLabel(label),
    }
}

// The words of a text, which blanks part.
pub fn words(heap: Global, text: &[u8]) -> Result<Vec<&[u8]>, AllocError>
    ensures { IfOk result (λ words. map (λ word. word.now) words.items ≡ words_of text.now) }
{
    text.split(|byte| *byte == b' ')
        .filter(|word| !word.is_empty())
        .collect(heap)
}

// How many blanks stand in front.
fn leading_blanks(text: &[u8]) -> usize
    ensures within { result ≤ length text.now }
    ensures before { (k : ℕ) → k < result → slice_index text.now k ≡ 32 }
    ensures stops { result < length text.now → slice_index text.now result ≢ 32 }
    ensures first { result ≡ position_or_len (λ b. not (nat_eq b 32)) text.now }
{
    text.iter()
        .position(|byte| *byte != b' ')
        .unwrap_or(text.len())
}
