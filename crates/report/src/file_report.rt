// What a file has given so far.
ghost use Rattle.std.specs.Prelude.{◌≡◌, ◌+◌, ◌-◌, ◌^◌, min, false, [], ◌∷◌, ◌++◌, is_ok, IfOk, None, Some, Ok, Err, OnOk, ◌≢◌};
ghost use Rattle.censors.specs.Questions.{question_of};
ghost use Rattle.report.specs.declared.lists.Unread.{Unread};
ghost use Rattle.sentences.specs.declared.faults.SentenceFault.{SentenceFault};

use super::input::Label;
use super::lists::{Unread, house_rules_in, secrets_in};
use super::outlook::{Asked, Opening, Unopened};
use super::start::starting_record;
use censors::question::Question;
use pieces::Pieces;
use sentences::faults::SentenceFault;
use sentences::names::Names;
use sheets::SheetSet;
use std::alloc::{AllocError, Global};

#[derive(Drop)]
pub(crate) struct FileReport<'a> {
    // what the names are read as, once there are any
    pub(crate) naming: Option<Result<Names, Unread>>,
    pub(crate) rules: Pieces,
    pub(crate) secrets: Pieces,
    // what the counterparty knows beforehand, once that is given
    // The fault is not read again: it tells a refused prior from a missing one, as the names' does.
    prior: Option<Result<SheetSet, SentenceFault>>,
    // how many questions there are, refused ones too
    questions: usize,
    pub(crate) asked: Vec<Asked<'a>>,
    pub(crate) accepted: usize,
    pub(crate) refused: usize,
    pub(crate) skipped: usize,
    pub(crate) bad_lines: usize,
}

impl<'a> FileReport<'a> {
    pub(crate) fn new(heap: Global) -> FileReport<'a>
        ensures naming { result.naming ≡ None }
        ensures prior { result.prior ≡ None }
        ensures asked { result.asked.items ≡ [] }
    {
        FileReport {
            naming: None,
            rules: Pieces::new(heap),
            secrets: Pieces::new(heap),
            prior: None,
            questions: 0,
            asked: Vec::new(heap),
            accepted: 0,
            refused: 0,
            skipped: 0,
            bad_lines: 0,
        }
    }

    // Keeps the names, or why they are refused.
    pub(crate) fn take_names(&mut self, read: Result<Names, Unread>)
        ensures { self.new.naming ≡ Some read }
    {
        self.naming = Some(read);
    }

    // Whether the label stands once in a file, and has been there.
    pub(crate) fn is_given(&self, label: Label) -> bool
        ensures other { (label ≢ Label.Prior) → result ≡ false }
        ensures missing { self.now.prior ≡ None → result ≡ false }
        ensures given { label ≡ Label.Prior → result ≡ false → self.now.prior ≡ None }
    {
        matches!(label, Label::Prior) && self.prior.is_some()
    }

    // Takes a sentence in and answers its number among those of its label.
    pub(crate) fn add(&mut self, label: Label, text: &[u8]) -> Result<usize, AllocError>
        ensures { IfOk result (λ i. label ≡ Label.Question → (i ≡ self.old.questions) × (self.new.questions ≡ min (i + 1) (2 ^ 64 - 1))) }
    {
        match label {
            Label::Rule => self.rules.add(text),
            Label::Secret => self.secrets.add(text),
            Label::Prior => Ok(0),
            Label::Question => {
                let number = self.questions;
                self.questions = number.saturating_add(1);
                Ok(number)
            }
        }
    }

    // Keeps what an accepted sentence means. Rules and secrets are read once more, as lists.
    pub(crate) fn accept(
        &mut self,
        label: Label,
        number: usize,
        text: &'a [u8],
        sheets: SheetSet,
    ) -> Result<(), AllocError>
        ensures prior { label ≡ Label.Prior → self.new.prior ≡ Some (Ok sheets) }
        ensures asked { OnOk result (label ≡ Label.Question → self.new.asked.items ≡ self.old.asked.items ++ record { number = number; text = text.entry; question = question_of sheets } ∷ []) }
    {
        self.accepted = self.accepted.saturating_add(1);
        match label {
            Label::Rule | Label::Secret => {}
            Label::Prior => self.prior = Some(Ok(sheets)),
            Label::Question => {
                let asked = Asked {
                    number,
                    text,
                    question: Question::new(sheets),
                };
                self.asked.push(asked)?;
            }
        }
        Ok(())
    }

    pub(crate) fn refuse(&mut self, label: Label, fault: SentenceFault)
        ensures { label ≡ Label.Prior → self.new.prior ≡ Some (Err fault) }
    {
        self.refused = self.refused.saturating_add(1);
        if let Label::Prior = label {
            self.prior = Some(Err(fault));
        }
    }

    // Counts a sentence that is not read, since the names are refused.
    pub(crate) fn skip(&mut self)
        ensures { self.new.skipped ≡ min (self.old.skipped + 1) (2 ^ 64 - 1) }
    {
        self.skipped = self.skipped.saturating_add(1);
    }

    pub(crate) fn count_bad_line(&mut self)
        ensures { self.new.bad_lines ≡ min (self.old.bad_lines + 1) (2 ^ 64 - 1) }
    {
        self.bad_lines = self.bad_lines.saturating_add(1);
    }

    // Where the censors start from, or the first thing that is lacking for that.
    pub(crate) fn opening(&self) -> Result<Opening, Unopened>
        ensures names { (why : Unread) → self.now.naming ≡ Some (Err why) → is_ok result ≡ false }
        ensures prior { (why : SentenceFault) → self.now.prior ≡ Some (Err why) → is_ok result ≡ false }
    {
        let names = self.naming.ok_or(Unopened::NoNames)?;
        let names = names.map_err(|_| Unopened::NamesRefused)?;
        let rules = house_rules_in(&self.rules, &names).map_err(|_| Unopened::HouseRules)?;
        let secrets = secrets_in(&self.secrets, &names).map_err(|_| Unopened::Secrets)?;
        let prior = self.prior.transpose().map_err(|_| Unopened::Prior)?;
        Ok(Opening {
            known: starting_record(&names, &rules, prior),
            secrets,
        })
    }
}
