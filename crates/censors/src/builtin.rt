// The censors that come with the library: refusing, lying, and combined.
ghost use Rattle.std.specs.Prelude.{◌≡◌, true, false, ◌&&◌, Some};
ghost use Rattle.censors.specs.Builtin.{good_jointly};
ghost use Rattle.censors.specs.Kinds.{good_of, table_of, builtin_word, NamedBy};
ghost use Rattle.censors.specs.Kept.{chosen};
ghost use Rattle.censors.specs.Tables.{harm_of, decided_by, entered as entered_of};
ghost use Rattle.censors.specs.TableRules.{lawful};

use super::censor::Censor;
use super::guard::{Guard, Jointly, Singly};
use super::question::{Decision, Question, Reply, Value};
use super::table::{Harm, RefusingTable, ReplyTable, SpeakingTable, entered, reply};
use sheets::SheetSet;
use std::error::Error;
use std::fmt;

// A censor that is made of a test of records and a table of replies.
pub trait Tabled {
    type Guard: Guard;

    type Table: ReplyTable;
}

// Keeps mum wherever a reply would harm, whichever the value is.
#[derive(Clone, Copy, PartialEq, Eq, Debug)]
pub struct Refusing;

impl Tabled for Refusing {
    type Guard = Singly;

    type Table = RefusingTable;
}

// Says the harmless value, and guards the secrets together, so that one is always left.
#[derive(Clone, Copy, PartialEq, Eq, Debug)]
pub struct Lying;

impl Tabled for Lying {
    type Guard = Jointly;

    type Table = SpeakingTable;
}

// Says the harmless value, guards the secrets one by one, and keeps mum where both values would harm.
#[derive(Clone, Copy, PartialEq, Eq, Debug)]
pub struct Combined;

impl Tabled for Combined {
    type Guard = Singly;

    type Table = SpeakingTable;
}

impl<C: Tabled> Censor for C {
    ghost good = { λ _. C.Guard.good };

    ghost decided = { λ _. decided_by C.Guard.good C.Table.ROWS };

    ghost after = { λ _ r _ q a. entered_of r q a };

    ghost keeps = { λ x. lawful _ C.Guard.guards _ C.Table.rules };

    fn is_good(&self, known: &SheetSet, secrets: &[SheetSet]) -> bool {
        C::Guard::is_good(known, secrets)
    }

    fn decide(
        &self,
        known: &SheetSet,
        secrets: &[SheetSet],
        question: &Question,
        value: Value,
    ) -> Decision {
        let harm = Harm::of::<C::Guard>(known, secrets, question);
        Decision {
            reply: reply::<C::Table>(&harm, value),
        }
    }

    fn record_after(
        &self,
        known: &SheetSet,
        _secrets: &[SheetSet],
        question: &Question,
        reply: Reply,
    ) -> SheetSet {
        entered(known, question, reply)
    }
}

// The censor that a program chooses as it runs.
#[derive(Clone, Copy, PartialEq, Eq, Debug)]
pub enum Builtin {
    Refusing,
    Lying,
    Combined,
}

// Each of them, in the order in which reports list them.
pub const BUILTINS: [Builtin; 3] = [Builtin::Refusing, Builtin::Lying, Builtin::Combined];

// A word that names no censor.
#[derive(Clone, Copy, PartialEq, Eq, Debug)]
pub struct UnknownWord;

impl fmt::Display for UnknownWord {
    fn fmt<W: fmt::Write>(&self, f: &mut fmt::Formatter<W>) -> fmt::Result {
        f.write_str("no censor has this name")
    }
}

impl Error for UnknownWord {}

impl fmt::Display for Builtin {
    ghost output = { λ censor. Some (builtin_word censor) };

    fn fmt<W: fmt::Write>(&self, f: &mut fmt::Formatter<W>) -> fmt::Result {
        f.write_str(self.word())
    }
}

impl TryFrom<&[u8]> for Builtin {
    type Error = UnknownWord;

    ghost try_from_gives = { λ word r. NamedBy word.now r };

    fn try_from(word: &[u8]) -> Result<Builtin, UnknownWord> {
        BUILTINS
            .iter()
            .copied()
            .find(|censor| word == censor.word().as_bytes())
            .ok_or(UnknownWord)
    }
}

impl Builtin {
    // The word that a censor is written with.
    pub fn word(&self) -> &'static str
        ensures { result.now ≡ builtin_word self.now }
    {
        match *self {
            Builtin::Refusing => "refusing",
            Builtin::Lying => "lying",
            Builtin::Combined => "combined",
        }
    }

    // Which replies would harm. From a good record the lying censor never finds both harmful, so it never keeps mum.
    pub fn harm(&self, known: &SheetSet, secrets: &[SheetSet], question: &Question) -> Harm
        ensures is { result ≡ harm_of (good_of self.now) known.now secrets.now question.now }
        ensures spared { self.now ≡ Builtin.Lying → good_jointly known.now secrets.now ≡ true → (result.yes && result.no) ≡ false }
    {
        match *self {
            Builtin::Refusing | Builtin::Combined => Harm::of::<Singly>(known, secrets, question),
            Builtin::Lying => Harm::of::<Jointly>(known, secrets, question),
        }
    }
}

impl Censor for Builtin {
    ghost good = { good_of };

    ghost decided = { λ k. decided_by (good_of k) (table_of k) };

    ghost after = { λ _ r _ q a. entered_of r q a };

    ghost keeps = { chosen };

    fn is_good(&self, known: &SheetSet, secrets: &[SheetSet]) -> bool {
        match *self {
            Builtin::Refusing => Refusing.is_good(known, secrets),
            Builtin::Lying => Lying.is_good(known, secrets),
            Builtin::Combined => Combined.is_good(known, secrets),
        }
    }

    fn decide(
        &self,
        known: &SheetSet,
        secrets: &[SheetSet],
        question: &Question,
        value: Value,
    ) -> Decision {
        match *self {
            Builtin::Refusing => Refusing.decide(known, secrets, question, value),
            Builtin::Lying => Lying.decide(known, secrets, question, value),
            Builtin::Combined => Combined.decide(known, secrets, question, value),
        }
    }

    fn record_after(
        &self,
        known: &SheetSet,
        _secrets: &[SheetSet],
        question: &Question,
        reply: Reply,
    ) -> SheetSet {
        entered(known, question, reply)
    }
}
