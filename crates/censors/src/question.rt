// Questions, their values, and what can be replied.
ghost use Rattle.std.specs.Prelude.{◌≡◌, Some};
ghost use Rattle.censors.specs.Questions.{question_of, reply_word, value_in, with_value};

use sheets::SheetSet;
use std::fmt;

// What a question is worth in a sheet. It is no `bool`, since a third value may join.
#[derive(Clone, Copy, PartialEq, Eq, Debug)]
pub enum Value {
    Yes,
    No,
}

// A reply says a value, or keeps mum. It is no `Option` of a value, since other replies may join.
#[derive(Clone, Copy, PartialEq, Eq, Debug)]
pub enum Reply {
    Said(Value),
    Mum,
}

impl Reply {
    // The word that a reply is written with.
    pub fn word(&self) -> &'static str
        ensures { result.now ≡ reply_word self.now }
    {
        match *self {
            Reply::Said(Value::Yes) => "yes",
            Reply::Said(Value::No) => "no",
            Reply::Mum => "mum",
        }
    }
}

impl fmt::Display for Reply {
    ghost output = { λ reply. Some (reply_word reply) };

    fn fmt<W: fmt::Write>(&self, f: &mut fmt::Formatter<W>) -> fmt::Result {
        f.write_str(self.word())
    }
}

// What a censor decides on a question.
#[derive(Clone, Copy, PartialEq, Eq, Debug)]
pub struct Decision {
    pub reply: Reply,
}

// A question, kept as the set of the sheets in which its value is yes.
#[derive(Clone, Copy, PartialEq, Eq, Debug)]
pub struct Question {
    yes: SheetSet,
}

impl Question {
    // The question that is true in these sheets.
    pub fn new(yes: SheetSet) -> Question
        ensures { result ≡ question_of yes }
    {
        Question { yes }
    }

    // Its value in a sheet.
    pub fn value_in(&self, sheet: u16) -> Value
        ensures { result ≡ value_in self.now sheet }
    {
        if self.yes.has(sheet) {
            Value::Yes
        } else {
            Value::No
        }
    }

    // The sheets of the record `known` in which it has the value.
    pub fn with_value(&self, known: &SheetSet, value: Value) -> SheetSet
        ensures { result ≡ with_value known.now self.now value }
    {
        match value {
            Value::Yes => known.meet(&self.yes),
            Value::No => known.minus(&self.yes),
        }
    }
}
