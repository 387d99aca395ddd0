// What each censor would do with each question as the day opens.
ghost use Rattle.std.specs.Prelude.{◌≡◌};
ghost use Rattle.censors.specs.declared.question.Value.TheVariants.{Yes, No};
ghost use Rattle.censors.specs.Kinds.{good_of, table_of, builtin_word};
ghost use Rattle.censors.specs.Tables.{decided_by, harm_of};
ghost use Rattle.sentences.specs.Lists.{sets_of};
ghost use Rattle.sheets.specs.Sets.{mem, count as count_of};
ghost use Rattle.report.specs.Printed.{all_censors};

use super::show::Shown;
use censors::builtin::{BUILTINS, Builtin};
use censors::censor::Censor;
use censors::question::{Question, Reply, Value};
use censors::table::Harm;
use sentences::lists::SentenceList;
use sheets::SheetSet;
use std::{fmt, io};

// The record `known` that a counterparty starts from, and the secrets that are kept from it.
#[derive(Clone, Copy)]
pub struct Opening {
    pub known: SheetSet,
    pub secrets: SentenceList,
}

// Why there is no opening.
#[derive(Clone, Copy)]
pub enum Unopened {
    NoNames,
    NamesRefused,
    HouseRules,
    Secrets,
    Prior,
}

impl fmt::Display for Unopened {
    fn fmt<W: fmt::Write>(&self, f: &mut fmt::Formatter<W>) -> fmt::Result {
        f.write_str(match *self {
            Unopened::NoNames => "there are no names",
            Unopened::NamesRefused => "the names are refused",
            Unopened::HouseRules => "the house rules are not accepted",
            Unopened::Secrets => "the secrets are not accepted",
            Unopened::Prior => "the prior is refused",
        })
    }
}

// A question that was accepted, with its number among all questions.
#[derive(Clone, Copy)]
pub struct Asked<'a> {
    pub number: usize,
    pub text: &'a [u8],
    pub question: Question,
}

// What a censor would do with a question: which replies would harm, and what either value would bring.
#[derive(Clone, Copy)]
struct Outlook {
    harm: Harm,
    on_yes: Reply,
    on_no: Reply,
}

impl Outlook {
    fn new(censor: Builtin, known: &SheetSet, secrets: &[SheetSet], question: &Question) -> Outlook
        ensures harm { result.harm ≡ harm_of (good_of censor) known.now secrets.now question.now }
        ensures yes { result.on_yes ≡ (decided_by (good_of censor) (table_of censor) known.now secrets.now question.now Yes).reply }
        ensures no { result.on_no ≡ (decided_by (good_of censor) (table_of censor) known.now secrets.now question.now No).reply }
    {
        Outlook {
            harm: censor.harm(known, secrets, question),
            on_yes: censor.decide(known, secrets, question, Value::Yes).reply,
            on_no: censor.decide(known, secrets, question, Value::No).reply,
        }
    }
}

impl fmt::Display for Outlook {
    fn fmt<W: fmt::Write>(&self, f: &mut fmt::Formatter<W>) -> fmt::Result {
        let harmful = harmful_replies(self.harm);
        let on_yes = self.on_yes;
        let on_no = self.on_no;
        write!(
            f,
            "harmful {harmful}; yes brings {on_yes}, no brings {on_no}"
        )
    }
}

// These words are the report's alone, so a Display of Harm in its own crate would be no plainer.
fn harmful_replies(harm: Harm) -> &'static str {
    match (harm.yes, harm.no) {
        (false, false) => "neither",
        (true, false) => "yes only",
        (false, true) => "no only",
        (true, true) => "both",
    }
}

// Prints what all censors would do with the questions, each from the same record.
pub fn print_outlook(rt: &HostRuntime, opening: &Opening, questions: &[Asked]) -> io::Result<()> {
    let report = OutlookReport {
        rt,
        opening,
        questions,
    };
    report.record(opening.known.count())?;
    report.censors(&BUILTINS)
}

// What the outlook is printed from.
#[derive(Clone, Copy)]
struct OutlookReport<'a> {
    rt: &'a HostRuntime,
    opening: &'a Opening,
    questions: &'a [Asked<'a>],
}

impl OutlookReport<'_> {
    fn record(&self, sheets: u16) -> io::Result<()>
        requires { sheets ≡ count_of (mem self.now.opening.now.known) 256 }
    {
        println!(self.rt; "censors, from a record of {sheets} sheets:")
    }

    fn censors(&self, censors: &[Builtin]) -> io::Result<()>
        requires { censors.now ≡ all_censors }
    {
        for censor in censors {
            self.censor(*censor)?;
        }
        Ok(())
    }

    // A censor takes nobody in where the record is not good, so it has no replies to show then.
    fn censor(&self, censor: Builtin) -> io::Result<()> {
        let good = censor.is_good(&self.opening.known, self.opening.secrets.sets());
        self.start(censor, censor.word(), good)?;
        if good { self.questions(censor) } else { Ok(()) }
    }

    fn start(&self, censor: Builtin, name: &str, good: bool) -> io::Result<()>
        requires word { name.now ≡ builtin_word censor }
        requires test { good ≡ good_of censor self.now.opening.now.known (sets_of self.now.opening.now.secrets) }
    {
        if good {
            println!(self.rt; "  {name}: good")
        } else {
            println!(self.rt; "  {name}: not good, so nobody can be enrolled")
        }
    }

    fn questions(&self, censor: Builtin) -> io::Result<()> {
        for asked in self.questions {
            self.question(asked, censor)?;
        }
        Ok(())
    }

    fn question(&self, asked: &Asked, censor: Builtin) -> io::Result<()> {
        let known = &self.opening.known;
        let outlook = Outlook::new(censor, known, self.opening.secrets.sets(), &asked.question);
        self.replies(asked, censor, outlook)
    }

    fn replies(&self, asked: &Asked, censor: Builtin, outlook: Outlook) -> io::Result<()>
        requires harm { outlook.harm ≡ harm_of (good_of censor) self.now.opening.now.known (sets_of self.now.opening.now.secrets) asked.now.question }
        requires yes { outlook.on_yes ≡ (decided_by (good_of censor) (table_of censor) self.now.opening.now.known (sets_of self.now.opening.now.secrets) asked.now.question Yes).reply }
        requires no { outlook.on_no ≡ (decided_by (good_of censor) (table_of censor) self.now.opening.now.known (sets_of self.now.opening.now.secrets) asked.now.question No).reply }
    {
        let number = asked.number;
        let text = Shown { text: asked.text };
        println!(self.rt; "    question {number}, {text}: {outlook}")
    }
}
