// The censor interface, with the laws that every censor keeps.
ghost use Rattle.std.specs.Prelude.{◌≡◌, Bool, List};
ghost use Rattle.sheets.specs.declared.SheetSet.{SheetSet};
ghost use Rattle.censors.specs.declared.question.Decision.{Decision};
ghost use Rattle.censors.specs.declared.question.Question.{Question};
ghost use Rattle.censors.specs.declared.question.Reply.{Reply};
ghost use Rattle.censors.specs.declared.question.Value.{Value};
ghost use Rattle.censors.specs.Laws.{Laws};

use super::question::{Decision, Question, Reply, Value};
use sheets::SheetSet;

// A censor has no memory: each operation is a function of its configuration and of what it is told, which is
// the record `known` of a counterparty and the sets of its secrets. They stay apart: censors outside the
// library are written to this interface.
pub trait Censor {
    ghost good: { Self → SheetSet → List SheetSet → Bool };

    ghost decided: { Self → SheetSet → List SheetSet → Question → Value → Decision };

    ghost after: { Self → SheetSet → List SheetSet → Question → Reply → SheetSet };

    // The start test: whether the record is good.
    fn is_good(&self, known: &SheetSet, secrets: &[SheetSet]) -> bool
        ensures { result ≡ good self.now known.now secrets.now };

    // The decision on a question, by its value.
    fn decide(
        &self,
        known: &SheetSet,
        secrets: &[SheetSet],
        question: &Question,
        value: Value,
    ) -> Decision
        ensures { result ≡ decided self.now known.now secrets.now question.now value };

    // The record after a reply; the value is not told.
    fn record_after(
        &self,
        known: &SheetSet,
        secrets: &[SheetSet],
        question: &Question,
        reply: Reply,
    ) -> SheetSet
        ensures { result ≡ after self.now known.now secrets.now question.now reply };

    ghost keeps: { (x : Self) → Laws (good x) (decided x) (after x) };
}
