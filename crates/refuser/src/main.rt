// A censor written outside the library: it refuses as the refusing censor does, but guards the secrets together.
// Everything that is proved for every censor holds of it, since it keeps the laws.
#![tactic(auto)]

ghost use Rattle.std.specs.Prelude.{◌≡◌};
ghost use Rattle.censors.specs.Builtin.{good_jointly};
ghost use Rattle.censors.specs.Tables.{decided_by, entry, entered as entered_of, refusing as refusing_table};
ghost use Rattle.censors.specs.Guarding.{jointly};
ghost use Rattle.censors.specs.TableRules.{lawful, refusing_rules};

use censors::builtin::Builtin;
use censors::censor::Censor;
use censors::question::{Decision, Question, Reply, Value};
use censors::replay::replay;
use censors::table::Harm;
use sheets::SheetSet;
use std::io;

struct JointRefusal;

// Mum where either reply would harm, and else the value.
fn refuse_any(harm: &Harm, value: Value) -> Reply
    ensures { result ≡ entry refusing_table harm.now value }
{
    if harm.yes || harm.no {
        Reply::Mum
    } else {
        Reply::Said(value)
    }
}

impl Censor for JointRefusal {
    ghost good = { λ _. good_jointly };

    ghost decided = { λ _. decided_by good_jointly refusing_table };

    ghost after = { λ _ r _ q a. entered_of r q a };

    ghost keeps = { λ x. lawful _ jointly _ refusing_rules };

    fn is_good(&self, known: &SheetSet, secrets: &[SheetSet]) -> bool {
        !known.within_union(secrets)
    }

    fn decide(
        &self,
        known: &SheetSet,
        secrets: &[SheetSet],
        question: &Question,
        value: Value,
    ) -> Decision {
        let harm = Builtin::Lying.harm(known, secrets, question);
        Decision {
            reply: refuse_any(&harm, value),
        }
    }

    fn record_after(
        &self,
        known: &SheetSet,
        _secrets: &[SheetSet],
        question: &Question,
        reply: Reply,
    ) -> SheetSet {
        match reply {
            Reply::Said(value) => question.with_value(known, value),
            Reply::Mum => *known,
        }
    }
}

// Two secrets that cover all sheets but one half between them: full and late, full and not late.
fn main(rt: HostRuntime) -> io::Result<()> {
    let full = SheetSet::fact(0);
    let late = SheetSet::fact(1);
    let start = SheetSet::below(3);
    let secrets = [full.meet(&late), full.minus(&late)];
    let questions = [Question::new(full), Question::new(late)];
    let good = JointRefusal.is_good(&start, &secrets);
    println!(rt; "the start is good: {good}")?;
    let left = replay(&JointRefusal, &start, &secrets, &questions, 3);
    let sheets = left.count();
    println!(rt; "sheets left after full and late, by a joint refusal: {sheets}")?;
    let spoken = replay(&Builtin::Lying, &start, &secrets, &questions, 3).count();
    println!(rt; "sheets left after full and late, by lying: {spoken}")
}
