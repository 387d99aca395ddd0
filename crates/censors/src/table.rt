// Decision tables: which reply a value brings, by which replies would harm.
ghost use Rattle.std.specs.Prelude.{◌≡◌, ◌<◌, false};
ghost use Rattle.censors.specs.declared.question.Reply.TheVariants.{Said};
ghost use Rattle.censors.specs.Tables.{Table, Rules, Candid, harm_of, harmful, row_of, column_of, entry, entered as entered_of, refusing, speaking};
ghost use Rattle.censors.specs.TableRules.{refusing_rules, speaking_rules, speaking_candid};

use super::guard::Guard;
use super::question::{Question, Reply, Value};
use sheets::SheetSet;

// Which replies would leave a record that is not good.
#[derive(Clone, Copy, PartialEq, Eq, Debug)]
pub struct Harm {
    pub yes: bool,
    pub no: bool,
}

// A constant table of replies: a row for each harm, a column for each value, yes and then no.
pub trait ReplyTable {
    ghost ROWS: { Table };

    const ROWS: [[Reply; 2]; 4];

    // What makes a lawful censor of a table; one computed test shows it.
    ghost rules: { Rules ROWS };
}

// Mum wherever a reply would harm, whichever the value is.
#[derive(Clone, Copy, PartialEq, Eq, Debug)]
pub struct RefusingTable;

impl ReplyTable for RefusingTable {
    ghost ROWS = { refusing };

    const ROWS: [[Reply; 2]; 4] = [
        [Reply::Said(Value::Yes), Reply::Said(Value::No)], // neither would harm
        [Reply::Mum, Reply::Mum], // yes would harm
        [Reply::Mum, Reply::Mum], // no would harm
        [Reply::Mum, Reply::Mum], // both would harm
    ];

    ghost rules = { refusing_rules };
}

// The harmless value, and mum where both values would harm.
#[derive(Clone, Copy, PartialEq, Eq, Debug)]
pub struct SpeakingTable;

impl ReplyTable for SpeakingTable {
    ghost ROWS = { speaking };

    const ROWS: [[Reply; 2]; 4] = [
        [Reply::Said(Value::Yes), Reply::Said(Value::No)],
        [Reply::Said(Value::No), Reply::Said(Value::No)],
        [Reply::Said(Value::Yes), Reply::Said(Value::Yes)],
        [Reply::Mum, Reply::Mum],
    ];

    ghost rules = { speaking_rules };
}

// A table by which a harmless value is said as it is.
pub trait CandidTable: ReplyTable {
    ghost candid: { Candid Self.ROWS };
}

impl CandidTable for SpeakingTable {
    ghost candid = { speaking_candid };
}

impl Harm {
    // Which replies would harm where this test guards the records.
    pub(crate) fn of<G: Guard>(known: &SheetSet, secrets: &[SheetSet], question: &Question) -> Harm
        ensures { result ≡ harm_of G.good known.now secrets.now question.now }
    {
        Harm {
            yes: !G::is_good(&question.with_value(known, Value::Yes), secrets),
            no: !G::is_good(&question.with_value(known, Value::No), secrets),
        }
    }

    fn row(&self) -> usize
        ensures is { result ≡ row_of self.now }
        ensures small { result < 4 }
    {
        usize::from(self.yes) + 2 * usize::from(self.no)
    }
}

// A function and no `From`, since its bound stands in its contract.
fn column(value: Value) -> usize
    ensures is { result ≡ column_of value }
    ensures small { result < 2 }
{
    match value {
        Value::Yes => 0,
        Value::No => 1,
    }
}

// The table's reply. Of a candid table a harmless value is said as it is.
pub(crate) fn reply<T: ReplyTable>(harm: &Harm, value: Value) -> Reply
    ensures is { result ≡ entry T.ROWS harm.now value }
    ensures candid { Candid T.ROWS → harmful harm.now value ≡ false → result ≡ Said value }
{
    T::ROWS[harm.row()][column(value)]
}

// The record after a reply: after a value the sheets with that value, after mum all.
pub(crate) fn entered(known: &SheetSet, question: &Question, reply: Reply) -> SheetSet
    ensures { result ≡ entered_of known.now question.now reply }
{
    match reply {
        Reply::Said(value) => question.with_value(known, value),
        Reply::Mum => *known,
    }
}
