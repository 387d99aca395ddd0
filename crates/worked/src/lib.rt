// Worked examples: a table of texts over the names full, late and sold, a table of runs of a box with these names, and what
// the rules make of each.
#![tactic(auto)]

ghost use Rattle.std.specs.Prelude.{◌≡◌};
ghost use Rattle.sentences.specs.Naming.{words};
ghost use Rattle.worked.specs.RunTable.{run_rows as the_run_rows, RowsHold};
ghost use Rattle.worked.specs.Worked.{names as the_names, rows as the_rows, row_at, text_at, expected_at, seen_at, bytes, AllHold};

use sentences::cuts::{Cut, CutList};
use sentences::faults::SentenceFault;
use sentences::names::Names;
use sentences::reading::{Meaning, parse};

// The names of every row: full, late and sold.
pub fn names() -> Names
    ensures { words result ≡ the_names }
{
    let cuts = [
        Cut { offset: 0, len: 4 },
        Cut { offset: 4, len: 4 },
        Cut { offset: 8, len: 4 },
    ];
    let list = CutList {
        block: b"fulllatesold",
        cuts: &cuts,
    };
    Names::parse(&list).unwrap()
}

// The texts of the rows.
const TEXTS: [&[u8]; 5] = [
    b"full & late",
    b"full | late & sold",
    b"!full & late",
    b"",
    b"(full",
];

// The text of a row.
pub fn text(row: usize) -> Option<&'static [u8]>
    ensures { bytes result ≡ text_at (row_at the_rows row) }
{
    TEXTS.get(row).copied()
}

// What is read of the text of a row: what the table has there. Every row of the table, and of that of runs, follows from the rules.
pub fn read_row(row: usize) -> Option<Result<Meaning, SentenceFault>>
    ensures as_listed { seen_at result ≡ expected_at (row_at the_rows row) }
    ensures by_rule { AllHold the_rows }
    ensures runs_by_rule { RowsHold the_run_rows }
{
    let text = text(row)?;
    Some(parse(&names(), text))
}
