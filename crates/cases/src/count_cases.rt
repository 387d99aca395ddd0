// In how many sheets a sentence is true, in boxes with one to eight names.
ghost use Rattle.std.specs.Prelude.{◌≡◌, ◌+◌, ◌-◌, ◌^◌, ◌≤◌, IfOk, min};

use super::answers::Answer;
use super::checks::Checks;
use super::lists::names_of;
use sentences::reading::parse;

struct CountCase {
    what: &'static str,
    names: &'static [&'static str],
    text: &'static [u8],
    count: u16,
}

const EIGHT_NAMES: &[&str] = &[
    "warehousenr1",
    "warehousenr2",
    "warehousenr3",
    "warehousenr4",
    "warehousenr5",
    "warehousenr6",
    "warehousenr7",
    "warehousenr8",
];

const COUNT_CASES: &[CountCase] = &[
    CountCase {
        what: "one name, always true",
        names: &["a"],
        text: b"a | !a",
        count: 2,
    },
    CountCase {
        what: "one name, never true",
        names: &["a"],
        text: b"a & !a",
        count: 0,
    },
    CountCase {
        what: "three names, always true",
        names: &["full", "late", "sold"],
        text: b"late | !late",
        count: 8,
    },
    CountCase {
        what: "eight names of 12 bytes, always true",
        names: EIGHT_NAMES,
        text: b"warehousenr8 | !warehousenr8",
        count: 256,
    },
    CountCase {
        what: "eight names of 12 bytes, the first and not the last",
        names: EIGHT_NAMES,
        text: b"warehousenr1 & !warehousenr8",
        count: 64,
    },
];

pub fn run(checks: &mut Checks) -> anyhow::Result<()>
    ensures cases { IfOk result (λ _. checks.new.tally.cases ≡ min (checks.old.tally.cases + 5) (2 ^ 64 - 1)) }
    ensures wrong { checks.old.tally.wrong ≤ checks.new.tally.wrong }
{
    for case in COUNT_CASES {
        let names = names_of(checks.heap(), case.names)?;
        let got = match parse(&names, case.text) {
            Ok(meaning) => Answer::Count(meaning.sheets.count()),
            Err(fault) => Answer::Refused(fault.refusal()),
        };
        checks.compare(case.what, &Answer::Count(case.count), &got)?;
    }
    Ok(())
}
