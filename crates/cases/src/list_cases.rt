// Lists of names, house rules and secrets, whose pieces follow one another.
ghost use Rattle.std.specs.Prelude.{◌≡◌, ◌+◌, ◌-◌, ◌^◌, ◌≤◌, IfOk, min};

use super::checks::Checks;
use super::lists::{Expected, LEFT_OUT, read_list};
use anyhow::Context;
use pieces::Pieces;
use sentences::faults::ListKind;

struct ListCase {
    what: &'static str,
    kind: ListKind,
    pieces: &'static [&'static str],
    expected: Expected,
}

const LIST_CASES: &[ListCase] = &[
    ListCase {
        what: "no names",
        kind: ListKind::Names,
        pieces: &[],
        expected: Expected::BadCount(ListKind::Names),
    },
    ListCase {
        what: "one name of one letter",
        kind: ListKind::Names,
        pieces: &["a"],
        expected: Expected::Accepted(1),
    },
    ListCase {
        what: "names with digits",
        kind: ListKind::Names,
        pieces: &["dock2", "z9"],
        expected: Expected::Accepted(2),
    },
    ListCase {
        what: "eight names of 12 bytes",
        kind: ListKind::Names,
        pieces: &[
            "warehousenr1",
            "warehousenr2",
            "warehousenr3",
            "warehousenr4",
            "warehousenr5",
            "warehousenr6",
            "warehousenr7",
            "warehousenr8",
        ],
        expected: Expected::Accepted(8),
    },
    ListCase {
        what: "nine names",
        kind: ListKind::Names,
        pieces: &["a", "b", "c", "d", "e", "f", "g", "h", "i"],
        expected: Expected::BadCount(ListKind::Names),
    },
    ListCase {
        what: "nine bad names",
        kind: ListKind::Names,
        pieces: &["A", "B", "C", "D", "E", "F", "G", "H", "I"],
        expected: Expected::BadCount(ListKind::Names),
    },
    ListCase {
        what: "an empty name",
        kind: ListKind::Names,
        pieces: &["full", ""],
        expected: Expected::BadItem {
            number: 6,
            index: 1,
        },
    },
    ListCase {
        what: "a name of 13 bytes",
        kind: ListKind::Names,
        pieces: &["full", "warehousenr10"],
        expected: Expected::BadItem {
            number: 6,
            index: 1,
        },
    },
    ListCase {
        what: "a name with a digit first",
        kind: ListKind::Names,
        pieces: &["1full"],
        expected: Expected::BadItem {
            number: 6,
            index: 0,
        },
    },
    ListCase {
        what: "a name with a capital letter",
        kind: ListKind::Names,
        pieces: &["full", "laTe"],
        expected: Expected::BadItem {
            number: 6,
            index: 1,
        },
    },
    ListCase {
        what: "a name with a blank in it",
        kind: ListKind::Names,
        pieces: &["full", "la te"],
        expected: Expected::BadItem {
            number: 6,
            index: 1,
        },
    },
    ListCase {
        what: "a name with a sign in it",
        kind: ListKind::Names,
        pieces: &["full", "late", "in_port"],
        expected: Expected::BadItem {
            number: 6,
            index: 2,
        },
    },
    ListCase {
        what: "a name that was there before",
        kind: ListKind::Names,
        pieces: &["full", "late", "full"],
        expected: Expected::BadItem {
            number: 6,
            index: 2,
        },
    },
    ListCase {
        what: "two bad names",
        kind: ListKind::Names,
        pieces: &["full", "Late", "1sold"],
        expected: Expected::BadItem {
            number: 6,
            index: 1,
        },
    },
    ListCase {
        what: "no house rules",
        kind: ListKind::HouseRules,
        pieces: &[],
        expected: Expected::Accepted(0),
    },
    ListCase {
        what: "one house rule",
        kind: ListKind::HouseRules,
        pieces: &["full | late"],
        expected: Expected::Accepted(1),
    },
    ListCase {
        what: "eight house rules",
        kind: ListKind::HouseRules,
        pieces: &[
            "full",
            "late",
            "sold",
            "!full",
            "!late",
            "!sold",
            "full & late",
            "late | sold",
        ],
        expected: Expected::Accepted(8),
    },
    ListCase {
        what: "nine house rules",
        kind: ListKind::HouseRules,
        pieces: &[
            "full",
            "late",
            "sold",
            "!full",
            "!late",
            "!sold",
            "full & late",
            "late | sold",
            "full",
        ],
        expected: Expected::BadCount(ListKind::HouseRules),
    },
    ListCase {
        what: "nine house rules that are no sentences",
        kind: ListKind::HouseRules,
        pieces: &["?", "?", "?", "?", "?", "?", "?", "?", "?"],
        expected: Expected::BadCount(ListKind::HouseRules),
    },
    ListCase {
        what: "house rules with a fault in the second",
        kind: ListKind::HouseRules,
        pieces: &["full", "full late"],
        expected: Expected::BadSentence {
            number: 4,
            item: 1,
            place: 5,
        },
    },
    ListCase {
        what: "house rules with faults in the second and the third",
        kind: ListKind::HouseRules,
        pieces: &["full", "late ?", "ship"],
        expected: Expected::BadSentence {
            number: 2,
            item: 1,
            place: 5,
        },
    },
    ListCase {
        what: "house rules with a fault in the third",
        kind: ListKind::HouseRules,
        pieces: &["full", "late", "full & ship"],
        expected: Expected::BadSentence {
            number: 3,
            item: 2,
            place: 7,
        },
    },
    ListCase {
        what: "house rules with an empty one",
        kind: ListKind::HouseRules,
        pieces: &["full", "", "late"],
        expected: Expected::BadSentence {
            number: 4,
            item: 1,
            place: 0,
        },
    },
    ListCase {
        what: "no secrets",
        kind: ListKind::Secrets,
        pieces: &[],
        expected: Expected::BadCount(ListKind::Secrets),
    },
    ListCase {
        what: "one secret",
        kind: ListKind::Secrets,
        pieces: &["sold"],
        expected: Expected::Accepted(1),
    },
    ListCase {
        what: "eight secrets",
        kind: ListKind::Secrets,
        pieces: &[
            "full",
            "late",
            "sold",
            "!full",
            "!late",
            "!sold",
            "full & late",
            "late | sold",
        ],
        expected: Expected::Accepted(8),
    },
    ListCase {
        what: "nine secrets",
        kind: ListKind::Secrets,
        pieces: &[
            "full",
            "late",
            "sold",
            "!full",
            "!late",
            "!sold",
            "full & late",
            "late | sold",
            "full",
        ],
        expected: Expected::BadCount(ListKind::Secrets),
    },
    ListCase {
        what: "secrets with a fault in the first",
        kind: ListKind::Secrets,
        pieces: &["ship", "full late"],
        expected: Expected::BadSentence {
            number: 3,
            item: 0,
            place: 0,
        },
    },
];

pub fn run(checks: &mut Checks) -> anyhow::Result<()>
    ensures cases { IfOk result (λ _. checks.new.tally.cases ≡ min (checks.old.tally.cases + 28) (2 ^ 64 - 1)) }
    ensures wrong { checks.old.tally.wrong ≤ checks.new.tally.wrong }
{
    for case in LIST_CASES {
        let pieces = Pieces::of(checks.heap(), case.pieces)?;
        let list = pieces.list().context(LEFT_OUT)?;
        let got = read_list(case.kind, &checks.names, &list);
        checks.compare(case.what, &case.expected.answer(), &got)?;
    }
    Ok(())
}
