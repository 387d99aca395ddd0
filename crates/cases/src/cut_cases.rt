// Cut lists whose pairs are written out.
ghost use Rattle.std.specs.Prelude.{◌≡◌, ◌+◌, ◌-◌, ◌^◌, ◌≤◌, IfOk, min};

use super::answers::Answer;
use super::checks::Checks;
use super::lists::{Expected, read_list};
use sentences::cuts::{Cut, CutList};
use sentences::faults::ListKind;

// A list, the first of its pairs that is bad in itself, and what the whole list is read as.
struct CutCase {
    what: &'static str,
    kind: ListKind,
    block: &'static [u8],
    cuts: &'static [Cut],
    bad_pair: Option<usize>,
    expected: Expected,
}

const CUT_CASES: &[CutCase] = &[
    CutCase {
        what: "pieces with gaps",
        kind: ListKind::HouseRules,
        block: b"full late sold",
        cuts: &[
            Cut { offset: 0, len: 4 },
            Cut { offset: 5, len: 4 },
            Cut { offset: 10, len: 4 },
        ],
        bad_pair: None,
        expected: Expected::Accepted(3),
    },
    CutCase {
        what: "pieces that touch",
        kind: ListKind::HouseRules,
        block: b"fulllate",
        cuts: &[Cut { offset: 0, len: 4 }, Cut { offset: 4, len: 4 }],
        bad_pair: None,
        expected: Expected::Accepted(2),
    },
    CutCase {
        what: "a block with more than the pieces",
        kind: ListKind::HouseRules,
        block: b"? full ? late ?",
        cuts: &[Cut { offset: 2, len: 4 }, Cut { offset: 9, len: 4 }],
        bad_pair: None,
        expected: Expected::Accepted(2),
    },
    CutCase {
        what: "a pair that reaches past the block",
        kind: ListKind::HouseRules,
        block: b"full late",
        cuts: &[Cut { offset: 0, len: 4 }, Cut { offset: 5, len: 5 }],
        bad_pair: Some(1),
        expected: Expected::BadItem {
            number: 5,
            index: 1,
        },
    },
    CutCase {
        what: "a pair that begins past the block",
        kind: ListKind::HouseRules,
        block: b"full",
        cuts: &[Cut { offset: 5, len: 0 }],
        bad_pair: Some(0),
        expected: Expected::BadItem {
            number: 5,
            index: 0,
        },
    },
    CutCase {
        what: "a pair that ends past 65535",
        kind: ListKind::HouseRules,
        block: b"full",
        cuts: &[
            Cut { offset: 0, len: 4 },
            Cut {
                offset: 65535,
                len: 65535,
            },
        ],
        bad_pair: Some(1),
        expected: Expected::BadItem {
            number: 5,
            index: 1,
        },
    },
    CutCase {
        what: "a pair that begins in the one before",
        kind: ListKind::HouseRules,
        block: b"full late",
        cuts: &[Cut { offset: 0, len: 4 }, Cut { offset: 3, len: 4 }],
        bad_pair: Some(1),
        expected: Expected::BadItem {
            number: 5,
            index: 1,
        },
    },
    CutCase {
        what: "pairs in the wrong order",
        kind: ListKind::HouseRules,
        block: b"full late",
        cuts: &[Cut { offset: 5, len: 4 }, Cut { offset: 0, len: 4 }],
        bad_pair: Some(1),
        expected: Expected::BadItem {
            number: 5,
            index: 1,
        },
    },
    CutCase {
        what: "two bad pairs",
        kind: ListKind::HouseRules,
        block: b"full late",
        cuts: &[
            Cut { offset: 0, len: 4 },
            Cut { offset: 3, len: 4 },
            Cut { offset: 2, len: 9 },
        ],
        bad_pair: Some(1),
        expected: Expected::BadItem {
            number: 5,
            index: 1,
        },
    },
    CutCase {
        what: "(5, 0) after (3, 4)",
        kind: ListKind::HouseRules,
        block: b"   full  ",
        cuts: &[Cut { offset: 3, len: 4 }, Cut { offset: 5, len: 0 }],
        bad_pair: Some(1),
        expected: Expected::BadItem {
            number: 5,
            index: 1,
        },
    },
    CutCase {
        what: "(7, 0) after (3, 4)",
        kind: ListKind::HouseRules,
        block: b"   full  ",
        cuts: &[Cut { offset: 3, len: 4 }, Cut { offset: 7, len: 0 }],
        bad_pair: None,
        expected: Expected::BadSentence {
            number: 4,
            item: 1,
            place: 0,
        },
    },
    CutCase {
        what: "an empty piece at the end of the block",
        kind: ListKind::HouseRules,
        block: b"full",
        cuts: &[Cut { offset: 0, len: 4 }, Cut { offset: 4, len: 0 }],
        bad_pair: None,
        expected: Expected::BadSentence {
            number: 4,
            item: 1,
            place: 0,
        },
    },
    CutCase {
        what: "nine bad pairs",
        kind: ListKind::HouseRules,
        block: b"full",
        cuts: &[Cut { offset: 9, len: 9 }; 9],
        bad_pair: Some(0),
        expected: Expected::BadCount(ListKind::HouseRules),
    },
    CutCase {
        what: "a bad pair after a text that is no sentence",
        kind: ListKind::HouseRules,
        block: b"ship late",
        cuts: &[Cut { offset: 0, len: 4 }, Cut { offset: 3, len: 4 }],
        bad_pair: Some(1),
        expected: Expected::BadItem {
            number: 5,
            index: 1,
        },
    },
    CutCase {
        what: "a bad pair after a word that is no name",
        kind: ListKind::Names,
        block: b"Full late",
        cuts: &[Cut { offset: 0, len: 4 }, Cut { offset: 3, len: 4 }],
        bad_pair: Some(1),
        expected: Expected::BadItem {
            number: 5,
            index: 1,
        },
    },
    CutCase {
        what: "a bad pair among the secrets",
        kind: ListKind::Secrets,
        block: b"full late",
        cuts: &[Cut { offset: 0, len: 4 }, Cut { offset: 5, len: 5 }],
        bad_pair: Some(1),
        expected: Expected::BadItem {
            number: 5,
            index: 1,
        },
    },
];

pub fn run(checks: &mut Checks) -> anyhow::Result<()>
    ensures cases { IfOk result (λ _. checks.new.tally.cases ≡ min (checks.old.tally.cases + 32) (2 ^ 64 - 1)) }
    ensures wrong { checks.old.tally.wrong ≤ checks.new.tally.wrong }
{
    for case in CUT_CASES {
        let list = CutList {
            block: case.block,
            cuts: case.cuts,
        };
        let bad_pair = Answer::BadPair(list.first_bad_pair());
        let expected = Answer::BadPair(case.bad_pair);
        checks.compare(case.what, &expected, &bad_pair)?;
        let got = read_list(case.kind, &checks.names, &list);
        checks.compare(case.what, &case.expected.answer(), &got)?;
    }
    Ok(())
}
