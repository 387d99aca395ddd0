// Opening a box: what is wrong with names, house rules and sheet, and what is found first. No censor makes a difference.
use super::boxes::{EIGHT_NAMES, NO_RULES, THREE_NAMES};
use super::calls::Opening;
use super::checks::Checks;
use super::lists::Listing;
use super::outcomes::{Expected, Outcome};
use censors::builtin::{BUILTINS, Builtin};
use histories::refusals::About;
use sentences::cuts::Cut;
use sentences::faults::ListKind;
use std::alloc::Global;

struct OpenCase {
    what: &'static str,
    names: Listing,
    rules: Listing,
    sheet: u16,
    expected: Expected,
}

const CASES: &[OpenCase] = &[
    OpenCase {
        what: "no names",
        names: Listing::Texts(&[]),
        rules: NO_RULES,
        sheet: 0,
        expected: Expected::BadCount(About::Names, ListKind::Names),
    },
    OpenCase {
        what: "nine names",
        names: Listing::Texts(&["a", "b", "c", "d", "e", "f", "g", "h", "i"]),
        rules: NO_RULES,
        sheet: 0,
        expected: Expected::BadCount(About::Names, ListKind::Names),
    },
    OpenCase {
        what: "nine pairs, all bad",
        names: Listing::Cuts {
            block: b"full",
            cuts: &[
                Cut { offset: 9, len: 9 },
                Cut { offset: 9, len: 9 },
                Cut { offset: 9, len: 9 },
                Cut { offset: 9, len: 9 },
                Cut { offset: 9, len: 9 },
                Cut { offset: 9, len: 9 },
                Cut { offset: 9, len: 9 },
                Cut { offset: 9, len: 9 },
                Cut { offset: 9, len: 9 },
            ],
        },
        rules: NO_RULES,
        sheet: 0,
        expected: Expected::BadCount(About::Names, ListKind::Names),
    },
    OpenCase {
        what: "a pair of the names past the block",
        names: Listing::Cuts {
            block: b"full late",
            cuts: &[Cut { offset: 0, len: 4 }, Cut { offset: 5, len: 5 }],
        },
        rules: NO_RULES,
        sheet: 0,
        expected: Expected::BadItem(5, About::Names, 1),
    },
    OpenCase {
        what: "a pair of the names in the one before",
        names: Listing::Cuts {
            block: b"full late",
            cuts: &[Cut { offset: 0, len: 4 }, Cut { offset: 3, len: 4 }],
        },
        rules: NO_RULES,
        sheet: 0,
        expected: Expected::BadItem(5, About::Names, 1),
    },
    OpenCase {
        what: "a bad name in front of a bad pair",
        names: Listing::Cuts {
            block: b"Full late",
            cuts: &[Cut { offset: 0, len: 4 }, Cut { offset: 3, len: 4 }],
        },
        rules: NO_RULES,
        sheet: 0,
        expected: Expected::BadItem(5, About::Names, 1),
    },
    OpenCase {
        what: "an empty name",
        names: Listing::Texts(&["full", ""]),
        rules: NO_RULES,
        sheet: 0,
        expected: Expected::BadItem(6, About::Names, 1),
    },
    OpenCase {
        what: "a name of 13 bytes",
        names: Listing::Texts(&["abcdefghijklm"]),
        rules: NO_RULES,
        sheet: 0,
        expected: Expected::BadItem(6, About::Names, 0),
    },
    OpenCase {
        what: "a name with a digit first",
        names: Listing::Texts(&["full", "1late"]),
        rules: NO_RULES,
        sheet: 0,
        expected: Expected::BadItem(6, About::Names, 1),
    },
    OpenCase {
        what: "a name with a capital letter",
        names: Listing::Texts(&["full", "late", "Sold"]),
        rules: NO_RULES,
        sheet: 0,
        expected: Expected::BadItem(6, About::Names, 2),
    },
    OpenCase {
        what: "a name that was there before",
        names: Listing::Texts(&["full", "late", "full"]),
        rules: NO_RULES,
        sheet: 0,
        expected: Expected::BadItem(6, About::Names, 2),
    },
    OpenCase {
        what: "two bad names",
        names: Listing::Texts(&["full", "Late", "1"]),
        rules: NO_RULES,
        sheet: 0,
        expected: Expected::BadItem(6, About::Names, 1),
    },
    OpenCase {
        what: "a bad name, nine house rules and no sheet of the box",
        names: Listing::Texts(&["full", "Late"]),
        rules: Listing::Texts(&["full"; 9]),
        sheet: 9,
        expected: Expected::BadItem(6, About::Names, 1),
    },
    OpenCase {
        what: "no names and nine house rules",
        names: Listing::Texts(&[]),
        rules: Listing::Texts(&["full"; 9]),
        sheet: 9,
        expected: Expected::BadCount(About::Names, ListKind::Names),
    },
    OpenCase {
        what: "one name",
        names: Listing::Texts(&["a"]),
        rules: NO_RULES,
        sheet: 1,
        expected: Expected::Is(Outcome::Opened),
    },
    OpenCase {
        what: "a name of 12 bytes",
        names: Listing::Texts(&["abcdefghijkl"]),
        rules: NO_RULES,
        sheet: 0,
        expected: Expected::Is(Outcome::Opened),
    },
    OpenCase {
        what: "eight names and the last sheet",
        names: EIGHT_NAMES,
        rules: NO_RULES,
        sheet: 255,
        expected: Expected::Is(Outcome::Opened),
    },
    OpenCase {
        what: "nine house rules",
        names: THREE_NAMES,
        rules: Listing::Texts(&["full"; 9]),
        sheet: 1,
        expected: Expected::BadCount(About::HouseRules, ListKind::HouseRules),
    },
    OpenCase {
        what: "nine house rules that are no sentences",
        names: THREE_NAMES,
        rules: Listing::Texts(&["?"; 9]),
        sheet: 1,
        expected: Expected::BadCount(About::HouseRules, ListKind::HouseRules),
    },
    OpenCase {
        what: "a pair of the house rules past the block",
        names: THREE_NAMES,
        rules: Listing::Cuts {
            block: b"full late",
            cuts: &[Cut { offset: 0, len: 4 }, Cut { offset: 5, len: 5 }],
        },
        sheet: 3,
        expected: Expected::BadItem(5, About::HouseRules, 1),
    },
    OpenCase {
        what: "a bad pair after a house rule that is no sentence",
        names: THREE_NAMES,
        rules: Listing::Cuts {
            block: b"ship late",
            cuts: &[Cut { offset: 0, len: 4 }, Cut { offset: 3, len: 4 }],
        },
        sheet: 3,
        expected: Expected::BadItem(5, About::HouseRules, 1),
    },
    OpenCase {
        what: "a house rule of 257 bytes",
        names: THREE_NAMES,
        rules: Listing::Cuts {
            block: &[b'('; 257],
            cuts: &[Cut {
                offset: 0,
                len: 257,
            }],
        },
        sheet: 3,
        expected: Expected::BadSentence(1, About::HouseRules, 0, 256),
    },
    OpenCase {
        what: "a house rule with a stray byte",
        names: THREE_NAMES,
        rules: Listing::Texts(&["full", "late ?"]),
        sheet: 3,
        expected: Expected::BadSentence(2, About::HouseRules, 1, 5),
    },
    OpenCase {
        what: "a house rule with an unknown word",
        names: THREE_NAMES,
        rules: Listing::Texts(&["full & ship"]),
        sheet: 3,
        expected: Expected::BadSentence(3, About::HouseRules, 0, 7),
    },
    OpenCase {
        what: "a house rule with a token that does not fit",
        names: THREE_NAMES,
        rules: Listing::Texts(&["full late"]),
        sheet: 3,
        expected: Expected::BadSentence(4, About::HouseRules, 0, 5),
    },
    OpenCase {
        what: "an empty house rule",
        names: THREE_NAMES,
        rules: Listing::Texts(&["full", ""]),
        sheet: 3,
        expected: Expected::BadSentence(4, About::HouseRules, 1, 0),
    },
    OpenCase {
        what: "two house rules that are no sentences",
        names: THREE_NAMES,
        rules: Listing::Texts(&["full &", "?"]),
        sheet: 3,
        expected: Expected::BadSentence(4, About::HouseRules, 0, 6),
    },
    OpenCase {
        what: "an untrue house rule in front of one that is no sentence",
        names: THREE_NAMES,
        rules: Listing::Texts(&["!full", "?"]),
        sheet: 3,
        expected: Expected::BadSentence(2, About::HouseRules, 1, 0),
    },
    OpenCase {
        what: "a house rule that is no sentence, and no sheet of the box",
        names: THREE_NAMES,
        rules: Listing::Texts(&["ship"]),
        sheet: 8,
        expected: Expected::BadSentence(3, About::HouseRules, 0, 0),
    },
    OpenCase {
        what: "eight house rules",
        names: THREE_NAMES,
        rules: Listing::Texts(&["full"; 8]),
        sheet: 1,
        expected: Expected::Is(Outcome::Opened),
    },
    OpenCase {
        what: "sheet 7 with three names",
        names: THREE_NAMES,
        rules: NO_RULES,
        sheet: 7,
        expected: Expected::Is(Outcome::Opened),
    },
    OpenCase {
        what: "sheet 8 with three names",
        names: THREE_NAMES,
        rules: NO_RULES,
        sheet: 8,
        expected: Expected::BadSheet(8),
    },
    OpenCase {
        what: "sheet 2 with one name",
        names: Listing::Texts(&["a"]),
        rules: NO_RULES,
        sheet: 2,
        expected: Expected::BadSheet(2),
    },
    OpenCase {
        what: "sheet 256 with eight names",
        names: EIGHT_NAMES,
        rules: NO_RULES,
        sheet: 256,
        expected: Expected::BadSheet(256),
    },
    OpenCase {
        what: "sheet 65535 with three names",
        names: THREE_NAMES,
        rules: NO_RULES,
        sheet: 65535,
        expected: Expected::BadSheet(65535),
    },
    OpenCase {
        what: "an untrue house rule, and no sheet of the box",
        names: THREE_NAMES,
        rules: Listing::Texts(&["full & !full"]),
        sheet: 8,
        expected: Expected::BadSheet(8),
    },
    OpenCase {
        what: "an untrue house rule",
        names: THREE_NAMES,
        rules: Listing::Texts(&["full"]),
        sheet: 2,
        expected: Expected::BadItem(9, About::HouseRules, 0),
    },
    OpenCase {
        what: "the last of three house rules is untrue",
        names: THREE_NAMES,
        rules: Listing::Texts(&["full", "late", "sold"]),
        sheet: 3,
        expected: Expected::BadItem(9, About::HouseRules, 2),
    },
    OpenCase {
        what: "two of three house rules are untrue",
        names: THREE_NAMES,
        rules: Listing::Texts(&["full", "late", "sold"]),
        sheet: 1,
        expected: Expected::BadItem(9, About::HouseRules, 1),
    },
    OpenCase {
        what: "a house rule that no sheet makes true",
        names: THREE_NAMES,
        rules: Listing::Texts(&["full & !full"]),
        sheet: 0,
        expected: Expected::BadItem(9, About::HouseRules, 0),
    },
    OpenCase {
        what: "a true house rule",
        names: THREE_NAMES,
        rules: Listing::Texts(&["full & late"]),
        sheet: 3,
        expected: Expected::Is(Outcome::Opened),
    },
];

pub(crate) fn run(checks: &mut Checks) -> anyhow::Result<()> {
    for censor in BUILTINS {
        run_all(checks, censor)?;
    }
    Ok(())
}

fn run_all(checks: &mut Checks, censor: Builtin) -> anyhow::Result<()> {
    for case in CASES {
        let got = case.open(checks.heap(), censor)?;
        checks.compare(case.what, 0, case.expected.outcome(), got)?;
    }
    Ok(())
}

impl OpenCase {
    fn open(&self, heap: Global, censor: Builtin) -> anyhow::Result<Outcome> {
        let opening = Opening {
            censor,
            number: 7,
            names: self.names,
            rules: self.rules,
            sheet: self.sheet,
        };
        let query_box = opening.query_box(heap)?;
        Ok(query_box.map_or_else(Outcome::from, |_| Outcome::Opened))
    }
}
