// Enrolling: faults of the prior and of the secrets, their order, and records that are not good.
use super::boxes::{BOTH, COMBINED, EITHER, LYING, REFUSING, RULED};
use super::calls::{Call, Opening};
use super::checks::Checks;
use super::lists::Listing;
use super::outcomes::{Expected, Outcome};
use super::stories::{Step, Story, run_all};
use histories::refusals::About;
use sentences::cuts::Cut;
use sentences::faults::ListKind;

const STORIES: &[Story<Opening, Call>] = &[
    Story {
        what: "faults of a prior",
        opening: REFUSING,
        steps: &[
            Step {
                call: Call::Enrol(Some(&[b'('; 257]), BOTH),
                expected: Expected::BadText(1, About::Prior, 256),
            },
            Step {
                call: Call::Enrol(Some(b"full ?"), BOTH),
                expected: Expected::BadText(2, About::Prior, 5),
            },
            Step {
                call: Call::Enrol(Some(b"full & ship"), BOTH),
                expected: Expected::BadText(3, About::Prior, 7),
            },
            Step {
                call: Call::Enrol(Some(b"full late"), BOTH),
                expected: Expected::BadText(4, About::Prior, 5),
            },
            Step {
                call: Call::Enrol(Some(b"full & "), BOTH),
                expected: Expected::BadText(4, About::Prior, 7),
            },
            Step {
                call: Call::Enrol(Some(b""), BOTH),
                expected: Expected::BadText(4, About::Prior, 0),
            },
            Step {
                call: Call::Remaining(0),
                expected: Expected::Counterparty(12, 0),
            },
            Step {
                call: Call::Enrol(None, BOTH),
                expected: Expected::Is(Outcome::Enrolled(0)),
            },
            Step {
                call: Call::Remaining(0),
                expected: Expected::Is(Outcome::Remaining(8)),
            },
            Step {
                call: Call::Enrol(Some(b"full"), BOTH),
                expected: Expected::Is(Outcome::Enrolled(1)),
            },
            Step {
                call: Call::Remaining(1),
                expected: Expected::Is(Outcome::Remaining(4)),
            },
            Step {
                call: Call::Enrol(Some(b""), BOTH),
                expected: Expected::BadText(4, About::Prior, 0),
            },
            Step {
                call: Call::Remaining(2),
                expected: Expected::Counterparty(12, 2),
            },
            Step {
                call: Call::Remaining(0),
                expected: Expected::Is(Outcome::Remaining(8)),
            },
        ],
    },
    Story {
        what: "faults of the secrets",
        opening: REFUSING,
        steps: &[
            Step {
                call: Call::Enrol(None, Listing::Texts(&[])),
                expected: Expected::BadCount(About::Secrets, ListKind::Secrets),
            },
            Step {
                call: Call::Enrol(None, Listing::Texts(&["full"; 9])),
                expected: Expected::BadCount(About::Secrets, ListKind::Secrets),
            },
            Step {
                call: Call::Enrol(None, Listing::Texts(&["?"; 9])),
                expected: Expected::BadCount(About::Secrets, ListKind::Secrets),
            },
            Step {
                call: Call::Enrol(
                    None,
                    Listing::Cuts {
                        block: b"full late",
                        cuts: &[Cut { offset: 0, len: 4 }, Cut { offset: 5, len: 5 }],
                    },
                ),
                expected: Expected::BadItem(5, About::Secrets, 1),
            },
            Step {
                call: Call::Enrol(
                    None,
                    Listing::Cuts {
                        block: b"ship late",
                        cuts: &[Cut { offset: 0, len: 4 }, Cut { offset: 3, len: 4 }],
                    },
                ),
                expected: Expected::BadItem(5, About::Secrets, 1),
            },
            Step {
                call: Call::Enrol(
                    None,
                    Listing::Cuts {
                        block: &[b'('; 257],
                        cuts: &[Cut {
                            offset: 0,
                            len: 257,
                        }],
                    },
                ),
                expected: Expected::BadSentence(1, About::Secrets, 0, 256),
            },
            Step {
                call: Call::Enrol(None, Listing::Texts(&["full", "late ?"])),
                expected: Expected::BadSentence(2, About::Secrets, 1, 5),
            },
            Step {
                call: Call::Enrol(None, Listing::Texts(&["full & ship"])),
                expected: Expected::BadSentence(3, About::Secrets, 0, 7),
            },
            Step {
                call: Call::Enrol(None, Listing::Texts(&["full", "late", ""])),
                expected: Expected::BadSentence(4, About::Secrets, 2, 0),
            },
            Step {
                call: Call::Enrol(None, Listing::Texts(&["full &"])),
                expected: Expected::BadSentence(4, About::Secrets, 0, 6),
            },
            Step {
                call: Call::Enrol(None, Listing::Texts(&["?", "ship"])),
                expected: Expected::BadSentence(2, About::Secrets, 0, 0),
            },
            Step {
                call: Call::Held(0, 0),
                expected: Expected::Counterparty(12, 0),
            },
            Step {
                call: Call::Enrol(None, Listing::Texts(&["full & late"; 8])),
                expected: Expected::Is(Outcome::Enrolled(0)),
            },
            Step {
                call: Call::Remaining(0),
                expected: Expected::Is(Outcome::Remaining(8)),
            },
        ],
    },
    Story {
        what: "the prior, then the secrets, then the record",
        opening: REFUSING,
        steps: &[
            Step {
                call: Call::Enrol(Some(b"ship"), Listing::Texts(&[])),
                expected: Expected::BadText(3, About::Prior, 0),
            },
            Step {
                call: Call::Enrol(Some(b"ship"), Listing::Texts(&["?"])),
                expected: Expected::BadText(3, About::Prior, 0),
            },
            Step {
                call: Call::Enrol(Some(b"full & !full"), Listing::Texts(&[])),
                expected: Expected::BadCount(About::Secrets, ListKind::Secrets),
            },
            Step {
                call: Call::Enrol(
                    Some(b"full & !full"),
                    Listing::Cuts {
                        block: b"full late",
                        cuts: &[Cut { offset: 0, len: 4 }, Cut { offset: 5, len: 5 }],
                    },
                ),
                expected: Expected::BadItem(5, About::Secrets, 1),
            },
            Step {
                call: Call::Enrol(Some(b"full & !full"), Listing::Texts(&["?"])),
                expected: Expected::BadSentence(2, About::Secrets, 0, 0),
            },
            Step {
                call: Call::Enrol(Some(b"full & !full"), BOTH),
                expected: Expected::NotGood,
            },
            Step {
                call: Call::Remaining(0),
                expected: Expected::Counterparty(12, 0),
            },
            Step {
                call: Call::Enrol(None, BOTH),
                expected: Expected::Is(Outcome::Enrolled(0)),
            },
        ],
    },
    Story {
        what: "nine counterparties",
        opening: REFUSING,
        steps: &[
            Step {
                call: Call::Enrol(None, BOTH),
                expected: Expected::Is(Outcome::Enrolled(0)),
            },
            Step {
                call: Call::Enrol(None, BOTH),
                expected: Expected::Is(Outcome::Enrolled(1)),
            },
            Step {
                call: Call::Enrol(None, BOTH),
                expected: Expected::Is(Outcome::Enrolled(2)),
            },
            Step {
                call: Call::Enrol(None, BOTH),
                expected: Expected::Is(Outcome::Enrolled(3)),
            },
            Step {
                call: Call::Enrol(None, BOTH),
                expected: Expected::Is(Outcome::Enrolled(4)),
            },
            Step {
                call: Call::Enrol(None, BOTH),
                expected: Expected::Is(Outcome::Enrolled(5)),
            },
            Step {
                call: Call::Enrol(None, BOTH),
                expected: Expected::Is(Outcome::Enrolled(6)),
            },
            Step {
                call: Call::Enrol(None, BOTH),
                expected: Expected::Is(Outcome::Enrolled(7)),
            },
            Step {
                call: Call::Enrol(None, BOTH),
                expected: Expected::Limit(10, 8),
            },
            Step {
                call: Call::Enrol(Some(b"ship"), BOTH),
                expected: Expected::Limit(10, 8),
            },
            Step {
                call: Call::Enrol(Some(b""), BOTH),
                expected: Expected::Limit(10, 8),
            },
            Step {
                call: Call::Enrol(None, Listing::Texts(&[])),
                expected: Expected::Limit(10, 8),
            },
            Step {
                call: Call::Enrol(None, Listing::Texts(&["?"])),
                expected: Expected::Limit(10, 8),
            },
            Step {
                call: Call::Enrol(Some(b"full & late"), BOTH),
                expected: Expected::Limit(10, 8),
            },
            Step {
                call: Call::Remaining(7),
                expected: Expected::Is(Outcome::Remaining(8)),
            },
            Step {
                call: Call::Remaining(8),
                expected: Expected::Counterparty(12, 8),
            },
        ],
    },
    Story {
        what: "records that are not good by refusing",
        opening: REFUSING,
        steps: &[
            Step {
                call: Call::Enrol(None, Listing::Texts(&["full | !full"])),
                expected: Expected::NotGood,
            },
            Step {
                call: Call::Enrol(None, Listing::Texts(&["late", "full | !full"])),
                expected: Expected::NotGood,
            },
            Step {
                call: Call::Enrol(Some(b"full & late"), BOTH),
                expected: Expected::NotGood,
            },
            Step {
                call: Call::Enrol(Some(b"full & late & sold"), BOTH),
                expected: Expected::NotGood,
            },
            Step {
                call: Call::Enrol(Some(b"full & !full"), BOTH),
                expected: Expected::NotGood,
            },
            Step {
                call: Call::Enrol(Some(b"full"), Listing::Texts(&["!late", "full"])),
                expected: Expected::NotGood,
            },
            Step {
                call: Call::Remaining(0),
                expected: Expected::Counterparty(12, 0),
            },
            Step {
                call: Call::Enrol(Some(b"full"), EITHER),
                expected: Expected::Is(Outcome::Enrolled(0)),
            },
            Step {
                call: Call::Remaining(0),
                expected: Expected::Is(Outcome::Remaining(4)),
            },
            Step {
                call: Call::Enrol(None, Listing::Texts(&["full", "!full"])),
                expected: Expected::Is(Outcome::Enrolled(1)),
            },
            Step {
                call: Call::Remaining(1),
                expected: Expected::Is(Outcome::Remaining(8)),
            },
        ],
    },
    Story {
        what: "records that are not good by lying",
        opening: LYING,
        steps: &[
            Step {
                call: Call::Enrol(None, Listing::Texts(&["full | !full"])),
                expected: Expected::NotGood,
            },
            Step {
                call: Call::Enrol(Some(b"full & late"), BOTH),
                expected: Expected::NotGood,
            },
            Step {
                call: Call::Enrol(Some(b"full & !full"), BOTH),
                expected: Expected::NotGood,
            },
            Step {
                call: Call::Enrol(Some(b"full"), EITHER),
                expected: Expected::NotGood,
            },
            Step {
                call: Call::Enrol(None, Listing::Texts(&["full", "!full"])),
                expected: Expected::NotGood,
            },
            Step {
                call: Call::Remaining(0),
                expected: Expected::Counterparty(12, 0),
            },
            Step {
                call: Call::Enrol(None, EITHER),
                expected: Expected::Is(Outcome::Enrolled(0)),
            },
            Step {
                call: Call::Remaining(0),
                expected: Expected::Is(Outcome::Remaining(8)),
            },
        ],
    },
    Story {
        what: "records that are not good by lying and refusing combined",
        opening: COMBINED,
        steps: &[
            Step {
                call: Call::Enrol(None, Listing::Texts(&["full | !full"])),
                expected: Expected::NotGood,
            },
            Step {
                call: Call::Enrol(Some(b"full & late"), BOTH),
                expected: Expected::NotGood,
            },
            Step {
                call: Call::Enrol(Some(b"full & !full"), BOTH),
                expected: Expected::NotGood,
            },
            Step {
                call: Call::Remaining(0),
                expected: Expected::Counterparty(12, 0),
            },
            Step {
                call: Call::Enrol(Some(b"full"), EITHER),
                expected: Expected::Is(Outcome::Enrolled(0)),
            },
            Step {
                call: Call::Remaining(0),
                expected: Expected::Is(Outcome::Remaining(4)),
            },
            Step {
                call: Call::Enrol(None, Listing::Texts(&["full", "!full"])),
                expected: Expected::Is(Outcome::Enrolled(1)),
            },
            Step {
                call: Call::Remaining(1),
                expected: Expected::Is(Outcome::Remaining(8)),
            },
        ],
    },
    Story {
        what: "house rules are part of the record",
        opening: RULED,
        steps: &[
            Step {
                call: Call::Enrol(None, BOTH),
                expected: Expected::Is(Outcome::Enrolled(0)),
            },
            Step {
                call: Call::Remaining(0),
                expected: Expected::Is(Outcome::Remaining(6)),
            },
            Step {
                call: Call::Enrol(Some(b"full"), BOTH),
                expected: Expected::Is(Outcome::Enrolled(1)),
            },
            Step {
                call: Call::Remaining(1),
                expected: Expected::Is(Outcome::Remaining(2)),
            },
            Step {
                call: Call::Enrol(None, Listing::Texts(&["!full | !late"])),
                expected: Expected::NotGood,
            },
            Step {
                call: Call::Enrol(Some(b"full & late"), BOTH),
                expected: Expected::NotGood,
            },
            Step {
                call: Call::Enrol(Some(b"full"), Listing::Texts(&["!late"])),
                expected: Expected::NotGood,
            },
            Step {
                call: Call::Enrol(Some(b"full"), Listing::Texts(&["sold"])),
                expected: Expected::Is(Outcome::Enrolled(2)),
            },
            Step {
                call: Call::Remaining(2),
                expected: Expected::Is(Outcome::Remaining(2)),
            },
        ],
    },
    Story {
        what: "the sheet plays no part",
        opening: LYING,
        steps: &[
            Step {
                call: Call::Enrol(Some(b"!full"), BOTH),
                expected: Expected::Is(Outcome::Enrolled(0)),
            },
            Step {
                call: Call::Remaining(0),
                expected: Expected::Is(Outcome::Remaining(4)),
            },
            Step {
                call: Call::Enrol(Some(b"!full & !late & sold"), BOTH),
                expected: Expected::Is(Outcome::Enrolled(1)),
            },
            Step {
                call: Call::Remaining(1),
                expected: Expected::Is(Outcome::Remaining(1)),
            },
            Step {
                call: Call::Enrol(None, Listing::Texts(&["sold"])),
                expected: Expected::Is(Outcome::Enrolled(2)),
            },
            Step {
                call: Call::Remaining(2),
                expected: Expected::Is(Outcome::Remaining(8)),
            },
            Step {
                call: Call::Enrol(Some(b"full & !late"), BOTH),
                expected: Expected::Is(Outcome::Enrolled(3)),
            },
            Step {
                call: Call::Remaining(3),
                expected: Expected::Is(Outcome::Remaining(2)),
            },
        ],
    },
];

pub(crate) fn run(checks: &mut Checks) -> anyhow::Result<()> {
    run_all(checks, STORIES)
}
