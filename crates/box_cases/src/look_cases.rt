// Held and remaining.
use super::boxes::{BOTH, EIGHT_FACTS, REFUSING};
use super::calls::{Call, Opening};
use super::checks::Checks;
use super::lists::Listing;
use super::outcomes::{Expected, Outcome, YES};
use super::stories::{Step, Story, run_all};
use censors::question::Reply;

const STORIES: &[Story<Opening, Call>] = &[
    Story {
        what: "looking up",
        opening: REFUSING,
        steps: &[
            Step {
                call: Call::Held(0, 0),
                expected: Expected::Counterparty(12, 0),
            },
            Step {
                call: Call::Remaining(0),
                expected: Expected::Counterparty(12, 0),
            },
            Step {
                call: Call::Enrol(None, BOTH),
                expected: Expected::Is(Outcome::Enrolled(0)),
            },
            Step {
                call: Call::Held(0, 0),
                expected: Expected::Is(Outcome::Held(None)),
            },
            Step {
                call: Call::Held(0, 63),
                expected: Expected::Is(Outcome::Held(None)),
            },
            Step {
                call: Call::Held(0, 64),
                expected: Expected::Is(Outcome::Held(None)),
            },
            Step {
                call: Call::Held(0, 70),
                expected: Expected::Is(Outcome::Held(None)),
            },
            Step {
                call: Call::Remaining(0),
                expected: Expected::Is(Outcome::Remaining(8)),
            },
            Step {
                call: Call::Held(1, 0),
                expected: Expected::Counterparty(12, 1),
            },
            Step {
                call: Call::Remaining(1),
                expected: Expected::Counterparty(12, 1),
            },
            Step {
                call: Call::Held(8, 0),
                expected: Expected::Counterparty(12, 8),
            },
            Step {
                call: Call::Remaining(8),
                expected: Expected::Counterparty(12, 8),
            },
            Step {
                call: Call::Held(300, 0),
                expected: Expected::Counterparty(12, 300),
            },
            Step {
                call: Call::Held(300, 70),
                expected: Expected::Counterparty(12, 300),
            },
            Step {
                call: Call::Remaining(300),
                expected: Expected::Counterparty(12, 300),
            },
            Step {
                call: Call::Judge(0, b"full"),
                expected: Expected::Is(Outcome::Judged(0, 0)),
            },
            Step {
                call: Call::Held(0, 0),
                expected: Expected::Is(Outcome::Held(None)),
            },
            Step {
                call: Call::Remaining(0),
                expected: Expected::Is(Outcome::Remaining(8)),
            },
            Step {
                call: Call::Enter(0),
                expected: Expected::Is(Outcome::Replied(YES)),
            },
            Step {
                call: Call::Held(0, 0),
                expected: Expected::Is(Outcome::Held(Some(YES))),
            },
            Step {
                call: Call::Held(0, 1),
                expected: Expected::Is(Outcome::Held(None)),
            },
            Step {
                call: Call::Held(0, 70),
                expected: Expected::Is(Outcome::Held(None)),
            },
            Step {
                call: Call::Remaining(0),
                expected: Expected::Is(Outcome::Remaining(4)),
            },
            Step {
                call: Call::Held(0, 0),
                expected: Expected::Is(Outcome::Held(Some(YES))),
            },
            Step {
                call: Call::Remaining(0),
                expected: Expected::Is(Outcome::Remaining(4)),
            },
        ],
    },
    Story {
        what: "a box of eight facts",
        opening: EIGHT_FACTS,
        steps: &[
            Step {
                call: Call::Enrol(None, Listing::Texts(&["a & h"])),
                expected: Expected::Is(Outcome::Enrolled(0)),
            },
            Step {
                call: Call::Remaining(0),
                expected: Expected::Is(Outcome::Remaining(256)),
            },
            Step {
                call: Call::Judge(0, b"a"),
                expected: Expected::Is(Outcome::Judged(0, 0)),
            },
            Step {
                call: Call::Enter(0),
                expected: Expected::Is(Outcome::Replied(YES)),
            },
            Step {
                call: Call::Remaining(0),
                expected: Expected::Is(Outcome::Remaining(128)),
            },
            Step {
                call: Call::Judge(0, b"h"),
                expected: Expected::Is(Outcome::Judged(0, 1)),
            },
            Step {
                call: Call::Enter(0),
                expected: Expected::Is(Outcome::Replied(Reply::Mum)),
            },
            Step {
                call: Call::Remaining(0),
                expected: Expected::Is(Outcome::Remaining(128)),
            },
            Step {
                call: Call::Held(0, 1),
                expected: Expected::Is(Outcome::Held(Some(Reply::Mum))),
            },
        ],
    },
];

pub(crate) fn run(checks: &mut Checks) -> anyhow::Result<()> {
    run_all(checks, STORIES)
}
