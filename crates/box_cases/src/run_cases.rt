// Whole runs: questions one after the other under each censor, and what an amendment makes of them.
use super::boxes::{BOTH, COMBINED, EITHER, FULL_FALSE, LYING, REFUSING};
use super::calls::{Call, Opening};
use super::checks::Checks;
use super::lists::Listing;
use super::outcomes::{Expected, NO, Outcome, YES};
use super::stories::{Step, Story, run_all};
use censors::question::Reply;

const STORIES: &[Story<Opening, Call>] = &[
    Story {
        what: "refusing",
        opening: REFUSING,
        steps: &[
            Step {
                call: Call::Enrol(None, BOTH),
                expected: Expected::Is(Outcome::Enrolled(0)),
            },
            Step {
                call: Call::Judge(0, b"full"),
                expected: Expected::Is(Outcome::Judged(0, 0)),
            },
            Step {
                call: Call::Enter(0),
                expected: Expected::Is(Outcome::Replied(YES)),
            },
            Step {
                call: Call::Judge(0, b"late"),
                expected: Expected::Is(Outcome::Judged(0, 1)),
            },
            Step {
                call: Call::Enter(0),
                expected: Expected::Is(Outcome::Replied(Reply::Mum)),
            },
            Step {
                call: Call::Judge(0, b"sold"),
                expected: Expected::Is(Outcome::Judged(0, 2)),
            },
            Step {
                call: Call::Enter(0),
                expected: Expected::Is(Outcome::Replied(NO)),
            },
            Step {
                call: Call::Judge(0, b"full"),
                expected: Expected::Is(Outcome::Judged(0, 3)),
            },
            Step {
                call: Call::Enter(0),
                expected: Expected::Is(Outcome::Replied(Reply::Mum)),
            },
            Step {
                call: Call::Remaining(0),
                expected: Expected::Is(Outcome::Remaining(2)),
            },
            Step {
                call: Call::Amend(&[FULL_FALSE], 512),
                expected: Expected::Is(Outcome::Amended(2)),
            },
            Step {
                call: Call::Note(0),
                expected: Expected::Is(Outcome::Note(0, 0, NO)),
            },
            Step {
                call: Call::Note(1),
                expected: Expected::Is(Outcome::Note(0, 1, YES)),
            },
            Step {
                call: Call::Unwritten(2),
                expected: Expected::Is(Outcome::Unwritten(510)),
            },
            Step {
                call: Call::Held(0, 0),
                expected: Expected::Is(Outcome::Held(Some(NO))),
            },
            Step {
                call: Call::Held(0, 1),
                expected: Expected::Is(Outcome::Held(Some(YES))),
            },
            Step {
                call: Call::Held(0, 2),
                expected: Expected::Is(Outcome::Held(Some(NO))),
            },
            Step {
                call: Call::Held(0, 3),
                expected: Expected::Is(Outcome::Held(Some(Reply::Mum))),
            },
            Step {
                call: Call::Held(0, 4),
                expected: Expected::Is(Outcome::Held(None)),
            },
            Step {
                call: Call::Remaining(0),
                expected: Expected::Is(Outcome::Remaining(1)),
            },
        ],
    },
    Story {
        what: "lying",
        opening: LYING,
        steps: &[
            Step {
                call: Call::Enrol(None, BOTH),
                expected: Expected::Is(Outcome::Enrolled(0)),
            },
            Step {
                call: Call::Judge(0, b"full"),
                expected: Expected::Is(Outcome::Judged(0, 0)),
            },
            Step {
                call: Call::Enter(0),
                expected: Expected::Is(Outcome::Replied(YES)),
            },
            Step {
                call: Call::Judge(0, b"late"),
                expected: Expected::Is(Outcome::Judged(0, 1)),
            },
            Step {
                call: Call::Enter(0),
                expected: Expected::Is(Outcome::Replied(NO)),
            },
            Step {
                call: Call::Remaining(0),
                expected: Expected::Is(Outcome::Remaining(2)),
            },
            Step {
                call: Call::Amend(&[FULL_FALSE], 512),
                expected: Expected::Is(Outcome::Amended(2)),
            },
            Step {
                call: Call::Note(0),
                expected: Expected::Is(Outcome::Note(0, 0, NO)),
            },
            Step {
                call: Call::Note(1),
                expected: Expected::Is(Outcome::Note(0, 1, YES)),
            },
            Step {
                call: Call::Unwritten(2),
                expected: Expected::Is(Outcome::Unwritten(510)),
            },
            Step {
                call: Call::Held(0, 0),
                expected: Expected::Is(Outcome::Held(Some(NO))),
            },
            Step {
                call: Call::Held(0, 1),
                expected: Expected::Is(Outcome::Held(Some(YES))),
            },
            Step {
                call: Call::Held(0, 2),
                expected: Expected::Is(Outcome::Held(None)),
            },
            Step {
                call: Call::Remaining(0),
                expected: Expected::Is(Outcome::Remaining(2)),
            },
        ],
    },
    Story {
        what: "lying, with two questions more",
        opening: LYING,
        steps: &[
            Step {
                call: Call::Enrol(None, BOTH),
                expected: Expected::Is(Outcome::Enrolled(0)),
            },
            Step {
                call: Call::Judge(0, b"full"),
                expected: Expected::Is(Outcome::Judged(0, 0)),
            },
            Step {
                call: Call::Enter(0),
                expected: Expected::Is(Outcome::Replied(YES)),
            },
            Step {
                call: Call::Judge(0, b"late"),
                expected: Expected::Is(Outcome::Judged(0, 1)),
            },
            Step {
                call: Call::Enter(0),
                expected: Expected::Is(Outcome::Replied(NO)),
            },
            Step {
                call: Call::Judge(0, b"sold"),
                expected: Expected::Is(Outcome::Judged(0, 2)),
            },
            Step {
                call: Call::Enter(0),
                expected: Expected::Is(Outcome::Replied(NO)),
            },
            Step {
                call: Call::Judge(0, b"full"),
                expected: Expected::Is(Outcome::Judged(0, 3)),
            },
            Step {
                call: Call::Enter(0),
                expected: Expected::Is(Outcome::Replied(YES)),
            },
            Step {
                call: Call::Remaining(0),
                expected: Expected::Is(Outcome::Remaining(1)),
            },
            Step {
                call: Call::Amend(&[FULL_FALSE], 512),
                expected: Expected::Is(Outcome::Amended(3)),
            },
            Step {
                call: Call::Note(0),
                expected: Expected::Is(Outcome::Note(0, 0, NO)),
            },
            Step {
                call: Call::Note(1),
                expected: Expected::Is(Outcome::Note(0, 1, YES)),
            },
            Step {
                call: Call::Note(2),
                expected: Expected::Is(Outcome::Note(0, 3, NO)),
            },
            Step {
                call: Call::Unwritten(3),
                expected: Expected::Is(Outcome::Unwritten(509)),
            },
            Step {
                call: Call::Remaining(0),
                expected: Expected::Is(Outcome::Remaining(1)),
            },
        ],
    },
    Story {
        what: "combined, one secret",
        opening: COMBINED,
        steps: &[
            Step {
                call: Call::Enrol(None, BOTH),
                expected: Expected::Is(Outcome::Enrolled(0)),
            },
            Step {
                call: Call::Judge(0, b"full"),
                expected: Expected::Is(Outcome::Judged(0, 0)),
            },
            Step {
                call: Call::Enter(0),
                expected: Expected::Is(Outcome::Replied(YES)),
            },
            Step {
                call: Call::Judge(0, b"late"),
                expected: Expected::Is(Outcome::Judged(0, 1)),
            },
            Step {
                call: Call::Enter(0),
                expected: Expected::Is(Outcome::Replied(NO)),
            },
            Step {
                call: Call::Remaining(0),
                expected: Expected::Is(Outcome::Remaining(2)),
            },
            Step {
                call: Call::Amend(&[FULL_FALSE], 512),
                expected: Expected::Is(Outcome::Amended(2)),
            },
            Step {
                call: Call::Note(0),
                expected: Expected::Is(Outcome::Note(0, 0, NO)),
            },
            Step {
                call: Call::Note(1),
                expected: Expected::Is(Outcome::Note(0, 1, YES)),
            },
            Step {
                call: Call::Remaining(0),
                expected: Expected::Is(Outcome::Remaining(2)),
            },
        ],
    },
    Story {
        what: "combined, two secrets",
        opening: COMBINED,
        steps: &[
            Step {
                call: Call::Enrol(None, EITHER),
                expected: Expected::Is(Outcome::Enrolled(0)),
            },
            Step {
                call: Call::Judge(0, b"full"),
                expected: Expected::Is(Outcome::Judged(0, 0)),
            },
            Step {
                call: Call::Enter(0),
                expected: Expected::Is(Outcome::Replied(YES)),
            },
            Step {
                call: Call::Judge(0, b"late"),
                expected: Expected::Is(Outcome::Judged(0, 1)),
            },
            Step {
                call: Call::Enter(0),
                expected: Expected::Is(Outcome::Replied(Reply::Mum)),
            },
            Step {
                call: Call::Remaining(0),
                expected: Expected::Is(Outcome::Remaining(4)),
            },
            Step {
                call: Call::Amend(&[FULL_FALSE], 512),
                expected: Expected::Is(Outcome::Amended(2)),
            },
            Step {
                call: Call::Note(0),
                expected: Expected::Is(Outcome::Note(0, 0, NO)),
            },
            Step {
                call: Call::Note(1),
                expected: Expected::Is(Outcome::Note(0, 1, YES)),
            },
            Step {
                call: Call::Unwritten(2),
                expected: Expected::Is(Outcome::Unwritten(510)),
            },
            Step {
                call: Call::Remaining(0),
                expected: Expected::Is(Outcome::Remaining(2)),
            },
        ],
    },
    Story {
        what: "lying, two secrets",
        opening: LYING,
        steps: &[
            Step {
                call: Call::Enrol(None, EITHER),
                expected: Expected::Is(Outcome::Enrolled(0)),
            },
            Step {
                call: Call::Judge(0, b"full"),
                expected: Expected::Is(Outcome::Judged(0, 0)),
            },
            Step {
                call: Call::Enter(0),
                expected: Expected::Is(Outcome::Replied(NO)),
            },
            Step {
                call: Call::Remaining(0),
                expected: Expected::Is(Outcome::Remaining(4)),
            },
            Step {
                call: Call::Amend(&[FULL_FALSE], 512),
                expected: Expected::Is(Outcome::Amended(0)),
            },
            Step {
                call: Call::Unwritten(0),
                expected: Expected::Is(Outcome::Unwritten(512)),
            },
            Step {
                call: Call::Held(0, 0),
                expected: Expected::Is(Outcome::Held(Some(NO))),
            },
            Step {
                call: Call::Remaining(0),
                expected: Expected::Is(Outcome::Remaining(4)),
            },
        ],
    },
    Story {
        what: "refusing, two secrets",
        opening: REFUSING,
        steps: &[
            Step {
                call: Call::Enrol(None, EITHER),
                expected: Expected::Is(Outcome::Enrolled(0)),
            },
            Step {
                call: Call::Judge(0, b"full"),
                expected: Expected::Is(Outcome::Judged(0, 0)),
            },
            Step {
                call: Call::Enter(0),
                expected: Expected::Is(Outcome::Replied(YES)),
            },
            Step {
                call: Call::Judge(0, b"late"),
                expected: Expected::Is(Outcome::Judged(0, 1)),
            },
            Step {
                call: Call::Enter(0),
                expected: Expected::Is(Outcome::Replied(Reply::Mum)),
            },
            Step {
                call: Call::Remaining(0),
                expected: Expected::Is(Outcome::Remaining(4)),
            },
        ],
    },
    Story {
        what: "combined, two secrets and a prior",
        opening: COMBINED,
        steps: &[
            Step {
                call: Call::Enrol(Some(b"full"), EITHER),
                expected: Expected::Is(Outcome::Enrolled(0)),
            },
            Step {
                call: Call::Remaining(0),
                expected: Expected::Is(Outcome::Remaining(4)),
            },
            Step {
                call: Call::Judge(0, b"full"),
                expected: Expected::Is(Outcome::Judged(0, 0)),
            },
            Step {
                call: Call::Enter(0),
                expected: Expected::Is(Outcome::Replied(YES)),
            },
            Step {
                call: Call::Judge(0, b"late"),
                expected: Expected::Is(Outcome::Judged(0, 1)),
            },
            Step {
                call: Call::Enter(0),
                expected: Expected::Is(Outcome::Replied(Reply::Mum)),
            },
            Step {
                call: Call::Remaining(0),
                expected: Expected::Is(Outcome::Remaining(4)),
            },
        ],
    },
    Story {
        what: "lying, two secrets and a prior",
        opening: LYING,
        steps: &[
            Step {
                call: Call::Enrol(Some(b"full"), EITHER),
                expected: Expected::NotGood,
            },
            Step {
                call: Call::Remaining(0),
                expected: Expected::Counterparty(12, 0),
            },
        ],
    },
    Story {
        what: "lying, with a prior that is untrue",
        opening: LYING,
        steps: &[
            Step {
                call: Call::Enrol(Some(b"!full"), Listing::Texts(&["!full & late"])),
                expected: Expected::Is(Outcome::Enrolled(0)),
            },
            Step {
                call: Call::Remaining(0),
                expected: Expected::Is(Outcome::Remaining(4)),
            },
            Step {
                call: Call::Judge(0, b"late"),
                expected: Expected::Is(Outcome::Judged(0, 0)),
            },
            Step {
                call: Call::Enter(0),
                expected: Expected::Is(Outcome::Replied(NO)),
            },
            Step {
                call: Call::Judge(0, b"full"),
                expected: Expected::Is(Outcome::Judged(0, 1)),
            },
            Step {
                call: Call::Enter(0),
                expected: Expected::Is(Outcome::Replied(NO)),
            },
            Step {
                call: Call::Remaining(0),
                expected: Expected::Is(Outcome::Remaining(2)),
            },
        ],
    },
];

pub(crate) fn run(checks: &mut Checks) -> anyhow::Result<()> {
    run_all(checks, STORIES)
}
