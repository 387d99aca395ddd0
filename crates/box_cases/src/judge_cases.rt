// Judging: what is refused and in which order, and that nothing moves before the slip is entered.
use super::boxes::{BOTH, REFUSING};
use super::calls::{Call, Opening};
use super::checks::Checks;
use super::outcomes::{Expected, NO, Outcome, YES};
use super::stories::{Step, Story, run_all};
use histories::refusals::About;

const STORIES: &[Story<Opening, Call>] = &[
    Story {
        what: "no such counterparty",
        opening: REFUSING,
        steps: &[
            Step {
                call: Call::Judge(0, b"full"),
                expected: Expected::Counterparty(12, 0),
            },
            Step {
                call: Call::Enrol(None, BOTH),
                expected: Expected::Is(Outcome::Enrolled(0)),
            },
            Step {
                call: Call::Judge(1, b"full"),
                expected: Expected::Counterparty(12, 1),
            },
            Step {
                call: Call::Judge(8, b"full"),
                expected: Expected::Counterparty(12, 8),
            },
            Step {
                call: Call::Judge(300, b"full"),
                expected: Expected::Counterparty(12, 300),
            },
            Step {
                call: Call::Judge(300, b"?"),
                expected: Expected::Counterparty(12, 300),
            },
            Step {
                call: Call::Judge(1, b""),
                expected: Expected::Counterparty(12, 1),
            },
            Step {
                call: Call::Judge(1, &[b'('; 257]),
                expected: Expected::Counterparty(12, 1),
            },
            Step {
                call: Call::Remaining(0),
                expected: Expected::Is(Outcome::Remaining(8)),
            },
            Step {
                call: Call::Judge(0, b"full"),
                expected: Expected::Is(Outcome::Judged(0, 0)),
            },
            Step {
                call: Call::Judge(1, b"full"),
                expected: Expected::Counterparty(12, 1),
            },
            Step {
                call: Call::Enter(0),
                expected: Expected::Is(Outcome::Replied(YES)),
            },
        ],
    },
    Story {
        what: "faults of a question",
        opening: REFUSING,
        steps: &[
            Step {
                call: Call::Enrol(None, BOTH),
                expected: Expected::Is(Outcome::Enrolled(0)),
            },
            Step {
                call: Call::Judge(0, &[b'('; 257]),
                expected: Expected::BadText(1, About::Question, 256),
            },
            Step {
                call: Call::Judge(0, &[b'('; 256]),
                expected: Expected::BadText(4, About::Question, 256),
            },
            Step {
                call: Call::Judge(0, b"full ?"),
                expected: Expected::BadText(2, About::Question, 5),
            },
            Step {
                call: Call::Judge(0, b"ship?"),
                expected: Expected::BadText(3, About::Question, 0),
            },
            Step {
                call: Call::Judge(0, b"full late"),
                expected: Expected::BadText(4, About::Question, 5),
            },
            Step {
                call: Call::Judge(0, b"full & "),
                expected: Expected::BadText(4, About::Question, 7),
            },
            Step {
                call: Call::Judge(0, b""),
                expected: Expected::BadText(4, About::Question, 0),
            },
            Step {
                call: Call::Enter(0),
                expected: Expected::Is(Outcome::NoSlip),
            },
            Step {
                call: Call::Remaining(0),
                expected: Expected::Is(Outcome::Remaining(8)),
            },
            Step {
                call: Call::Held(0, 0),
                expected: Expected::Is(Outcome::Held(None)),
            },
            Step {
                call: Call::Judge(0, b"full"),
                expected: Expected::Is(Outcome::Judged(0, 0)),
            },
            Step {
                call: Call::Enter(0),
                expected: Expected::Is(Outcome::Replied(YES)),
            },
            Step {
                call: Call::Judge(0, b"ship"),
                expected: Expected::BadText(3, About::Question, 0),
            },
            Step {
                call: Call::Remaining(0),
                expected: Expected::Is(Outcome::Remaining(4)),
            },
            Step {
                call: Call::Held(0, 0),
                expected: Expected::Is(Outcome::Held(Some(YES))),
            },
            Step {
                call: Call::Held(0, 1),
                expected: Expected::Is(Outcome::Held(None)),
            },
            Step {
                call: Call::Judge(0, b"late"),
                expected: Expected::Is(Outcome::Judged(0, 1)),
            },
        ],
    },
    Story {
        what: "a slip is out",
        opening: REFUSING,
        steps: &[
            Step {
                call: Call::Enrol(None, BOTH),
                expected: Expected::Is(Outcome::Enrolled(0)),
            },
            Step {
                call: Call::Enrol(None, BOTH),
                expected: Expected::Is(Outcome::Enrolled(1)),
            },
            Step {
                call: Call::Judge(0, b"full"),
                expected: Expected::Is(Outcome::Judged(0, 0)),
            },
            Step {
                call: Call::Judge(0, b"late"),
                expected: Expected::Counterparty(13, 0),
            },
            Step {
                call: Call::Judge(0, b"full"),
                expected: Expected::Counterparty(13, 0),
            },
            Step {
                call: Call::Judge(0, b"ship"),
                expected: Expected::Counterparty(13, 0),
            },
            Step {
                call: Call::Judge(0, b""),
                expected: Expected::Counterparty(13, 0),
            },
            Step {
                call: Call::Judge(0, &[b'('; 257]),
                expected: Expected::Counterparty(13, 0),
            },
            Step {
                call: Call::Held(0, 0),
                expected: Expected::Is(Outcome::Held(None)),
            },
            Step {
                call: Call::Remaining(0),
                expected: Expected::Is(Outcome::Remaining(8)),
            },
            Step {
                call: Call::Judge(1, b"late"),
                expected: Expected::Is(Outcome::Judged(1, 0)),
            },
            Step {
                call: Call::Judge(1, b"late"),
                expected: Expected::Counterparty(13, 1),
            },
            Step {
                call: Call::Judge(2, b"full"),
                expected: Expected::Counterparty(12, 2),
            },
            Step {
                call: Call::Enter(0),
                expected: Expected::Is(Outcome::Replied(YES)),
            },
            Step {
                call: Call::Remaining(0),
                expected: Expected::Is(Outcome::Remaining(4)),
            },
            Step {
                call: Call::Judge(0, b"sold"),
                expected: Expected::Is(Outcome::Judged(0, 1)),
            },
            Step {
                call: Call::Enter(1),
                expected: Expected::Is(Outcome::Replied(YES)),
            },
            Step {
                call: Call::Remaining(1),
                expected: Expected::Is(Outcome::Remaining(4)),
            },
            Step {
                call: Call::Held(1, 0),
                expected: Expected::Is(Outcome::Held(Some(YES))),
            },
            Step {
                call: Call::Judge(0, b"full"),
                expected: Expected::Counterparty(13, 0),
            },
            Step {
                call: Call::Enter(0),
                expected: Expected::Is(Outcome::Replied(NO)),
            },
            Step {
                call: Call::Remaining(0),
                expected: Expected::Is(Outcome::Remaining(2)),
            },
            Step {
                call: Call::Held(0, 1),
                expected: Expected::Is(Outcome::Held(Some(NO))),
            },
        ],
    },
    Story {
        what: "enrolling while a slip is out",
        opening: REFUSING,
        steps: &[
            Step {
                call: Call::Enrol(None, BOTH),
                expected: Expected::Is(Outcome::Enrolled(0)),
            },
            Step {
                call: Call::Judge(0, b"full"),
                expected: Expected::Is(Outcome::Judged(0, 0)),
            },
            Step {
                call: Call::Enrol(None, BOTH),
                expected: Expected::Is(Outcome::Enrolled(1)),
            },
            Step {
                call: Call::Judge(0, b"late"),
                expected: Expected::Counterparty(13, 0),
            },
            Step {
                call: Call::Judge(1, b"full"),
                expected: Expected::Is(Outcome::Judged(1, 0)),
            },
            Step {
                call: Call::Enter(0),
                expected: Expected::Is(Outcome::Replied(YES)),
            },
            Step {
                call: Call::Enter(1),
                expected: Expected::Is(Outcome::Replied(YES)),
            },
        ],
    },
];

pub(crate) fn run(checks: &mut Checks) -> anyhow::Result<()> {
    run_all(checks, STORIES)
}
