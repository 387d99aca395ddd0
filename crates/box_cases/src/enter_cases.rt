// Entering: slips of the box itself, and slips of another box, which match only by number, counterparty and place.
use super::boxes::{BOTH, OTHER_NUMBER, OTHER_SHEET, REFUSING};
use super::calls::{Call, Opening};
use super::checks::Checks;
use super::outcomes::{Expected, NO, Outcome, YES};
use super::pairs::{Pair, PairCall};
use super::stories::{Step, Story, run_all};
use censors::question::Reply;

const STORIES: &[Story<Opening, Call>] = &[Story {
    what: "entering at home",
    opening: REFUSING,
    steps: &[
        Step {
            call: Call::Enter(0),
            expected: Expected::Is(Outcome::NoSlip),
        },
        Step {
            call: Call::Enrol(None, BOTH),
            expected: Expected::Is(Outcome::Enrolled(0)),
        },
        Step {
            call: Call::Enter(0),
            expected: Expected::Is(Outcome::NoSlip),
        },
        Step {
            call: Call::Judge(0, b"full"),
            expected: Expected::Is(Outcome::Judged(0, 0)),
        },
        Step {
            call: Call::Enter(0),
            expected: Expected::Is(Outcome::Replied(YES)),
        },
        Step {
            call: Call::Enter(0),
            expected: Expected::Is(Outcome::NoSlip),
        },
        Step {
            call: Call::Enter(300),
            expected: Expected::Is(Outcome::NoSlip),
        },
        Step {
            call: Call::Held(0, 0),
            expected: Expected::Is(Outcome::Held(Some(YES))),
        },
        Step {
            call: Call::Held(0, 1),
            expected: Expected::Is(Outcome::Held(None)),
        },
        Step {
            call: Call::Judge(0, b"sold"),
            expected: Expected::Is(Outcome::Judged(0, 1)),
        },
        Step {
            call: Call::Enter(0),
            expected: Expected::Is(Outcome::Replied(NO)),
        },
        Step {
            call: Call::Held(0, 1),
            expected: Expected::Is(Outcome::Held(Some(NO))),
        },
        Step {
            call: Call::Remaining(0),
            expected: Expected::Is(Outcome::Remaining(2)),
        },
    ],
}];

const PAIRS: &[Story<Pair, PairCall>] = &[
    Story {
        what: "boxes with different numbers",
        opening: Pair {
            first: REFUSING,
            second: OTHER_NUMBER,
        },
        steps: &[
            Step {
                call: PairCall::First(Call::Enrol(None, BOTH)),
                expected: Expected::Is(Outcome::Enrolled(0)),
            },
            Step {
                call: PairCall::Second(Call::Enrol(None, BOTH)),
                expected: Expected::Is(Outcome::Enrolled(0)),
            },
            Step {
                call: PairCall::First(Call::Judge(0, b"full")),
                expected: Expected::Is(Outcome::Judged(0, 0)),
            },
            Step {
                call: PairCall::Second(Call::Judge(0, b"full")),
                expected: Expected::Is(Outcome::Judged(0, 0)),
            },
            Step {
                call: PairCall::FirstTakes(0),
                expected: Expected::SlipBack(0, 0),
            },
            Step {
                call: PairCall::SecondTakes(0),
                expected: Expected::SlipBack(0, 0),
            },
            Step {
                call: PairCall::First(Call::Held(0, 0)),
                expected: Expected::Is(Outcome::Held(None)),
            },
            Step {
                call: PairCall::Second(Call::Held(0, 0)),
                expected: Expected::Is(Outcome::Held(None)),
            },
            Step {
                call: PairCall::First(Call::Remaining(0)),
                expected: Expected::Is(Outcome::Remaining(8)),
            },
            Step {
                call: PairCall::Second(Call::Remaining(0)),
                expected: Expected::Is(Outcome::Remaining(8)),
            },
            Step {
                call: PairCall::First(Call::Judge(0, b"late")),
                expected: Expected::Counterparty(13, 0),
            },
            Step {
                call: PairCall::Second(Call::Judge(0, b"late")),
                expected: Expected::Counterparty(13, 0),
            },
            Step {
                call: PairCall::First(Call::Enter(0)),
                expected: Expected::Is(Outcome::Replied(YES)),
            },
            Step {
                call: PairCall::Second(Call::Enter(0)),
                expected: Expected::Is(Outcome::Replied(YES)),
            },
            Step {
                call: PairCall::First(Call::Held(0, 0)),
                expected: Expected::Is(Outcome::Held(Some(YES))),
            },
            Step {
                call: PairCall::Second(Call::Held(0, 0)),
                expected: Expected::Is(Outcome::Held(Some(YES))),
            },
            Step {
                call: PairCall::First(Call::Remaining(0)),
                expected: Expected::Is(Outcome::Remaining(4)),
            },
            Step {
                call: PairCall::FirstTakes(0),
                expected: Expected::Is(Outcome::NoSlip),
            },
        ],
    },
    Story {
        what: "a counterparty that the other box does not have",
        opening: Pair {
            first: REFUSING,
            second: OTHER_SHEET,
        },
        steps: &[
            Step {
                call: PairCall::Second(Call::Enrol(None, BOTH)),
                expected: Expected::Is(Outcome::Enrolled(0)),
            },
            Step {
                call: PairCall::Second(Call::Enrol(None, BOTH)),
                expected: Expected::Is(Outcome::Enrolled(1)),
            },
            Step {
                call: PairCall::Second(Call::Judge(0, b"full")),
                expected: Expected::Is(Outcome::Judged(0, 0)),
            },
            Step {
                call: PairCall::FirstTakes(0),
                expected: Expected::SlipBack(0, 0),
            },
            Step {
                call: PairCall::First(Call::Enrol(None, BOTH)),
                expected: Expected::Is(Outcome::Enrolled(0)),
            },
            Step {
                call: PairCall::Second(Call::Judge(1, b"full")),
                expected: Expected::Is(Outcome::Judged(1, 0)),
            },
            Step {
                call: PairCall::FirstTakes(1),
                expected: Expected::SlipBack(1, 0),
            },
            Step {
                call: PairCall::First(Call::Remaining(0)),
                expected: Expected::Is(Outcome::Remaining(8)),
            },
            Step {
                call: PairCall::First(Call::Remaining(1)),
                expected: Expected::Counterparty(12, 1),
            },
            Step {
                call: PairCall::First(Call::Held(0, 0)),
                expected: Expected::Is(Outcome::Held(None)),
            },
            Step {
                call: PairCall::Second(Call::Enter(1)),
                expected: Expected::Is(Outcome::Replied(NO)),
            },
            Step {
                call: PairCall::Second(Call::Enter(0)),
                expected: Expected::Is(Outcome::Replied(NO)),
            },
        ],
    },
    Story {
        what: "a counterparty with no slip out",
        opening: Pair {
            first: REFUSING,
            second: OTHER_SHEET,
        },
        steps: &[
            Step {
                call: PairCall::First(Call::Enrol(None, BOTH)),
                expected: Expected::Is(Outcome::Enrolled(0)),
            },
            Step {
                call: PairCall::Second(Call::Enrol(None, BOTH)),
                expected: Expected::Is(Outcome::Enrolled(0)),
            },
            Step {
                call: PairCall::Second(Call::Judge(0, b"full")),
                expected: Expected::Is(Outcome::Judged(0, 0)),
            },
            Step {
                call: PairCall::FirstTakes(0),
                expected: Expected::SlipBack(0, 0),
            },
            Step {
                call: PairCall::First(Call::Held(0, 0)),
                expected: Expected::Is(Outcome::Held(None)),
            },
            Step {
                call: PairCall::First(Call::Remaining(0)),
                expected: Expected::Is(Outcome::Remaining(8)),
            },
            Step {
                call: PairCall::First(Call::Judge(0, b"late")),
                expected: Expected::Is(Outcome::Judged(0, 0)),
            },
            Step {
                call: PairCall::First(Call::Enter(0)),
                expected: Expected::Is(Outcome::Replied(YES)),
            },
            Step {
                call: PairCall::FirstTakes(0),
                expected: Expected::SlipBack(0, 0),
            },
            Step {
                call: PairCall::First(Call::Remaining(0)),
                expected: Expected::Is(Outcome::Remaining(4)),
            },
            Step {
                call: PairCall::Second(Call::Enter(0)),
                expected: Expected::Is(Outcome::Replied(NO)),
            },
        ],
    },
    Story {
        what: "a slip of another counterparty",
        opening: Pair {
            first: REFUSING,
            second: OTHER_SHEET,
        },
        steps: &[
            Step {
                call: PairCall::First(Call::Enrol(None, BOTH)),
                expected: Expected::Is(Outcome::Enrolled(0)),
            },
            Step {
                call: PairCall::Second(Call::Enrol(None, BOTH)),
                expected: Expected::Is(Outcome::Enrolled(0)),
            },
            Step {
                call: PairCall::First(Call::Enrol(None, BOTH)),
                expected: Expected::Is(Outcome::Enrolled(1)),
            },
            Step {
                call: PairCall::Second(Call::Enrol(None, BOTH)),
                expected: Expected::Is(Outcome::Enrolled(1)),
            },
            Step {
                call: PairCall::First(Call::Judge(0, b"full")),
                expected: Expected::Is(Outcome::Judged(0, 0)),
            },
            Step {
                call: PairCall::Second(Call::Judge(1, b"full")),
                expected: Expected::Is(Outcome::Judged(1, 0)),
            },
            Step {
                call: PairCall::FirstTakes(1),
                expected: Expected::SlipBack(1, 0),
            },
            Step {
                call: PairCall::First(Call::Judge(0, b"full")),
                expected: Expected::Counterparty(13, 0),
            },
            Step {
                call: PairCall::First(Call::Enter(0)),
                expected: Expected::Is(Outcome::Replied(YES)),
            },
            Step {
                call: PairCall::Second(Call::Enter(1)),
                expected: Expected::Is(Outcome::Replied(NO)),
            },
        ],
    },
    Story {
        what: "a place behind",
        opening: Pair {
            first: REFUSING,
            second: OTHER_SHEET,
        },
        steps: &[
            Step {
                call: PairCall::First(Call::Enrol(None, BOTH)),
                expected: Expected::Is(Outcome::Enrolled(0)),
            },
            Step {
                call: PairCall::Second(Call::Enrol(None, BOTH)),
                expected: Expected::Is(Outcome::Enrolled(0)),
            },
            Step {
                call: PairCall::First(Call::Judge(0, b"full")),
                expected: Expected::Is(Outcome::Judged(0, 0)),
            },
            Step {
                call: PairCall::First(Call::Enter(0)),
                expected: Expected::Is(Outcome::Replied(YES)),
            },
            Step {
                call: PairCall::First(Call::Judge(0, b"late")),
                expected: Expected::Is(Outcome::Judged(0, 1)),
            },
            Step {
                call: PairCall::Second(Call::Judge(0, b"full")),
                expected: Expected::Is(Outcome::Judged(0, 0)),
            },
            Step {
                call: PairCall::FirstTakes(0),
                expected: Expected::SlipBack(0, 0),
            },
            Step {
                call: PairCall::First(Call::Held(0, 1)),
                expected: Expected::Is(Outcome::Held(None)),
            },
            Step {
                call: PairCall::First(Call::Judge(0, b"sold")),
                expected: Expected::Counterparty(13, 0),
            },
            Step {
                call: PairCall::First(Call::Enter(0)),
                expected: Expected::Is(Outcome::Replied(Reply::Mum)),
            },
            Step {
                call: PairCall::Second(Call::Enter(0)),
                expected: Expected::Is(Outcome::Replied(NO)),
            },
            Step {
                call: PairCall::First(Call::Remaining(0)),
                expected: Expected::Is(Outcome::Remaining(4)),
            },
        ],
    },
    Story {
        what: "a place ahead",
        opening: Pair {
            first: REFUSING,
            second: OTHER_SHEET,
        },
        steps: &[
            Step {
                call: PairCall::First(Call::Enrol(None, BOTH)),
                expected: Expected::Is(Outcome::Enrolled(0)),
            },
            Step {
                call: PairCall::Second(Call::Enrol(None, BOTH)),
                expected: Expected::Is(Outcome::Enrolled(0)),
            },
            Step {
                call: PairCall::Second(Call::Judge(0, b"full")),
                expected: Expected::Is(Outcome::Judged(0, 0)),
            },
            Step {
                call: PairCall::Second(Call::Enter(0)),
                expected: Expected::Is(Outcome::Replied(NO)),
            },
            Step {
                call: PairCall::Second(Call::Judge(0, b"late")),
                expected: Expected::Is(Outcome::Judged(0, 1)),
            },
            Step {
                call: PairCall::First(Call::Judge(0, b"full")),
                expected: Expected::Is(Outcome::Judged(0, 0)),
            },
            Step {
                call: PairCall::FirstTakes(0),
                expected: Expected::SlipBack(0, 1),
            },
            Step {
                call: PairCall::First(Call::Held(0, 0)),
                expected: Expected::Is(Outcome::Held(None)),
            },
            Step {
                call: PairCall::First(Call::Judge(0, b"sold")),
                expected: Expected::Counterparty(13, 0),
            },
            Step {
                call: PairCall::First(Call::Enter(0)),
                expected: Expected::Is(Outcome::Replied(YES)),
            },
            Step {
                call: PairCall::Second(Call::Enter(0)),
                expected: Expected::Is(Outcome::Replied(NO)),
            },
            Step {
                call: PairCall::Second(Call::Remaining(0)),
                expected: Expected::Is(Outcome::Remaining(2)),
            },
        ],
    },
    Story {
        what: "boxes with equal numbers",
        opening: Pair {
            first: REFUSING,
            second: OTHER_SHEET,
        },
        steps: &[
            Step {
                call: PairCall::First(Call::Enrol(None, BOTH)),
                expected: Expected::Is(Outcome::Enrolled(0)),
            },
            Step {
                call: PairCall::Second(Call::Enrol(None, BOTH)),
                expected: Expected::Is(Outcome::Enrolled(0)),
            },
            Step {
                call: PairCall::First(Call::Judge(0, b"full")),
                expected: Expected::Is(Outcome::Judged(0, 0)),
            },
            Step {
                call: PairCall::Second(Call::Judge(0, b"full")),
                expected: Expected::Is(Outcome::Judged(0, 0)),
            },
            Step {
                call: PairCall::FirstTakes(0),
                expected: Expected::Is(Outcome::Replied(YES)),
            },
            Step {
                call: PairCall::First(Call::Held(0, 0)),
                expected: Expected::Is(Outcome::Held(Some(YES))),
            },
            Step {
                call: PairCall::First(Call::Remaining(0)),
                expected: Expected::Is(Outcome::Remaining(4)),
            },
            Step {
                call: PairCall::Second(Call::Held(0, 0)),
                expected: Expected::Is(Outcome::Held(None)),
            },
            Step {
                call: PairCall::Second(Call::Remaining(0)),
                expected: Expected::Is(Outcome::Remaining(8)),
            },
            Step {
                call: PairCall::First(Call::Enter(0)),
                expected: Expected::Is(Outcome::NoSlip),
            },
            Step {
                call: PairCall::Second(Call::Judge(0, b"late")),
                expected: Expected::Counterparty(13, 0),
            },
            Step {
                call: PairCall::First(Call::Judge(0, b"late")),
                expected: Expected::Is(Outcome::Judged(0, 1)),
            },
            Step {
                call: PairCall::Second(Call::Enter(0)),
                expected: Expected::Is(Outcome::Replied(NO)),
            },
            Step {
                call: PairCall::Second(Call::Held(0, 0)),
                expected: Expected::Is(Outcome::Held(Some(NO))),
            },
            Step {
                call: PairCall::Second(Call::Remaining(0)),
                expected: Expected::Is(Outcome::Remaining(4)),
            },
            Step {
                call: PairCall::First(Call::Enter(0)),
                expected: Expected::Is(Outcome::Replied(Reply::Mum)),
            },
        ],
    },
    Story {
        what: "boxes with equal numbers and different questions",
        opening: Pair {
            first: REFUSING,
            second: OTHER_SHEET,
        },
        steps: &[
            Step {
                call: PairCall::First(Call::Enrol(None, BOTH)),
                expected: Expected::Is(Outcome::Enrolled(0)),
            },
            Step {
                call: PairCall::Second(Call::Enrol(None, BOTH)),
                expected: Expected::Is(Outcome::Enrolled(0)),
            },
            Step {
                call: PairCall::First(Call::Judge(0, b"late")),
                expected: Expected::Is(Outcome::Judged(0, 0)),
            },
            Step {
                call: PairCall::Second(Call::Judge(0, b"sold")),
                expected: Expected::Is(Outcome::Judged(0, 0)),
            },
            Step {
                call: PairCall::SecondTakes(0),
                expected: Expected::Is(Outcome::Replied(NO)),
            },
            Step {
                call: PairCall::Second(Call::Remaining(0)),
                expected: Expected::Is(Outcome::Remaining(4)),
            },
            Step {
                call: PairCall::First(Call::Held(0, 0)),
                expected: Expected::Is(Outcome::Held(None)),
            },
            Step {
                call: PairCall::First(Call::Enter(0)),
                expected: Expected::Is(Outcome::Replied(YES)),
            },
            Step {
                call: PairCall::First(Call::Remaining(0)),
                expected: Expected::Is(Outcome::Remaining(4)),
            },
            Step {
                call: PairCall::First(Call::Judge(0, b"full")),
                expected: Expected::Is(Outcome::Judged(0, 1)),
            },
            Step {
                call: PairCall::First(Call::Enter(0)),
                expected: Expected::Is(Outcome::Replied(Reply::Mum)),
            },
            Step {
                call: PairCall::Second(Call::Judge(0, b"full")),
                expected: Expected::Is(Outcome::Judged(0, 1)),
            },
            Step {
                call: PairCall::Second(Call::Enter(0)),
                expected: Expected::Is(Outcome::Replied(NO)),
            },
            Step {
                call: PairCall::Second(Call::Remaining(0)),
                expected: Expected::Is(Outcome::Remaining(2)),
            },
        ],
    },
];

pub(crate) fn run(checks: &mut Checks) -> anyhow::Result<()> {
    run_all(checks, STORIES)
}

pub(crate) fn run_pairs(checks: &mut Checks) -> anyhow::Result<()> {
    run_all(checks, PAIRS)
}
