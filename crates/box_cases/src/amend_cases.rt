// Amending: what is refused and in which order, and which notes are written.
use super::boxes::{
    BOTH, EIGHT_FACTS, FULL_FALSE, FULL_TRUE, LATE_FALSE, LATE_TRUE, LYING, REFUSING, RULED,
    SOLD_FALSE, SOLD_TRUE, TWO_RULES,
};
use super::calls::{Call, Opening};
use super::checks::Checks;
use super::lists::Listing;
use super::outcomes::{Expected, NO, Outcome, YES};
use super::stories::{Step, Story, run_all};
use censors::question::Reply;
use histories::data::Change;
use histories::refusals::About;

const STORIES: &[Story<Opening, Call>] = &[
    Story {
        what: "slips are out",
        opening: REFUSING,
        steps: &[
            Step {
                call: Call::Enrol(None, BOTH),
                expected: Expected::Is(Outcome::Enrolled(0)),
            },
            Step {
                call: Call::Enrol(None, BOTH),
                expected: Expected::Is(Outcome::Enrolled(1)),
            },
            Step {
                call: Call::Enrol(None, BOTH),
                expected: Expected::Is(Outcome::Enrolled(2)),
            },
            Step {
                call: Call::Judge(2, b"full"),
                expected: Expected::Is(Outcome::Judged(2, 0)),
            },
            Step {
                call: Call::Judge(1, b"full"),
                expected: Expected::Is(Outcome::Judged(1, 0)),
            },
            Step {
                call: Call::Amend(&[], 512),
                expected: Expected::Counterparty(13, 1),
            },
            Step {
                call: Call::Unwritten(0),
                expected: Expected::Is(Outcome::Unwritten(512)),
            },
            Step {
                call: Call::Amend(&[FULL_FALSE], 0),
                expected: Expected::Counterparty(13, 1),
            },
            Step {
                call: Call::Amend(
                    &[Change {
                        fact: 9,
                        value: true,
                    }],
                    512,
                ),
                expected: Expected::Counterparty(13, 1),
            },
            Step {
                call: Call::Amend(
                    &[Change {
                        fact: 9,
                        value: true,
                    }],
                    511,
                ),
                expected: Expected::Counterparty(13, 1),
            },
            Step {
                call: Call::Enter(1),
                expected: Expected::Is(Outcome::Replied(YES)),
            },
            Step {
                call: Call::Amend(&[], 512),
                expected: Expected::Counterparty(13, 2),
            },
            Step {
                call: Call::Enter(2),
                expected: Expected::Is(Outcome::Replied(YES)),
            },
            Step {
                call: Call::Amend(&[], 512),
                expected: Expected::Is(Outcome::Amended(0)),
            },
            Step {
                call: Call::Unwritten(0),
                expected: Expected::Is(Outcome::Unwritten(512)),
            },
            Step {
                call: Call::Held(1, 0),
                expected: Expected::Is(Outcome::Held(Some(YES))),
            },
            Step {
                call: Call::Held(2, 0),
                expected: Expected::Is(Outcome::Held(Some(YES))),
            },
        ],
    },
    Story {
        what: "a short list for notes",
        opening: REFUSING,
        steps: &[
            Step {
                call: Call::Amend(&[], 0),
                expected: Expected::Limit(17, 512),
            },
            Step {
                call: Call::Enrol(None, BOTH),
                expected: Expected::Is(Outcome::Enrolled(0)),
            },
            Step {
                call: Call::Judge(0, b"full"),
                expected: Expected::Is(Outcome::Judged(0, 0)),
            },
            Step {
                call: Call::Enter(0),
                expected: Expected::Is(Outcome::Replied(YES)),
            },
            Step {
                call: Call::Amend(&[FULL_FALSE], 511),
                expected: Expected::Limit(17, 512),
            },
            Step {
                call: Call::Unwritten(0),
                expected: Expected::Is(Outcome::Unwritten(511)),
            },
            Step {
                call: Call::Held(0, 0),
                expected: Expected::Is(Outcome::Held(Some(YES))),
            },
            Step {
                call: Call::Remaining(0),
                expected: Expected::Is(Outcome::Remaining(4)),
            },
            Step {
                call: Call::Amend(&[FULL_FALSE], 0),
                expected: Expected::Limit(17, 512),
            },
            Step {
                call: Call::Amend(
                    &[Change {
                        fact: 9,
                        value: false,
                    }],
                    511,
                ),
                expected: Expected::Limit(17, 512),
            },
            Step {
                call: Call::Amend(&[], 511),
                expected: Expected::Limit(17, 512),
            },
            Step {
                call: Call::Amend(&[FULL_FALSE], 512),
                expected: Expected::Is(Outcome::Amended(1)),
            },
            Step {
                call: Call::Note(0),
                expected: Expected::Is(Outcome::Note(0, 0, NO)),
            },
            Step {
                call: Call::Unwritten(1),
                expected: Expected::Is(Outcome::Unwritten(511)),
            },
            Step {
                call: Call::Held(0, 0),
                expected: Expected::Is(Outcome::Held(Some(NO))),
            },
            Step {
                call: Call::Remaining(0),
                expected: Expected::Is(Outcome::Remaining(4)),
            },
            Step {
                call: Call::Amend(&[FULL_TRUE], 600),
                expected: Expected::Is(Outcome::Amended(1)),
            },
            Step {
                call: Call::Note(0),
                expected: Expected::Is(Outcome::Note(0, 0, YES)),
            },
            Step {
                call: Call::Unwritten(1),
                expected: Expected::Is(Outcome::Unwritten(599)),
            },
            Step {
                call: Call::Note(600),
                expected: Expected::Is(Outcome::NoNote),
            },
        ],
    },
    Story {
        what: "changes that name no fact, or one listed before",
        opening: REFUSING,
        steps: &[
            Step {
                call: Call::Amend(
                    &[Change {
                        fact: 3,
                        value: true,
                    }],
                    512,
                ),
                expected: Expected::BadItem(16, About::Amendment, 0),
            },
            Step {
                call: Call::Amend(
                    &[Change {
                        fact: 9,
                        value: true,
                    }],
                    512,
                ),
                expected: Expected::BadItem(16, About::Amendment, 0),
            },
            Step {
                call: Call::Amend(
                    &[Change {
                        fact: 18446744073709551615,
                        value: true,
                    }],
                    512,
                ),
                expected: Expected::BadItem(16, About::Amendment, 0),
            },
            Step {
                call: Call::Amend(&[FULL_FALSE, FULL_TRUE], 512),
                expected: Expected::BadItem(16, About::Amendment, 1),
            },
            Step {
                call: Call::Amend(&[FULL_FALSE, FULL_FALSE], 512),
                expected: Expected::BadItem(16, About::Amendment, 1),
            },
            Step {
                call: Call::Amend(&[LATE_FALSE, FULL_FALSE, LATE_FALSE], 512),
                expected: Expected::BadItem(16, About::Amendment, 2),
            },
            Step {
                call: Call::Amend(
                    &[
                        FULL_FALSE,
                        Change {
                            fact: 3,
                            value: false,
                        },
                        FULL_TRUE,
                    ],
                    512,
                ),
                expected: Expected::BadItem(16, About::Amendment, 1),
            },
            Step {
                call: Call::Amend(
                    &[
                        SOLD_TRUE,
                        Change {
                            fact: 7,
                            value: true,
                        },
                    ],
                    512,
                ),
                expected: Expected::BadItem(16, About::Amendment, 1),
            },
            Step {
                call: Call::Amend(&[FULL_FALSE, LATE_FALSE, SOLD_TRUE, FULL_FALSE], 512),
                expected: Expected::BadItem(16, About::Amendment, 3),
            },
            Step {
                call: Call::Unwritten(0),
                expected: Expected::Is(Outcome::Unwritten(512)),
            },
            Step {
                call: Call::Enrol(None, BOTH),
                expected: Expected::Is(Outcome::Enrolled(0)),
            },
            Step {
                call: Call::Judge(0, b"full"),
                expected: Expected::Is(Outcome::Judged(0, 0)),
            },
            Step {
                call: Call::Enter(0),
                expected: Expected::Is(Outcome::Replied(YES)),
            },
            Step {
                call: Call::Judge(0, b"sold"),
                expected: Expected::Is(Outcome::Judged(0, 1)),
            },
            Step {
                call: Call::Enter(0),
                expected: Expected::Is(Outcome::Replied(NO)),
            },
            Step {
                call: Call::Amend(
                    &[
                        SOLD_TRUE,
                        Change {
                            fact: 9,
                            value: true,
                        },
                    ],
                    512,
                ),
                expected: Expected::BadItem(16, About::Amendment, 1),
            },
            Step {
                call: Call::Unwritten(0),
                expected: Expected::Is(Outcome::Unwritten(512)),
            },
            Step {
                call: Call::Held(0, 0),
                expected: Expected::Is(Outcome::Held(Some(YES))),
            },
            Step {
                call: Call::Held(0, 1),
                expected: Expected::Is(Outcome::Held(Some(NO))),
            },
            Step {
                call: Call::Remaining(0),
                expected: Expected::Is(Outcome::Remaining(2)),
            },
            Step {
                call: Call::Amend(&[SOLD_TRUE], 512),
                expected: Expected::Is(Outcome::Amended(1)),
            },
            Step {
                call: Call::Note(0),
                expected: Expected::Is(Outcome::Note(0, 1, YES)),
            },
            Step {
                call: Call::Unwritten(1),
                expected: Expected::Is(Outcome::Unwritten(511)),
            },
        ],
    },
    Story {
        what: "facts of a box with eight",
        opening: EIGHT_FACTS,
        steps: &[
            Step {
                call: Call::Amend(
                    &[Change {
                        fact: 8,
                        value: false,
                    }],
                    512,
                ),
                expected: Expected::BadItem(16, About::Amendment, 0),
            },
            Step {
                call: Call::Amend(
                    &[
                        Change {
                            fact: 7,
                            value: false,
                        },
                        Change {
                            fact: 9,
                            value: false,
                        },
                    ],
                    512,
                ),
                expected: Expected::BadItem(16, About::Amendment, 1),
            },
            Step {
                call: Call::Enrol(None, Listing::Texts(&["a & b"])),
                expected: Expected::Is(Outcome::Enrolled(0)),
            },
            Step {
                call: Call::Judge(0, b"h"),
                expected: Expected::Is(Outcome::Judged(0, 0)),
            },
            Step {
                call: Call::Enter(0),
                expected: Expected::Is(Outcome::Replied(YES)),
            },
            Step {
                call: Call::Amend(
                    &[Change {
                        fact: 7,
                        value: false,
                    }],
                    512,
                ),
                expected: Expected::Is(Outcome::Amended(1)),
            },
            Step {
                call: Call::Note(0),
                expected: Expected::Is(Outcome::Note(0, 0, NO)),
            },
            Step {
                call: Call::Remaining(0),
                expected: Expected::Is(Outcome::Remaining(128)),
            },
        ],
    },
    Story {
        what: "an untrue house rule",
        opening: RULED,
        steps: &[
            Step {
                call: Call::Enrol(None, BOTH),
                expected: Expected::Is(Outcome::Enrolled(0)),
            },
            Step {
                call: Call::Enrol(None, BOTH),
                expected: Expected::Is(Outcome::Enrolled(1)),
            },
            Step {
                call: Call::Judge(0, b"full"),
                expected: Expected::Is(Outcome::Judged(0, 0)),
            },
            Step {
                call: Call::Enter(0),
                expected: Expected::Is(Outcome::Replied(YES)),
            },
            Step {
                call: Call::Judge(1, b"late"),
                expected: Expected::Is(Outcome::Judged(1, 0)),
            },
            Step {
                call: Call::Enter(1),
                expected: Expected::Is(Outcome::Replied(NO)),
            },
            Step {
                call: Call::Amend(&[LATE_TRUE], 512),
                expected: Expected::BadItem(9, About::Amendment, 0),
            },
            Step {
                call: Call::Unwritten(0),
                expected: Expected::Is(Outcome::Unwritten(512)),
            },
            Step {
                call: Call::Held(0, 0),
                expected: Expected::Is(Outcome::Held(Some(YES))),
            },
            Step {
                call: Call::Remaining(0),
                expected: Expected::Is(Outcome::Remaining(2)),
            },
            Step {
                call: Call::Held(1, 0),
                expected: Expected::Is(Outcome::Held(Some(NO))),
            },
            Step {
                call: Call::Remaining(1),
                expected: Expected::Is(Outcome::Remaining(4)),
            },
            Step {
                call: Call::Amend(&[LATE_TRUE], 511),
                expected: Expected::Limit(17, 512),
            },
            Step {
                call: Call::Amend(
                    &[
                        LATE_TRUE,
                        Change {
                            fact: 9,
                            value: true,
                        },
                    ],
                    512,
                ),
                expected: Expected::BadItem(16, About::Amendment, 1),
            },
            Step {
                call: Call::Amend(&[LATE_TRUE, LATE_TRUE], 512),
                expected: Expected::BadItem(16, About::Amendment, 1),
            },
            Step {
                call: Call::Judge(0, b"sold"),
                expected: Expected::Is(Outcome::Judged(0, 1)),
            },
            Step {
                call: Call::Amend(&[LATE_TRUE], 512),
                expected: Expected::Counterparty(13, 0),
            },
            Step {
                call: Call::Amend(&[LATE_TRUE], 511),
                expected: Expected::Counterparty(13, 0),
            },
            Step {
                call: Call::Enter(0),
                expected: Expected::Is(Outcome::Replied(NO)),
            },
            Step {
                call: Call::Remaining(0),
                expected: Expected::Is(Outcome::Remaining(1)),
            },
            Step {
                call: Call::Amend(&[LATE_TRUE], 512),
                expected: Expected::BadItem(9, About::Amendment, 0),
            },
            Step {
                call: Call::Remaining(0),
                expected: Expected::Is(Outcome::Remaining(1)),
            },
        ],
    },
    Story {
        what: "a house rule that two changes keep",
        opening: RULED,
        steps: &[
            Step {
                call: Call::Enrol(None, BOTH),
                expected: Expected::Is(Outcome::Enrolled(0)),
            },
            Step {
                call: Call::Enrol(None, BOTH),
                expected: Expected::Is(Outcome::Enrolled(1)),
            },
            Step {
                call: Call::Judge(0, b"full"),
                expected: Expected::Is(Outcome::Judged(0, 0)),
            },
            Step {
                call: Call::Enter(0),
                expected: Expected::Is(Outcome::Replied(YES)),
            },
            Step {
                call: Call::Judge(1, b"late"),
                expected: Expected::Is(Outcome::Judged(1, 0)),
            },
            Step {
                call: Call::Enter(1),
                expected: Expected::Is(Outcome::Replied(NO)),
            },
            Step {
                call: Call::Amend(&[LATE_TRUE, FULL_FALSE], 512),
                expected: Expected::Is(Outcome::Amended(2)),
            },
            Step {
                call: Call::Note(0),
                expected: Expected::Is(Outcome::Note(0, 0, NO)),
            },
            Step {
                call: Call::Note(1),
                expected: Expected::Is(Outcome::Note(1, 0, YES)),
            },
            Step {
                call: Call::Unwritten(2),
                expected: Expected::Is(Outcome::Unwritten(510)),
            },
            Step {
                call: Call::Remaining(0),
                expected: Expected::Is(Outcome::Remaining(4)),
            },
            Step {
                call: Call::Remaining(1),
                expected: Expected::Is(Outcome::Remaining(2)),
            },
            Step {
                call: Call::Amend(&[FULL_TRUE], 512),
                expected: Expected::BadItem(9, About::Amendment, 0),
            },
            Step {
                call: Call::Held(0, 0),
                expected: Expected::Is(Outcome::Held(Some(NO))),
            },
        ],
    },
    Story {
        what: "which house rule is untrue",
        opening: TWO_RULES,
        steps: &[
            Step {
                call: Call::Amend(&[LATE_TRUE], 512),
                expected: Expected::BadItem(9, About::Amendment, 1),
            },
            Step {
                call: Call::Amend(&[FULL_FALSE], 512),
                expected: Expected::BadItem(9, About::Amendment, 0),
            },
            Step {
                call: Call::Amend(&[FULL_FALSE, SOLD_TRUE], 512),
                expected: Expected::Is(Outcome::Amended(0)),
            },
            Step {
                call: Call::Amend(&[SOLD_FALSE], 512),
                expected: Expected::BadItem(9, About::Amendment, 0),
            },
            Step {
                call: Call::Amend(&[FULL_TRUE, LATE_TRUE], 512),
                expected: Expected::BadItem(9, About::Amendment, 1),
            },
        ],
    },
    Story {
        what: "nothing changes",
        opening: REFUSING,
        steps: &[
            Step {
                call: Call::Amend(&[], 512),
                expected: Expected::Is(Outcome::Amended(0)),
            },
            Step {
                call: Call::Enrol(None, BOTH),
                expected: Expected::Is(Outcome::Enrolled(0)),
            },
            Step {
                call: Call::Judge(0, b"full"),
                expected: Expected::Is(Outcome::Judged(0, 0)),
            },
            Step {
                call: Call::Enter(0),
                expected: Expected::Is(Outcome::Replied(YES)),
            },
            Step {
                call: Call::Amend(&[], 512),
                expected: Expected::Is(Outcome::Amended(0)),
            },
            Step {
                call: Call::Unwritten(0),
                expected: Expected::Is(Outcome::Unwritten(512)),
            },
            Step {
                call: Call::Amend(&[FULL_TRUE, LATE_TRUE, SOLD_FALSE], 512),
                expected: Expected::Is(Outcome::Amended(0)),
            },
            Step {
                call: Call::Unwritten(0),
                expected: Expected::Is(Outcome::Unwritten(512)),
            },
            Step {
                call: Call::Held(0, 0),
                expected: Expected::Is(Outcome::Held(Some(YES))),
            },
            Step {
                call: Call::Remaining(0),
                expected: Expected::Is(Outcome::Remaining(4)),
            },
            Step {
                call: Call::Amend(&[SOLD_TRUE], 512),
                expected: Expected::Is(Outcome::Amended(0)),
            },
            Step {
                call: Call::Unwritten(0),
                expected: Expected::Is(Outcome::Unwritten(512)),
            },
            Step {
                call: Call::Judge(0, b"sold"),
                expected: Expected::Is(Outcome::Judged(0, 1)),
            },
            Step {
                call: Call::Enter(0),
                expected: Expected::Is(Outcome::Replied(YES)),
            },
            Step {
                call: Call::Remaining(0),
                expected: Expected::Is(Outcome::Remaining(2)),
            },
            Step {
                call: Call::Amend(&[SOLD_FALSE], 512),
                expected: Expected::Is(Outcome::Amended(1)),
            },
            Step {
                call: Call::Note(0),
                expected: Expected::Is(Outcome::Note(0, 1, NO)),
            },
            Step {
                call: Call::Unwritten(1),
                expected: Expected::Is(Outcome::Unwritten(511)),
            },
            Step {
                call: Call::Held(0, 1),
                expected: Expected::Is(Outcome::Held(Some(NO))),
            },
            Step {
                call: Call::Remaining(0),
                expected: Expected::Is(Outcome::Remaining(2)),
            },
        ],
    },
    Story {
        what: "there and back",
        opening: LYING,
        steps: &[
            Step {
                call: Call::Enrol(None, BOTH),
                expected: Expected::Is(Outcome::Enrolled(0)),
            },
            Step {
                call: Call::Judge(0, b"full"),
                expected: Expected::Is(Outcome::Judged(0, 0)),
            },
            Step {
                call: Call::Enter(0),
                expected: Expected::Is(Outcome::Replied(YES)),
            },
            Step {
                call: Call::Judge(0, b"late"),
                expected: Expected::Is(Outcome::Judged(0, 1)),
            },
            Step {
                call: Call::Enter(0),
                expected: Expected::Is(Outcome::Replied(NO)),
            },
            Step {
                call: Call::Amend(&[FULL_FALSE], 512),
                expected: Expected::Is(Outcome::Amended(2)),
            },
            Step {
                call: Call::Remaining(0),
                expected: Expected::Is(Outcome::Remaining(2)),
            },
            Step {
                call: Call::Amend(&[FULL_TRUE], 512),
                expected: Expected::Is(Outcome::Amended(2)),
            },
            Step {
                call: Call::Note(0),
                expected: Expected::Is(Outcome::Note(0, 0, YES)),
            },
            Step {
                call: Call::Note(1),
                expected: Expected::Is(Outcome::Note(0, 1, NO)),
            },
            Step {
                call: Call::Unwritten(2),
                expected: Expected::Is(Outcome::Unwritten(510)),
            },
            Step {
                call: Call::Held(0, 0),
                expected: Expected::Is(Outcome::Held(Some(YES))),
            },
            Step {
                call: Call::Held(0, 1),
                expected: Expected::Is(Outcome::Held(Some(NO))),
            },
            Step {
                call: Call::Remaining(0),
                expected: Expected::Is(Outcome::Remaining(2)),
            },
        ],
    },
    Story {
        what: "notes by counterparty, then place",
        opening: REFUSING,
        steps: &[
            Step {
                call: Call::Enrol(None, BOTH),
                expected: Expected::Is(Outcome::Enrolled(0)),
            },
            Step {
                call: Call::Enrol(None, BOTH),
                expected: Expected::Is(Outcome::Enrolled(1)),
            },
            Step {
                call: Call::Enrol(None, BOTH),
                expected: Expected::Is(Outcome::Enrolled(2)),
            },
            Step {
                call: Call::Judge(2, b"late"),
                expected: Expected::Is(Outcome::Judged(2, 0)),
            },
            Step {
                call: Call::Enter(2),
                expected: Expected::Is(Outcome::Replied(YES)),
            },
            Step {
                call: Call::Judge(0, b"full"),
                expected: Expected::Is(Outcome::Judged(0, 0)),
            },
            Step {
                call: Call::Enter(0),
                expected: Expected::Is(Outcome::Replied(YES)),
            },
            Step {
                call: Call::Judge(2, b"full"),
                expected: Expected::Is(Outcome::Judged(2, 1)),
            },
            Step {
                call: Call::Enter(2),
                expected: Expected::Is(Outcome::Replied(Reply::Mum)),
            },
            Step {
                call: Call::Judge(1, b"sold"),
                expected: Expected::Is(Outcome::Judged(1, 0)),
            },
            Step {
                call: Call::Enter(1),
                expected: Expected::Is(Outcome::Replied(NO)),
            },
            Step {
                call: Call::Judge(0, b"late"),
                expected: Expected::Is(Outcome::Judged(0, 1)),
            },
            Step {
                call: Call::Enter(0),
                expected: Expected::Is(Outcome::Replied(Reply::Mum)),
            },
            Step {
                call: Call::Amend(&[SOLD_TRUE, FULL_FALSE], 512),
                expected: Expected::Is(Outcome::Amended(3)),
            },
            Step {
                call: Call::Note(0),
                expected: Expected::Is(Outcome::Note(0, 0, NO)),
            },
            Step {
                call: Call::Note(1),
                expected: Expected::Is(Outcome::Note(0, 1, YES)),
            },
            Step {
                call: Call::Note(2),
                expected: Expected::Is(Outcome::Note(1, 0, YES)),
            },
            Step {
                call: Call::Unwritten(3),
                expected: Expected::Is(Outcome::Unwritten(509)),
            },
            Step {
                call: Call::Remaining(0),
                expected: Expected::Is(Outcome::Remaining(2)),
            },
            Step {
                call: Call::Remaining(1),
                expected: Expected::Is(Outcome::Remaining(4)),
            },
            Step {
                call: Call::Remaining(2),
                expected: Expected::Is(Outcome::Remaining(4)),
            },
            Step {
                call: Call::Held(2, 0),
                expected: Expected::Is(Outcome::Held(Some(YES))),
            },
            Step {
                call: Call::Held(2, 1),
                expected: Expected::Is(Outcome::Held(Some(Reply::Mum))),
            },
            Step {
                call: Call::Judge(0, b"sold"),
                expected: Expected::Is(Outcome::Judged(0, 2)),
            },
            Step {
                call: Call::Judge(1, b"full"),
                expected: Expected::Is(Outcome::Judged(1, 1)),
            },
        ],
    },
];

pub(crate) fn run(checks: &mut Checks) -> anyhow::Result<()> {
    run_all(checks, STORIES)
}
