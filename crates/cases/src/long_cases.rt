// Texts about as long as a sentence can be, read with the names full, late and sold.
ghost use Rattle.std.specs.Prelude.{◌≡◌, ◌+◌, ◌-◌, ◌^◌, ◌<◌, ◌≤◌, IfOk, length, min};

use super::checks::Checks;
use super::lists::{Expected, read_list};
use super::readings::Reading;
use sentences::cuts::{Cut, CutList};
use sentences::faults::ListKind;
use std::alloc::{AllocError, Global};

// A byte so many times, then the middle, then another byte so many times.
#[derive(Clone, Copy)]
struct LongText {
    front: u8,
    fronts: usize,
    middle: &'static [u8],
    back: u8,
    backs: usize,
}

struct LongCase {
    what: &'static str,
    text: LongText,
    expected: Reading,
}

impl LongText {
    fn bytes(&self, heap: Global) -> Result<Vec<u8>, AllocError> {
        let mut bytes = vec![in heap; self.front; self.fronts]?;
        let backs = vec![in heap; self.back; self.backs]?;
        bytes.extend_from_slice(self.middle)?;
        bytes.extend_from_slice(backs.as_slice())?;
        Ok(bytes)
    }
}

const LONG_CASES: &[LongCase] = &[
    LongCase {
        what: "'full' and 252 blanks",
        text: LongText {
            front: b' ',
            fronts: 0,
            middle: b"full",
            back: b' ',
            backs: 252,
        },
        expected: Reading::Sentence {
            sheets: &[1, 3, 5, 7],
            tokens: 1,
        },
    },
    LongCase {
        what: "252 times '!' and 'full'",
        text: LongText {
            front: b'!',
            fronts: 252,
            middle: b"full",
            back: b' ',
            backs: 0,
        },
        expected: Reading::Sentence {
            sheets: &[1, 3, 5, 7],
            tokens: 253,
        },
    },
    LongCase {
        what: "251 times '!', a blank and 'full'",
        text: LongText {
            front: b'!',
            fronts: 251,
            middle: b" full",
            back: b' ',
            backs: 0,
        },
        expected: Reading::Sentence {
            sheets: &[0, 2, 4, 6],
            tokens: 252,
        },
    },
    LongCase {
        what: "'full' in 126 pairs of brackets",
        text: LongText {
            front: b'(',
            fronts: 126,
            middle: b"full",
            back: b')',
            backs: 126,
        },
        expected: Reading::Sentence {
            sheets: &[1, 3, 5, 7],
            tokens: 253,
        },
    },
    LongCase {
        what: "'full' and 253 blanks",
        text: LongText {
            front: b' ',
            fronts: 0,
            middle: b"full",
            back: b' ',
            backs: 253,
        },
        expected: Reading::Refused {
            number: 1,
            place: 256,
        },
    },
    LongCase {
        what: "256 times '!'",
        text: LongText {
            front: b'!',
            fronts: 256,
            middle: b"",
            back: b' ',
            backs: 0,
        },
        expected: Reading::Refused {
            number: 4,
            place: 256,
        },
    },
    LongCase {
        what: "256 opening brackets",
        text: LongText {
            front: b'(',
            fronts: 256,
            middle: b"",
            back: b' ',
            backs: 0,
        },
        expected: Reading::Refused {
            number: 4,
            place: 256,
        },
    },
    LongCase {
        what: "257 opening brackets",
        text: LongText {
            front: b'(',
            fronts: 257,
            middle: b"",
            back: b' ',
            backs: 0,
        },
        expected: Reading::Refused {
            number: 1,
            place: 256,
        },
    },
    LongCase {
        what: "127 opening brackets, 'full' and 125 closing ones",
        text: LongText {
            front: b'(',
            fronts: 127,
            middle: b"full",
            back: b')',
            backs: 125,
        },
        expected: Reading::Refused {
            number: 4,
            place: 256,
        },
    },
];

pub fn run(checks: &mut Checks) -> anyhow::Result<()>
    ensures cases { IfOk result (λ _. checks.new.tally.cases ≡ min (checks.old.tally.cases + 10) (2 ^ 64 - 1)) }
    ensures wrong { checks.old.tally.wrong ≤ checks.new.tally.wrong }
{
    run_texts(checks, LONG_CASES)?;
    run_in_list(checks)
}

fn run_texts(checks: &mut Checks, cases: &[LongCase]) -> anyhow::Result<()>
    ensures cases { IfOk result (λ _. 0 < length cases.now → checks.new.tally.cases ≡ min (checks.old.tally.cases + length cases.now) (2 ^ 64 - 1)) }
    ensures wrong { checks.old.tally.wrong ≤ checks.new.tally.wrong }
{
    for case in cases {
        let text = case.text.bytes(checks.heap())?;
        checks.check_text(case.what, text.as_slice(), case.expected)?;
    }
    Ok(())
}

// The second sentence of a list is too long.
fn run_in_list(checks: &mut Checks) -> anyhow::Result<()>
    ensures cases { IfOk result (λ _. checks.new.tally.cases ≡ min (checks.old.tally.cases + 1) (2 ^ 64 - 1)) }
    ensures wrong { checks.old.tally.wrong ≤ checks.new.tally.wrong }
{
    let text = LongText {
        front: b' ',
        fronts: 0,
        middle: b"full",
        back: b'(',
        backs: 257,
    };
    let block = text.bytes(checks.heap())?;
    let list = CutList {
        block: block.as_slice(),
        cuts: &[
            Cut { offset: 0, len: 4 },
            Cut {
                offset: 4,
                len: 257,
            },
        ],
    };
    let expected = Expected::BadSentence {
        number: 1,
        item: 1,
        place: 256,
    };
    let got = read_list(ListKind::Secrets, &checks.names, &list);
    checks.compare(
        "secrets: 'full' and 257 opening brackets",
        &expected.answer(),
        &got,
    )?;
    Ok(())
}
