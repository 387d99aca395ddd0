// Texts that are written out, read with the names full, late and sold.
ghost use Rattle.std.specs.Prelude.{◌≡◌, ◌+◌, ◌-◌, ◌^◌, ◌≤◌, IfOk, min};

use super::checks::Checks;
use super::readings::Reading;

struct SentenceCase {
    text: &'static [u8],
    expected: Reading,
}

const SENTENCE_CASES: &[SentenceCase] = &[
    SentenceCase {
        text: b"full",
        expected: Reading::Sentence {
            sheets: &[1, 3, 5, 7],
            tokens: 1,
        },
    },
    SentenceCase {
        text: b"full & late",
        expected: Reading::Sentence {
            sheets: &[3, 7],
            tokens: 3,
        },
    },
    SentenceCase {
        text: b"sold & late & full",
        expected: Reading::Sentence {
            sheets: &[7],
            tokens: 5,
        },
    },
    SentenceCase {
        text: b"full|late|sold",
        expected: Reading::Sentence {
            sheets: &[1, 2, 3, 4, 5, 6, 7],
            tokens: 5,
        },
    },
    // `&` binds before `|`, and `!` before both
    SentenceCase {
        text: b"full | late & sold",
        expected: Reading::Sentence {
            sheets: &[1, 3, 5, 6, 7],
            tokens: 5,
        },
    },
    SentenceCase {
        text: b"full & late | sold",
        expected: Reading::Sentence {
            sheets: &[3, 4, 5, 6, 7],
            tokens: 5,
        },
    },
    SentenceCase {
        text: b"(full | late) & sold",
        expected: Reading::Sentence {
            sheets: &[5, 6, 7],
            tokens: 7,
        },
    },
    SentenceCase {
        text: b"!full & late",
        expected: Reading::Sentence {
            sheets: &[2, 6],
            tokens: 4,
        },
    },
    SentenceCase {
        text: b"!full | late",
        expected: Reading::Sentence {
            sheets: &[0, 2, 3, 4, 6, 7],
            tokens: 4,
        },
    },
    SentenceCase {
        text: b"!(full & late)",
        expected: Reading::Sentence {
            sheets: &[0, 1, 2, 4, 5, 6],
            tokens: 6,
        },
    },
    SentenceCase {
        text: b"!!full",
        expected: Reading::Sentence {
            sheets: &[1, 3, 5, 7],
            tokens: 3,
        },
    },
    SentenceCase {
        text: b"! ! full",
        expected: Reading::Sentence {
            sheets: &[1, 3, 5, 7],
            tokens: 3,
        },
    },
    SentenceCase {
        text: b"((sold))",
        expected: Reading::Sentence {
            sheets: &[4, 5, 6, 7],
            tokens: 5,
        },
    },
    // blanks mean nothing
    SentenceCase {
        text: b"  full  &  late  ",
        expected: Reading::Sentence {
            sheets: &[3, 7],
            tokens: 3,
        },
    },
    SentenceCase {
        text: b" ! ( full | late ) ",
        expected: Reading::Sentence {
            sheets: &[0, 4],
            tokens: 6,
        },
    },
    SentenceCase {
        text: b"full & (late | !sold) & !(late & sold)",
        expected: Reading::Sentence {
            sheets: &[1, 3],
            tokens: 15,
        },
    },
    // true in no sheet, and in every one
    SentenceCase {
        text: b"full & !full",
        expected: Reading::Sentence {
            sheets: &[],
            tokens: 4,
        },
    },
    SentenceCase {
        text: b"full | !full",
        expected: Reading::Sentence {
            sheets: &[0, 1, 2, 3, 4, 5, 6, 7],
            tokens: 4,
        },
    },
    // the text ends too soon
    SentenceCase {
        text: b"",
        expected: Reading::Refused {
            number: 4,
            place: 0,
        },
    },
    SentenceCase {
        text: b"   ",
        expected: Reading::Refused {
            number: 4,
            place: 3,
        },
    },
    SentenceCase {
        text: b"(full",
        expected: Reading::Refused {
            number: 4,
            place: 5,
        },
    },
    SentenceCase {
        text: b"full & (late",
        expected: Reading::Refused {
            number: 4,
            place: 12,
        },
    },
    SentenceCase {
        text: b"full & ",
        expected: Reading::Refused {
            number: 4,
            place: 7,
        },
    },
    SentenceCase {
        text: b"full |",
        expected: Reading::Refused {
            number: 4,
            place: 6,
        },
    },
    SentenceCase {
        text: b"!",
        expected: Reading::Refused {
            number: 4,
            place: 1,
        },
    },
    // a token that does not fit, found before what follows it
    SentenceCase {
        text: b"full late",
        expected: Reading::Refused {
            number: 4,
            place: 5,
        },
    },
    SentenceCase {
        text: b"(full late)",
        expected: Reading::Refused {
            number: 4,
            place: 6,
        },
    },
    SentenceCase {
        text: b"full )",
        expected: Reading::Refused {
            number: 4,
            place: 5,
        },
    },
    SentenceCase {
        text: b"(full))",
        expected: Reading::Refused {
            number: 4,
            place: 6,
        },
    },
    SentenceCase {
        text: b"()",
        expected: Reading::Refused {
            number: 4,
            place: 1,
        },
    },
    SentenceCase {
        text: b"&full",
        expected: Reading::Refused {
            number: 4,
            place: 0,
        },
    },
    SentenceCase {
        text: b"full && late",
        expected: Reading::Refused {
            number: 4,
            place: 6,
        },
    },
    SentenceCase {
        text: b"full!",
        expected: Reading::Refused {
            number: 4,
            place: 4,
        },
    },
    SentenceCase {
        text: b"full(late)",
        expected: Reading::Refused {
            number: 4,
            place: 4,
        },
    },
    SentenceCase {
        text: b"full late ?",
        expected: Reading::Refused {
            number: 4,
            place: 5,
        },
    },
    // a word that is no name, refused even where no name would fit
    SentenceCase {
        text: b"full & ship",
        expected: Reading::Refused {
            number: 3,
            place: 7,
        },
    },
    SentenceCase {
        text: b"full ship",
        expected: Reading::Refused {
            number: 3,
            place: 5,
        },
    },
    SentenceCase {
        text: b"ship?",
        expected: Reading::Refused {
            number: 3,
            place: 0,
        },
    },
    SentenceCase {
        text: b"1full",
        expected: Reading::Refused {
            number: 3,
            place: 0,
        },
    },
    SentenceCase {
        text: b"fulllate",
        expected: Reading::Refused {
            number: 3,
            place: 0,
        },
    },
    SentenceCase {
        text: b"ful",
        expected: Reading::Refused {
            number: 3,
            place: 0,
        },
    },
    SentenceCase {
        text: b"abcdefghijklm",
        expected: Reading::Refused {
            number: 3,
            place: 0,
        },
    },
    // a byte that belongs to no token; a word that is no name before it comes first
    SentenceCase {
        text: b"full ? zz",
        expected: Reading::Refused {
            number: 2,
            place: 5,
        },
    },
    SentenceCase {
        text: b"full\tlate",
        expected: Reading::Refused {
            number: 2,
            place: 4,
        },
    },
    SentenceCase {
        text: b"Full",
        expected: Reading::Refused {
            number: 2,
            place: 0,
        },
    },
    SentenceCase {
        text: b"full & Late",
        expected: Reading::Refused {
            number: 2,
            place: 7,
        },
    },
    SentenceCase {
        text: b"fuLl",
        expected: Reading::Refused {
            number: 3,
            place: 0,
        },
    },
    SentenceCase {
        text: b"full\0",
        expected: Reading::Refused {
            number: 2,
            place: 4,
        },
    },
    SentenceCase {
        text: b"\xff",
        expected: Reading::Refused {
            number: 2,
            place: 0,
        },
    },
    SentenceCase {
        text: b"full & late\n",
        expected: Reading::Refused {
            number: 2,
            place: 11,
        },
    },
];

pub fn run(checks: &mut Checks) -> anyhow::Result<()>
    ensures cases { IfOk result (λ _. checks.new.tally.cases ≡ min (checks.old.tally.cases + 50) (2 ^ 64 - 1)) }
    ensures wrong { checks.old.tally.wrong ≤ checks.new.tally.wrong }
{
    for case in SENTENCE_CASES {
        let escaped = case.text.escape_ascii();
        let what = format!(in checks.heap(); "'{escaped}'")?;
        checks.check_text(what.as_str(), case.text, case.expected)?;
    }
    Ok(())
}
