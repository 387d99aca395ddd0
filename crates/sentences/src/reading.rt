// The readers of sentence, clause and part.
ghost use Rattle.std.specs.Prelude.{◌≡◌, ◌≤◌, length};
ghost use Rattle.sentences.specs.Cursors.{SameText};
ghost use Rattle.sentences.specs.Machine.{reading as reading_of};
ghost use Rattle.sentences.specs.Naming.{words};
ghost use Rattle.sentences.specs.Reading.{Exactly};
ghost use Rattle.sentences.specs.Reads.{PartIs, ClauseIs, SentenceIs};

use super::cursor::Cursor;
use super::faults::SentenceFault;
use super::names::Names;
use super::symbols::Symbol;
use super::tokens::Sign;
use sheets::SheetSet;

// A text has at most this many bytes.
const LONGEST: usize = 256;

// What a text means: the sheets in which it is true, and how many tokens it has.
#[derive(Clone, Copy)]
pub struct Meaning {
    pub sheets: SheetSet,
    pub tokens: usize,
}

// What a reader has read so far, and the place at which the text goes on.
#[derive(Clone, Copy)]
pub struct Progress {
    sheets: SheetSet,
    tokens: usize,
    after: usize,
}

impl<'a> Cursor<'a> {
    // The place `at` of the same text.
    fn moved_to(&self, at: usize) -> Cursor<'a>
        requires { at ≤ length self.now.text.now }
        ensures place { result.at ≡ at }
        ensures same { SameText self.now result }
    {
        Cursor {
            names: self.names,
            text: self.text,
            at,
        }
    }
}

// Each rule of the grammar has its reader, and they call each other as the rules do.
impl Cursor<'_> {
    #[cycle(clause_part_sentence)]
    fn sentence(&self) -> Result<Progress, SentenceFault>
        ensures { SentenceIs (words self.now.names.now) self.now.text.now self.now.at result }
    {
        let mut so_far = self.clause()?;
        loop {
            let Some(found) = self.moved_to(so_far.after).symbol()? else {
                return Ok(so_far);
            };
            if !found.is(Sign::Or) {
                return Ok(so_far);
            }
            let more = self.moved_to(found.after).clause()?;
            so_far = Progress {
                sheets: so_far.sheets.union(&more.sheets),
                tokens: so_far.tokens + 1 + more.tokens,
                after: more.after,
            };
        }
    }

    #[cycle(clause_part_sentence)]
    fn clause(&self) -> Result<Progress, SentenceFault>
        ensures { ClauseIs (words self.now.names.now) self.now.text.now self.now.at result }
    {
        let mut so_far = self.part()?;
        loop {
            let Some(found) = self.moved_to(so_far.after).symbol()? else {
                return Ok(so_far);
            };
            if !found.is(Sign::And) {
                return Ok(so_far);
            }
            let more = self.moved_to(found.after).part()?;
            so_far = Progress {
                sheets: so_far.sheets.meet(&more.sheets),
                tokens: so_far.tokens + 1 + more.tokens,
                after: more.after,
            };
        }
    }

    // Tried with `ok_or` for the two `let .. else`, and with one flat match: the proof of the cycle did not close.
    #[cycle(clause_part_sentence)]
    fn part(&self) -> Result<Progress, SentenceFault>
        ensures { PartIs (words self.now.names.now) self.now.text.now self.now.at result }
    {
        let Some(found) = self.symbol()? else {
            return Err(SentenceFault::Misfit(self.text.len()));
        };
        match found.what {
            Symbol::Fact(index) => Ok(Progress {
                sheets: SheetSet::fact(index),
                tokens: 1,
                after: found.after,
            }),
            Symbol::Sign(sign) => match sign {
                Sign::Not => {
                    let inner = self.moved_to(found.after).part()?;
                    Ok(Progress {
                        sheets: inner.sheets.outside(),
                        tokens: 1 + inner.tokens,
                        after: inner.after,
                    })
                }
                Sign::Open => {
                    let inner = self.moved_to(found.after).sentence()?;
                    let Some(last) = self.moved_to(inner.after).symbol()? else {
                        return Err(SentenceFault::Misfit(self.text.len()));
                    };
                    if !last.is(Sign::Close) {
                        return Err(SentenceFault::Misfit(last.start));
                    }
                    Ok(Progress {
                        sheets: inner.sheets,
                        tokens: 1 + inner.tokens + 1,
                        after: last.after,
                    })
                }
                Sign::And | Sign::Or | Sign::Close => Err(SentenceFault::Misfit(found.start)),
            },
        }
    }
}

// What the text means, or the first test that it fails: the answer that the grammar gives, and the only one.
pub fn parse(names: &Names, text: &[u8]) -> Result<Meaning, SentenceFault>
    ensures is { result ≡ reading_of (words names.now) text.now }
    ensures exact { Exactly (words names.now) text.now result }
{
    if text.len() > LONGEST {
        return Err(SentenceFault::TooLong);
    }
    let start = Cursor { names, text, at: 0 };
    let whole = start.sentence()?;
    match start.moved_to(whole.after).symbol()? {
        Some(found) => Err(SentenceFault::Misfit(found.start)),
        None => Ok(Meaning {
            sheets: SheetSet::below(names.count()).meet(&whole.sheets),
            tokens: whole.tokens,
        }),
    }
}
