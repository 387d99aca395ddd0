// Tokens: the signs and words of a text, taken from the left.
ghost use Rattle.std.specs.Prelude.{◌≡◌, ℕ, ◌+◌, ◌<◌, ◌≤◌, length};
ghost use Rattle.std.specs.List.{prefix_len};
ghost use Rattle.sentences.specs.Scanning.{NextIs};
ghost use Rattle.sentences.specs.Tokens.{class_of, word_byte};

use super::cursor::Cursor;
use super::faults::SentenceFault;

#[derive(Clone, Copy, PartialEq, Eq)]
pub enum Sign {
    Not,
    And,
    Or,
    Open,
    Close,
}

// What a byte can be in a text.
#[derive(Clone, Copy, PartialEq, Eq)]
pub enum Class {
    Blank,
    Letter,
    Sign(Sign),
    Other,
}

// A word borrows its bytes from the text.
#[derive(Clone, Copy)]
pub enum Token<'a> {
    Sign(Sign),
    Word(&'a [u8]),
}

// What was found in a text, with the place at which it begins and the place at which the text goes on.
#[derive(Clone, Copy)]
pub struct Found<T> {
    pub what: T,
    pub start: usize,
    pub after: usize,
}

// A small letter or a digit.
pub(crate) fn is_word_byte(byte: u8) -> bool
    ensures { result ≡ word_byte byte }
{
    matches!(byte, b'a'..=b'z' | b'0'..=b'9')
}

#[tactic(auto, unfolding(crate::specs::Tokens::class_of))]
fn classify(byte: u8) -> Class
    ensures { result ≡ class_of byte }
{
    match byte {
        b' ' => Class::Blank,
        b'!' => Class::Sign(Sign::Not),
        b'&' => Class::Sign(Sign::And),
        b'|' => Class::Sign(Sign::Or),
        b'(' => Class::Sign(Sign::Open),
        b')' => Class::Sign(Sign::Close),
        _ if is_word_byte(byte) => Class::Letter,
        _ => Class::Other,
    }
}

// How many letters a text begins with.
fn word_len(text: &[u8]) -> usize
    ensures count { result ≡ prefix_len word_byte text.now }
    ensures within { result ≤ length text.now }
{
    text.iter().take_while(|byte| is_word_byte(**byte)).count()
}

impl<'a> Cursor<'a> {
    // The next token of the text.
    pub(crate) fn token(&self) -> Result<Option<Found<Token<'a>>>, SentenceFault>
        ensures { NextIs self.now.text.now self.now.at result }
    {
        for (skipped, byte) in self.text[self.at..].iter().enumerate() {
            let start = self.at + skipped;
            match classify(*byte) {
                Class::Blank => {}
                Class::Letter => {
                    let after = start + 1 + word_len(&self.text[start + 1..]);
                    return Ok(Some(Found {
                        what: Token::Word(&self.text[start..after]),
                        start,
                        after,
                    }));
                }
                Class::Sign(sign) => {
                    return Ok(Some(Found {
                        what: Token::Sign(sign),
                        start,
                        after: start + 1,
                    }));
                }
                Class::Other => return Err(SentenceFault::Stray(start)),
            }
        }
        Ok(None)
    }
}
