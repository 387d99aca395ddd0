// Texts between quotes. `\"`, `\\` and `\x` with two digits stand for one byte each.
ghost use Rattle.std.specs.Prelude.{◌<◌, length, IfOk, OnOk};

use super::flaws::Flaw;
use std::alloc::Global;

// A text, and what follows its closing quote.
#[derive(Drop)]
pub(crate) struct ReadText<'a> {
    pub(crate) bytes: Vec<u8>,
    pub(crate) rest: &'a [u8],
}

// Reads from behind the opening quote.
pub(crate) fn read_text(heap: Global, text: &[u8]) -> Result<ReadText<'_>, Flaw<'static>>
    ensures { IfOk result (λ t. length t.rest.now < length text.now) }
{
    let mut bytes = Vec::new(heap);
    let mut rest = text;
    loop {
        match next_byte(&mut rest)? {
            b'"' => return Ok(ReadText { bytes, rest }),
            b'\\' => bytes.push(escaped(&mut rest)?)?,
            byte => bytes.push(byte)?,
        }
    }
}

// The byte that an escape stands for, read from behind its backslash.
fn escaped(rest: &mut &[u8]) -> Result<u8, Flaw<'static>>
    ensures { OnOk result (length rest.new.now < length rest.old.now) }
{
    match next_byte(rest)? {
        b'x' => Ok(hex_digit(next_byte(rest)?)? << 4 | hex_digit(next_byte(rest)?)?),
        byte @ (b'"' | b'\\') => Ok(byte),
        _ => Err(Flaw::UnknownEscape),
    }
}

fn next_byte(rest: &mut &[u8]) -> Result<u8, Flaw<'static>>
    ensures { OnOk result (length rest.new.now < length rest.old.now) }
{
    rest.split_off_first().copied().ok_or(Flaw::UnfinishedText)
}

fn hex_digit(byte: u8) -> Result<u8, Flaw<'static>> {
    match byte {
        b'0'..=b'9' => Ok(byte - b'0'),
        b'a'..=b'f' => Ok(byte - b'a' + 10),
        b'A'..=b'F' => Ok(byte - b'A' + 10),
        _ => Err(Flaw::UnknownEscape),
    }
}
