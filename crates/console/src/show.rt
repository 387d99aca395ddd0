// How texts are printed.
use std::fmt;

// How much of a text is shown where a call is named in short.
const SHORT: usize = 40;

// A text between quotes, written as a script has it: what is not printable stands as an escape.
#[derive(Clone, Copy)]
pub(crate) struct Quoted<'a> {
    text: &'a [u8],
    most: usize,
}

impl<'a> Quoted<'a> {
    pub(crate) fn whole(text: &'a [u8]) -> Quoted<'a> {
        Quoted {
            text,
            most: text.len(),
        }
    }

    // Only the front of a long text, and how long it is.
    pub(crate) fn short(text: &'a [u8]) -> Quoted<'a> {
        Quoted { text, most: SHORT }
    }
}

impl fmt::Display for Quoted<'_> {
    fn fmt<W: fmt::Write>(&self, f: &mut fmt::Formatter<W>) -> fmt::Result {
        let len = self.text.len();
        if len <= self.most {
            return write_quoted(f, self.text);
        }
        write_quoted(f, &self.text[..self.most])?;
        write!(f, "... ({len} bytes)")
    }
}

fn write_quoted<W: fmt::Write>(f: &mut fmt::Formatter<W>, text: &[u8]) -> fmt::Result {
    f.write_str("\"")?;
    for byte in text {
        write_byte(f, *byte)?;
    }
    f.write_str("\"")
}

fn write_byte<W: fmt::Write>(f: &mut fmt::Formatter<W>, byte: u8) -> fmt::Result {
    match byte {
        b'"' => f.write_str("\\\""),
        b'\\' => f.write_str("\\\\"),
        b' '..=b'~' => f.write_char(byte as char),
        _ => write!(f, "\\x{byte:02x}"),
    }
}
