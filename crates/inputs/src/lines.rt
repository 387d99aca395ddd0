// The lines of a text.
ghost use Rattle.std.specs.Prelude.{[], nat_eq, ◌≡◌, ℕ, ◌+◌, ◌<◌, ◌≤◌, length, take, MatchOption, ◌≢◌, slice_index};
ghost use Rattle.inputs.specs.Lines.{without_return as without_return_of};
ghost use Rattle.std.specs.Iterator.{at_most};
ghost use Rattle.std.specs.List.{position_or_len, before_first, after_first};

// The pieces of a text between the places of one byte. What follows the last such place counts unless it is empty.
// The slice's own split counts an empty end too, and the contract of next says here what each piece is.
#[derive(Drop)]
pub struct Split<'a> {
    rest: &'a [u8],
    at: u8,
}

impl<'a> Split<'a> {
    pub fn new(text: &'a [u8], at: u8) -> Split<'a>
        ensures whole { result.rest.now ≡ text.now }
        ensures parted { result.at ≡ at }
    {
        Split { rest: text, at }
    }
}

impl<'a> Iterator for Split<'a> {
    type Item = &'a [u8];

    ghost remaining = { λ s. at_most (length s.rest.now) };

    ghost next_gives = { λ s r t. MatchOption r (s.rest.now ≡ []) (λ x. (x.now ≡ before_first (λ b. nat_eq b s.at) s.rest.now) × (t.rest.now ≡ after_first (λ b. nat_eq b s.at) s.rest.now) × (t.at ≡ s.at)) };

    fn next(&mut self) -> Option<&'a [u8]> {
        let text = self.rest;
        if text.is_empty() {
            return None;
        }
        let end = first_place(text, self.at);
        if end < text.len() {
            self.rest = &text[end + 1..];
        } else {
            self.rest = &text[end..];
        }
        Some(&text[0..end])
    }
}

// The place of the first such byte, or the length of the text where there is none.
pub fn first_place(text: &[u8], byte: u8) -> usize
    ensures within { result ≤ length text.now }
    ensures before { (k : ℕ) → k < result → slice_index text.now k ≢ byte }
    ensures found { result < length text.now → slice_index text.now result ≡ byte }
    ensures first { result ≡ position_or_len (λ b. nat_eq b byte) text.now }
{
    text.iter()
        .position(|found| *found == byte)
        .unwrap_or(text.len())
}

// The line without a carriage return at its end.
pub fn without_return(line: &[u8]) -> &[u8]
    ensures front { result.now ≡ take (length result.now) line.now }
    ensures most { length line.now ≤ length result.now + 1 }
    ensures is { result.now ≡ without_return_of line.now }
{
    line.strip_suffix(b"\r").unwrap_or(line)
}

#[cfg(test)]
mod tests {
    use super::*;
    use std::test::Fail;

    #[test]
    fn pieces_between_the_places(rt: HostRuntime) -> Result<(), Fail> {
        let pieces: Vec<&[u8]> = Split::new(b"a\r\n\nb\n", b'\n').collect(rt.alloc())?;
        let expected = [b"a\r".as_slice(), b"".as_slice(), b"b".as_slice()];
        assert_eq!(rt; pieces.as_slice(), expected.as_slice());
        Ok(())
    }

    #[test]
    fn return_at_the_end(rt: HostRuntime) {
        assert_eq!(rt; without_return(b"a\rb\r\r"), b"a\rb\r".as_slice());
        assert_eq!(rt; without_return(b""), b"".as_slice());
    }
}
