// Where the parts of a line end.
ghost use Rattle.std.specs.Prelude.{◌≤◌, length};

fn is_blank(byte: u8) -> bool {
    matches!(byte, b' ' | b'\t')
}

// How many blanks stand in front.
pub(crate) fn blanks_len(text: &[u8]) -> usize
    ensures within { result ≤ length text.now }
{
    text.iter()
        .position(|byte| !is_blank(*byte))
        .unwrap_or(text.len())
}

// How long the word in front is.
pub(crate) fn word_len(text: &[u8]) -> usize
    ensures within { result ≤ length text.now }
{
    text.iter()
        .position(|byte| is_blank(*byte) || *byte == b'"')
        .unwrap_or(text.len())
}

// The parts of a word before and after the first such byte.
pub(crate) fn parted(word: &[u8], between: u8) -> Option<(&[u8], &[u8])> {
    let place = word.iter().position(|byte| *byte == between)?;
    Some((&word[..place], &word[place + 1..]))
}
