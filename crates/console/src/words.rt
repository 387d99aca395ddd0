// The words that a line begins with.

// A word that stands for nothing where it was read.
#[derive(Clone, Copy)]
pub(crate) struct UnknownWord;

#[derive(Clone, Copy)]
pub(crate) enum CallWord {
    Open,
    Enrol,
    Judge,
    Read,
    Enter,
    Amend,
    Held,
    Remaining,
}

impl TryFrom<&[u8]> for CallWord {
    type Error = UnknownWord;

    fn try_from(word: &[u8]) -> Result<CallWord, UnknownWord> {
        match word {
            b"open" => Ok(CallWord::Open),
            b"enrol" => Ok(CallWord::Enrol),
            b"judge" => Ok(CallWord::Judge),
            b"read" => Ok(CallWord::Read),
            b"enter" => Ok(CallWord::Enter),
            b"amend" => Ok(CallWord::Amend),
            b"held" => Ok(CallWord::Held),
            b"remaining" => Ok(CallWord::Remaining),
            _ => Err(UnknownWord),
        }
    }
}
