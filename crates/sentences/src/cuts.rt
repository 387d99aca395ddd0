// Cut lists: a block of bytes with a list of pairs, each the offset and the length of a piece.
ghost use Rattle.std.specs.Prelude.{◌≡◌, ◌≤◌, length, Ok};
ghost use Rattle.sentences.specs.Cuts.{end_of, misplaced, first_bad_pair, pairs_fault, piece as piece_of, unless};

use super::faults::{ListFault, ListKind};

#[derive(Clone, Copy)]
pub struct Cut {
    pub offset: u16,
    pub len: u16,
}

#[derive(Clone, Copy)]
pub struct CutList<'a> {
    pub block: &'a [u8],
    pub cuts: &'a [Cut],
}

impl Cut {
    // The end of the piece, which may lie past 16 bits.
    fn end(&self) -> usize
        ensures { result ≡ end_of self.now }
    {
        self.offset as usize + self.len as usize
    }

    // Whether the pair begins before `front` or reaches past `size` bytes.
    fn is_misplaced(&self, front: usize, size: usize) -> bool
        ensures { result ≡ misplaced front size self.now }
    {
        (self.offset as usize) < front || size < self.end()
    }
}

impl<'a> CutList<'a> {
    // The first pair that reaches past the block or begins before the end of the pair in front of it.
    pub fn first_bad_pair(&self) -> Option<usize>
        ensures { result ≡ first_bad_pair self.now }
    {
        let mut front = 0;
        // A loop, since the end of the pair in front is carried along.
        for (index, cut) in self.cuts.iter().enumerate() {
            if cut.is_misplaced(front, self.block.len()) {
                return Some(index);
            }
            front = cut.end();
        }
        None
    }

    // Tests the list itself: at least `least` pairs and at most eight, then no bad pair.
    #[tactic(auto, using(std::proofs::lemmas::Bool::Decides::nat_tests), unfolding(crate::specs::Cuts::pairs_fault))]
    pub(crate) fn test(&self, kind: ListKind, least: usize) -> Result<(), ListFault>
        ensures { result ≡ unless (pairs_fault kind least self.now) (Ok tt) }
    {
        if self.cuts.len() < least || self.cuts.len() > 8 {
            return Err(ListFault::Count(kind));
        }
        match self.first_bad_pair() {
            Some(index) => Err(ListFault::BadPair(index)),
            None => Ok(()),
        }
    }

    // The bytes of one pair.
    pub(crate) fn piece(&self, cut: Cut) -> &'a [u8]
        requires { end_of cut ≤ length self.now.block.now }
        ensures { result.now ≡ piece_of self.now.block.now cut }
    {
        &self.block[cut.offset as usize..cut.end()]
    }
}
