// Texts put together piece by piece, as a box takes them: one block with a pair for each.
#![tactic(auto)]

ghost use Rattle.std.specs.Prelude.{◌≡◌, ◌+◌, ◌-◌, ◌^◌, ◌<◌, min, true, false, ◌⊎◌, [], ◌∷◌, ◌++◌, length, is_ok, IfOk, if◌then◌else◌, MatchOption, map, nat_eq, OnErr, OnOk};
ghost use Rattle.pieces.specs.Held.{Holds};
ghost use Rattle.pieces.specs.Pairs.{all_fit, fits};

use sentences::cuts::{Cut, CutList};
use std::alloc::{AllocError, Global};

// The pieces one after the other in a block, and a pair for each.
#[derive(Drop)]
pub struct Pieces {
    block: Vec<u8>,
    cuts: Vec<Cut>,
    // How many pieces lie beyond what the 16 bits of a pair can say. They are no error of `add`, since those after them still get their index.
    left_out: usize,
}

impl Pieces {
    pub fn new(heap: Global) -> Pieces
        ensures block { result.block.items ≡ [] }
        ensures cuts { result.cuts.items ≡ [] }
        ensures whole { result.left_out ≡ 0 }
    {
        Pieces {
            block: Vec::new(heap),
            cuts: Vec::new(heap),
            left_out: 0,
        }
    }

    // The texts, each a piece.
    pub fn of(heap: Global, texts: &[&str]) -> Result<Pieces, AllocError>
        ensures whole { IfOk result (λ pieces. nat_eq pieces.left_out 0 ≡ all_fit 0 (map (λ text. text.now) texts.now)) }
        ensures held { IfOk result (λ pieces. pieces.left_out ≡ 0 → Holds pieces.block.items pieces.cuts.items (map (λ text. text.now) texts.now)) }
    {
        let mut pieces = Pieces::new(heap);
        for text in texts {
            pieces.add(text.as_bytes())?;
        }
        Ok(pieces)
    }

    // Adds a piece and answers its index. Where memory runs out the list stays as it is, at most with bytes behind it in the block.
    pub fn add(&mut self, piece: &[u8]) -> Result<usize, AllocError>
        ensures index { IfOk result (λ i. i ≡ min (length self.old.cuts.items + self.old.left_out) (2 ^ 64 - 1)) }
        ensures block { OnOk result (self.new.block.items ≡ self.old.block.items ++ (if fits (length self.old.block.items) (length piece.now) then piece.now else [])) }
        ensures cuts { OnOk result (self.new.cuts.items ≡ self.old.cuts.items ++ (if fits (length self.old.block.items) (length piece.now) then (record { offset = length self.old.block.items; len = length piece.now } ∷ []) else [])) }
        ensures left { OnOk result (self.new.left_out ≡ (if fits (length self.old.block.items) (length piece.now) then self.old.left_out else min (self.old.left_out + 1) (2 ^ 64 - 1))) }
        ensures failed_block { OnErr result ((self.new.block.items ≡ self.old.block.items) ⊎ (self.new.block.items ≡ self.old.block.items ++ piece.now)) }
        ensures failed_cuts { OnErr result (self.new.cuts.items ≡ self.old.cuts.items) }
        ensures failed_left { OnErr result (self.new.left_out ≡ self.old.left_out) }
    {
        let index = self.cuts.len().saturating_add(self.left_out);
        let offset = u16::try_from(self.block.len());
        let len = u16::try_from(piece.len());
        if let (Ok(offset), Ok(len)) = (offset, len) {
            self.block.extend_from_slice(piece)?;
            self.cuts.push(Cut { offset, len })?;
        } else {
            self.left_out = self.left_out.saturating_add(1);
        }
        Ok(index)
    }

    // The list, or nothing if some piece lies beyond what a pair can say.
    pub fn list(&self) -> Option<CutList<'_>>
        ensures block { MatchOption result (0 < self.now.left_out) (λ list. list.block.now ≡ self.now.block.items) }
        ensures cuts { MatchOption result (0 < self.now.left_out) (λ list. list.cuts.now ≡ self.now.cuts.items) }
        ensures whole { MatchOption result (0 < self.now.left_out) (λ _. self.now.left_out ≡ 0) }
    {
        if self.left_out > 0 {
            return None;
        }
        Some(CutList {
            block: self.block.as_slice(),
            cuts: self.cuts.as_slice(),
        })
    }
}

#[cfg(test)]
mod tests {
    use super::*;
    use std::test::Fail;

    #[test]
    fn texts_one_after_the_other(rt: HostRuntime) -> Result<(), Fail> {
        let pieces = Pieces::of(rt.alloc(), &["full", "", "late"])?;
        let Some(list) = pieces.list() else {
            return Err(Fail::new("a text was left out"));
        };
        assert_eq!(rt; list.block, b"fulllate".as_slice());
        assert_eq!(rt; list.cuts.len(), 3);
        Ok(())
    }
}
