// Sets of sheets, each held in four words of 64 bits: sheet s is a member when bit s % 64 of word s / 64 is set.
#![tactic(auto)]

ghost use Rattle.std.specs.Prelude.{◌≡◌, ◌^◌, ◌≤◌, false, not, Decides, IfOk, count_ones, nat_lt};
ghost use Rattle.sheets.specs.Sets.{bit, mem, set_of, every, any, SameMembers};
ghost use Rattle.sheets.specs.Sets.{meet as meet_of, union as union_of, minus as minus_of, outside as outside_of};
ghost use Rattle.sheets.specs.Sets.{count as count_of, within as within_of, within_one, within_union};
ghost use Rattle.sheets.specs.Passing.{passing};

use std::alloc::{AllocError, Global};
use std::array;

#[derive(Clone, Copy, PartialEq, Eq, Debug)]
pub struct SheetSet {
    words: [u64; 4],
}

// Row n: the sheets below 2 ^ n.
const BELOW: [[u64; 4]; 9] = [
    [0x1, 0, 0, 0],
    [0x3, 0, 0, 0],
    [0xf, 0, 0, 0],
    [0xff, 0, 0, 0],
    [0xffff, 0, 0, 0],
    [0xffff_ffff, 0, 0, 0],
    [0xffff_ffff_ffff_ffff, 0, 0, 0],
    [0xffff_ffff_ffff_ffff, 0xffff_ffff_ffff_ffff, 0, 0],
    [
        0xffff_ffff_ffff_ffff,
        0xffff_ffff_ffff_ffff,
        0xffff_ffff_ffff_ffff,
        0xffff_ffff_ffff_ffff,
    ],
];

// Row i: the sheets in which fact i is true.
const FACT: [[u64; 4]; 8] = [
    [
        0xaaaa_aaaa_aaaa_aaaa,
        0xaaaa_aaaa_aaaa_aaaa,
        0xaaaa_aaaa_aaaa_aaaa,
        0xaaaa_aaaa_aaaa_aaaa,
    ],
    [
        0xcccc_cccc_cccc_cccc,
        0xcccc_cccc_cccc_cccc,
        0xcccc_cccc_cccc_cccc,
        0xcccc_cccc_cccc_cccc,
    ],
    [
        0xf0f0_f0f0_f0f0_f0f0,
        0xf0f0_f0f0_f0f0_f0f0,
        0xf0f0_f0f0_f0f0_f0f0,
        0xf0f0_f0f0_f0f0_f0f0,
    ],
    [
        0xff00_ff00_ff00_ff00,
        0xff00_ff00_ff00_ff00,
        0xff00_ff00_ff00_ff00,
        0xff00_ff00_ff00_ff00,
    ],
    [
        0xffff_0000_ffff_0000,
        0xffff_0000_ffff_0000,
        0xffff_0000_ffff_0000,
        0xffff_0000_ffff_0000,
    ],
    [
        0xffff_ffff_0000_0000,
        0xffff_ffff_0000_0000,
        0xffff_ffff_0000_0000,
        0xffff_ffff_0000_0000,
    ],
    [0, 0xffff_ffff_ffff_ffff, 0, 0xffff_ffff_ffff_ffff],
    [0, 0, 0xffff_ffff_ffff_ffff, 0xffff_ffff_ffff_ffff],
];

impl SheetSet {
    // The set without members.
    pub fn empty() -> SheetSet
        ensures { result ≡ set_of (λ _. false) }
    {
        SheetSet { words: [0; 4] }
    }

    // The sheets of a box with that many names. A set holds sheets below 256, so more than eight names are as eight.
    pub fn below(names: usize) -> SheetSet
        ensures { result ≡ set_of (λ s. nat_lt s (2 ^ names)) }
    {
        SheetSet {
            words: BELOW[names.min(8)],
        }
    }

    // The sheets in which the fact is true: none from the ninth fact on.
    pub fn fact(index: usize) -> SheetSet
        ensures { result ≡ set_of (λ s. bit s index) }
    {
        // The proof compares the rows of the constant at an index, and did not find one through `get`.
        if index >= 8 {
            return SheetSet::empty();
        }
        SheetSet { words: FACT[index] }
    }

    // Whether the sheet is a member.
    pub fn has(&self, sheet: u16) -> bool
        ensures { result ≡ mem self.now sheet }
    {
        if sheet >= 256 {
            return false;
        }
        (self.words[sheet as usize / 64] >> (sheet % 64)) & 1 == 1
    }

    // The sheets in both sets.
    pub fn meet(&self, other: &SheetSet) -> SheetSet
        ensures { result ≡ meet_of self.now other.now }
    {
        SheetSet {
            words: array::from_fn(|index| self.words[index] & other.words[index]),
        }
    }

    // The sheets in one of the sets or both.
    pub fn union(&self, other: &SheetSet) -> SheetSet
        ensures { result ≡ union_of self.now other.now }
    {
        SheetSet {
            words: array::from_fn(|index| self.words[index] | other.words[index]),
        }
    }

    // The sheets in this set alone.
    pub fn minus(&self, other: &SheetSet) -> SheetSet
        ensures { result ≡ minus_of self.now other.now }
    {
        SheetSet {
            words: array::from_fn(|index| self.words[index] & !other.words[index]),
        }
    }

    // The sheets below 256 that are not in the set.
    pub fn outside(&self) -> SheetSet
        ensures { result ≡ outside_of self.now }
    {
        SheetSet {
            words: array::from_fn(|index| !self.words[index]),
        }
    }

    // How many members the set has.
    pub fn count(&self) -> u16
        ensures { result ≡ count_of (mem self.now) 256 }
    {
        // A sum over `iter()` would ask that it fits, and the proof does not know that the words that it reads have 64 bits.
        ones_of(self.words[0])
            + ones_of(self.words[1])
            + ones_of(self.words[2])
            + ones_of(self.words[3])
    }

    // The members, in their order.
    pub fn members(&self, heap: Global) -> Result<Vec<u16>, AllocError>
        ensures { IfOk result (λ sheets. sheets.items ≡ passing (mem self.now) 256) }
    {
        (0..256u16).filter(|sheet| self.has(*sheet)).collect(heap)
    }

    // Whether the set has no members.
    pub fn is_empty(&self) -> bool
        ensures { result ≡ every (λ s. not (mem self.now s)) 256 }
    {
        self.count() == 0
    }

    // Whether the sets have the same members.
    pub fn same(&self, other: &SheetSet) -> bool
        ensures { Decides result (SameMembers self.now other.now) }
    {
        // `self == other` reads no word, and of a word that is not read no proof knows that it has 64 bits.
        self.minus(other).is_empty() && other.minus(self).is_empty()
    }

    // Whether each member is in the other set.
    pub fn within(&self, other: &SheetSet) -> bool
        ensures { result ≡ within_of self.now other.now }
    {
        (0..256u16).all(|sheet| !self.has(sheet) || other.has(sheet))
    }

    // Whether one of the sets has every member of this one.
    pub fn within_one(&self, sets: &[SheetSet]) -> bool
        ensures { result ≡ within_one self.now sets.now }
    {
        // A loop over the secrets: its invariant says that none before contains this set.
        for set in sets {
            if self.within(set) {
                return true;
            }
        }
        false
    }

    // Whether each member is in one of the sets, not always the same one.
    pub fn within_union(&self, sets: &[SheetSet]) -> bool
        ensures { result ≡ within_union self.now sets.now }
    {
        (0..256u16).all(|sheet| !self.has(sheet) || one_has(sets, sheet))
    }
}

// Whether the sheet is in one of the sets.
fn one_has(sets: &[SheetSet], sheet: u16) -> bool
    ensures { result ≡ any (λ x. mem x sheet) sets.now }
{
    sets.iter().any(|set| set.has(sheet))
}

// How many bits of the word are set.
fn ones_of(word: u64) -> u16
    ensures same { result ≡ count_ones word }
    ensures few { result ≤ 64 }
{
    word.count_ones() as u16
}

#[cfg(test)]
mod tests {
    use super::*;

    // Fact 7 is true in the upper half of the sheets, and one sheet has all eight facts.
    #[test]
    fn lists_members(rt: HostRuntime) {
        let upper = SheetSet::fact(7).members(rt.alloc()).expect(&rt, "memory");
        assert_eq!(rt; upper.len(), 128);
        assert_eq!(rt; upper.first(), Some(&128));
        assert_eq!(rt; upper.last(), Some(&255));
        let first = SheetSet::below(0).members(rt.alloc()).expect(&rt, "memory");
        assert_eq!(rt; first.as_slice(), [0u16].as_slice());
    }
}
