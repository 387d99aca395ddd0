// The count of the cases that are compared, and of those that come out wrong.
#![tactic(auto)]

ghost use Rattle.std.specs.Prelude.{◌≡◌, ◌+◌, ◌-◌, ◌^◌, ◌≤◌, if◌then◌else◌, min};

#[derive(Clone, Copy)]
pub struct Tally {
    pub cases: usize,
    pub wrong: usize,
}

impl Tally {
    pub fn new() -> Tally
        ensures cases { result.cases ≡ 0 }
        ensures wrong { result.wrong ≡ 0 }
    {
        Tally { cases: 0, wrong: 0 }
    }

    // Counts a case, and answers whether it comes out right.
    pub fn compare<T: PartialEq>(&mut self, expected: &T, got: &T) -> bool
        ensures is_right { result ≡ T.eq expected.now got.now }
        ensures cases { self.new.cases ≡ min (self.old.cases + 1) (2 ^ 64 - 1) }
        ensures wrong { self.old.wrong ≤ self.new.wrong }
        ensures counted { self.new.wrong ≡ (if T.eq expected.now got.now then self.old.wrong else min (self.old.wrong + 1) (2 ^ 64 - 1)) }
    {
        self.cases = self.cases.saturating_add(1);
        let is_right = expected == got;
        if !is_right {
            self.wrong = self.wrong.saturating_add(1);
        }
        is_right
    }

    // Adds the cases of a part.
    pub fn add(&mut self, part: Tally)
        ensures cases { self.new.cases ≡ min (self.old.cases + part.cases) (2 ^ 64 - 1) }
        ensures wrong { self.new.wrong ≡ min (self.old.wrong + part.wrong) (2 ^ 64 - 1) }
    {
        self.cases = self.cases.saturating_add(part.cases);
        self.wrong = self.wrong.saturating_add(part.wrong);
    }

    // How many cases came out right.
    pub fn right(self) -> usize
        ensures { result ≡ self.cases - self.wrong }
    {
        self.cases.saturating_sub(self.wrong)
    }
}

#[cfg(test)]
mod tests {
    use super::*;

    #[test]
    fn right_and_wrong(rt: HostRuntime) {
        let mut part = Tally::new();
        assert!(rt; part.compare(&"a", &"a"));
        assert!(rt; !part.compare(&"a", &"b"));
        let mut sum = Tally::new();
        sum.add(part);
        assert_eq!(rt; sum.cases, 2);
        assert_eq!(rt; sum.right(), 1);
    }
}
