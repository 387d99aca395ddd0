// What an amendment is checked for, and the sheet that it makes.
ghost use Rattle.std.specs.Prelude.{◌≡◌, ℕ, ◌^◌, ◌<◌, ◌≤◌, length, if◌then◌else◌, None, nat_eq};
ghost use Rattle.sheets.specs.Sets.{bit};
ghost use Rattle.sentences.specs.Search.{first};
ghost use Rattle.histories.specs.Calls.{slip_out, listed_before, bad_change, new_sheet};
ghost use Rattle.querybox.specs.Entries.{parties_of};

use super::inner::Inner;
use super::party::Party;
use histories::data::Change;

// The lowest counterparty whose slip is out.
pub(crate) fn first_slip_out(inner: &Inner<Party>) -> Option<usize>
    ensures { result ≡ slip_out 0 (parties_of inner.now) }
{
    (0..inner.count).find(|party| inner.entry(*party).pending.is_some())
}

// The first change that names none of the facts, or a fact that was listed before.
pub(crate) fn first_bad_change(facts: usize, changes: &[Change]) -> Option<usize>
    ensures { result ≡ first (bad_change facts changes.now) (length changes.now) }
{
    for (index, change) in changes.iter().enumerate() {
        if change.fact >= facts || is_listed_before(change.fact, changes, index) {
            return Some(index);
        }
    }
    None
}

// Whether one of the first `end` changes is of the fact.
fn is_listed_before(fact: usize, changes: &[Change], end: usize) -> bool
    requires { end ≤ length changes.now }
    ensures { result ≡ listed_before fact changes.now end }
{
    changes.iter().take(end).any(|change| fact == change.fact)
}

// The sheet in which each listed fact has its new value, and each other fact its old one.
pub(crate) fn amended_sheet(facts: usize, sheet: u16, changes: &[Change]) -> u16
    requires few { facts ≤ 8 }
    requires known { sheet < 2 ^ facts }
    requires proper { first (bad_change facts changes.now) (length changes.now) ≡ None }
    ensures { result ≡ new_sheet facts sheet changes.now }
{
    let mut amended = sheet;
    for change in changes {
        amended = with_value(amended, change.fact, change.value);
    }
    amended
}

// The sheet in which the fact has the value, and each other fact its old one.
fn with_value(sheet: u16, fact: usize, value: bool) -> u16
    requires { fact < 16 }
    ensures { (k : ℕ) → k < 16 → bit result k ≡ (if nat_eq k fact then value else bit sheet k) }
{
    let place = 1 << fact;
    if value { sheet | place } else { sheet & !place }
}
