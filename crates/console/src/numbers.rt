// Decimal numbers.
ghost use Rattle.std.specs.Prelude.{◌≡◌, ◌+◌, ◌*◌, ◌<◌, ◌≤◌, IfOk, MatchOption};
ghost use Rattle.console.specs.Decimal.{value_of};

use super::flaws::Flaw;

// The number that the digits say, if it is not above the most.
// Digit by digit: what comes first, a byte that is no digit or a number too large, is what is reported.
pub(crate) fn decimal(digits: &[u8], most: usize) -> Result<usize, Flaw<'_>>
    ensures { IfOk result (λ n. (n ≡ value_of digits.now) × (n ≤ most)) }
{
    if digits.is_empty() {
        return Err(Flaw::NotNumber(digits));
    }
    let mut number = 0usize;
    for byte in digits {
        if !byte.is_ascii_digit() {
            return Err(Flaw::NotNumber(digits));
        }
        number = appended(number, *byte - b'0', most).ok_or(Flaw::TooLarge(digits))?;
    }
    Ok(number)
}

// The number with one more digit behind, if it is not above the most.
fn appended(number: usize, digit: u8, most: usize) -> Option<usize>
    ensures { MatchOption result (most < 10 * number + digit) (λ n. (n ≡ 10 * number + digit) × (n ≤ most)) }
{
    number
        .checked_mul(10)?
        .checked_add(digit as usize)
        .filter(|longer| *longer <= most)
}
