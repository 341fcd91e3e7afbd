//! Numbers of updates.

ghost use Rattle.std.specs.Prelude.{◌≡◌, min, MatchOption};
ghost use Rattle.braid_state.specs.Heads.{IsCount, count_of};

/// The most updates of a state, confirmed and unsent ones together.
pub const MOST_UPDATES: u64 = 524_288;

/// The number that the bytes are in decimal digits without leading zeros. A number above the most updates is read as one
/// more than these.
pub fn read_count(digits: &[u8]) -> Option<u64>
    ensures found { MatchOption result (IsCount digits.now → ⊥)
        (λ n. IsCount digits.now × (n ≡ min (count_of digits.now) 524_289)) }
{
    let Some(first) = digits.first() else {
        return None;
    };
    if *first == b'0' && digits.len() > 1 {
        return None;
    }
    let mut count = 0;
    for digit in digits {
        if !digit.is_ascii_digit() {
            return None;
        }
        count = (count * 10 + u64::from(*digit - b'0')).min(MOST_UPDATES + 1);
    }
    Some(count)
}
