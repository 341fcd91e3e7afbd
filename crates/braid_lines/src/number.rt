//! Numbers in words.

ghost use Rattle.std.specs.Prelude.{◌≤◌, ℕ, MatchOption};
ghost use Rattle.braid_lines.specs.Numbers.{IsNumber};

/// The most digits of a number.
const MOST_DIGITS: usize = 20;

/// The number that a word is, in 1 to 20 decimal digits, where it is at most `most`. Zeros may lead, and a sign may
/// not. It takes no memory.
pub fn read_number(word: &[u8], most: u64) -> Option<u64>
    ensures number { MatchOption result ((n : ℕ) → n ≤ most → ¬ IsNumber word.now n)
        (λ n. IsNumber word.now n × (n ≤ most)) }
{
    // What std reads as a number may begin with a plus; a word may not.
    if word.len() > MOST_DIGITS || word.first() == Some(&b'+') {
        return None;
    }
    let Ok(text) = str::from_utf8(word) else {
        return None;
    };
    match text.parse::<u64>() {
        Ok(n) if n <= most => Some(n),
        _ => None,
    }
}
