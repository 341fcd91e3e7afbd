//! The words of a drill.

ghost use Rattle.std.specs.Prelude.{MatchOption};
ghost use Rattle.braid_drill.specs.Forms.{HasNoForm, IsForm};

use braid_ids::Word;
use braid_lines::read_number;

/// The most rounds.
const MOST_ROUNDS: u64 = 20_000;

/// What the words of a drill ask for.
#[derive(Clone, Copy, Debug, PartialEq, Eq)]
pub struct Asked {
    pub seed: u64,
    pub rounds: u32,
}

/// What words ask for: `drill`, a seed, and the number of rounds, 1 to 20,000.
pub(crate) fn read_words(words: &[Word]) -> Option<Asked>
    ensures form { MatchOption result (HasNoForm words.now) (IsForm words.now) }
{
    let [own, seed, rounds] = words else {
        return None;
    };
    if own.get() != b"drill".as_slice() {
        return None;
    }
    let Some(seed) = read_number(seed.get(), u64::MAX) else {
        return None;
    };
    let Some(rounds) = read_number(rounds.get(), MOST_ROUNDS) else {
        return None;
    };
    if rounds == 0 {
        return None;
    }
    Some(Asked {
        seed,
        rounds: rounds as u32,
    })
}
