//! The limits of a server, over all paths together; the width is for one path.

ghost use Rattle.std.specs.Prelude.{◌≡◌};
ghost use Rattle.braid_store.specs.Answers.{limit_of};

use braid_text::Which;

pub const MOST_RESOURCES: u64 = 4_096;

pub const MOST_VERSIONS: u64 = 262_144;

pub const MOST_ELEMENTS: u64 = 16_777_216;

pub const MOST_DELETIONS: u64 = 33_554_432;

pub const MOST_WIDTH: u64 = 1_000;

/// The limit of a count.
pub fn limit_of(which: Which) -> u64
    ensures limit { result ≡ limit_of which }
{
    match which {
        Which::Resources => MOST_RESOURCES,
        Which::Versions => MOST_VERSIONS,
        Which::Elements => MOST_ELEMENTS,
        Which::Deletions => MOST_DELETIONS,
        Which::Width => MOST_WIDTH,
    }
}
