//! The lines at the head of a state's text.

ghost use Rattle.std.specs.Prelude.{◌≡◌, ◌≢◌, ◌∷◌, ◌++◌, List, ℕ, MatchOption};
ghost use Rattle.braid_ids.specs.Lists.{Lacks};
ghost use Rattle.braid_state.specs.Heads.{name_of};

use braid_ids::{after, split_at_byte};

/// A line at the head of a state's text, in the order in which they stand. Each is a name, a value and LF.
#[derive(Clone, Copy)]
pub enum Line {
    Title,
    Agent,
    Server,
    Path,
    Confirmed,
    Unsent,
    Empty,
}

impl Line {
    /// What the line begins with.
    pub fn name(self) -> &'static [u8]
        ensures value { result.now ≡ name_of self }
    {
        match self {
            Line::Title => b"braid-state 1",
            Line::Agent => b"agent: ",
            Line::Server => b"server: ",
            Line::Path => b"path: ",
            Line::Confirmed => b"confirmed: ",
            Line::Unsent => b"unsent: ",
            Line::Empty => b"",
        }
    }
}

/// The value of this line at the front of the bytes, and what follows its LF.
pub fn read_line(line: Line, bytes: &[u8]) -> Option<(&[u8], &[u8])>
    ensures found { MatchOption result ((value rest : List ℕ) → Lacks 10 value
        → bytes.now ≢ name_of line ++ (value ++ 10 ∷ rest))
        (λ cut. Lacks 10 cut.0.now × (bytes.now ≡ name_of line ++ (cut.0.now ++ 10 ∷ cut.1.now))) }
{
    let Some(rest) = after(line.name(), bytes) else {
        return None;
    };
    split_at_byte(b'\n', rest)
}

/// What follows this line at the front of the bytes, where the line is its name alone.
pub fn pass_line(line: Line, bytes: &[u8]) -> Option<&[u8]>
    ensures found { MatchOption result ((rest : List ℕ) → bytes.now ≢ name_of line ++ 10 ∷ rest)
        (λ rest. bytes.now ≡ name_of line ++ 10 ∷ rest.now) }
{
    let Some((value, rest)) = read_line(line, bytes) else {
        return None;
    };
    if value.is_empty() { Some(rest) } else { None }
}
