ghost use Rattle.std.specs.Prelude.{◌≡◌, ◌+◌, ◌<◌, ◌≤◌, ◌^◌, ◌↔◌, IsTrue};
ghost use Rattle.braid_tree.specs.Rows.{place};
ghost use Rattle.braid_spans.specs.Kept.{IsHeld, IsNext, front_of, rest_of, undeleted_of};

use braid_tree::At;

/// Neighbouring elements in reading order, of one version and with rising ordinals, each after the first with the one
/// before it as its origin, and all deleted by the same versions.
#[derive(Clone, Copy, Debug, PartialEq, Eq)]
pub struct Run {
    /// The place of the first element.
    pub first: At,
    /// Where the characters begin among all that came, by arrival.
    pub start: u32,
    /// How many elements there are.
    pub len: u32,
    /// The origin of the first element.
    pub origin: Option<At>,
    /// The link that begins the chain of their deletions.
    pub newest: Option<u32>,
}

impl Run {
    /// Whether the element at a place is one of the run.
    pub fn holds(&self, at: At) -> bool
        ensures held { IsTrue result ↔ IsHeld at self.now }
    {
        self.first.version == at.version
            && self.first.ordinal <= at.ordinal
            && at.ordinal - self.first.ordinal < self.len
    }

    /// The place of element number `k`.
    pub fn place(&self, k: u32) -> At
        requires fits { self.now.first.ordinal + k < 2 ^ 32 }
        ensures value { result ≡ place self.now.first.version (self.now.first.ordinal + k) }
    {
        At {
            version: self.first.version,
            ordinal: self.first.ordinal + k,
        }
    }

    /// The first `k` elements.
    pub fn front(&self, k: u32) -> Run
        ensures value { result ≡ front_of self.now k }
    {
        Run { len: k, ..*self }
    }

    /// The elements from number `k` on. The one before is their origin, so no text is copied.
    pub fn rest(&self, k: u32) -> Run
        requires some { 0 < k }
        requires within { k ≤ self.now.len }
        requires ordinals { self.now.first.ordinal + k < 2 ^ 32 }
        requires starts { self.now.start + k < 2 ^ 32 }
        ensures value { result ≡ rest_of self.now k }
    {
        Run {
            first: self.place(k),
            start: self.start + k,
            len: self.len - k,
            origin: Some(self.place(k - 1)),
            newest: self.newest,
        }
    }

    /// Whether the other run goes on where this one ends.
    pub fn is_before(&self, other: &Run) -> bool
        requires some { 0 < self.now.len }
        requires ordinals { self.now.first.ordinal + self.now.len < 2 ^ 32 }
        requires starts { self.now.start + self.now.len < 2 ^ 32 }
        ensures next { IsTrue result → IsNext self.now other.now }
    {
        other.first == self.place(self.len)
            && other.start == self.start + self.len
            && other.origin == Some(self.place(self.len - 1))
    }

    /// How many of its elements nothing deletes.
    pub fn undeleted(&self) -> u32
        ensures value { result ≡ undeleted_of self.now.newest self.now.len }
    {
        match self.newest {
            None => self.len,
            Some(_) => 0,
        }
    }
}

impl Default for Run {
    /// What is kept where no run is.
    fn default() -> Run {
        let nowhere = At {
            version: 0,
            ordinal: 0,
        };
        Run {
            first: nowhere,
            start: 0,
            len: 0,
            origin: None,
            newest: None,
        }
    }
}
