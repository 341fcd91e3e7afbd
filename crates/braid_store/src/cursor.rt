ghost use Rattle.std.specs.Prelude.{◌≡◌, ◌≤◌, ◌<◌, ℕ, IfSome, IfNone};
ghost use Rattle.std.specs.Option.{option_copied};
ghost use Rattle.braid_ids.specs.MarkSets.{IsMarked};
ghost use Rattle.braid_store.specs.Cursors.{FitsHistory, IsNext};

use braid_change::Update;
use braid_ids::{Bytes, Frontier, Marks};
use braid_text::Resource;
use std::marker::Model;

/// A place in what a path has outside the ancestry of a frontier.
///
/// Contracts see its path, the frontier that it began at, the arrival numbers of that frontier's ancestry, and how many
/// updates of the path it has passed.
#[derive(Drop)]
pub struct Cursor {
    path: Bytes,
    from: Frontier,
    marks: Marks,
    passed: u32,
}

impl Model for Cursor {
    ghost use Rattle.braid_store.specs.Cursors.{CursorView};

    ghost Value = { CursorView };

    ghost view = { λ c. record { path = c.path; from = c.from; marks = c.marks; passed = c.passed } };
}

impl Cursor {
    /// A cursor that has passed nothing.
    pub(crate) fn new(path: Bytes, from: Frontier, marks: Marks) -> Cursor
        ensures new { result ≡ record { path = path; from = from; marks = marks; passed = 0 } }
    {
        Cursor {
            path,
            from,
            marks,
            passed: 0,
        }
    }

    /// The path.
    pub(crate) fn path(&self) -> &Bytes
        ensures path { result.now ≡ self.now.path }
    {
        &self.path
    }

    /// The next update of the path's resource that is left, which is passed then. It looks at no update twice.
    pub(crate) fn next_in<'a>(&mut self, resource: &'a Resource) -> Option<&'a Update>
        requires fits { FitsHistory resource.now self.old }
        ensures next { IsNext resource.now self.old.from self.old.passed (option_copied result) self.new.passed }
        ensures kept { self.new ≡ record self.old { passed = self.new.passed } }
        ensures fits { FitsHistory resource.now self.new }
    {
        let end = resource.entries();
        match first_unmarked(&self.marks, self.passed, end) {
            Some(n) => {
                self.passed = n + 1;
                resource.entry(n)
            }
            None => {
                self.passed = end;
                None
            }
        }
    }
}

/// The first number from `start` on, below `end`, that is not in a set.
fn first_unmarked(marks: &Marks, start: u32, end: u32) -> Option<u32>
    ensures found { IfSome result (λ n. (start ≤ n) × (n < end) × ¬ (IsMarked marks.now n)
        × ((k : ℕ) → start ≤ k → k < n → IsMarked marks.now k)) }
    ensures none { IfNone result ((k : ℕ) → start ≤ k → k < end → IsMarked marks.now k) }
{
    for n in start..end {
        if !marks.has(n) {
            return Some(n);
        }
    }
    None
}
