ghost use Rattle.std.specs.Prelude.{◌≡◌, ◌≤◌, length, IsTrue};
ghost use Rattle.std.specs.List.{list_any};
ghost use Rattle.braid_ids.specs.MarkSets.{has_mark};
ghost use Rattle.braid_spans.specs.Kept.{chain_at, chains_of, reach, AreLinked};

use braid_ids::Marks;

/// One link of a chain of deletions: a version that deletes the elements of a run.
#[derive(Clone, Copy)]
pub struct Link {
    /// The arrival number of the version.
    pub by: u32,
    /// The number of the link before this one in the chain.
    pub earlier: Option<u32>,
}

/// Whether a version of the chain that a link begins is marked.
pub fn is_deleted(marks: &Marks, links: &[Link], newest: Option<u32>) -> bool
    requires linked { AreLinked links.now }
    requires within { reach newest ≤ length links.now }
    ensures deleted { result ≡ list_any (has_mark marks.now) (chain_at (chains_of links.now) newest) }
{
    let mut next = newest;
    while let Some(n) = next {
        let link = &links[n as usize];
        if marks.has(link.by) {
            return true;
        }
        next = link.earlier;
    }
    false
}
