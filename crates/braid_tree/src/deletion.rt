ghost use Rattle.std.specs.Prelude.{◌≡◌};
ghost use Rattle.braid_tree.specs.Seen.{is_deleted_by, is_seen_by};
ghost use Rattle.braid_tree.specs.Inside.{row_of, deletions_in, AreLinked, IsNewest};

use crate::at::At;
use crate::row::PlainRow;
use braid_ids::Marks;

/// A deletion as it is kept.
#[derive(Clone, Copy)]
pub struct PlainDeletion {
    pub at: At,
    pub by: u32,
    /// The number of the deletion before this one of the same element.
    pub earlier: Option<u32>,
}

/// Whether a marked version deletes the element of a row. It looks at the deletions of this element alone.
pub fn is_deleted(marks: &Marks, deletions: &[PlainDeletion], row: &PlainRow) -> bool
    requires linked { AreLinked deletions.now }
    requires newest { IsNewest deletions.now row.now }
    ensures deleted { result ≡ is_deleted_by marks.now (deletions_in deletions.now) row.now.at }
{
    let mut link = row.newest;
    while let Some(n) = link {
        let deletion = &deletions[n as usize];
        if marks.has(deletion.by) {
            return true;
        }
        link = deletion.earlier;
    }
    false
}

/// Whether marked versions see the element of a row.
pub fn is_visible(marks: &Marks, deletions: &[PlainDeletion], row: &PlainRow) -> bool
    requires linked { AreLinked deletions.now }
    requires newest { IsNewest deletions.now row.now }
    ensures seen { result ≡ is_seen_by marks.now (deletions_in deletions.now) (row_of row.now) }
{
    marks.has(row.at.version) && !is_deleted(marks, deletions, row)
}
