ghost use Rattle.std.specs.Prelude.{◌≡◌, IfSome, IsSomeAnd, slice_get};
ghost use Rattle.braid_graph.specs.declared.known.Known.{Known};

use braid_ids::Marks;

/// The ancestry of one entry, kept for those that go on from it, so that it need not be walked again.
#[derive(Drop)]
pub struct Known {
    /// The arrival number of the entry.
    pub of: u32,
    /// The arrival numbers of its ancestry.
    pub marks: Marks,
}

/// The place of the ancestry of this entry among those that are kept, if it is one of them.
pub fn place_of(known: &[Known], of: u32) -> Option<usize>
    ensures found { IfSome result (λ i. IsSomeAnd (slice_get known.now i) (λ (k : Known). k.of ≡ of)) }
{
    for (i, one) in known.iter().enumerate() {
        if one.of == of {
            return Some(i);
        }
    }
    None
}
