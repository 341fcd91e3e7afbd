ghost use Rattle.std.specs.Prelude.{◌≡◌};
ghost use Rattle.braid_store.specs.Answers.{limit_of, refused_as, refused_when_full};
ghost use Rattle.braid_store.specs.declared.put.Put.TheVariants.{Full};

use crate::limits::limit_of;
use braid_ids::Id;
use braid_text::{Accept, Which};

/// The answer to an update that is put to a path: it is new and was taken, it is known, or why it was refused.
#[derive(Debug, Drop)]
pub enum Put {
    /// The update was taken.
    New,
    /// The path holds the same update.
    Known,
    /// The path holds another update with this identifier.
    Clash { id: Id },
    /// The least parent that the path does not hold.
    UnknownParent { id: Id },
    /// The first joined patch, counted from 0, that ends past the text at the parents, and that text's length.
    OutOfRange { patch: u32, len: u32 },
    /// The first of the counts, in the order of `Which`, that the update would bring above its limit.
    Full { which: Which, limit: u64 },
    /// There was no memory. It never comes for an update that the path holds.
    Memory,
}

/// The answer of a resource as that of the book: of a count it names the limit.
pub(crate) fn answer_of(answer: Accept) -> Put
    ensures same { result ≡ refused_as answer }
{
    match answer {
        Accept::New => Put::New,
        Accept::Known => Put::Known,
        Accept::Clash { id } => Put::Clash { id },
        Accept::UnknownParent { id } => Put::UnknownParent { id },
        Accept::OutOfRange { patch, len } => Put::OutOfRange { patch, len },
        Accept::Full { which, .. } => full(which),
        Accept::Memory => Put::Memory,
    }
}

/// The answer of a resource that would be one too many. Of the counts, that of the resources is the first.
pub(crate) fn answer_when_full(answer: Accept) -> Put
    ensures same { result ≡ refused_when_full answer }
{
    match answer {
        Accept::New | Accept::Full { .. } => full(Which::Resources),
        answer => answer_of(answer),
    }
}

/// The answer that names the limit of a count.
fn full(which: Which) -> Put
    ensures full { result ≡ Full which (limit_of which) }
{
    Put::Full {
        which,
        limit: limit_of(which),
    }
}
