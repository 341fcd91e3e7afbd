ghost use Rattle.std.specs.Prelude.{◌≡◌, ◌++◌, ◌∷◌, [], OnOk, OnErr};

use crate::bytes::Bytes;
use crate::memory::Memory;
use std::alloc::Global;
use std::marker::Model;

/// A list of byte lists, which may grow at its end.
#[derive(Debug, Drop)]
pub struct ListBytes {
    items: Vec<Bytes>,
}

impl Model for ListBytes {
    ghost use Rattle.std.specs.Prelude.{List, ℕ};

    ghost Value = { List (List ℕ) };

    ghost view = { λ list. list.items.items };
}

impl ListBytes {
    /// The list without items. It takes no memory.
    pub fn new(alloc: Global) -> ListBytes
        ensures none { result ≡ [] }
    {
        ListBytes {
            items: Vec::new(alloc),
        }
    }

    /// The list of these items. It takes no memory.
    pub fn of(items: Vec<Bytes>) -> ListBytes
        ensures value { result ≡ items.items }
    {
        ListBytes { items }
    }

    /// The items, lent as a slice. It takes no memory.
    pub fn get(&self) -> &[Bytes]
        ensures value { result.now ≡ self.now }
    {
        self.items.as_slice()
    }

    /// Puts an item at the end.
    ///
    /// Errors: `Memory` where there was none to grow; the list is then unchanged, and the item is dropped.
    pub fn push(&mut self, item: Bytes) -> Result<(), Memory>
        ensures ok { OnOk result (self.new ≡ self.old ++ item ∷ []) }
        ensures err { OnErr result (self.new ≡ self.old) }
    {
        self.items.push(item)?;
        Ok(())
    }
}
