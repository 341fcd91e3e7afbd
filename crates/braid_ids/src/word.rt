ghost use Rattle.std.specs.Prelude.{◌≡◌, IfOk};

use crate::memory::Memory;
use std::alloc::Global;
use std::marker::Model;

/// A word of a command line, or the name of a kept file: bytes that need not be text.
#[derive(Debug, Drop)]
pub struct Word {
    items: Vec<u8>,
}

impl Model for Word {
    ghost use Rattle.std.specs.Prelude.{List, ℕ};

    ghost Value = { List ℕ };

    ghost view = { λ word. word.items.items };
}

impl Word {
    /// A copy of the bytes of a slice.
    ///
    /// Errors: `Memory` where there was none for the copy.
    pub fn of(alloc: Global, from: &[u8]) -> Result<Word, Memory>
        ensures ok { IfOk result (λ word. word ≡ from.now) }
    {
        let items = Vec::from_slice(alloc, from)?;
        Ok(Word { items })
    }

    /// The bytes, lent as a slice. It takes no memory.
    pub fn get(&self) -> &[u8]
        ensures value { result.now ≡ self.now }
    {
        self.items.as_slice()
    }
}
