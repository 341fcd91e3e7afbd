ghost use Rattle.std.specs.Prelude.{◌≡◌, ℕ, List, length};

/// What may lie behind a hall: a book, seen as its history, a list of entries.
///
/// Each entry has a number, that of the pass which added it.
pub trait Annals {
    /// One entry of the history.
    type Entry;

    ghost entries: { Self → List Self.Entry };

    ghost by: { Self.Entry → ℕ };

    /// The length of the history. It takes no memory.
    fn count(&self) -> u64
        ensures count { result ≡ length (entries self.now) };
}
