ghost use Rattle.std.specs.Prelude.{◌≡◌, ℕ, ◌+◌, ◌-◌, ◌<◌, [], ◌∷◌, ◌++◌, OnOk, OnErr, vec_len, vec_capacity};
ghost use Rattle.braid_hall.specs.Passes.{PassView, pass_of, IsPass};

use crate::annals::Annals;
use crate::view::View;
use atomic_table::Seat;
use braid_ids::Memory;
use std::marker::Model;

/// What one thread takes its turns with.
///
/// Contracts see its number, the history that it has `seen`, the entries that it added (`mine`), the length found at
/// each of its turns (`marks`), whether it is in a turn (`held`), the numbers of passes split from it and not yet
/// joined (`away`), and the room for further marks (`spare`). They may also cite its ticket, `turns`, `look`, `ready`,
/// `made` and `ended`, and the ticket and the history at the opening.
///
/// A pass that is dropped stays away, so the hall that it comes from cannot be closed.
#[derive(Drop)]
pub struct Pass<B: Annals> {
    pub(crate) seat: Seat<Option<B>, View<B::Entry>>,
    pub(crate) number: u32,
    pub(crate) made: u32,
    pub(crate) marks: Vec<u64>,
    pub(crate) spare: u64,
}

impl<B: Annals> Model for Pass<B> {
    ghost Value = { PassView B.Entry };

    ghost view = { λ p. pass_of p.seat.table_id p.seat.me.0 p.marks.items p.spare };

    ghost invariant = { λ p. IsPass p.number p.made p.seat.me (vec_len p.marks) p.spare (vec_capacity p.marks) };
}

impl<B: Annals> Pass<B> {
    /// The number of the pass: 0 for the one from the opening. It takes no memory.
    pub fn number(&self) -> u32
        ensures number { result ≡ self.now.number }
    {
        self.number
    }

    /// Makes room for `marks` further marks, one of which each turn uses.
    ///
    /// Errors: `Memory` where there was none, or where the room would be 2^64 or more. The pass is then unchanged.
    pub fn reserve(&mut self, marks: u64) -> Result<(), Memory>
        ensures ok { OnOk result (self.new ≡ record self.old { spare = self.old.spare + marks }) }
        ensures err { OnErr result (self.new ≡ self.old) }
    {
        let Some(spare) = self.spare.checked_add(marks) else {
            return Err(Memory);
        };
        self.marks.reserve(spare as usize)?;
        self.spare = spare;
        Ok(())
    }

    /// Notes the length found at a turn, in the room that was made.
    pub(crate) fn mark(&mut self, mark: u64)
        requires { 0 < self.old.spare }
        ensures { self.new ≡ record self.old { marks = self.old.marks ++ mark ∷ []; spare = self.old.spare - 1 } }
    {
        let kept = self.marks.push(mark);
        prove!(kept.is_ok());
        self.spare -= 1;
    }
}
