ghost use Rattle.std.specs.Prelude.{◌≡◌, ℕ, ◌+◌, ◌<◌, true, false, [], IfOk, OnErr, Contains};
ghost use Rattle.atomic_table.specs.Seated.{TableId, table_id_coded};
ghost use Rattle.braid_hall.specs.Passes.{IfHeld, IfWorn, IsTurn, IsWorn, AccountsFor, AddsOne, BeginsWithBoth, first_pass, left_with, with_split, new_pass, joined_with};

use crate::annals::Annals;
use crate::pass::Pass;
use crate::rule::{Opening, Part, TurnRule};
use crate::turn::Turn;
use crate::view::View;
use atomic_table::Table;
use braid_ids::Memory;
use std::alloc::Global;
use std::marker::Model;
use std::snapshot::Snapshot;
use std::sync::Wait;

/// A ticket lock round a book. Contracts see which lock it is.
#[derive(Drop)]
pub struct Hall<B: Annals> {
    pub(crate) table: Table<Option<B>, View<B::Entry>, Opening<B>, TurnRule<B>, Global>,
}

impl<B: Annals> Model for Hall<B> {
    ghost Value = { TableId };

    ghost coded = { table_id_coded };

    ghost view = { λ h. h.table.shared.table_id };

    ghost invariant = { λ h. (h.table.shared.table_id.words ≡ 2) × (h.table.shared.table_id.slots ≡ 1) };
}

impl<B: Annals + Drop> Hall<B> {
    /// A hall round a book, and the pass from its opening, whose number is 0. The first ticket is 0.
    ///
    /// Errors: `Memory` where there was none. The book is then dropped.
    pub fn open(alloc: Global, book: B) -> Result<(Hall<B>, Pass<B>), Memory>
        ensures ok { IfOk result (λ r. r.1 ≡ first_pass r.0 0 (B.entries book)) }
    {
        Hall::open_at(alloc, book, 0)
    }

    /// As `open`, with the first ticket given.
    ///
    /// Errors: `Memory` where there was none. The book is then dropped.
    pub fn open_at(alloc: Global, book: B, ticket: u64) -> Result<(Hall<B>, Pass<B>), Memory>
        ensures ok { IfOk result (λ r. r.1 ≡ first_pass r.0 ticket (B.entries book)) }
    {
        let about = Opening {
            ticket,
            book: Snapshot::of(&book),
        };
        let mut slots = Vec::new(alloc);
        slots.push(Some(book))?;
        let Ok((table, seat)) = Table::new(alloc, &[ticket, ticket], slots, &about) else {
            return Err(Memory);
        };
        let pass = Pass {
            seat,
            number: 0,
            made: 0,
            marks: Vec::new(alloc),
            spare: 0,
        };
        Ok((Hall { table }, pass))
    }
}

impl<B: Annals> Hall<B> {
    /// Waits for the pass's turn, asleep, and gives the book. It takes no memory.
    ///
    /// The book begins with what the pass had seen, and its length is the new mark, which uses one of the room that
    /// was made for marks. `Worn` comes exactly where the next ticket that the pass looked at was
    /// 9,223,372,036,854,775,808 or more; but for that look the pass is then unchanged.
    pub fn enter<R: Wait>(&self, rt: &R, pass: &mut Pass<B>) -> Turn<B>
        requires hall { pass.old.hall ≡ self.now }
        requires idle { pass.old.held ≡ false }
        requires spare { 0 < pass.old.spare }
        ensures held { IfHeld result (λ b. IsTurn B.entries B.by pass.old pass.new b) }
        ensures worn { IfWorn result (IsWorn pass.old pass.new) }
    {
        match self.turn(rt, &mut pass.seat) {
            Turn::Held(book) => {
                pass.mark(book.count());
                Turn::Held(book)
            }
            Turn::Worn => Turn::Worn,
        }
    }

    /// Ends the pass's turn: the book is what the pass has seen, or has one entry more, with the pass's number. It
    /// takes no memory.
    pub fn leave(&self, pass: &mut Pass<B>, book: B)
        requires hall { pass.old.hall ≡ self.now }
        requires busy { pass.old.held ≡ true }
        requires book { AddsOne B.entries B.by pass.old.number pass.old.seen book }
        ensures left { pass.new ≡ left_with pass.old (B.entries book) }
    {
        self.give(&mut pass.seat, book);
    }

    /// Makes a further pass, with the next number, which has seen as much. Only the pass from the opening may.
    ///
    /// Errors: `Memory` where there was none. The pass is then unchanged.
    pub fn split(&self, alloc: Global, pass: &mut Pass<B>) -> Result<Pass<B>, Memory>
        requires hall { pass.old.hall ≡ self.now }
        requires first { pass.old.number ≡ 0 }
        requires few { pass.old.made < 4294967295 }
        requires idle { pass.old.held ≡ false }
        ensures ok { IfOk result (λ new. (pass.new ≡ with_split pass.old) × (new ≡ new_pass pass.old)) }
        ensures err { OnErr result (pass.new ≡ pass.old) }
    {
        let number = pass.made + 1;
        let seat = self.table.shared.split_seat::<Part>(&mut pass.seat);
        pass.made = number;
        Ok(Pass {
            seat,
            number,
            made: 0,
            marks: Vec::new(alloc),
            spare: 0,
        })
    }

    /// Takes in a pass that was split off. It takes no memory.
    ///
    /// The pass has then seen the longer of the two histories, which begins with both.
    pub fn join(&self, pass: &mut Pass<B>, other: Pass<B>)
        requires hall { (pass.old.hall ≡ self.now) × (other.hall ≡ self.now) }
        requires first { pass.old.number ≡ 0 }
        requires away { Contains pass.old.away other.number }
        requires idle { (pass.old.held ≡ false) × (other.held ≡ false) }
        ensures joined { pass.new ≡ joined_with pass.old other }
        ensures begins { BeginsWithBoth pass.old other pass.new.seen }
    {
        let Pass {
            seat,
            number: _,
            made: _,
            marks: _,
            spare: _,
        } = other;
        self.merge(&mut pass.seat, seat);
    }

    /// The book, once no other pass is away. It takes no memory.
    ///
    /// Its history is what the pass has seen; each later entry is that of the pass that added it.
    pub fn close(self, pass: Pass<B>) -> B
        requires hall { pass.hall ≡ self }
        requires first { pass.number ≡ 0 }
        requires none_away { pass.away ≡ [] }
        requires idle { pass.held ≡ false }
        ensures seen { B.entries result ≡ pass.seen }
        ensures accounts { AccountsFor B.by pass (B.entries result) }
    {
        let Hall { table } = self;
        let Pass {
            seat,
            number: _,
            made: _,
            marks: _,
            spare: _,
        } = pass;
        let mut closed = table.close_with(seat);
        let slot = closed.take(0);
        closed.free();
        let Some(book) = slot else { unreachable!() };
        book
    }
}
