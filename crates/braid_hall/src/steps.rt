//! The single steps of a turn, each a load or a fetch-and-add on one of the two words.

ghost use Rattle.std.specs.Prelude.{◌≡◌, ◌≢◌, ℕ, ◌<◌, true, false, [], ◌∷◌, Some, None};
ghost use Rattle.braid_hall.specs.Steps.{Finds, BeginsBoth};
ghost use Rattle.braid_hall.specs.Histories.{IsPrefix};
ghost use Rattle.braid_hall.specs.Views.{after_look, after_draw, after_find, after_leave, after_join};
ghost use Rattle.braid_hall.specs.Passes.{IfHeld, IfWorn, IsBetweenCalls, CanDraw, Enters, LooksLate, AddsOne};

use crate::annals::Annals;
use crate::hall::Hall;
use crate::rule::{Compare, Draw, Find, Leave, Look, Merge};
use crate::turn::Turn;
use crate::view::View;
use atomic_table::Seat;
use std::sync::Wait;

/// The first number at which a pass draws no ticket.
const WORN: u64 = 1 << 63;

impl<B: Annals> Hall<B> {
    // A load of the next ticket.
    fn look(&self, seat: &mut Seat<Option<B>, View<B::Entry>>) -> u64
        requires { (seat.old.table_id ≡ self.now) × (seat.old.me.0.live ≡ true) }
        ensures { (seat.new.table_id ≡ seat.old.table_id)
            × (seat.new.me ≡ (after_look seat.old.me.0 result, seat.old.me.1)) }
    {
        self.table.shared.load::<Look>(seat, 0)
    }

    // A fetch-and-add on the next ticket.
    fn draw(&self, seat: &mut Seat<Option<B>, View<B::Entry>>) -> u64
        requires hall { seat.old.table_id ≡ self.now }
        requires seat { CanDraw seat.old.me.0 }
        ensures { (seat.new.table_id ≡ seat.old.table_id)
            × (seat.new.me ≡ (after_draw seat.old.me.0 result, seat.old.me.1)) }
    {
        self.table.shared.fetch_add::<Draw>(seat, 0, 1)
    }

    // A load of the ticket that is served. Where it is the pass's own, the turn begins at this load.
    fn find(&self, seat: &mut Seat<Option<B>, View<B::Entry>>, ticket: u64) -> u64
        requires hall { seat.old.table_id ≡ self.now }
        requires seat { (seat.old.me.0.live ≡ true) × (seat.old.me.0.ticket ≡ Some ticket)
            × (seat.old.me.0.held ≡ false) }
        ensures hall { seat.new.table_id ≡ seat.old.table_id }
        ensures served { result ≡ ticket → (b : B) × Finds B.by seat.old.me.0 (B.entries b)
            × (seat.new.me ≡ (after_find seat.old.me.0 (B.entries b), (0, Some b) ∷ seat.old.me.1)) }
        ensures other { result ≢ ticket → seat.new.me ≡ seat.old.me }
    {
        self.table.shared.load::<Find>(seat, 1)
    }

    // Waits until the ticket is served, asleep on the word of the ticket that is served.
    fn await_turn<R: Wait>(&self, rt: &R, seat: &mut Seat<Option<B>, View<B::Entry>>, ticket: u64)
        requires hall { seat.old.table_id ≡ self.now }
        requires seat { (seat.old.me.0.live ≡ true) × (seat.old.me.0.ticket ≡ Some ticket)
            × (seat.old.me.0.held ≡ false) }
        ensures hall { seat.new.table_id ≡ seat.old.table_id }
        ensures served { (b : B) × Finds B.by seat.old.me.0 (B.entries b)
            × (seat.new.me ≡ (after_find seat.old.me.0 (B.entries b), (0, Some b) ∷ seat.old.me.1)) }
    {
        for _ in rt.forever() {
            let serving = self.find(seat, ticket);
            if serving == ticket {
                break;
            }
            self.table
                .shared
                .park(rt, 1, (serving & 0xffff_ffff) as u32);
        }
    }

    // Looks, draws and waits. The slot that the seat took is then empty.
    pub(crate) fn turn<R: Wait>(
        &self,
        rt: &R,
        seat: &mut Seat<Option<B>, View<B::Entry>>,
    ) -> Turn<B>
        requires hall { seat.old.table_id ≡ self.now }
        requires idle { IsBetweenCalls seat.old.me × (seat.old.me.0.held ≡ false) }
        ensures hall { seat.new.table_id ≡ seat.old.table_id }
        ensures rests { IsBetweenCalls seat.new.me }
        ensures held { IfHeld result (λ b. Enters B.entries B.by seat.old.me.0 seat.new.me.0 b) }
        ensures worn { IfWorn result (LooksLate seat.old.me.0 seat.new.me.0) }
    {
        if self.look(seat) >= WORN {
            return Turn::Worn;
        }
        let ticket = self.draw(seat);
        self.await_turn(rt, seat, ticket);
        let Some(book) = self.table.shared.exchange(seat, 0, None) else {
            unreachable!()
        };
        Turn::Held(book)
    }

    // Wakes those who wait. A pass that draws its ticket after this load finds it served without sleeping.
    fn wake_others(&self, served: u64) {
        if self.table.shared.peek(0) != served.wrapping_add(1) {
            self.table.shared.wake_all(1);
        }
    }

    // Puts the book into the slot, and serves the next ticket.
    pub(crate) fn give(&self, seat: &mut Seat<Option<B>, View<B::Entry>>, book: B)
        requires hall { seat.old.table_id ≡ self.now }
        requires busy { IsBetweenCalls seat.old.me × (seat.old.me.0.held ≡ true) }
        requires book { AddsOne B.entries B.by seat.old.me.0.number seat.old.me.0.seen book }
        ensures hall { seat.new.table_id ≡ seat.old.table_id }
        ensures rests { IsBetweenCalls seat.new.me }
        ensures left { seat.new.me.0 ≡ after_leave seat.old.me.0 (B.entries book) }
    {
        let old = self.table.shared.exchange(seat, 0, Some(book));
        let None = old else { unreachable!() };
        let served = self.table.shared.fetch_add::<Leave>(seat, 1, 1);
        self.wake_others(served);
    }

    // A load that changes nothing. It shows that the two histories which were seen at the last join are prefixes of one.
    fn compare(&self, seat: &mut Seat<Option<B>, View<B::Entry>>)
        requires { (seat.old.table_id ≡ self.now) × (seat.old.me.0.live ≡ true) }
        ensures same { (seat.new.table_id ≡ seat.old.table_id) × (seat.new.me ≡ seat.old.me) }
        ensures both { BeginsBoth seat.old.me.0 }
    {
        let _ticket = self.table.shared.load::<Compare>(seat, 0);
    }

    // Makes two views one. What the pass has then seen begins with what both had seen.
    pub(crate) fn merge(
        &self,
        seat: &mut Seat<Option<B>, View<B::Entry>>,
        other: Seat<Option<B>, View<B::Entry>>,
    )
        requires hall { (seat.old.table_id ≡ self.now) × (other.table_id ≡ self.now) }
        requires first { (seat.old.me.0.live ≡ true) × (seat.old.me.0.number ≡ 0) }
        requires other { (other.me.0.live ≡ true) × (other.me.0.held ≡ false) × (other.me.0.ticket ≡ None)
            × (other.me.1 ≡ []) }
        ensures merged { (seat.new.table_id ≡ seat.old.table_id)
            × (seat.new.me ≡ (after_join seat.old.me.0 other.me.0, seat.old.me.1)) }
        ensures mine { IsPrefix seat.old.me.0.seen seat.new.me.0.seen }
        ensures theirs { IsPrefix other.me.0.seen seat.new.me.0.seen }
    {
        self.table.shared.join_seat::<Merge>(seat, other);
        self.compare(seat);
    }
}
