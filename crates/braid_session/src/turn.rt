//! One turn for one request.

ghost use Rattle.std.specs.Prelude.{◌≡◌, ◌≤◌, length, IfOk, IfErr, false};
ghost use Rattle.braid_session.specs.Steps.{IsAtOnce, TookTurn, TookNone, RungWhereGrew};

use crate::answer::{ask, question_of, reply_to};
use crate::wish::Wish;
use braid_hall::{Hall, Pass, Turn};
use braid_http::Reply;
use braid_ids::{Bytes, Memory};
use braid_io::Bell;
use braid_store::Book;
use std::alloc::Global;
use std::sync::Wait;

/// Why a turn gave no reply.
#[derive(Clone, Copy, Debug, PartialEq, Eq)]
pub enum NoReply {
    /// The hall gives no more turns.
    Worn,
    /// There was no memory.
    Memory,
}

impl From<Memory> for NoReply {
    ghost use Rattle.std.specs.Prelude.{◌≡◌};
    ghost use Rattle.braid_session.specs.declared.turn.NoReply.TheVariants as no;

    ghost from_gives = { λ _ e. e ≡ no.Memory };

    fn from(_memory: Memory) -> NoReply {
        NoReply::Memory
    }
}

/// Where turns are taken: the hall, and what waits.
#[derive(Drop)]
pub(crate) struct Room<'a, R> {
    pub alloc: Global,
    pub rt: &'a R,
    pub hall: &'a Hall<Book>,
}

/// Takes one turn for a wish that is not a subscription, and notes its mark. Room for the mark is made before.
///
/// Where the book gained an entry, the bell is rung after the turn.
pub(crate) fn take_turn<R: Wait, L: Bell>(
    room: &Room<R>,
    pass: &mut Pass<Book>,
    marks: &mut Vec<u64>,
    bell: &mut L,
    path: &Bytes,
    wish: Wish,
) -> Result<Reply, NoReply>
    requires hall { pass.old.hall ≡ room.now.hall.now }
    requires idle { pass.old.held ≡ false }
    requires short { length path.now ≤ 1024 }
    requires at_once { IsAtOnce wish }
    ensures ok { IfOk result (λ reply. TookTurn path.now wish reply pass.old pass.new
        marks.old.items marks.new.items (L.ringing bell.old) (L.ringing bell.new)) }
    ensures err { IfErr result (λ no. TookNone no path.now wish pass.old pass.new
        marks.old.items marks.new.items (L.ringing bell.old) (L.ringing bell.new)) }
{
    let question = question_of(room.alloc, wish)?;
    pass.reserve(1)?;
    let Ok(()) = marks.reserve(1) else {
        return Err(NoReply::Memory);
    };
    let Turn::Held(mut book) = room.hall.enter(room.rt, pass) else {
        return Err(NoReply::Worn);
    };
    let mark = book.len();
    let told = ask(room.alloc, &mut book, pass.number(), path, question);
    let after = book.len();
    room.hall.leave(pass, book);
    let kept = marks.push(mark);
    prove!(kept.is_ok());
    ring_where_grew(bell, mark, after);
    let reply = reply_to(room.alloc, told)?;
    Ok(reply)
}

/// Rings a bell where a book that had so many entries has more.
fn ring_where_grew<L: Bell>(bell: &mut L, before: u64, after: u64)
    ensures rung { RungWhereGrew before after (L.ringing bell.old) (L.ringing bell.new) }
{
    if after > before {
        bell.ring();
    }
}
