//! A connection from its first request to its end.

ghost use Rattle.std.specs.Prelude.{◌≡◌, ◌+◌, ◌<◌, false, None, IfOk, IfErr};
ghost use Rattle.braid_http.specs.Asks.{Asks, over_of};
ghost use Rattle.braid_http.specs.Replies.{reply_text};
ghost use Rattle.braid_session.specs.Sessions.{refusal_reply};
ghost use Rattle.braid_io.specs.Bells.{Ringing};
ghost use Rattle.braid_session.specs.declared.wish.Wish.TheVariants as wishes;
ghost use Rattle.braid_session.specs.Fits.{Serves, heads_of};
ghost use Rattle.braid_session.specs.Orders.{serving_now};
ghost use Rattle.braid_session.specs.Wishes.{Means, wanted};
ghost use Rattle.braid_session.specs.Steps.{AnswersRefusal, AnswersTo, Does, IfAnswered, NotReplied, GivesOutcome};

use crate::replies::{bytes_of, denial_reply, refusal_reply, unheld_reply};
use crate::serving::Serving;
use crate::session::{SessionEnd, SessionNote};
use crate::turn::{NoReply, Room, take_turn};
use crate::watch::{Begun, First, Opening, first_turn, watch};
use crate::wish::{NoWish, Wish, wish_of};
use braid_hall::{Hall, Pass};
use braid_http::{Asked, Refusal, Reply, Request, Wire, reply_bytes};
use braid_ids::{Bytes, Frontier, Memory};
use braid_io::{Bell, Link};
use braid_store::Book;
use std::alloc::Global;
use std::sync::Wait;

/// The most requests of one connection.
const MOST_REQUESTS: u64 = 10_000;

/// PUTs are served, and subscriptions.
const SERVING: Serving = Serving {
    puts: true,
    subscriptions: true,
};

/// What a request is answered with.
#[derive(Drop)]
pub enum Outcome {
    /// With a reply, as it is spelled.
    Spelled(Bytes),
    /// With a subscription that is served, which is opened so.
    Opened(Opening),
}

/// What one request led to.
#[derive(Clone, Copy, Debug, PartialEq, Eq)]
pub enum Next {
    /// It was answered. Whether it asked to close.
    Answered(bool),
    /// It was a subscription that was served, and the session ends with it. Whether its head was written whole.
    Subscribed { end: SessionEnd, begun: bool },
    /// The session ends.
    Ended(SessionEnd),
}

/// Takes the first turn of a subscription, and spells its head; or the reply, where the path does not hold what it
/// begins at.
fn open_watch<R: Wait>(
    room: &Room<R>,
    pass: &mut Pass<Book>,
    marks: &mut Vec<u64>,
    request: &Request,
    from: &Frontier,
) -> Result<Outcome, NoReply>
    requires hall { pass.old.hall ≡ room.now.hall.now }
    requires idle { pass.old.held ≡ false }
    requires means { Means serving_now request.now (wanted (wishes.Watch from.now)) }
    ensures ok { IfOk result (λ outcome. (bell : Ringing) → GivesOutcome serving_now outcome request.now
        pass.old pass.new marks.old.items marks.new.items bell bell) }
    ensures err { IfErr result (λ no. (bell : Ringing) → NotReplied serving_now no request.now
        pass.old pass.new marks.old.items marks.new.items bell bell) }
{
    let Request { target, close, .. } = request;
    match first_turn(room, pass, marks, target, from)? {
        First::Begins(
            Begun {
                current,
                updates,
                cursor,
            },
        ) => {
            let reply = Reply::Subscription { current };
            let head = bytes_of(room.alloc, false, &reply)?;
            Ok(Outcome::Opened(Opening {
                head,
                updates,
                cursor,
            }))
        }
        First::Unheld { id } => {
            let reply = unheld_reply(room.alloc, &id)?;
            Ok(Outcome::Spelled(bytes_of(room.alloc, *close, &reply)?))
        }
    }
}

/// What a request is answered with, after a turn where it needs one.
fn outcome_of<R: Wait, L: Bell>(
    room: &Room<R>,
    pass: &mut Pass<Book>,
    marks: &mut Vec<u64>,
    bell: &mut L,
    request: &Request,
) -> Result<Outcome, NoReply>
    requires hall { pass.old.hall ≡ room.now.hall.now }
    requires idle { pass.old.held ≡ false }
    ensures ok { IfOk result (λ outcome. GivesOutcome serving_now outcome request.now pass.old pass.new
        marks.old.items marks.new.items (L.ringing bell.old) (L.ringing bell.new)) }
    ensures err { IfErr result (λ no. NotReplied serving_now no request.now pass.old pass.new
        marks.old.items marks.new.items (L.ringing bell.old) (L.ringing bell.new)) }
{
    let Request { target, close, .. } = request;
    match wish_of(room.alloc, SERVING, request) {
        Ok(Wish::Watch { from }) => open_watch(room, pass, marks, request, &from),
        Ok(wish) => {
            let reply = take_turn(room, pass, marks, bell, target, wish)?;
            Ok(Outcome::Spelled(bytes_of(room.alloc, *close, &reply)?))
        }
        Err(NoWish::Denied(denial)) => {
            let reply = denial_reply(room.alloc, denial)?;
            Ok(Outcome::Spelled(bytes_of(room.alloc, *close, &reply)?))
        }
        Err(NoWish::Memory) => Err(NoReply::Memory),
    }
}

/// The bytes of the reply to bytes that are no request.
fn refusal_bytes(alloc: Global, refusal: Refusal) -> Result<Bytes, Memory>
    ensures ok { IfOk result (λ bytes. bytes ≡ reply_text false (refusal_reply refusal)) }
{
    let reply = refusal_reply(alloc, refusal)?;
    reply_bytes(alloc, &reply)
}

/// The next answer of a wire that may go on.
fn ask<K: Link>(alloc: Global, wire: &mut Wire, link: &mut K) -> Asked
    requires live { wire.old.over ≡ None }
    ensures asks { Asks result wire.old.held wire.new.held (K.intake link.old) (K.intake link.new) }
    ensures over { wire.new.over ≡ over_of result }
    ensures kept { K.outflow link.new ≡ K.outflow link.old }
{
    wire.ask(alloc, link)
}

/// Answers a whole request.
fn answer_request<R: Wait, K: Link, L: Bell>(
    room: &Room<R>,
    pass: &mut Pass<Book>,
    wire: &Wire,
    marks: &mut Vec<u64>,
    link: &mut K,
    bell: &mut L,
    request: &Request,
) -> Next
    requires hall { pass.old.hall ≡ room.now.hall.now }
    requires idle { pass.old.held ≡ false }
    ensures answers { AnswersTo serving_now result request.now pass.old pass.new marks.old.items marks.new.items
        (L.ringing bell.old) (L.ringing bell.new) (K.outflow link.old) (K.outflow link.new) }
    ensures kept { K.intake link.new ≡ K.intake link.old }
{
    match outcome_of(room, pass, marks, bell, request) {
        Ok(Outcome::Spelled(reply)) => match wire.write(link, reply.get()) {
            Ok(()) => Next::Answered(request.close),
            Err(_) => Next::Ended(SessionEnd::WriteFault),
        },
        Ok(Outcome::Opened(opening)) => {
            let Opening {
                head,
                updates,
                cursor,
            } = opening;
            let Ok(()) = wire.write(link, head.get()) else {
                return Next::Subscribed {
                    end: SessionEnd::WriteFault,
                    begun: false,
                };
            };
            let end = watch(room, pass, marks, link, bell, updates, cursor);
            Next::Subscribed { end, begun: true }
        }
        Err(NoReply::Worn) => Next::Ended(SessionEnd::Worn),
        Err(NoReply::Memory) => Next::Ended(SessionEnd::Memory),
    }
}

/// Answers bytes that are no request.
fn answer_refusal<K: Link>(alloc: Global, wire: &Wire, link: &mut K, refusal: Refusal) -> Next
    ensures answers { AnswersRefusal result refusal (K.outflow link.old) (K.outflow link.new) }
    ensures kept { K.intake link.new ≡ K.intake link.old }
{
    let Ok(reply) = refusal_bytes(alloc, refusal) else {
        return Next::Ended(SessionEnd::Memory);
    };
    let status = refusal.status();
    match wire.write(link, reply.get()) {
        Ok(()) => Next::Ended(SessionEnd::Refused { status }),
        Err(_) => Next::Ended(SessionEnd::WriteFault),
    }
}

/// Answers the next request.
fn answer_next<R: Wait, K: Link, L: Bell>(
    room: &Room<R>,
    pass: &mut Pass<Book>,
    wire: &mut Wire,
    marks: &mut Vec<u64>,
    link: &mut K,
    bell: &mut L,
) -> Next
    requires hall { pass.old.hall ≡ room.now.hall.now }
    requires idle { pass.old.held ≡ false }
    requires live { wire.old.over ≡ None }
    ensures live { IfAnswered result (wire.new.over ≡ None) }
    ensures does { Does serving_now result
        (record {
          wire = wire.old;
          marks = marks.old.items;
          pass = pass.old;
          intake = K.intake link.old;
          outflow = K.outflow link.old;
          ringing = L.ringing bell.old;
        })
        (record {
          wire = wire.new;
          marks = marks.new.items;
          pass = pass.new;
          intake = K.intake link.new;
          outflow = K.outflow link.new;
          ringing = L.ringing bell.new;
        }) }
{
    match ask(room.alloc, wire, link) {
        Asked::Request(request) => {
            let next = answer_request(room, pass, wire, marks, link, bell, &request);
            next
        }
        Asked::Refused(refusal) => answer_refusal(room.alloc, wire, link, refusal),
        Asked::End => Next::Ended(SessionEnd::Closed),
        Asked::Torn => Next::Ended(SessionEnd::Torn),
        Asked::ReadFault => Next::Ended(SessionEnd::ReadFault),
        Asked::Memory => Next::Ended(SessionEnd::Memory),
    }
}

/// How many requests were answered, where the last one is a subscription: it counts where its head was written whole.
fn with_head(requests: u64, begun: bool) -> u64
    requires few { requests < 10_000 }
    ensures count { result ≡ requests + heads_of begun }
{
    if begun { requests + 1 } else { requests }
}

/// Answers the requests of a link, one after the other, on the book behind a hall.
///
/// Each request that is not denied takes one turn, and no other does. After an entry is added the bell is rung.
///
/// A subscription that begins at what its path holds is the last request: its first turn gives the head and the
/// updates up to its mark, and each `Again` of the bell one more turn with all that came since, or one beat where
/// nothing did. It goes on until the bell ends. A turn's updates are copied out in the turn and written behind it.
///
/// The note has the marks of the turns, the number of requests whose reply was written whole, where a subscription
/// counts once its head is, and the end. At `Memory` nothing more is written than what the requests and turns before
/// the one at hand say; the request at hand may then have its entry without a reply.
pub fn serve_session<R: Wait, K: Link, L: Bell>(
    alloc: Global,
    rt: &R,
    hall: &Hall<Book>,
    pass: &mut Pass<Book>,
    link: &mut K,
    bell: &mut L,
) -> SessionNote
    requires hall { pass.old.hall ≡ hall.now }
    requires idle { pass.old.held ≡ false }
    ensures serves { Serves serving_now result pass.old pass.new (K.intake link.old) (K.intake link.new)
        (K.outflow link.old) (K.outflow link.new) (L.ringing bell.old) (L.ringing bell.new) }
{
    let room = Room { alloc, rt, hall };
    let mut wire = Wire::new(alloc);
    let mut marks: Vec<u64> = Vec::new(alloc);
    let mut requests: u64 = 0;
    'serving: while requests < MOST_REQUESTS {
        match answer_next(&room, pass, &mut wire, &mut marks, link, bell) {
            Next::Answered(close) => {
                requests += 1;
                if close && requests < MOST_REQUESTS {
                    let end = SessionEnd::Closed;
                    return SessionNote {
                        marks,
                        requests,
                        end,
                    };
                }
            }
            Next::Subscribed { end, begun } => {
                let requests = with_head(requests, begun);
                return SessionNote {
                    marks,
                    requests,
                    end,
                };
            }
            Next::Ended(end) => return SessionNote {
                marks,
                requests,
                end,
            },
        }
    }
    let end = SessionEnd::Spent;
    SessionNote {
        marks,
        requests,
        end,
    }
}
