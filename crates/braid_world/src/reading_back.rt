//! What is read back of the bytes of a subscription.

ghost use Rattle.std.specs.Prelude.{◌≡◌, ℕ, List, Bool};
ghost use Rattle.braid_store.specs.declared.entry.Entry.{Entry};
ghost use Rattle.braid_world.specs.ReadBack.{IsSubscription, OffersFront, ReadsFront};

use crate::body_reading::{BodyReading, read_body};
use braid_change::ListUpdate;
use braid_http::{Replied, Wire};
use braid_io::Link;
use braid_stream::Next;
use std::alloc::Global;

/// The updates that were read of a subscription's bytes, and the last answer.
#[derive(Drop)]
pub struct Heard {
    pub updates: ListUpdate,
    pub last: Last,
}

/// The answer that ends a reading.
#[derive(Drop)]
pub enum Last {
    /// There was no head of a reply, for this reason.
    Head(Replied),
    /// The body had no further update, for this reason.
    Stream(Next),
    /// There was no memory to keep an update.
    Memory,
}

/// Reads the reply of a subscription from a link: its head, its body, and the stream of updates in that, until a reader of the
/// stream answers `End` or `Torn` at the end of what the link gives, or the head is `Torn`.
///
/// Where the link has a front left of what a session writes, cut anywhere and given in any pieces, the updates are a front of
/// those that the session sent, with each whose chunk is whole, and there is no fault. Fewer are read only where a read of the
/// link failed, at the limit of a stream, or where there was no memory. Nothing is written.
pub fn bytes_are_events<K: Link>(alloc: Global, link: &mut K) -> Heard
    ensures reads { (book : List Entry) (path : List ℕ) (from : List (List ℕ)) (n : ℕ) (marks : List ℕ) (stopped : Bool)
        → IsSubscription book path from n marks
        → (x : OffersFront book path from n marks stopped (K.intake link.old))
        → ReadsFront book path from n marks x.bytes result (K.intake link.old).faults (K.intake link.new).faults }
    ensures kept { K.outflow link.new ≡ K.outflow link.old }
{
    let mut wire = Wire::new(alloc);
    match wire.reply(alloc, link) {
        Replied::Head(head) => read_body(alloc, BodyReading::new(alloc, wire, head.body), link),
        other => Heard {
            updates: ListUpdate::of(Vec::new(alloc)),
            last: Last::Head(other),
        },
    }
}
