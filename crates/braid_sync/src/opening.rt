//! How a subscription is begun on a link.

ghost use Rattle.std.specs.Prelude.{◌≡◌, ℕ, List, [], None, IfOk, OnOk, IfErr};
ghost use Rattle.braid_io.specs.Outside.{WritesAll, WritesPart};
ghost use Rattle.braid_sync.specs.declared.end.SyncEnd.TheVariants.{WriteFault};
ghost use Rattle.braid_sync.specs.Opening.{subscription_text};
ghost use Rattle.braid_sync.specs.Steps.{Does, ReadsHead, said_on, failing_in};
ghost use Rattle.braid_sync.specs.Links.{OpensOn};

use crate::end::SyncEnd;
use crate::hear::Stream;
use crate::judge::judge;
use crate::place::Place;
use braid_http::{Call, Replied, ReplyHead, Wire, request_bytes};
use braid_ids::{Bytes, Frontier, Memory};
use braid_io::Link;
use braid_outbox::Replica;
use std::alloc::Global;

/// A subscription whose reply's head was read: the version that it names as the current one, and its updates.
#[derive(Drop)]
pub struct Subscription {
    pub(crate) current: Frontier,
    pub(crate) stream: Stream,
}

/// The bytes that ask for the updates which a replica has not confirmed.
fn subscription_bytes(alloc: Global, replica: &Replica, place: &Place) -> Result<Bytes, Memory>
    ensures ok { IfOk result (λ bytes. bytes ≡ subscription_text place.now replica.now) }
{
    let call = Call::Subscribe {
        server: Bytes::of(alloc, place.server.get())?,
        path: Bytes::of(alloc, place.path.get())?,
        parents: replica.resume(alloc)?,
    };
    request_bytes(alloc, &call)
}

/// Sends all the bytes of a request by one write.
pub(crate) fn send<K: Link>(wire: &Wire, link: &mut K, bytes: &Bytes) -> Result<(), SyncEnd>
    ensures ok { OnOk result (WritesAll bytes.now (K.outflow link.old) (K.outflow link.new)) }
    ensures err { IfErr result (λ end. (end ≡ WriteFault) × WritesPart bytes.now (K.outflow link.old)
        (K.outflow link.new)) }
    ensures kept { K.intake link.new ≡ K.intake link.old }
{
    match wire.write(link, bytes.get()) {
        Ok(()) => Ok(()),
        Err(_) => Err(SyncEnd::WriteFault),
    }
}

/// Reads the head of a reply.
pub(crate) fn read_head<K: Link>(
    alloc: Global,
    wire: &mut Wire,
    link: &mut K,
) -> Result<ReplyHead, SyncEnd>
    requires going { wire.old.over ≡ None }
    ensures reads { (given : List ℕ) × Does [] given (failing_in result) (K.intake link.old) (K.intake link.new)
        (K.outflow link.old) (K.outflow link.new)
        × ReadsHead result wire.old.held given wire.new.held (K.intake link.new).left }
    ensures going { OnOk result (wire.new.over ≡ None) }
{
    match wire.reply(alloc, link) {
        Replied::Head(head) => Ok(head),
        Replied::Refused(refusal) => Err(SyncEnd::BadHead(refusal)),
        Replied::Torn => Err(SyncEnd::Cut),
        Replied::ReadFault => Err(SyncEnd::ReadFault),
        Replied::Memory => Err(SyncEnd::Memory),
    }
}

/// Asks on a new link for the updates that a replica has not confirmed, and reads and judges the head of the reply.
pub(crate) fn open<K: Link>(
    alloc: Global,
    replica: &Replica,
    place: &Place,
    link: &mut K,
) -> Result<Subscription, SyncEnd>
    ensures opens { (sent : List ℕ) × (given : List ℕ) × Does sent given (failing_in result) (K.intake link.old)
        (K.intake link.new) (K.outflow link.old) (K.outflow link.new)
        × OpensOn place.now replica.now (said_on place.now sent given (K.intake link.new)) result }
{
    let request = subscription_bytes(alloc, replica, place)?;
    let mut wire = Wire::new(alloc);
    send(&wire, link, &request)?;
    let head = read_head(alloc, &mut wire, link)?;
    let current = judge(alloc, &head)?;
    let stream = Stream::new(alloc, wire, head.body);
    Ok(Subscription { current, stream })
}
