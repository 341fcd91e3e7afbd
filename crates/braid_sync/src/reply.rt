//! A reply that is read whole.

ghost use Rattle.std.specs.Prelude.{◌≡◌, ℕ, List, [], None, OnOk, ◌++◌, min};
ghost use Rattle.braid_sync.specs.Steps.{Does, ReadsReply, failing_in};
ghost use Rattle.braid_sync.specs.Links.{PassesBody, EndsAs};
ghost use Rattle.braid_http.specs.BodyReads.{HasRead, GoesOn as LivesOn};

use crate::end::SyncEnd;
use crate::opening::read_head;
use crate::piece::ROOM;
use braid_http::{Body, BodyState, Refusal, Wire};
use braid_io::{Link, Read};
use std::alloc::Global;

/// The most bytes of a body.
const MOST_BYTES: u64 = 1_099_511_627_776;

/// Reads one reply whole, and gives its status. What its body says is passed over.
///
/// Errors: the end that came before the reply was whole: `BadHead`, `Cut`, `ReadFault`, `Spent` or `Memory`.
pub(crate) fn read_reply<K: Link>(
    alloc: Global,
    wire: &mut Wire,
    link: &mut K,
) -> Result<u16, SyncEnd>
    requires going { wire.old.over ≡ None }
    ensures reads { (given : List ℕ) × Does [] given (failing_in result) (K.intake link.old) (K.intake link.new)
        (K.outflow link.old) (K.outflow link.new)
        × ReadsReply result wire.old.held given wire.new.held (K.intake link.new).left }
    ensures going { OnOk result (wire.new.over ≡ None) }
{
    let head = read_head(alloc, wire, link)?;
    let mut body = Body::new(head.body);
    pass_body(&mut body, wire, link)?;
    Ok(head.status.as_u16())
}

/// Reads a body to its end.
fn pass_body<K: Link>(body: &mut Body, wire: &mut Wire, link: &mut K) -> Result<(), SyncEnd>
    requires begun { HasRead body.old [] [] }
    requires going { LivesOn body.old.state body.old.kind }
    ensures passes { (given : List ℕ) × Does [] given (failing_in result) (K.intake link.old) (K.intake link.new)
        (K.outflow link.old) (K.outflow link.new)
        × PassesBody result body.old.kind (wire.old.held ++ given) wire.new.held (K.intake link.new).left }
    ensures over { wire.new.over ≡ wire.old.over }
{
    let mut buffer = [0; ROOM];
    let mut left = MOST_BYTES;
    'passing: loop {
        if let BodyState::Done = body.state() {
            return Ok(());
        }
        if left == 0 {
            return Err(SyncEnd::Spent);
        }
        let room = room(left);
        match body.read(wire, link, &mut buffer[..room]) {
            Read::Got(count) => left -= count as u64,
            Read::End => return Ok(()),
            Read::Failed => return Err(failed(body.state())),
        }
    }
}

/// How many bytes are read at once, where no more than so many are to be read.
fn room(most: u64) -> usize
    ensures room { result ≡ min 8_192 most }
{
    if most < ROOM as u64 {
        most as usize
    } else {
        ROOM
    }
}

/// Why a read of a body failed.
fn failed(state: BodyState) -> SyncEnd
    ensures ends { EndsAs result state }
{
    match state {
        BodyState::BadChunk => SyncEnd::BadHead(Refusal::BadChunk),
        BodyState::SourceFailed => SyncEnd::ReadFault,
        // A read that fails leaves no other state.
        BodyState::Torn | BodyState::Open | BodyState::Done => SyncEnd::Cut,
    }
}
