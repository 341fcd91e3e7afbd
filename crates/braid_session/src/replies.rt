//! The replies to what the book answers.

ghost use Rattle.std.specs.Prelude.{◌≡◌, ◌++◌, codes, decimal, not, false, Some, IfOk, IsTrue};
ghost use Rattle.braid_ids.specs.Identifiers.{spelled_id};
ghost use Rattle.braid_http.specs.declared.reply.Reply.TheVariants as replies;
ghost use Rattle.braid_http.specs.Replies.{has_close, reply_text, IsWritable, IsClosable};
ghost use Rattle.braid_session.specs.Answers.{denial_reply, unheld_reply, fault_reply, put_reply};
ghost use Rattle.braid_session.specs.Sessions.{refusal_reply};

use crate::denial::Denial;
use braid_http::{Refusal, Reply, closing, reply_bytes};
use braid_ids::{Bytes, Id, Memory};
use braid_store::{GetFault, Put};
use std::alloc::Global;

/// The bytes of a reply, which closes the connection where the request asked to, or where the reply does so by itself.
pub(crate) fn bytes_of(alloc: Global, close: bool, reply: &Reply) -> Result<Bytes, Memory>
    requires writable { IsWritable reply.now }
    ensures ok { IfOk result (λ bytes. bytes ≡ reply_text close reply.now) }
{
    let bytes = reply_bytes(alloc, reply)?;
    if close && stays_open(reply) {
        closing(alloc, bytes)
    } else {
        Ok(bytes)
    }
}

/// Whether a reply leaves the connection open, so that the line that closes it can be put in.
fn stays_open(reply: &Reply) -> bool
    ensures value { result ≡ not (has_close reply.now) }
    ensures closable { IsTrue result → IsClosable reply.now }
{
    match reply {
        Reply::Text { version, .. } => {
            let _ids = version.len();
            true
        }
        Reply::Stored { id } => {
            let _bytes = id.bytes();
            true
        }
        Reply::Error { close, .. } => !*close,
        Reply::Subscription { .. } => false,
    }
}

/// An error's reply that leaves the connection open.
fn error(alloc: Global, status: u16, reason: &[u8]) -> Result<Reply, Memory>
    ensures ok { IfOk result (λ reply. reply ≡ replies.Error status reason.now false) }
{
    Ok(Reply::Error {
        status,
        reason: Bytes::of(alloc, reason)?,
        close: false,
    })
}

/// An error's reply with a word and an identifier.
fn error_of(alloc: Global, status: u16, word: &[u8], id: &Id) -> Result<Reply, Memory>
    ensures ok { IfOk result (λ reply. reply ≡ replies.Error status (word.now ++ spelled_id id.now) false) }
{
    let mut reason = Bytes::of(alloc, word)?;
    let spelled = id.spell(alloc)?;
    reason.push(spelled.get())?;
    Ok(Reply::Error {
        status,
        reason,
        close: false,
    })
}

/// The reply that denies a request.
pub(crate) fn denial_reply(alloc: Global, denial: Denial) -> Result<Reply, Memory>
    ensures ok { IfOk result (λ reply. reply ≡ denial_reply denial) }
{
    error(alloc, denial.status(), denial.name().as_bytes())
}

/// The reply to bytes that are no request. The connection closes behind it.
pub(crate) fn refusal_reply(alloc: Global, refusal: Refusal) -> Result<Reply, Memory>
    ensures ok { IfOk result (λ reply. reply ≡ refusal_reply refusal) }
{
    Ok(Reply::Error {
        status: refusal.status(),
        reason: Bytes::of(alloc, refusal.name())?,
        close: true,
    })
}

/// The reply to a subscription that begins at an identifier which the path does not hold.
pub(crate) fn unheld_reply(alloc: Global, id: &Id) -> Result<Reply, Memory>
    ensures ok { IfOk result (λ reply. reply ≡ unheld_reply id.now) }
{
    error_of(alloc, 409, b"UnknownParent ", id)
}

/// The reply to a GET of which nothing is read.
pub(crate) fn fault_reply(alloc: Global, fault: GetFault) -> Result<Reply, Memory>
    ensures ok { IfOk result (λ reply. fault_reply fault ≡ Some reply) }
{
    match fault {
        GetFault::Absent => error(alloc, 404, b"Absent"),
        GetFault::Unknown { id } => error_of(alloc, 404, b"UnknownVersion ", &id),
        GetFault::Memory => Err(Memory),
    }
}

/// The reply to an update of which a patch goes past the text.
fn out_of_range(alloc: Global, patch: u32, len: u32) -> Result<Reply, Memory>
    ensures ok { IfOk result (λ reply. reply ≡ replies.Error 422
        (codes "OutOfRange patch " ++ decimal patch ++ codes " len " ++ decimal len) false) }
{
    let reason = format!(in alloc; "OutOfRange patch {patch} len {len}")?;
    error(alloc, 422, reason.as_bytes())
}

/// The reply to a PUT of the update with an identifier.
pub(crate) fn put_reply(alloc: Global, id: Id, put: Put) -> Result<Reply, Memory>
    ensures ok { IfOk result (λ reply. put_reply id put ≡ Some reply) }
{
    match put {
        Put::New | Put::Known => Ok(Reply::Stored { id }),
        Put::Clash { id } => error_of(alloc, 409, b"Clash ", &id),
        Put::UnknownParent { id } => error_of(alloc, 409, b"UnknownParent ", &id),
        Put::OutOfRange { patch, len } => out_of_range(alloc, patch, len),
        Put::Full { which, limit } => {
            let name = which.name();
            let reason = format!(in alloc; "Full {name} {limit}")?;
            error(alloc, 507, reason.as_bytes())
        }
        Put::Memory => Err(Memory),
    }
}
