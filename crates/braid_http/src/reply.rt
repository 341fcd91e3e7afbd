ghost use Rattle.std.specs.Prelude.{◌≡◌, ◌++◌, false, true, codes, decimal, flat_map, IfOk, OnOk, ◌==◌, if◌then◌else◌};
ghost use Rattle.braid_ids.specs.Identifiers.{spelled_id};
ghost use Rattle.braid_change.specs.Spellings.{list_text};
ghost use Rattle.braid_http.specs.Replies.{phrase_of, allow_lines, close_lines, ended, head_lines, content_of, reply_text, IsWritable, IsClosable};
ghost use Rattle.braid_http.specs.declared.reply.Reply.{Reply as Replying};
ghost use Rattle.braid_http.specs.declared.reply.Reply.TheVariants as replies;

use crate::looks::Look;
use braid_change::Text;
use braid_ids::{Bytes, Frontier, Id, Memory};
use std::alloc::Global;

/// A reply.
#[derive(Drop)]
pub enum Reply {
    /// A text and the frontier that it was read at.
    Text {
        version: Frontier,
        text: Text,
    },
    /// The version of a PUT is held.
    Stored {
        id: Id,
    },
    /// An error: its status, which is one that has a phrase, its reason, and whether the connection closes behind it.
    Error {
        status: u16,
        reason: Bytes,
        close: bool,
    },
    /// The head of a subscription that goes on from the frontier.
    Subscription {
        current: Frontier,
    },
}

/// The bytes of a reply: its head, and its content but for the chunks of a subscription.
///
/// An error's status is 400, 404, 405, 409, 413, 422, 431, 505 or 507.
///
/// Errors: `Memory` where there was none for them.
pub fn reply_bytes(alloc: Global, reply: &Reply) -> Result<Bytes, Memory>
    requires writable { IsWritable reply.now }
    ensures ok { IfOk result (λ bytes. bytes ≡ reply_text false reply.now) }
{
    match reply {
        Reply::Text { version, text } => text_bytes(alloc, version, text),
        Reply::Stored { id } => stored_bytes(alloc, id),
        Reply::Error {
            status,
            reason,
            close,
        } => error_bytes(alloc, *status, reason, *close),
        Reply::Subscription { current } => subscription_bytes(alloc, current),
    }
}

/// The bytes of a text's reply.
fn text_bytes(alloc: Global, version: &Frontier, text: &Text) -> Result<Bytes, Memory>
    ensures ok { IfOk result (λ bytes. bytes ≡ reply_text false (replies.Text version.now text.now)) }
{
    let mut content = Bytes::of(alloc, b"")?;
    text.push_to(&mut content)?;
    let mut out = Bytes::of(alloc, b"HTTP/1.1 200 OK\r\nVersion:")?;
    push_list(alloc, &mut out, version)?;
    out.push(
        b"\r\nMerge-Type: ti-text\r\nContent-Type: text/plain; charset=utf-8\r\nContent-Length: ",
    )?;
    out.push_number(content.get().len() as u64)?;
    out.push(b"\r\n\r\n")?;
    out.push(content.get())?;
    Ok(out)
}

/// The bytes of a PUT's reply.
fn stored_bytes(alloc: Global, id: &Id) -> Result<Bytes, Memory>
    ensures ok { IfOk result (λ bytes. bytes ≡ reply_text false (replies.Stored id.now)) }
{
    let mut out = Bytes::of(alloc, b"HTTP/1.1 200 OK\r\nVersion: ")?;
    push_id(alloc, &mut out, id)?;
    out.push(b"\r\nContent-Length: 0\r\n\r\n")?;
    Ok(out)
}

/// The bytes of an error's reply.
fn error_bytes(alloc: Global, status: u16, reason: &Bytes, close: bool) -> Result<Bytes, Memory>
    ensures ok { IfOk result (λ bytes. bytes ≡ reply_text false (replies.Error status reason.now close)) }
{
    let mut out = Bytes::of(alloc, b"HTTP/1.1 ")?;
    push_status(&mut out, status)?;
    out.push(b"Content-Type: text/plain; charset=utf-8\r\nContent-Length: ")?;
    out.push_number(reason.get().len() as u64 + 1)?;
    out.push(b"\r\n")?;
    out.push(close_line(close))?;
    push_reason(&mut out, reason)?;
    Ok(out)
}

/// The bytes of a subscription's head.
fn subscription_bytes(alloc: Global, current: &Frontier) -> Result<Bytes, Memory>
    ensures ok { IfOk result (λ bytes. bytes ≡ reply_text false (replies.Subscription current.now)) }
{
    let mut out = Bytes::of(
        alloc,
        b"HTTP/1.1 209 Subscription\r\nSubscribe: true\r\nCurrent-Version:",
    )?;
    push_list(alloc, &mut out, current)?;
    out.push(b"\r\nMerge-Type: ti-text\r\nContent-Type: text/plain; charset=utf-8\r\n")?;
    out.push(b"Transfer-Encoding: chunked\r\nConnection: close\r\n\r\n")?;
    Ok(out)
}

/// Puts an error's status, its phrase and what it says of the methods at the end.
fn push_status(out: &mut Bytes, status: u16) -> Result<(), Memory>
    ensures ok { OnOk result (out.new ≡ out.old ++ (decimal status ++ (codes " " ++ (phrase_of status
        ++ (codes "\r\n" ++ flat_map ended (allow_lines status)))))) }
{
    out.push_number(status.into())?;
    out.push(b" ")?;
    out.push(phrase(status))?;
    out.push(b"\r\n")?;
    out.push(allowed(status))
}

/// Puts an empty line, a reason and a LF at the end.
fn push_reason(out: &mut Bytes, reason: &Bytes) -> Result<(), Memory>
    ensures ok { OnOk result (out.new ≡ out.old ++ (codes "\r\n" ++ (reason.now ++ codes "\n"))) }
{
    out.push(b"\r\n")?;
    out.push(reason.get())?;
    out.push(b"\n")
}

/// The phrase of an error's status.
fn phrase(status: u16) -> &'static [u8]
    ensures value { result.now ≡ phrase_of status }
{
    match status {
        400 => b"Bad Request",
        404 => b"Not Found",
        405 => b"Method Not Allowed",
        409 => b"Conflict",
        413 => b"Content Too Large",
        422 => b"Unprocessable Content",
        431 => b"Request Header Fields Too Large",
        505 => b"HTTP Version Not Supported",
        507 => b"Insufficient Storage",
        _ => b"",
    }
}

/// The line on the methods that there are, where the status is that of another one.
fn allowed(status: u16) -> &'static [u8]
    ensures value { result.now ≡ flat_map ended (allow_lines status) }
{
    if status == 405 {
        b"Allow: GET, PUT\r\n"
    } else {
        b""
    }
}

/// The line that closes the connection, where it is closed.
fn close_line(close: bool) -> &'static [u8]
    ensures value { result.now ≡ flat_map ended (close_lines close) }
{
    if close { b"Connection: close\r\n" } else { b"" }
}

/// Puts an identifier as a String at the end.
pub fn push_id(alloc: Global, out: &mut Bytes, id: &Id) -> Result<(), Memory>
    ensures ok { OnOk result (out.new ≡ out.old ++ spelled_id id.now) }
{
    let spelled = id.spell(alloc)?;
    out.push(spelled.get())
}

/// Puts identifiers as a list at the end, behind a space where there are any.
pub fn push_list(alloc: Global, out: &mut Bytes, ids: &Frontier) -> Result<(), Memory>
    ensures ok { OnOk result (out.new ≡ out.old ++ list_text ids.now) }
{
    for n in 0..ids.len() {
        let Some(id) = ids.get(n) else {
            break;
        };
        out.push(gap_before(n))?;
        push_id(alloc, out, id)?;
    }
    Ok(())
}

/// What stands before a member of a list.
fn gap_before(n: u32) -> &'static [u8]
    ensures value { result.now ≡ if n == 0 then codes " " else codes ", " }
{
    if n == 0 { b" " } else { b", " }
}

/// A reply with `Connection: close` as the last line of its head.
///
/// The bytes are those that `reply_bytes` gives for a reply that has no such line and is no subscription.
///
/// Errors: `Memory` where there was none for them; the bytes are dropped.
pub fn closing(alloc: Global, bytes: Bytes) -> Result<Bytes, Memory>
    requires closable { (reply : Replying) × IsClosable reply × (bytes ≡ reply_text false reply) }
    ensures ok { IfOk result (λ closed. (reply : Replying) → IsClosable reply → bytes ≡ reply_text false reply
        → closed ≡ reply_text true reply) }
{
    let (head, content) = head_and_content(bytes.get());
    let mut out = Bytes::of(alloc, head)?;
    out.push(b"Connection: close\r\n\r\n")?;
    out.push(content)?;
    Ok(out)
}

/// The lines of a reply's head, and what stands behind its empty line.
fn head_and_content(bytes: &[u8]) -> (&[u8], &[u8])
    requires closable { (reply : Replying) × IsClosable reply × (bytes.now ≡ reply_text false reply) }
    ensures head { (reply : Replying) → IsClosable reply → bytes.now ≡ reply_text false reply
        → result.0.now ≡ flat_map ended (head_lines reply) }
    ensures content { (reply : Replying) → IsClosable reply → bytes.now ≡ reply_text false reply
        → result.1.now ≡ content_of reply }
{
    let mut look = Look::new();
    let Some(end) = look.find(bytes) else {
        unreachable!()
    };
    (&bytes[..end - 2], &bytes[end..])
}
