ghost use Rattle.std.specs.Prelude.{◌≡◌, ◌++◌, List, length, codes, decimal, flat_map, IfOk, OnOk};
ghost use Rattle.braid_ids.specs.Identifiers.{spelled_id};
ghost use Rattle.braid_change.specs.Spellings.{list_text};
ghost use Rattle.braid_change.specs.declared.patch.Patch.{Patch};
ghost use Rattle.braid_change.specs.declared.change.Change.TheVariants as changes;
ghost use Rattle.braid_http.specs.Replies.{ended};
ghost use Rattle.braid_http.specs.Calls.{put_content, count_lines, request_text};
ghost use Rattle.braid_http.specs.declared.call.Call.TheVariants as calls;

use crate::reply::{push_id, push_list};
use braid_change::{Change, Update, canon};
use braid_ids::{Bytes, Frontier, Memory};
use std::alloc::Global;

/// A request of a client: the server's address, the path of a resource, and what is asked for.
#[derive(Drop)]
pub enum Call {
    /// The updates of the resource that are not in the ancestry of these versions, and all later ones.
    Subscribe {
        server: Bytes,
        path: Bytes,
        parents: Frontier,
    },
    /// To hold this update.
    Put {
        server: Bytes,
        path: Bytes,
        update: Update,
    },
}

/// The bytes of a request: its head and its content.
///
/// The server's address and the path stand in it as they are: it is for the caller that they hold no byte that ends a
/// line or a word.
///
/// Errors: `Memory` where there was none for them.
pub fn request_bytes(alloc: Global, call: &Call) -> Result<Bytes, Memory>
    ensures ok { IfOk result (λ bytes. bytes ≡ request_text call.now) }
{
    match call {
        Call::Subscribe {
            server,
            path,
            parents,
        } => subscribe_bytes(alloc, server, path, parents),
        Call::Put {
            server,
            path,
            update,
        } => put_bytes(alloc, server, path, update),
    }
}

/// The bytes of a subscription.
fn subscribe_bytes(
    alloc: Global,
    server: &Bytes,
    path: &Bytes,
    parents: &Frontier,
) -> Result<Bytes, Memory>
    ensures ok { IfOk result (λ bytes. bytes ≡ request_text (calls.Subscribe server.now path.now parents.now)) }
{
    let mut out = Bytes::of(alloc, b"GET ")?;
    push_start(&mut out, path, server)?;
    out.push(b"Subscribe: true\r\nParents:")?;
    push_list(alloc, &mut out, parents)?;
    out.push(b"\r\nMerge-Type: ti-text\r\n\r\n")?;
    Ok(out)
}

/// The bytes of a PUT.
fn put_bytes(alloc: Global, server: &Bytes, path: &Bytes, update: &Update) -> Result<Bytes, Memory>
    ensures ok { IfOk result (λ bytes. bytes ≡ request_text (calls.Put server.now path.now update.now)) }
{
    let content = content_of(alloc, update)?;
    let mut out = Bytes::of(alloc, b"PUT ")?;
    push_start(&mut out, path, server)?;
    push_version(alloc, &mut out, update)?;
    out.push(b"Merge-Type: ti-text\r\nContent-Type: text/plain; charset=utf-8\r\n")?;
    push_count(&mut out, update.change())?;
    push_content(&mut out, &content)?;
    Ok(out)
}

/// Puts the rest of a first line, behind its method, and the line `Host` at the end.
fn push_start(out: &mut Bytes, path: &Bytes, server: &Bytes) -> Result<(), Memory>
    ensures ok { OnOk result
        (out.new ≡ out.old ++ (path.now ++ (codes " HTTP/1.1\r\nHost: " ++ (server.now ++ codes "\r\n")))) }
{
    out.push(path.get())?;
    out.push(b" HTTP/1.1\r\nHost: ")?;
    out.push(server.get())?;
    out.push(b"\r\n")?;
    Ok(())
}

/// Puts the lines `Version` and `Parents` of an update at the end.
fn push_version(alloc: Global, out: &mut Bytes, update: &Update) -> Result<(), Memory>
    ensures ok { OnOk result (out.new ≡ out.old ++ (codes "Version: " ++ (spelled_id update.now.id
        ++ (codes "\r\nParents:" ++ (list_text update.now.parents ++ codes "\r\n"))))) }
{
    out.push(b"Version: ")?;
    push_id(alloc, out, update.id())?;
    out.push(b"\r\nParents:")?;
    push_list(alloc, out, update.parents())?;
    out.push(b"\r\n")
}

/// Puts the line on the number of patches at the end, where there are patches.
fn push_count(out: &mut Bytes, change: &Change) -> Result<(), Memory>
    ensures ok { OnOk result (out.new ≡ out.old ++ flat_map ended (count_lines change.now)) }
{
    match change {
        Change::Body(_) => Ok(()),
        Change::Patches(patches) => push_patch_count(out, patches.get().len()),
    }
}

/// Puts the line on this number of patches at the end.
fn push_patch_count(out: &mut Bytes, count: usize) -> Result<(), Memory>
    ensures ok { OnOk result (out.new ≡ out.old ++ (codes "Patches: " ++ (decimal count ++ codes "\r\n"))) }
{
    out.push(b"Patches: ")?;
    out.push_number(count as u64)?;
    out.push(b"\r\n")
}

/// Puts the length of a content, an empty line and the content at the end.
fn push_content(out: &mut Bytes, content: &Bytes) -> Result<(), Memory>
    ensures ok { OnOk result (out.new ≡ out.old ++ (codes "Content-Length: " ++ (decimal (length content.now)
        ++ (codes "\r\n\r\n" ++ content.now)))) }
{
    out.push(b"Content-Length: ")?;
    out.push_number(content.get().len() as u64)?;
    out.push(b"\r\n\r\n")?;
    out.push(content.get())
}

/// The content of a PUT.
fn content_of(alloc: Global, update: &Update) -> Result<Bytes, Memory>
    ensures ok { IfOk result (λ bytes. bytes ≡ put_content update.now.change) }
{
    match update.change() {
        Change::Body(text) => {
            let mut out = Bytes::of(alloc, b"")?;
            text.push_to(&mut out)?;
            Ok(out)
        }
        Change::Patches(patches) => patches_content(alloc, update, patches.get().len()),
    }
}

/// The content of a PUT of patches: what the canonical spelling has behind its head.
fn patches_content(alloc: Global, update: &Update, count: usize) -> Result<Bytes, Memory>
    requires patches { (patches : List Patch) × (update.now.change ≡ changes.Patches patches)
        × (count ≡ length patches) }
    ensures ok { IfOk result (λ bytes. bytes ≡ put_content update.now.change) }
{
    let spelled = canon(alloc, update)?;
    let mut head = Bytes::of(alloc, b"")?;
    push_version(alloc, &mut head, update)?;
    push_patch_count(&mut head, count)?;
    head.push(b"\r\n")?;
    let at = head.get().len();
    let content = Bytes::of(alloc, &spelled.get()[at..])?;
    Ok(content)
}
