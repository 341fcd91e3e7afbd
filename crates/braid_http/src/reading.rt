//! Reading until a request is decided: its head, and then its body.

ghost use Rattle.std.specs.Prelude.{◌≡◌, ◌≢◌, ◌≤◌, ◌<◌, [], IfOk, OnOk, IfErr, length, take};
ghost use Rattle.braid_http.specs.declared.held.More.TheVariants as mores;
ghost use Rattle.braid_http.specs.declared.framing.Framing.TheVariants as framings;
ghost use Rattle.braid_http.specs.Framings.{closes};
ghost use Rattle.braid_http.specs.Looks.{IsHeadAt};
ghost use Rattle.braid_http.specs.Reads.{Grows};
ghost use Rattle.braid_http.specs.Asks.{Took};
ghost use Rattle.braid_http.specs.Waits.{Judges, IsReady, Stops, Gives, Breaks, BreaksHead, OpenBelow, TookChunks};

use crate::chunks::{Fed, Place, step};
use crate::framing::{Framing, announced, closes};
use crate::head::{Head, HeadFault, read_head};
use crate::held::{Held, More};
use crate::looks::HeadLook;
use crate::refusal::Refusal;
use crate::request::Request;
use crate::stop::Stop;
use braid_ids::{Bytes, Memory};
use braid_io::Link;
use std::alloc::Global;

/// The most bytes of a head.
const MOST_HEAD: usize = 16_384;

/// The most lines of a head before its empty one: its first line and 64 fields.
pub const MOST_LINES: usize = 65;

/// A head that has come: what it holds, how many bytes it has with the empty lines before it, and what it announces.
#[derive(Drop)]
pub struct Ready {
    pub head: Head,
    pub used: usize,
    pub framing: Framing,
}

/// What the head that ends at a place says.
fn judge(alloc: Global, bytes: &[u8], look: &HeadLook, end: usize) -> Result<Ready, Stop>
    requires at { IsHeadAt end look.now bytes.now }
    ensures ok { IfOk result (λ ready. IsReady ready bytes.now) }
    ensures err { IfErr result (λ stop. Judges stop bytes.now) }
{
    if end > MOST_HEAD {
        return Err(Stop::Refused(Refusal::LongHead));
    }
    if look.full() > MOST_LINES {
        return Err(Stop::Refused(Refusal::ManyFields));
    }
    match read_head(alloc, &bytes[look.start()..end]) {
        Err(HeadFault::Bad) => Err(Stop::Refused(Refusal::BadHead)),
        Err(HeadFault::Memory) => Err(Stop::Memory),
        Ok(head) => {
            let framing = announced(&head);
            Ok(Ready {
                head,
                used: end,
                framing,
            })
        }
    }
}

/// Reads on for a head.
fn read_for_head<K: Link>(link: &mut K, held: &mut Held, buf: &mut [u8]) -> Result<(), Stop>
    requires some { 0 < length buf.old }
    ensures ok { OnOk result (Grows mores.Got held.old held.new (K.intake link.old) (K.intake link.new)) }
    ensures err { IfErr result (λ stop. BreaksHead stop held.old held.new (K.intake link.old) (K.intake link.new)) }
    ensures kept { K.outflow link.new ≡ K.outflow link.old }
{
    let bare = held.get().is_empty();
    match held.read_more(link, buf) {
        More::Got => Ok(()),
        More::End => {
            if bare {
                Err(Stop::End)
            } else {
                Err(Stop::Torn)
            }
        }
        More::Failed => Err(Stop::ReadFault),
        More::Memory => Err(Stop::Memory),
    }
}

/// Reads on inside a request.
pub fn read_on<K: Link>(link: &mut K, held: &mut Held, buf: &mut [u8]) -> Result<(), Stop>
    requires some { 0 < length buf.old }
    ensures ok { OnOk result (Grows mores.Got held.old held.new (K.intake link.old) (K.intake link.new)) }
    ensures err { IfErr result (λ stop. Breaks stop held.old held.new (K.intake link.old) (K.intake link.new)) }
    ensures kept { K.outflow link.new ≡ K.outflow link.old }
{
    match held.read_more(link, buf) {
        More::Got => Ok(()),
        More::End => Err(Stop::Torn),
        More::Failed => Err(Stop::ReadFault),
        More::Memory => Err(Stop::Memory),
    }
}

/// Reads until a head is whole or refused.
fn await_head<K: Link>(
    alloc: Global,
    link: &mut K,
    held: &mut Held,
    buf: &mut [u8],
) -> Result<Ready, Stop>
    requires some { 0 < length buf.old }
    ensures took { OnOk result (Took held.old held.new (K.intake link.old) (K.intake link.new)) }
    ensures ready { IfOk result (λ ready. IsReady ready held.new) }
    ensures err { IfErr result (λ stop. Stops stop held.old held.new (K.intake link.old) (K.intake link.new)) }
    ensures kept { K.outflow link.new ≡ K.outflow link.old }
{
    let mut look = HeadLook::new();
    'waiting: loop {
        let bytes = held.get();
        if let Some(end) = look.find(bytes) {
            return judge(alloc, bytes, &look, end);
        }
        if bytes.len() >= MOST_HEAD {
            return Err(Stop::Refused(Refusal::LongHead));
        }
        read_for_head(link, held, buf)?;
    }
}

/// Reads until so many bytes are held.
fn await_bytes<K: Link>(
    link: &mut K,
    held: &mut Held,
    whole: usize,
    buf: &mut [u8],
) -> Result<(), Stop>
    requires some { 0 < length buf.old }
    requires begun { held.old ≢ [] }
    requires open { OpenBelow whole held.old }
    ensures took { OnOk result (Took held.old held.new (K.intake link.old) (K.intake link.new)) }
    ensures enough { OnOk result (whole ≤ length held.new) }
    ensures err { IfErr result (λ stop. Stops stop held.old held.new (K.intake link.old) (K.intake link.new)) }
    ensures kept { K.outflow link.new ≡ K.outflow link.old }
{
    'waiting: while held.get().len() < whole {
        read_on(link, held, buf)?;
    }
    Ok(())
}

/// Reads and decodes a chunked body, behind a head of `used` bytes.
fn take_chunks<K: Link>(
    alloc: Global,
    link: &mut K,
    held: &mut Held,
    ready: &Ready,
    buf: &mut [u8],
) -> Result<Bytes, Stop>
    requires some { 0 < length buf.old }
    requires ready { IsReady ready.now held.old }
    requires chunked { ready.now.framing ≡ framings.Chunks }
    ensures ok { IfOk result (λ content. TookChunks content (take ready.now.used held.old) held.old held.new
        (K.intake link.old) (K.intake link.new)) }
    ensures err { IfErr result (λ stop. Stops stop held.old held.new (K.intake link.old) (K.intake link.new)) }
    ensures kept { K.outflow link.new ≡ K.outflow link.old }
{
    let Ok(mut content) = Bytes::of(alloc, b"") else {
        return Err(Stop::Memory);
    };
    held.pass(ready.used);
    let mut place = Place::Line;
    // The number of bytes used: as it has a bound, the decoding ends.
    let mut passed = 0;
    'decoding: loop {
        match step(place, held.get(), &mut content) {
            Fed::Passed(n, next) => {
                held.pass(n);
                place = next;
                passed += n;
            }
            Fed::Open(next) => {
                place = next;
                read_on(link, held, buf)?;
            }
            Fed::Done(n) => {
                held.pass(n);
                return Ok(content);
            }
            Fed::Refused(refusal) => return Err(Stop::Refused(refusal)),
            Fed::Memory => return Err(Stop::Memory),
        }
    }
}

/// The request of a head and its body.
fn request_of(alloc: Global, head: Head, body: Bytes) -> Result<Request, Memory>
    ensures ok { IfOk result (λ q. q ≡ record {
      method = head.method;
      target = head.target.items;
      fields = head.fields;
      close = closes head.fields;
      body = body;
    }) }
{
    let target = Bytes::of(alloc, &head.target)?;
    let close = closes(&head.fields);
    Ok(Request {
        method: head.method,
        target,
        fields: head.fields,
        close,
        body,
    })
}

/// The request of a head that announces a body of `n` bytes.
fn take_body<K: Link>(
    alloc: Global,
    link: &mut K,
    held: &mut Held,
    ready: Ready,
    n: usize,
    buf: &mut [u8],
) -> Result<Request, Stop>
    requires some { 0 < length buf.old }
    requires ready { IsReady ready held.old }
    requires body { ready.framing ≡ framings.Body n }
    ensures gives { Gives result held.old held.new (K.intake link.old) (K.intake link.new) }
    ensures kept { K.outflow link.new ≡ K.outflow link.old }
{
    let whole = ready.used + n;
    await_bytes(link, held, whole, buf)?;
    let Ok(body) = Bytes::of(alloc, &held.get()[ready.used..whole]) else {
        return Err(Stop::Memory);
    };
    let Ok(request) = request_of(alloc, ready.head, body) else {
        return Err(Stop::Memory);
    };
    held.pass(whole);
    Ok(request)
}

/// The request of a head that announces a chunked body.
fn take_chunked<K: Link>(
    alloc: Global,
    link: &mut K,
    held: &mut Held,
    ready: Ready,
    buf: &mut [u8],
) -> Result<Request, Stop>
    requires some { 0 < length buf.old }
    requires ready { IsReady ready held.old }
    requires chunked { ready.framing ≡ framings.Chunks }
    ensures gives { Gives result held.old held.new (K.intake link.old) (K.intake link.new) }
    ensures kept { K.outflow link.new ≡ K.outflow link.old }
{
    let body = take_chunks(alloc, link, held, &ready, buf)?;
    let Ok(request) = request_of(alloc, ready.head, body) else {
        return Err(Stop::Memory);
    };
    Ok(request)
}

/// The next request.
pub fn next_request<K: Link>(
    alloc: Global,
    link: &mut K,
    held: &mut Held,
    buf: &mut [u8],
) -> Result<Request, Stop>
    requires some { 0 < length buf.old }
    ensures gives { Gives result held.old held.new (K.intake link.old) (K.intake link.new) }
    ensures kept { K.outflow link.new ≡ K.outflow link.old }
{
    let ready = await_head(alloc, link, held, buf)?;
    match ready.framing {
        Framing::No(refusal) => Err(Stop::Refused(refusal)),
        Framing::Body(n) => take_body(alloc, link, held, ready, n as usize, buf),
        Framing::Chunks => take_chunked(alloc, link, held, ready, buf),
    }
}
