ghost use Rattle.std.specs.Prelude.{◌≡◌, ◌==◌, ◌<◌, ◌≤◌, ◌^◌, length, take, codes, decimal, flat_map, if◌then◌else◌, encode_utf8_all, IfOk};
ghost use Rattle.braid_ids.specs.Identifiers.{spelled_id, escaped};
ghost use Rattle.braid_change.specs.Changes.{content_len, patches_content};
ghost use Rattle.braid_change.specs.Spellings.{canonical, list_text, length_text, content_text, range_text, patch_text, change_text};

use crate::ascii::{ROOM, fill_ascii};
use crate::change::Change;
use crate::outlet::{Counted, Grown, Outlet};
use crate::patch::Patch;
use crate::text::Text;
use crate::update::Update;
use braid_ids::{Bytes, Frontier, Id, Memory};
use itoa::Buffer;
use std::alloc::Global;

/// The empty line that ends an update.
const LAST_LINE: &[u8] = b"\r\n";

/// The canonical spelling of an update: its lines `Version` and `Parents`, its body or its patches as listed, and one
/// last CRLF.
///
/// Errors: `Memory` where there was none for the spelling.
pub fn canon(alloc: Global, update: &Update) -> Result<Bytes, Memory>
    ensures ok { IfOk result (λ bytes. bytes ≡ canonical update.now) }
{
    let mut out = Grown::new(alloc)?;
    spell(update, &mut out);
    out.bytes()
}

/// The number of bytes of the canonical spelling of an update. It takes no memory.
pub fn canon_len(update: &Update) -> u64
    ensures len { result ≡ length (canonical update.now) }
{
    // Of every update at hand its type says that its spelling is short.
    update.id();
    let mut out = Counted::new();
    spell(update, &mut out);
    out.bytes()
}

/// Puts the canonical spelling of an update, as `canon` gives it. It takes no memory but what the outlet takes.
pub fn spell<O: Outlet>(update: &Update, out: &mut O)
    ensures puts { O.puts (canonical update.now) out.old out.new }
{
    out.put(b"Version: ");
    put_id(update.id(), out);
    out.put(b"\r\nParents:");
    put_parents(update.parents(), out);
    out.put(b"\r\n");
    put_change(update.change(), out);
    out.put(LAST_LINE);
}

/// Puts an identifier as a String.
fn put_id<O: Outlet>(id: &Id, out: &mut O)
    ensures puts { O.puts (spelled_id id.now) out.old out.new }
{
    out.put(b"\"");
    for byte in id.bytes() {
        put_escaped(*byte, out);
    }
    out.put(b"\"");
}

/// Puts a byte within quotes: a quote and a backslash have a backslash before them.
fn put_escaped<O: Outlet>(byte: u8, out: &mut O)
    ensures puts { O.puts (escaped byte) out.old out.new }
{
    if byte == b'"' || byte == b'\\' {
        out.put(&[b'\\', byte]);
    } else {
        out.put(&[byte]);
    }
}

/// Puts what follows `Parents:`.
fn put_parents<O: Outlet>(parents: &Frontier, out: &mut O)
    ensures puts { O.puts (list_text parents.now) out.old out.new }
{
    for n in 0..parents.len() {
        let Some(id) = parents.get(n) else {
            break;
        };
        out.put(gap_before(n));
        put_id(id, out);
    }
}

/// What stands before a member of a list.
fn gap_before(n: u32) -> &'static [u8]
    ensures value { result.now ≡ if n == 0 then codes " " else codes ", " }
{
    if n == 0 { b" " } else { b", " }
}

/// Puts what a change is spelled as.
fn put_change<O: Outlet>(change: &Change, out: &mut O)
    requires short { content_len change.now < 2 ^ 64 }
    ensures puts { O.puts (change_text change.now) out.old out.new }
{
    match change {
        Change::Body(text) => {
            put_length(text, out);
            put_content(text, out);
        }
        Change::Patches(patches) => {
            out.put(b"Patches: ");
            put_number(patches.get().len() as u64, out);
            out.put(b"\r\n\r\n");
            put_patches(patches.get(), out);
        }
    }
}

/// Puts patches, in their order.
fn put_patches<O: Outlet>(patches: &[Patch], out: &mut O)
    requires short { length (patches_content patches.now) < 2 ^ 64 }
    ensures puts { O.puts (flat_map patch_text patches.now) out.old out.new }
{
    for patch in patches {
        put_patch(patch, out);
    }
}

/// Puts a patch: its length, its range and its content.
fn put_patch<O: Outlet>(patch: &Patch, out: &mut O)
    requires short { length (encode_utf8_all patch.now.text) < 2 ^ 64 }
    ensures puts { O.puts (patch_text patch.now) out.old out.new }
{
    put_length(&patch.text, out);
    out.put(b"\r\nContent-Range: ");
    put_range(patch.start, patch.end, out);
    put_content(&patch.text, out);
}

/// Puts a range.
fn put_range<O: Outlet>(start: u32, end: u32, out: &mut O)
    ensures puts { O.puts (range_text start end) out.old out.new }
{
    out.put(b"text [");
    put_number(start as u64, out);
    out.put(b":");
    put_number(end as u64, out);
    out.put(b"]");
}

/// Puts the line of a text's length, without the line's end.
fn put_length<O: Outlet>(text: &Text, out: &mut O)
    requires short { length (encode_utf8_all text.now) < 2 ^ 64 }
    ensures puts { O.puts (length_text text.now) out.old out.new }
{
    out.put(b"Content-Length: ");
    put_number(text.utf8_len(), out);
}

/// Puts a text, behind an empty line.
fn put_content<O: Outlet>(text: &Text, out: &mut O)
    ensures puts { O.puts (content_text text.now) out.old out.new }
{
    out.put(b"\r\n\r\n");
    put_text(text, out);
    out.put(b"\r\n");
}

/// Puts the UTF-8 of a text.
fn put_text<O: Outlet>(text: &Text, out: &mut O)
    ensures puts { O.puts (encode_utf8_all text.now) out.old out.new }
{
    let chars = text.chars();
    let mut done = 0;
    while done < chars.len() {
        done += put_front(&chars[done..], out);
    }
}

/// Puts the UTF-8 of some of the first characters: of how many.
///
/// ASCII characters go many at once, by way of a buffer; any other one alone.
fn put_front<O: Outlet>(chars: &[char], out: &mut O) -> usize
    requires some { 0 < length chars.now }
    ensures some { 0 < result }
    ensures within { result ≤ length chars.now }
    ensures puts { O.puts (encode_utf8_all (take result chars.now)) out.old out.new }
{
    let mut buffer = [0; ROOM];
    let count = fill_ascii(&mut buffer, chars);
    if count > 0 {
        out.put(&buffer[..count]);
        return count;
    }
    let mut buffer = [0; 4];
    out.put(chars[0].encode_utf8(&mut buffer).as_bytes());
    1
}

/// Puts a number in decimal, without leading zeros.
fn put_number<O: Outlet>(n: u64, out: &mut O)
    ensures puts { O.puts (decimal n) out.old out.new }
{
    let mut buffer = Buffer::new();
    out.put(buffer.format(n).as_bytes());
}
