//! Sessions over links in memory, on a new book, and what they leave.

ghost use Rattle.std.specs.Prelude.{◌≡◌, false, IfOk};
ghost use Rattle.braid_io.specs.MemDoors.{IsUnused};
ghost use Rattle.braid_session.specs.Ends.{KeepsPlace};

use braid_hall::{Hall, Pass};
use braid_ids::{Bytes, Memory};
use braid_io::{MemBell, MemLink};
use braid_session::{SessionEnd, SessionNote, serve_session};
use braid_store::Book;
use std::alloc::Global;
use std::sync::Wait;

/// The sizes of the pieces in which bytes come.
pub const PIECES: [usize; 3] = [1, 7, 1_000_000];

/// What a session left, and what a second pass then found.
#[derive(Drop)]
pub struct Left {
    /// The session's note.
    pub note: SessionNote,
    /// The note of a session of the second pass, which asks for one text.
    pub after: SessionNote,
    /// The rings of the bell.
    pub rings: u64,
}

/// A session of a pass on these bytes.
pub fn serve_on<R: Wait>(
    rt: &R,
    alloc: Global,
    hall: &Hall<Book>,
    pass: &mut Pass<Book>,
    asked: &[u8],
) -> Result<SessionNote, Memory>
    requires hall { pass.old.hall ≡ hall.now }
    requires idle { pass.old.held ≡ false }
    ensures kept { KeepsPlace pass.old pass.new }
{
    let left = Bytes::of(alloc, asked)?;
    let mut link = MemLink::new(alloc, left, 4_096, 1_000, Vec::new(alloc))?;
    let mut bell = MemBell::new(0);
    Ok(serve_session(alloc, rt, hall, pass, &mut link, &mut bell))
}

/// A session of a link on a new book, and one of a second pass after it.
fn serve<R: Wait>(rt: &R, alloc: Global, link: &mut MemLink) -> Result<Left, Memory> {
    let (hall, mut root) = Hall::open(alloc, Book::new(alloc))?;
    let mut other = hall.split(alloc, &mut root)?;
    let mut bell = MemBell::new(0);
    let note = serve_session(alloc, rt, &hall, &mut root, link, &mut bell);
    let rings = bell.rings();
    let after = serve_on(rt, alloc, &hall, &mut other, b"GET / HTTP/1.1\r\n\r\n")?;
    Ok(Left { note, after, rings })
}

/// A link that gives these bytes in pieces of this size, with room for so many. The calls of these numbers fail.
pub fn link_of(
    alloc: Global,
    given: Bytes,
    piece: usize,
    room: usize,
    fails: &[u64],
) -> Result<MemLink, Memory>
    ensures ok { IfOk result IsUnused }
{
    let fails = Vec::from_slice(alloc, fails)?;
    MemLink::new(alloc, given, piece.max(1), room, fails)
}

/// A session's link, and what it left.
#[derive(Drop)]
pub struct Session {
    pub link: MemLink,
    pub left: Left,
}

/// A session on a new book over such a link, and one of a second pass after it.
pub fn served<R: Wait>(
    rt: &R,
    alloc: Global,
    asked: Bytes,
    piece: usize,
    room: usize,
    fails: &[u64],
) -> Result<Session, Memory> {
    let mut link = link_of(alloc, asked, piece, room, fails)?;
    let left = serve(rt, alloc, &mut link)?;
    Ok(Session { link, left })
}

impl Left {
    /// Whether the second pass had its turn, and found so many entries, for each of which the bell was rung once.
    pub fn has_entries(&self, entries: u64) -> bool {
        let marks = self.after.marks.as_slice();
        self.after.end == SessionEnd::Closed
            && marks.len() == 1
            && marks.first() == Some(&entries)
            && self.rings == entries
    }
}

/// How many of these ends are reached within so many bytes.
pub fn whole_in(ends: &[usize], bytes: usize) -> u64 {
    let mut whole: u64 = 0;
    for end in ends {
        if *end <= bytes {
            whole = whole.saturating_add(1);
        }
    }
    whole
}
