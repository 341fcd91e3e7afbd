//! Where a head or a trailer ends, in bytes that come piece by piece.

ghost use Rattle.std.specs.Prelude.{◌≡◌, ◌+◌, ◌-◌, ◌≤◌, ◌++◌, List, ℕ, IsTrue, ◌↔◌, MatchOption, length, drop};
ghost use Rattle.std.specs.List.{AllByRecursion};
ghost use Rattle.braid_ids.specs.Lists.{Lacks};
ghost use Rattle.braid_http.specs.Heads.{line, lines, IsEmptyLine, HasNoHead, HasNoBlock, BeginsFull};
ghost use Rattle.braid_http.specs.Looks.{IsLooked, IsHeadLooked, IsBlockAt, IsHeadAt, IsLineFrom};

use braid_ids::{after, split_at_byte};

/// How far bytes have been looked at for their first empty line: where the line begun begins, up to where it was looked
/// at, and how many lines stand before it. So no byte is looked at twice, however small the pieces are.
#[derive(Clone, Copy, Debug)]
pub struct Look {
    line: usize,
    seen: usize,
    full: usize,
}

/// The same for the end of a head: where its first line that is not empty begins, and how far the bytes from there on
/// have been looked at.
#[derive(Clone, Copy, Debug)]
pub struct HeadLook {
    start: usize,
    look: Look,
}

/// Whether a line with this content is empty.
fn is_empty_line(content: &[u8]) -> bool
    ensures { IsTrue result ↔ IsEmptyLine content.now }
{
    content.is_empty() || content == b"\r".as_slice()
}

/// The content of the line that begins at `line` and was looked at up to `seen`, and the place behind it.
fn line_from(bytes: &[u8], line: usize, seen: usize) -> Option<(&[u8], usize)>
    requires begun { line ≤ seen }
    requires within { seen ≤ length bytes.now }
    ensures found { MatchOption result (Lacks 10 (drop seen bytes.now))
        (λ found. IsLineFrom bytes.now line seen found.0.now found.1) }
{
    let (front, _) = split_at_byte(b'\n', &bytes[seen..])?;
    let end = seen + front.len();
    Some((&bytes[line..end], end + 1))
}

impl Look {
    /// Nothing was looked at.
    pub fn new() -> Look
        ensures value { result ≡ record { line = 0; seen = 0; full = 0 } }
    {
        Look {
            line: 0,
            seen: 0,
            full: 0,
        }
    }

    /// Looks on, to the place behind the first empty line.
    pub fn find(&mut self, bytes: &[u8]) -> Option<usize>
        requires looked { IsLooked self.old bytes.now }
        ensures found { MatchOption result (HasNoBlock bytes.now × IsLooked self.new bytes.now)
            (λ end. IsBlockAt end self.new bytes.now) }
    {
        'looking: while let Some((content, end)) = line_from(bytes, self.line, self.seen) {
            if is_empty_line(content) {
                return Some(end);
            }
            self.full += 1;
            self.line = end;
            self.seen = end;
        }
        self.seen = bytes.len();
        None
    }
}

/// The bytes after an empty line at the front.
fn after_blank(bytes: &[u8]) -> Option<&[u8]>
    ensures found { MatchOption result (BeginsFull bytes.now)
        (λ rest. (content : List ℕ) × IsEmptyLine content × (bytes.now ≡ line content ++ rest.now)) }
{
    match after(b"\n", bytes) {
        Some(rest) => Some(rest),
        None => after(b"\r\n", bytes),
    }
}

/// The bytes after the empty lines at the front.
fn pass_blank(bytes: &[u8]) -> &[u8]
    ensures passed { (blank : List (List ℕ)) × AllByRecursion IsEmptyLine blank
        × (bytes.now ≡ lines blank ++ result.now) }
    ensures full { BeginsFull result.now }
{
    let mut rest = bytes;
    'passing: while let Some(behind) = after_blank(rest) {
        rest = behind;
    }
    rest
}

impl HeadLook {
    /// Nothing was looked at.
    pub fn new() -> HeadLook
        ensures value { result ≡ record { start = 0; look = record { line = 0; seen = 0; full = 0 } } }
    {
        HeadLook {
            start: 0,
            look: Look::new(),
        }
    }

    /// Looks on, to the place behind the head.
    pub fn find(&mut self, bytes: &[u8]) -> Option<usize>
        requires looked { IsHeadLooked self.old bytes.now }
        ensures found { MatchOption result (HasNoHead bytes.now × IsHeadLooked self.new bytes.now)
            (λ end. IsHeadAt end self.new bytes.now) }
    {
        self.advance(bytes);
        match self.look.find(&bytes[self.start..]) {
            Some(end) => Some(self.start + end),
            None => None,
        }
    }

    /// Passes over the empty lines that have come.
    fn advance(&mut self, bytes: &[u8])
        requires looked { IsHeadLooked self.old bytes.now }
        ensures looked { IsHeadLooked self.new bytes.now }
        ensures full { BeginsFull (drop self.new.start bytes.now) }
    {
        let begun = &bytes[self.start..];
        let rest = pass_blank(begun);
        if rest.len() < begun.len() {
            self.start = bytes.len() - rest.len();
            self.look = Look::new();
        }
    }

    /// Where the head's first line that is not empty begins.
    pub fn start(&self) -> usize
        ensures value { result ≡ self.now.start }
    {
        self.start
    }

    /// How many lines that are not empty were passed.
    pub fn full(&self) -> usize
        ensures value { result ≡ self.now.look.full }
    {
        self.look.full
    }
}
