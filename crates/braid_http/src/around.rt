//! What stands around the data of a chunked body, byte by byte, with no memory taken.

ghost use Rattle.std.specs.Prelude.{◌≡◌, ◌++◌, ◌∷◌, List, ℕ, []};
ghost use Rattle.std.specs.List.{AllByRecursion};
ghost use Rattle.braid_http.specs.Heads.{IsFullLine};
ghost use Rattle.braid_http.specs.BodySteps.{IsPartOf, Turns, IsTrailing, IsAround, Comes, Adds, Falls, Passes};
ghost use Rattle.braid_http.specs.Draws.{IsLineBegun};

use crate::chunks::{MOST_LINE, MOST_TRAILER, size_of_line};
use crate::wire::Wire;
use braid_io::{Link, Read};
use std::marker::Model;

/// A chunk line that has come in part.
#[derive(Drop)]
pub struct LineBegun {
    bytes: [u8; MOST_LINE],
    len: usize,
}

impl Model for LineBegun {
    ghost use Rattle.std.specs.Prelude.{List, ℕ, ◌≤◌, take};
    ghost use Rattle.braid_http.specs.Draws.{IsLineBegun};

    ghost Value = { List ℕ };

    ghost view = { λ line. take line.len line.bytes };

    ghost invariant = { λ line. (line.len ≤ 255) × IsLineBegun (take line.len line.bytes) };
}

/// What a byte more makes of a chunk line.
#[derive(Clone, Copy, Debug)]
pub enum Added {
    /// It has still come in part.
    More,
    /// It is whole, and announces so many bytes.
    Size(u64),
    /// It is whole or too long, and no chunk line.
    Unread,
}

/// What has come of a line of a trailer.
#[derive(Clone, Copy, Debug)]
pub enum TrailerLine {
    /// Nothing.
    Empty,
    /// A CR.
    Cr,
    /// More than that.
    Full,
}

/// Where the reading stands, where no data is next.
#[derive(Clone, Copy, Debug)]
pub enum Framing {
    /// In a chunk's line.
    Line,
    /// Behind a chunk's data.
    Behind,
    /// Behind a chunk's data and a CR.
    BehindCr,
    /// In the trailer, to which so many bytes more may belong, and in a line of it.
    Trailer(usize, TrailerLine),
}

/// What a byte more brings.
#[derive(Clone, Copy, Debug)]
pub enum Next {
    /// The reading stands there.
    Around(Framing),
    /// Data is next, of so many bytes.
    Data(u64),
    /// The body is whole.
    Whole,
    /// The bytes begin no chunked body.
    Against,
}

/// What follows what stands around data.
#[derive(Clone, Copy, Debug)]
pub enum Passed {
    /// Data, of so many bytes.
    Data(u64),
    /// Nothing: the body is whole.
    Whole,
    /// Nothing: the bytes begin no chunked body.
    Against,
    /// Nothing: the source has ended there.
    Torn(Framing),
    /// Nothing yet: a read failed there.
    Failed(Framing),
}

impl LineBegun {
    /// Nothing has come.
    pub fn new() -> LineBegun
        ensures none { result ≡ [] }
    {
        LineBegun {
            bytes: [0; MOST_LINE],
            len: 0,
        }
    }

    /// Takes a byte more.
    pub fn add(&mut self, byte: u8) -> Added
        ensures adds { Adds result self.old self.new byte }
        ensures begun { IsLineBegun self.old }
        ensures begun_still { IsLineBegun self.new }
    {
        self.bytes[self.len] = byte;
        let n = self.len + 1;
        if byte != b'\n' && n < MOST_LINE {
            self.len = n;
            return Added::More;
        }
        self.len = 0;
        match size_of_line(&self.bytes[..n]) {
            Some(size) => Added::Size(size),
            None => Added::Unread,
        }
    }
}

/// Behind a byte of a chunk's line.
fn in_line(line: &mut LineBegun, byte: u8) -> Next
    ensures comes { (content b : List ℕ) → IsAround Framing.Line line.old content b
        → Comes result line.new content (b ++ byte ∷ []) }
    ensures falls { Falls Framing.Line line.old result line.new }
{
    match line.add(byte) {
        Added::More => Next::Around(Framing::Line),
        Added::Size(0) => Next::Around(Framing::Trailer(MOST_TRAILER, TrailerLine::Empty)),
        Added::Size(left) => Next::Data(left),
        Added::Unread => Next::Against,
    }
}

/// What a byte more makes of a line of a trailer that has come in part; nothing, where it ends the trailer.
fn line_after(line: TrailerLine, byte: u8) -> Option<TrailerLine>
    ensures turns { (full : List (List ℕ)) (part : List ℕ) → AllByRecursion IsFullLine full → IsPartOf line part
        → Turns result full part byte }
{
    match line {
        TrailerLine::Empty => {
            if byte == b'\n' {
                None
            } else if byte == b'\r' {
                Some(TrailerLine::Cr)
            } else {
                Some(TrailerLine::Full)
            }
        }
        TrailerLine::Cr => {
            if byte == b'\n' {
                None
            } else {
                Some(TrailerLine::Full)
            }
        }
        TrailerLine::Full => {
            if byte == b'\n' {
                Some(TrailerLine::Empty)
            } else {
                Some(TrailerLine::Full)
            }
        }
    }
}

/// Behind a byte of a trailer.
fn in_trailer(left: usize, line: TrailerLine, byte: u8) -> Next
    ensures comes { (content b : List ℕ) → IsTrailing left line content b → Comes result [] content (b ++ byte ∷ []) }
    ensures falls { Falls (Framing.Trailer left line) [] result [] }
{
    let Some(next) = line_after(line, byte) else {
        return Next::Whole;
    };
    if left <= 1 {
        return Next::Against;
    }
    Next::Around(Framing::Trailer(left - 1, next))
}

/// Behind a byte of what stands around data.
fn after(framing: Framing, line: &mut LineBegun, byte: u8) -> Next
    ensures comes { (content b : List ℕ) → IsAround framing line.old content b
        → Comes result line.new content (b ++ byte ∷ []) }
    ensures falls { Falls framing line.old result line.new }
{
    match framing {
        Framing::Line => in_line(line, byte),
        Framing::Behind => {
            if byte == b'\r' {
                Next::Around(Framing::BehindCr)
            } else {
                Next::Against
            }
        }
        Framing::BehindCr => {
            if byte == b'\n' {
                Next::Around(Framing::Line)
            } else {
                Next::Against
            }
        }
        Framing::Trailer(left, trailer) => in_trailer(left, trailer, byte),
    }
}

/// Passes what stands around data. Where the wire holds no bytes they are read one by one, so that none is read past the
/// body.
pub fn pass_framing<K: Link>(
    framing: Framing,
    line: &mut LineBegun,
    wire: &mut Wire,
    link: &mut K,
) -> Passed
    ensures passes { Passes result framing line.old line.new wire.old.held wire.new.held (K.intake link.old)
        (K.intake link.new) }
    ensures over { wire.new.over ≡ wire.old.over }
    ensures kept { K.outflow link.new ≡ K.outflow link.old }
{
    let mut framing = framing;
    'passing: loop {
        let mut one = [0; 1];
        match wire.next_bytes(link, &mut one) {
            Read::Got(_) => match after(framing, line, one[0]) {
                Next::Around(next) => framing = next,
                Next::Data(left) => return Passed::Data(left),
                Next::Whole => return Passed::Whole,
                Next::Against => return Passed::Against,
            },
            Read::End => return Passed::Torn(framing),
            Read::Failed => return Passed::Failed(framing),
        }
    }
}
