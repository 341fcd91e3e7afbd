//! The updates of a reply's body, as a reader of their stream over a reader of the body gives them.

ghost use Rattle.std.specs.Prelude.{◌≡◌, ◌++◌, ℕ, List, [], None};
ghost use Rattle.braid_change.specs.Updates.{UpdateView};
ghost use Rattle.braid_stream.specs.Readers.{HasTaken, GoesOn as ReaderGoesOn};
ghost use Rattle.braid_sync.specs.Hearing.{HaveAll};
ghost use Rattle.braid_world.specs.BodyReads.{GoesOn, Steps, Refilled, AtEnd, ReadsBody};

use crate::reading_back::{Heard, Last};
use braid_change::{ListUpdate, Update};
use braid_http::{Body, BodyKind, BodyState, Wire};
use braid_io::{Link, Read};
use braid_stream::{Next, UpdateReader};
use braid_sync::{Ended, Piece, ROOM};
use std::alloc::Global;

/// The body of a reply as it is read.
///
/// `BodyReader` over the wire and the link and `StreamReader` over that are the same two readers; but what a source borrows is
/// not known of a reader that owns it, so the data goes through a piece here.
#[derive(Drop)]
pub(crate) struct BodyReading {
    wire: Wire,
    body: Body,
    reader: UpdateReader,
    piece: Piece,
}

/// What came of a body.
#[derive(Drop)]
enum Came {
    /// Its next data, as a piece.
    Piece,
    /// The next update of its data.
    Update(Update),
    /// There is no further update, for this reason.
    Last(Next),
}

impl BodyReading {
    /// The reading of a body of this kind, which begins where the wire stands. It takes no memory.
    pub(crate) fn new(alloc: Global, wire: Wire, kind: BodyKind) -> BodyReading
        requires going { wire.over ≡ None }
        ensures wire { result.wire ≡ wire }
        ensures kind { result.body.kind ≡ kind }
        ensures going { GoesOn result [] [] [] }
    {
        BodyReading {
            wire,
            body: Body::new(kind),
            reader: UpdateReader::new(alloc),
            piece: Piece::new(),
        }
    }

    /// What comes next: the answer that the data at hand holds, or else the next data of the body.
    fn step<K: Link>(&mut self, link: &mut K) -> Came
        ensures steps { (us : List UpdateView) (content passed : List ℕ) → GoesOn self.old us content passed
            → Steps result self.old self.new us content passed (K.intake link.old) (K.intake link.new) }
        ensures kind { self.new.body.kind ≡ self.old.body.kind }
        ensures kept { K.outflow link.new ≡ K.outflow link.old }
    {
        match self.reader.next(&mut self.piece) {
            Next::Update(update) => Came::Update(update),
            Next::ReadFault => {
                // The piece is used up: its bytes are read so that a proof learns it.
                let _none = self.piece.left();
                match self.refill(link) {
                    None => Came::Piece,
                    Some(next) => Came::Last(next),
                }
            }
            Next::Fault(fault) => Came::Last(Next::Fault(fault)),
            Next::Spent => Came::Last(Next::Spent),
            Next::Memory => Came::Last(Next::Memory),
            // A piece has no end.
            Next::End => Came::Last(Next::End),
            Next::Torn { at } => Came::Last(Next::Torn { at }),
        }
    }

    /// Takes the next data of the body for the piece, where that is used up; `None` where some has come.
    fn refill<K: Link>(&mut self, link: &mut K) -> Option<Next>
        ensures refilled { (us : List UpdateView) (content passed : List ℕ) → GoesOn self.old us content passed
            → self.old.piece.left ≡ [] → HaveAll us content
            → Refilled result self.old self.new us content passed (K.intake link.old) (K.intake link.new) }
        ensures kind { self.new.body.kind ≡ self.old.body.kind }
        ensures kept { K.outflow link.new ≡ K.outflow link.old }
    {
        let mut buffer = [0; ROOM];
        match self.body.read(&mut self.wire, link, &mut buffer) {
            Read::Got(count) => {
                self.piece = Piece::of(buffer, count);
                None
            }
            Read::End => Some(self.last()),
            Read::Failed => match self.body.state() {
                // The source has ended: the data that came is all that there is.
                BodyState::Torn => Some(self.last()),
                // The chunks are bad, or a read of the link failed.
                _ => Some(Next::ReadFault),
            },
        }
    }

    /// The answer at the end of the data, all of which was taken and holds no further update and no fault.
    fn last(&mut self) -> Next
        ensures ends { (us : List UpdateView) (content : List ℕ) → HasTaken us self.old.reader content
            → ReaderGoesOn self.old.reader → HaveAll us content → AtEnd result us content }
        ensures body { self.new.body ≡ self.old.body }
        ensures wire { self.new.wire ≡ self.old.wire }
    {
        let mut nothing = Ended;
        self.reader.next(&mut nothing)
    }
}

/// Reads the updates of a body, from its first byte on.
pub(crate) fn read_body<K: Link>(alloc: Global, reading: BodyReading, link: &mut K) -> Heard
    requires going { GoesOn reading [] [] [] }
    ensures reads { ReadsBody reading.body.kind reading.wire.held result (K.intake link.old) (K.intake link.new) }
    ensures kept { K.outflow link.new ≡ K.outflow link.old }
{
    let mut reading = reading;
    let mut updates = Vec::new(alloc);
    'reading: loop {
        let last = match reading.step(link) {
            Came::Piece => continue 'reading,
            Came::Update(update) => match updates.push(update) {
                Ok(()) => continue 'reading,
                Err(_) => Last::Memory,
            },
            Came::Last(next) => Last::Stream(next),
        };
        return Heard {
            updates: ListUpdate::of(updates),
            last,
        };
    }
}
