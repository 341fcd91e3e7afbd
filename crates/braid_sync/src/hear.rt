//! The updates of a subscription's body, one by one as they come.

ghost use Rattle.std.specs.Prelude.{◌≡◌, ◌++◌, ℕ, List, [], None};
ghost use Rattle.braid_change.specs.Updates.{UpdateView};
ghost use Rattle.braid_stream.specs.Readers.{HasTaken, GoesOn};
ghost use Rattle.braid_sync.specs.declared.hear.Heard.TheVariants as heards;
ghost use Rattle.braid_sync.specs.Hearing.{HaveAll};
ghost use Rattle.braid_sync.specs.Steps.{StreamsOn, IsGoing, StreamsNext, AtHand, AtEnd, Refills, Fails, Costs};

use crate::piece::{Ended, Piece, ROOM};
use braid_change::Update;
use braid_frame::FrameFault;
use braid_http::{Body, BodyKind, BodyState, Wire};
use braid_io::{Link, Read};
use braid_stream::{Next, UpdateReader};
use std::alloc::Global;

/// What comes next of a subscription's body.
#[derive(Drop)]
pub enum Heard {
    /// The next update of its data.
    Update(Update),
    /// The body is whole, and its data is a stream that holds no further update.
    Whole,
    /// The body is whole and its data ends within an update, or the source ended before the body was whole.
    Cut,
    /// The bytes begin no chunked body.
    BadChunk,
    /// The data is no stream.
    Fault(FrameFault),
    /// A read failed.
    ReadFault,
    /// The most bytes of a stream were read.
    Spent,
    /// There was no memory.
    Memory,
}

/// The body of a subscription's reply, as a stream of updates. It keeps at most 16,384 bytes of it, and the begun update.
#[derive(Drop)]
pub struct Stream {
    pub(crate) wire: Wire,
    pub(crate) body: Body,
    pub(crate) reader: UpdateReader,
    pub(crate) piece: Piece,
}

impl Stream {
    /// The stream of a body of this kind, which begins where the wire stands. It takes no memory.
    pub fn new(alloc: Global, wire: Wire, kind: BodyKind) -> Stream
        requires going { wire.over ≡ None }
        ensures wire { result.wire ≡ wire }
        ensures kind { result.body.kind ≡ kind }
        ensures going { StreamsOn result.wire result.body result.reader result.piece [] [] [] }
    {
        Stream {
            wire,
            body: Body::new(kind),
            reader: UpdateReader::new(alloc),
            piece: Piece::new(),
        }
    }

    /// The next update, or why there is none. It reads from the link only where the data at hand holds no answer.
    ///
    /// After any answer but `Update` it is not to be called again.
    pub fn next<K: Link>(&mut self, link: &mut K) -> Heard
        requires going { IsGoing self.old }
        ensures hears { (us : List UpdateView) (content passed : List ℕ)
            → StreamsOn self.old.wire self.old.body self.old.reader self.old.piece us content passed
            → StreamsNext result self.old self.new us content passed (K.intake link.old) (K.intake link.new)
            (K.outflow link.old) (K.outflow link.new) }
        ensures kind { self.new.body.kind ≡ self.old.body.kind }
        ensures costs { (u : UpdateView) → result ≡ heards.Update u → Costs self.old.reader self.new.reader }
    {
        'hearing: loop {
            if let Some(heard) = self.at_hand() {
                return heard;
            }
            if let Some(heard) = self.refill(link) {
                return heard;
            }
        }
    }

    /// The answer that the data at hand holds; `None` where it holds none, and all of it is taken.
    fn at_hand(&mut self) -> Option<Heard>
        ensures hears { (us : List UpdateView) (taken : List ℕ) → HasTaken us self.old.reader taken
            → GoesOn self.old.reader
            → AtHand result self.old.reader self.new.reader self.new.piece us taken (taken ++ self.old.piece.left) }
        ensures body { self.new.body ≡ self.old.body }
        ensures wire { self.new.wire ≡ self.old.wire }
    {
        match self.reader.next(&mut self.piece) {
            Next::Update(update) => Some(Heard::Update(update)),
            Next::ReadFault => {
                // The piece is used up: its bytes are read so that a proof learns it.
                let _none = self.piece.left();
                None
            }
            Next::Fault(fault) => Some(Heard::Fault(fault)),
            Next::Spent => Some(Heard::Spent),
            Next::Memory => Some(Heard::Memory),
            // A piece has no end.
            Next::End => Some(Heard::Whole),
            Next::Torn { .. } => Some(Heard::Cut),
        }
    }

    /// Takes the next data of the body for the piece, where that is used up; `None` where some has come.
    fn refill<K: Link>(&mut self, link: &mut K) -> Option<Heard>
        ensures hears { (us : List UpdateView) (content passed : List ℕ)
            → StreamsOn self.old.wire self.old.body self.old.reader self.old.piece us content passed
            → self.old.piece.left ≡ [] → HaveAll us content
            → Refills result self.old self.new us content passed (K.intake link.old) (K.intake link.new)
            (K.outflow link.old) (K.outflow link.new) }
        ensures kind { self.new.body.kind ≡ self.old.body.kind }
        ensures reader { result ≡ None → self.new.reader ≡ self.old.reader }
    {
        let mut buffer = [0; ROOM];
        match self.body.read(&mut self.wire, link, &mut buffer) {
            Read::Got(count) => {
                self.piece = Piece::of(buffer, count);
                None
            }
            Read::End => Some(self.last()),
            Read::Failed => Some(failed(self.body.state())),
        }
    }

    /// The answer at the end of the body, all of whose data was taken and holds no further update and no fault.
    fn last(&mut self) -> Heard
        ensures hears { (us : List UpdateView) (content : List ℕ) → HasTaken us self.old.reader content
            → GoesOn self.old.reader
            → HaveAll us content → AtEnd result us content }
        ensures body { self.new.body ≡ self.old.body }
        ensures wire { self.new.wire ≡ self.old.wire }
    {
        let mut nothing = Ended;
        match self.reader.next(&mut nothing) {
            Next::End => Heard::Whole,
            Next::Torn { .. } => Heard::Cut,
            Next::Memory => Heard::Memory,
            // There is no further update, no fault and no failed read.
            Next::Update(update) => Heard::Update(update),
            Next::Fault(fault) => Heard::Fault(fault),
            Next::ReadFault => Heard::ReadFault,
            Next::Spent => Heard::Spent,
        }
    }
}

/// Why a read of a body failed.
fn failed(state: BodyState) -> Heard
    ensures fails { Fails result state }
{
    match state {
        BodyState::BadChunk => Heard::BadChunk,
        BodyState::SourceFailed => Heard::ReadFault,
        // A read that fails leaves no other state.
        BodyState::Torn | BodyState::Open | BodyState::Done => Heard::Cut,
    }
}
