ghost use Rattle.std.specs.Prelude.{◌≡◌, ◌≤◌, ◌<◌, List, ℕ, [], length, IfErr};
ghost use Rattle.braid_io.specs.Outside.{Rose, next_count};
ghost use Rattle.braid_http.specs.BodyReads.{HasRead, IsIn, Tells, IsOver, IsAnswer, GoesOn, ReadsBody, PassedAs, Ends, Takes, room};

use crate::around::{Framing, LineBegun, Passed, pass_framing};
use crate::response::BodyKind;
use crate::wire::Wire;
use braid_io::{Link, Read};

/// How far a body was read.
#[derive(Clone, Copy, Debug, PartialEq, Eq)]
pub enum BodyState {
    /// It is not whole.
    Open,
    /// It is whole.
    Done,
    /// The source ended before it was whole.
    Torn,
    /// Its bytes begin no chunked body.
    BadChunk,
    /// It is not whole, and the last read failed. A later one may succeed.
    SourceFailed,
}

/// Data that is next.
#[derive(Clone, Copy, Debug)]
pub enum Content {
    /// That of a body of a length, of which so many bytes have not come.
    Plain(u64),
    /// That of a body that ends with the connection.
    Endless,
    /// That of a chunk, of which so many bytes have not come.
    Chunk(u64),
}

/// Where the reading of a body stands.
#[derive(Clone, Copy, Debug)]
pub enum Place {
    /// Before data.
    In(Content),
    /// In what stands around data.
    Around(Framing),
}

/// Reads the body of one reply from a wire and a link that it is handed at each call.
///
/// It takes no memory. Data is given as it comes, a chunk's too: what the wire holds is copied, and else the link reads
/// into the caller's buffer. Where the wire holds nothing, the bytes around a chunk's data are read one by one, so that
/// none is read past the body.
#[derive(Drop)]
pub struct Body {
    kind: BodyKind,
    place: Place,
    line: LineBegun,
    state: BodyState,
    faults: u64,
}

impl Body {
    /// A body of this kind, of which nothing was read. It takes no memory.
    pub fn new(kind: BodyKind) -> Body
        ensures none { HasRead result [] [] }
        ensures going { GoesOn result.state result.kind }
        ensures kind { result.kind ≡ kind }
        ensures faults { result.faults ≡ 0 }
    {
        let place = match kind {
            BodyKind::Length(n) => Place::In(Content::Plain(n)),
            BodyKind::Chunked => Place::Around(Framing::Line),
            BodyKind::ToClose => Place::In(Content::Endless),
        };
        let state = match kind {
            BodyKind::Length(0) => BodyState::Done,
            _ => BodyState::Open,
        };
        Body {
            kind,
            place,
            line: LineBegun::new(),
            state,
            faults: 0,
        }
    }

    /// How far it was read. It takes no memory.
    ///
    /// `Done` exactly where the bytes passed are a whole body; `Torn` where the source ended before; `BadChunk` exactly
    /// where they are against a chunked body.
    pub fn state(&self) -> BodyState
        ensures value { result ≡ self.now.state }
        ensures tells { (content b : List ℕ) → HasRead self.now content b → Tells result self.now.kind content b }
    {
        self.state
    }

    /// How often a read has failed. It takes no memory.
    pub fn faults(&self) -> u64
        ensures value { result ≡ self.now.faults }
    {
        self.faults
    }

    /// Reads the next data into the front of a buffer, which is not empty. It takes no memory.
    ///
    /// `wire` and `link` are those of the reply at each call. `End`: the body is whole, and the wire stands behind it; or
    /// an earlier call has answered `Failed` as it was torn or had a bad chunk. `Failed`: `state` tells why, and the count
    /// of faults rose. Behind a failed read of the link the next call goes on.
    pub fn read<K: Link>(&mut self, wire: &mut Wire, link: &mut K, buf: &mut [u8]) -> Read
        requires some { 0 < length buf.old }
        ensures reads { (content b : List ℕ) → HasRead self.old content b → (IsOver self.old.state → ⊥)
            → ReadsBody result buf.new self.new content b wire.old.held wire.new.held (K.intake link.old)
            (K.intake link.new) }
        ensures answer { IsAnswer result buf.new self.old.faults self.new.faults }
        ensures again { IsOver self.old.state → (result ≡ Read.End) × (self.new ≡ self.old) × (wire.new ≡ wire.old)
            × (link.new ≡ link.old) }
        ensures kind { self.new.kind ≡ self.old.kind }
        ensures over { wire.new.over ≡ wire.old.over }
        ensures kept { K.outflow link.new ≡ K.outflow link.old }
    {
        match self.state {
            BodyState::Open | BodyState::SourceFailed => {}
            BodyState::Done | BodyState::Torn | BodyState::BadChunk => return Read::End,
        }
        let next = match self.place {
            Place::In(next) => next,
            Place::Around(framing) => {
                let passed = pass_framing(framing, &mut self.line, wire, link);
                match self.pass(passed) {
                    Ok(left) => Content::Chunk(left),
                    Err(read) => return read,
                }
            }
        };
        self.read_data(next, wire, link, buf)
    }

    /// What follows what stands around data: data of so many bytes, or the answer.
    fn pass(&mut self, passed: Passed) -> Result<u64, Read>
        ensures pass { PassedAs result passed self.old self.new }
        ensures answer { IfErr result (λ read. (buf : List ℕ) → IsAnswer read buf self.old.faults self.new.faults) }
    {
        match passed {
            Passed::Data(left) => Ok(left),
            Passed::Whole => {
                self.state = BodyState::Done;
                Err(Read::End)
            }
            Passed::Against => Err(self.fail(BodyState::BadChunk)),
            Passed::Torn(framing) => {
                self.place = Place::Around(framing);
                Err(self.fail(BodyState::Torn))
            }
            Passed::Failed(framing) => {
                self.place = Place::Around(framing);
                Err(self.fail(BodyState::SourceFailed))
            }
        }
    }

    /// Fails for this reason.
    fn fail(&mut self, state: BodyState) -> Read
        ensures failed { result ≡ Read.Failed }
        ensures value { self.new ≡ record self.old { state = state; faults = next_count self.old.faults } }
        ensures rises { (self.old.faults ≤ self.new.faults) × Rose self.old.faults self.new.faults }
    {
        self.state = state;
        self.faults = self.faults.saturating_add(1);
        Read::Failed
    }

    /// Reads data that is next.
    fn read_data<K: Link>(
        &mut self,
        next: Content,
        wire: &mut Wire,
        link: &mut K,
        buf: &mut [u8],
    ) -> Read
        requires some { 0 < length buf.old }
        ensures reads { (content b : List ℕ) → IsIn self.old.kind next self.old.line content b
            → ReadsBody result buf.new self.new content b wire.old.held wire.new.held (K.intake link.old)
            (K.intake link.new) }
        ensures answer { IsAnswer result buf.new self.old.faults self.new.faults }
        ensures kind { self.new.kind ≡ self.old.kind }
        ensures over { wire.new.over ≡ wire.old.over }
        ensures kept { K.outflow link.new ≡ K.outflow link.old }
    {
        let n = room(next, buf.len());
        if n == 0 {
            return Read::End;
        }
        match wire.next_bytes(link, &mut buf[..n]) {
            Read::Got(n) => {
                self.take(next, n as u64);
                Read::Got(n)
            }
            Read::End => self.end(next),
            Read::Failed => {
                self.place = Place::In(next);
                self.fail(BodyState::SourceFailed)
            }
        }
    }

    /// The source has ended where data was next.
    fn end(&mut self, next: Content) -> Read
        ensures ends { Ends result next self.old self.new }
        ensures answer { (buf : List ℕ) → IsAnswer result buf self.old.faults self.new.faults }
    {
        if let Content::Endless = next {
            self.state = BodyState::Done;
            return Read::End;
        }
        self.fail(BodyState::Torn)
    }

    /// Takes over that so many bytes of data have come.
    fn take(&mut self, next: Content, n: u64)
        ensures takes { Takes next n self.old self.new }
    {
        self.state = BodyState::Open;
        self.place = match next {
            Content::Plain(left) if left <= n => {
                self.state = BodyState::Done;
                Place::In(next)
            }
            Content::Plain(left) => Place::In(Content::Plain(left - n)),
            Content::Endless => Place::In(next),
            Content::Chunk(left) if left <= n => Place::Around(Framing::Behind),
            Content::Chunk(left) => Place::In(Content::Chunk(left - n)),
        };
    }
}

/// How many bytes of data may be read into a buffer of a length.
fn room(next: Content, len: usize) -> usize
    ensures room { result ≡ room next len }
{
    match next {
        Content::Plain(left) | Content::Chunk(left) => len.min(left as usize),
        Content::Endless => len,
    }
}
