ghost use Rattle.std.specs.Prelude.{◌≡◌, ◌<◌, List, ℕ, [], None, length};
ghost use Rattle.braid_io.specs.Outside.{Reads};
ghost use Rattle.braid_http.specs.BodyReads.{HasRead, Tells, IsOver, ReadsBody};

use crate::body::{Body, BodyState};
use crate::response::BodyKind;
use crate::wire::Wire;
use braid_io::{Link, Read, Source};

/// A source of the data of one body, over a wire and a link that it borrows until it is dropped.
///
/// It tells its count of faults, and no contents; what a read of it does to the wire and the link stands in a clause of
/// its own. So what both hold is known once it is dropped, if it was read by calls of its own. A call that is generic over
/// sources says nothing of what they borrow: a caller that wants to know reads a `Body`. A body that is torn or has a bad
/// chunk answers `Failed` once, and `End` after that. It takes no memory.
#[derive(Drop)]
pub struct BodyReader<'b, K: Link> {
    wire: &'b mut Wire,
    link: &'b mut K,
    body: Body,
}

impl Wire {
    /// A reader of the body behind a reply's head, which begins with the bytes that the wire holds. It takes no memory.
    pub fn body<'b, K: Link>(&'b mut self, link: &'b mut K, kind: BodyKind) -> BodyReader<'b, K>
        ensures same_wire { result.wire.ghost_name ≡ self.entry.ghost_name }
        ensures same_link { result.link.ghost_name ≡ link.entry.ghost_name }
        ensures wire { result.wire.now ≡ self.old }
        ensures link { result.link.now ≡ link.old }
        ensures none { HasRead result.body [] [] }
        ensures kind { result.body.kind ≡ kind }
        ensures faults { result.body.faults ≡ 0 }
    {
        BodyReader {
            wire: self,
            link,
            body: Body::new(kind),
        }
    }
}

impl<'b, K: Link> BodyReader<'b, K> {
    /// How far the body was read. It takes no memory.
    pub fn state(&self) -> BodyState
        ensures value { result ≡ self.now.body.state }
        ensures tells { (content b : List ℕ) → HasRead self.now.body content b
            → Tells result self.now.body.kind content b }
    {
        self.body.state()
    }
}

impl<'b, K: Link> Source for BodyReader<'b, K> {
    ghost intake = { λ reader. record { taken = None; left = None; faults = reader.body.faults } };

    ghost beside_reads = { λ reader. K.outflow reader.link.now };

    fn read(&mut self, buf: &mut [u8]) -> Read
        requires some { 0 < length buf.old }
        ensures read { Reads result buf.new (record { taken = None; left = None; faults = self.old.body.faults })
            (record { taken = None; left = None; faults = self.new.body.faults }) }
        ensures kept { K.outflow self.new.link.now ≡ K.outflow self.old.link.now }
        ensures same_wire { self.new.wire.ghost_name ≡ self.old.wire.ghost_name }
        ensures same_link { self.new.link.ghost_name ≡ self.old.link.ghost_name }
        ensures body { (content b : List ℕ) → HasRead self.old.body content b → (IsOver self.old.body.state → ⊥)
            → ReadsBody result buf.new self.new.body content b self.old.wire.now.held self.new.wire.now.held
            (K.intake self.old.link.now) (K.intake self.new.link.now) }
        ensures again { IsOver self.old.body.state → (result ≡ Read.End) × (self.new.body ≡ self.old.body)
            × (self.new.wire.now ≡ self.old.wire.now) × (self.new.link.now ≡ self.old.link.now) }
        ensures kind { self.new.body.kind ≡ self.old.body.kind }
        ensures over { self.new.wire.now.over ≡ self.old.wire.now.over }
    {
        self.body.read(self.wire, self.link, buf)
    }
}
