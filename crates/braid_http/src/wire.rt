ghost use Rattle.std.specs.Prelude.{◌≡◌, ◌<◌, length, [], None, OnOk, IfErr, IfSome, IfNone};
ghost use Rattle.braid_io.specs.Outside.{WritesAll, WritesPart};
ghost use Rattle.braid_http.specs.Asks.{Asks, answer_of, over_of};
ghost use Rattle.braid_http.specs.Draws.{DrawsBytes};
ghost use Rattle.braid_http.specs.Replying.{Replies, replied_of, over_of_reply};

use crate::held::Held;
use crate::reading::next_request;
use crate::request::Asked;
use crate::response::{Replied, next_reply};
use crate::stop::Stop;
use braid_io::{Link, Read, WriteEnd, write_all};
use std::alloc::Global;
use std::marker::Model;

/// How many bytes one read asks for.
const READ_SIZE: usize = 8_192;

/// What was read of a connection past its last message. It holds no link: each call takes the one that it reads.
///
/// After `Refused`, `Torn`, `ReadFault` and `Memory` a wire answers the same for good.
#[derive(Drop)]
pub struct Wire {
    held: Held,
    over: Option<Stop>,
}

impl Model for Wire {
    ghost use Rattle.braid_http.specs.Asks.{WireView};

    ghost Value = { WireView };

    ghost view = { λ a. record { held = a.held; over = a.over } };
}

impl Wire {
    /// A wire of which no byte was read. It takes no memory.
    pub fn new(alloc: Global) -> Wire
        ensures value { result ≡ record { held = []; over = None } }
    {
        Wire {
            held: Held::new(alloc),
            over: None,
        }
    }

    /// Reads one whole request, or says why there is none.
    ///
    /// It reads only while the bytes held decide nothing, and keeps those past the request. No byte is looked at more
    /// than a fixed number of times, however small the pieces are in which they come.
    ///
    /// `End`: the source ended, and no byte of a request had come. `Refused`: exactly as the bytes decide. `Torn`: the
    /// source ended inside a request. `ReadFault`: the link's count of failed reads rose. After `Refused`, `Torn`,
    /// `ReadFault` and `Memory` the answer is the same for good; nothing is read then, and no memory taken.
    pub fn ask<K: Link>(&mut self, alloc: Global, link: &mut K) -> Asked
        ensures again { IfSome self.old.over
            (λ stop. (result ≡ answer_of stop) × (self.new ≡ self.old) × (link.new ≡ link.old)) }
        ensures asks { IfNone self.old.over
            (Asks result self.old.held self.new.held (K.intake link.old) (K.intake link.new)) }
        ensures over { IfNone self.old.over (self.new.over ≡ over_of result) }
        ensures kept { K.outflow link.new ≡ K.outflow link.old }
    {
        if let Some(stop) = self.over {
            return stop.answer();
        }
        let mut buf = [0; READ_SIZE];
        match next_request(alloc, link, &mut self.held, &mut buf) {
            Ok(request) => Asked::Request(request),
            Err(stop) => {
                self.over = stop.for_good();
                stop.answer()
            }
        }
    }

    /// Reads the head of one reply, or says why there is none.
    ///
    /// It reads only while the bytes held decide nothing, and keeps those past the head. No byte is looked at more than a
    /// fixed number of times, however small the pieces are in which they come. A head has at most 524,288 bytes and 64
    /// fields; its version may be HTTP/1.0.
    ///
    /// `Refused`: exactly as the bytes decide; `Version` and `TooLong` are never answered. `Torn`: the source ended before
    /// a head was whole, perhaps before its first byte. `ReadFault`: the link's count of failed reads rose. After
    /// `Refused`, `Torn`, `ReadFault` and `Memory` the answer is the same for good; nothing is read then, and no memory
    /// taken.
    pub fn reply<K: Link>(&mut self, alloc: Global, link: &mut K) -> Replied
        ensures again { IfSome self.old.over
            (λ stop. (result ≡ replied_of stop) × (self.new ≡ self.old) × (link.new ≡ link.old)) }
        ensures replies { IfNone self.old.over
            (Replies result self.old.held self.new.held (K.intake link.old) (K.intake link.new)) }
        ensures over { IfNone self.old.over (self.new.over ≡ over_of_reply result) }
        ensures kept { K.outflow link.new ≡ K.outflow link.old }
    {
        if let Some(stop) = self.over {
            return stop.replied();
        }
        let mut buf = [0; READ_SIZE];
        match next_reply(alloc, link, &mut self.held, &mut buf) {
            Ok(head) => Replied::Head(head),
            Err(stop) => {
                self.over = Some(stop.in_reply());
                stop.replied()
            }
        }
    }

    /// The next bytes of the connection, in the front of a buffer: those held first, and else those that one read gives.
    pub(crate) fn next_bytes<K: Link>(&mut self, link: &mut K, buf: &mut [u8]) -> Read
        requires some { 0 < length buf.old }
        ensures draws { DrawsBytes result buf.new self.old.held self.new.held (K.intake link.old) (K.intake link.new) }
        ensures over { self.new.over ≡ self.old.over }
        ensures kept { K.outflow link.new ≡ K.outflow link.old }
    {
        self.held.next_bytes(link, buf)
    }

    /// Writes all the bytes to a link. It takes no memory.
    ///
    /// Errors: `WriteFault` at the first write that fails; a prefix of the bytes was then written. It never answers
    /// `Memory`.
    pub fn write<K: Link>(&self, link: &mut K, bytes: &[u8]) -> Result<(), WriteEnd>
        ensures ok { OnOk result (WritesAll bytes.now (K.outflow link.old) (K.outflow link.new)) }
        ensures err { IfErr result (λ end. (end ≡ WriteEnd.WriteFault)
            × WritesPart bytes.now (K.outflow link.old) (K.outflow link.new)) }
        ensures kept { K.intake link.new ≡ K.intake link.old }
    {
        write_all(bytes, link)
    }
}
