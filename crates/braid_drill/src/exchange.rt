ghost use Rattle.std.specs.Prelude.{◌≤◌, IfOk, length};

use crate::replies::Replies;
use crate::server::Server;
use braid_ids::{Bytes, Memory};
use braid_io::MemLink;
use std::alloc::Global;
use std::sync::Wait;

/// How many bytes a link takes each way.
pub const ROOM: usize = 8_388_608;

/// What is between the two ends of a link in memory, of which the far one is a server.
///
/// What was written waits until it is asked for bytes. Then one session serves all of it, and what that writes is to be
/// given. A cut ends what is given early; the session does not know of it.
#[derive(Drop)]
pub struct Exchange<'a, R> {
    alloc: Global,
    rt: &'a R,
    server: Server,
    /// What was written and not yet served.
    requests: Vec<u8>,
    /// How many more bytes may be written.
    request_room: usize,
    replies: Replies,
    /// How many more bytes sessions may write.
    reply_room: usize,
    /// How many more of those are given at most.
    cut: usize,
}

impl<'a, R> Exchange<'a, R> {
    /// One with nothing written. Of the replies so many bytes are given at most. It takes no memory.
    pub fn new(alloc: Global, rt: &'a R, server: Server, cut: usize) -> Exchange<'a, R> {
        Exchange {
            alloc,
            rt,
            server,
            requests: Vec::new(alloc),
            request_room: ROOM,
            replies: Replies::new(alloc),
            reply_room: ROOM,
            cut,
        }
    }

    /// Takes the first bytes of a piece: as many as there is room for. How many.
    ///
    /// Errors: `Memory` where there was none.
    pub fn take(&mut self, piece: &[u8]) -> Result<usize, Memory>
        ensures fits { IfOk result (λ n. n ≤ length piece.now) }
    {
        let n = piece.len().min(self.request_room);
        self.requests.extend_from_slice(&piece[..n])?;
        self.request_room -= n;
        Ok(n)
    }

    /// Takes what a session wrote as what is to be given, up to the cut.
    fn reply(&mut self, written: &[u8]) -> Result<(), Memory> {
        let n = written.len().min(self.cut);
        self.replies.push(&written[..n])?;
        self.cut -= n;
        self.reply_room = self.reply_room.saturating_sub(written.len());
        Ok(())
    }

    /// The server. It takes no memory.
    pub fn into_server(self) -> Server {
        self.server
    }
}

impl<'a, R: Wait> Exchange<'a, R> {
    /// Gives the next bytes into the front of `buf`, after it served what was written since it last did. How many: none
    /// where no more come.
    ///
    /// Errors: `Memory` where there was none for that.
    pub fn give(&mut self, buf: &mut [u8]) -> Result<usize, Memory>
        ensures fits { IfOk result (λ n. n ≤ length buf.new) }
    {
        if !self.requests.is_empty() {
            self.serve()?;
        }
        Ok(self.replies.give(buf))
    }

    /// Serves what was written by one session.
    fn serve(&mut self) -> Result<(), Memory> {
        let requests = Bytes::of(self.alloc, &self.requests)?;
        self.requests.clear();
        let fails = Vec::new(self.alloc);
        let mut link = MemLink::new(self.alloc, requests, ROOM, self.reply_room, fails)?;
        self.server.serve(self.alloc, self.rt, &mut link)?;
        self.reply(link.written())
    }
}
