ghost use Rattle.std.specs.Prelude.{◌≡◌, ◌<◌, [], List, ℕ, false, true, length};
ghost use Rattle.braid_frame.specs.Buffers.{BufferView, Puts, IsWritten};

use crate::pending::Pending;
use braid_change::Outlet;
use braid_io::{Sink, WriteEnd, write_all};

/// A sink behind a buffer of 8,192 bytes: what is put waits there until more comes than it has room for, or the end.
///
/// Once a write has failed nothing more is put, up to the end, which tells of it. It takes no memory.
#[derive(Drop)]
pub struct Buffered<'a, S: Sink> {
    sink: &'a mut S,
    held: Pending,
    failed: bool,
}

impl<'a, S: Sink> Buffered<'a, S> {
    /// An empty buffer before a sink, which it borrows until it is dropped.
    pub fn new(sink: &'a mut S) -> Buffered<'a, S>
        ensures same_sink { result.sink.ghost_name ≡ sink.entry.ghost_name }
        ensures sink { result.sink.now ≡ sink.old }
        ensures none { result.held ≡ [] }
        ensures sound { result.failed ≡ false }
    {
        Buffered {
            sink,
            held: Pending::new(),
            failed: false,
        }
    }

    /// Writes what waits. All that was put since the buffer was empty and no write had failed is then written; or a
    /// front of it, and the sink's count of faults rose.
    ///
    /// Errors: `WriteFault` where a write has failed; it never answers `Memory`.
    pub fn end(&mut self) -> Result<(), WriteEnd>
        ensures same_sink { self.new.sink.ghost_name ≡ self.old.sink.ghost_name }
        ensures kept { S.beside_writes self.new.sink.now ≡ S.beside_writes self.old.sink.now }
        ensures written { (bytes : List ℕ) (first : BufferView) → first.held ≡ [] → first.failed ≡ false
            → Puts bytes first (record {
              held = self.old.held;
              failed = self.old.failed;
              outflow = S.outflow self.old.sink.now;
            })
            → IsWritten result bytes first.outflow (S.outflow self.new.sink.now) }
    {
        self.flush();
        if self.failed {
            Err(WriteEnd::WriteFault)
        } else {
            Ok(())
        }
    }

    /// Writes what waits, where no write has failed.
    fn flush(&mut self)
        ensures same_sink { self.new.sink.ghost_name ≡ self.old.sink.ghost_name }
        ensures kept { S.beside_writes self.new.sink.now ≡ S.beside_writes self.old.sink.now }
        ensures puts { Puts [] (record {
          held = self.old.held;
          failed = self.old.failed;
          outflow = S.outflow self.old.sink.now;
        })
            (record { held = self.new.held; failed = self.new.failed; outflow = S.outflow self.new.sink.now }) }
        ensures none { self.new.failed ≡ false → self.new.held ≡ [] }
    {
        if self.failed {
            return;
        }
        match write_all(self.held.get(), self.sink) {
            Ok(()) => self.held.clear(),
            Err(_) => self.failed = true,
        }
    }

    /// Makes room where there is none; whether there is some and no write has failed.
    fn make_room(&mut self) -> bool
        ensures same_sink { self.new.sink.ghost_name ≡ self.old.sink.ghost_name }
        ensures kept { S.beside_writes self.new.sink.now ≡ S.beside_writes self.old.sink.now }
        ensures puts { Puts [] (record {
          held = self.old.held;
          failed = self.old.failed;
          outflow = S.outflow self.old.sink.now;
        })
            (record { held = self.new.held; failed = self.new.failed; outflow = S.outflow self.new.sink.now }) }
        ensures some { result ≡ true → (self.new.failed ≡ false) × (length self.new.held < 8_192) }
        ensures failed { result ≡ false → self.new.failed ≡ true }
    {
        if self.held.is_full() {
            self.flush();
        }
        !self.failed
    }
}

impl<'a, S: Sink> Outlet for Buffered<'a, S> {
    ghost use Rattle.braid_frame.specs.Buffers.{Puts};
    ghost use Rattle.std.proofs.Common.{refl, ◌∙◌};
    ghost use Rattle.braid_frame.specs.BufferLaws.{puts_none, puts_more};

    ghost puts = { λ bytes old new.
        Puts bytes (record { held = old.held; failed = old.failed; outflow = S.outflow old.sink.now })
        (record { held = new.held; failed = new.failed; outflow = S.outflow new.sink.now })
        × (S.beside_writes new.sink.now ≡ S.beside_writes old.sink.now)
        × (new.sink.ghost_name ≡ old.sink.ghost_name) };

    ghost none = { λ x. (puts_none x.held x.failed (S.outflow x.sink.now), refl, refl) };

    ghost more = { λ a b x y z p q. (puts_more a b _ _ _ p.0 q.0, q.1 ∙ p.1, q.2 ∙ p.2) };

    fn put(&mut self, piece: &[u8]) {
        let mut rest = piece;
        'filling: while !rest.is_empty() {
            if !self.make_room() {
                return;
            }
            let count = self.held.add(rest);
            rest = &rest[count..];
        }
    }
}
