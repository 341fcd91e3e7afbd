ghost use Rattle.std.specs.Prelude.{◌≡◌, false, []};

use braid_hall::{Hall, Pass};
use braid_ids::Memory;
use braid_io::{Link, MemBell};
use braid_session::{SessionEnd, serve_session};
use braid_store::Book;
use std::alloc::Global;
use std::sync::Wait;

/// A book behind a hall, and the one pass that steps in there.
#[derive(Drop)]
pub struct Server {
    hall: Hall<Book>,
    pass: Pass<Book>,
    /// The pass is that of the opening, no other is away, and it is in no turn.
    ghost rests: { (pass.hall ≡ hall) × (pass.number ≡ 0) × (pass.away ≡ []) × (pass.held ≡ false) },
}

impl Server {
    /// A server whose book is empty.
    ///
    /// Errors: `Memory` where there was none.
    pub fn new(alloc: Global) -> Result<Server, Memory> {
        let (hall, pass) = Hall::open(alloc, Book::new(alloc))?;
        Ok(Server { hall, pass })
    }

    /// Serves a link by one session, to whatever end. Its bell ends at once.
    ///
    /// Errors: `Memory` where there was none for the session.
    pub fn serve<R: Wait, K: Link>(
        &mut self,
        alloc: Global,
        rt: &R,
        link: &mut K,
    ) -> Result<(), Memory> {
        let mut bell = MemBell::new(0);
        let note = serve_session(alloc, rt, &self.hall, &mut self.pass, link, &mut bell);
        match note.end {
            SessionEnd::Memory => Err(Memory),
            _ => Ok(()),
        }
    }

    /// The book. It takes no memory.
    pub fn close(self) -> Book {
        let Server { hall, pass } = self;
        hall.close(pass)
    }
}
