use braid_ids::{Agent, Bytes, Frontier, Memory};
use braid_outbox::{Learn, Replica};
use braid_store::Book;
use std::alloc::Global;

/// The digest of a path of a book: that of a replica which learns all of the path's updates.
///
/// Errors: `Memory` where there was none.
pub fn digest_of(alloc: Global, book: &Book, path: &Bytes) -> Result<[u8; 32], Memory> {
    let Ok(agent) = Agent::read(alloc, b"book") else {
        return Err(Memory);
    };
    let mut replica = Replica::new(alloc, agent);
    learn_all(alloc, book, path, &mut replica)?;
    replica.digest(alloc)
}

/// Learns all updates of a path of a book.
fn learn_all(
    alloc: Global,
    book: &Book,
    path: &Bytes,
    replica: &mut Replica,
) -> Result<(), Memory> {
    let from = Frontier::of(Vec::new(alloc))?;
    let Ok(mut cursor) = book.open(alloc, path, &from) else {
        return Err(Memory);
    };
    for _n in 0..book.len() {
        let Some(update) = book.next_for(&mut cursor) else {
            return Ok(());
        };
        if let Learn::Memory = replica.learn(alloc, update.copy(alloc)?) {
            return Err(Memory);
        }
    }
    Ok(())
}
