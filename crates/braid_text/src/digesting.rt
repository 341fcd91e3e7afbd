//! The digest of updates by rising identifier.

ghost use Rattle.std.specs.Prelude.{◌≡◌, IfOk, map};
ghost use Rattle.braid_ids.specs.Identifiers.{id_cmp};
ghost use Rattle.braid_text.specs.Histories.{IsLegal};
ghost use Rattle.braid_text.specs.Digested.{by_identifier, digest_at};

use braid_change::{Digester, Update};
use braid_ids::Memory;
use std::alloc::Global;
use std::cmp::Ordering;

/// The digest of a history's updates, by rising identifier.
///
/// It sorts references to the updates in place.
pub fn digest(alloc: Global, updates: &[Update]) -> Result<[u8; 32], Memory>
    requires legal { IsLegal updates.now }
    ensures ok { IfOk result (λ digest. digest ≡ digest_at updates.now) }
{
    let sorted = sorted(alloc, updates)?;
    let mut digester = Digester::new();
    for update in &sorted {
        digester.add(alloc, update)?;
    }
    Ok(digester.finish())
}

/// References to the updates of a history, by rising identifier.
fn sorted<'a>(alloc: Global, updates: &'a [Update]) -> Result<Vec<&'a Update>, Memory>
    requires legal { IsLegal updates.now }
    ensures ok { IfOk result (λ sorted. map (λ update. update.now) sorted.items ≡ by_identifier updates.now) }
{
    let mut sorted = Vec::with_capacity(alloc, updates.len())?;
    for update in updates {
        sorted.push(update)?;
    }
    sorted.sort_unstable_by(|one, other| compare(one, other));
    Ok(sorted)
}

/// How the identifiers of two updates compare.
fn compare(one: &Update, other: &Update) -> Ordering
    ensures order { result ≡ id_cmp one.now.id other.now.id }
{
    one.id().cmp(other.id())
}
