//! The state that is kept under a name: loading it with its replica, and keeping it.

ghost use Rattle.std.specs.Prelude.{◌≡◌, ◌≤◌, ◌<◌, ◌-◌, ◌+◌, ◌^◌, length, take, drop, IfOk, IfErr, IsErrOf};
ghost use Rattle.braid_outbox.specs.Replicas.{all_of};
ghost use Rattle.braid_state.specs.States.{state_text};
ghost use Rattle.braid_sync.specs.Opening.{IsPlace};
ghost use Rattle.braid_client.specs.Runs.{state_of};
ghost use Rattle.braid_client.specs.Steps.{GivesBytes, GivesNothing, LoadsKept, SpellsKept, IsUnusable, IsKeptOf, IsNoReplica, KeepsAs};

use crate::fault::Fault;
use braid_change::{ListUpdate, Update};
use braid_ids::{Bytes, Memory, Word};
use braid_io::{Keeper, Loaded, Saved};
use braid_outbox::{BadReplica, Replica};
use braid_state::{State, StateFault, read_state, write_state};
use braid_sync::Place;
use std::alloc::Global;

/// A kept state in use: where its text is, and its replica.
#[derive(Drop)]
pub struct Kept {
    pub place: Place,
    pub replica: Replica,
}

/// What is kept under a name.
///
/// Errors: `NoState`, `LoadFault` or `Memory`.
fn load_bytes<K: Keeper>(alloc: Global, name: &Word, keeper: &mut K) -> Result<Bytes, Fault>
    ensures gives { GivesBytes name.now result (K.keeping keeper.old) (K.keeping keeper.new) }
{
    match keeper.load(alloc, name) {
        Loaded::Bytes(bytes) => Ok(bytes),
        Loaded::Nothing => Err(Fault::NoState),
        Loaded::Failed => Err(Fault::LoadFault),
        Loaded::Memory => Err(Fault::Memory),
    }
}

/// That nothing is kept under a name.
///
/// Errors: `Exists`, `LoadFault` or `Memory`.
pub(crate) fn load_nothing<K: Keeper>(
    alloc: Global,
    name: &Word,
    keeper: &mut K,
) -> Result<(), Fault>
    ensures gives { GivesNothing name.now result (K.keeping keeper.old) (K.keeping keeper.new) }
{
    match keeper.load(alloc, name) {
        Loaded::Nothing => Ok(()),
        Loaded::Bytes(_) => Err(Fault::Exists),
        Loaded::Failed => Err(Fault::LoadFault),
        Loaded::Memory => Err(Fault::Memory),
    }
}

/// The state that is kept under a name, with its replica.
///
/// Errors: `NoState`, `LoadFault`, `BadState`, `BadEntry` or `Memory`.
pub(crate) fn load_kept<K: Keeper>(
    alloc: Global,
    name: &Word,
    keeper: &mut K,
) -> Result<Kept, Fault>
    ensures loads { LoadsKept name.now result (K.keeping keeper.old) (K.keeping keeper.new) }
{
    let bytes = load_bytes(alloc, name, keeper)?;
    read_kept(alloc, bytes.get())
}

/// The state that bytes spell, with its replica.
///
/// Errors: `BadState`, `BadEntry` or `Memory`.
fn read_kept(alloc: Global, bytes: &[u8]) -> Result<Kept, Fault>
    ensures ok { IfOk result (λ kept. SpellsKept kept bytes.now) }
    ensures fault { IfErr result (λ fault. IsUnusable bytes.now fault) }
{
    match read_state(alloc, bytes) {
        Ok(state) => kept_of(alloc, state),
        Err(StateFault::BadState { at }) => Err(Fault::BadState { at }),
        Err(StateFault::Memory) => Err(Fault::Memory),
    }
}

/// A state in use. Its updates are copied.
///
/// Errors: `BadEntry` or `Memory`.
fn kept_of(alloc: Global, state: State) -> Result<Kept, Fault>
    requires few { length state.confirmed + length state.unsent < 2 ^ 32 }
    ensures ok { IfOk result (λ kept. IsKeptOf state kept) }
    ensures fault { IfErr result (λ fault. IsNoReplica state fault) }
{
    let State {
        agent,
        server,
        path,
        confirmed,
        unsent,
    } = state;
    let confirmed = copies(alloc, confirmed.get())?;
    let unsent = copies(alloc, unsent.get())?;
    match Replica::of(alloc, agent, confirmed, unsent) {
        Ok(replica) => Ok(Kept {
            place: Place { server, path },
            replica,
        }),
        Err(BadReplica::Entry { n }) => Err(Fault::BadEntry { n }),
        Err(BadReplica::Memory) => Err(Fault::Memory),
    }
}

/// The same updates once more.
fn copies(alloc: Global, updates: &[Update]) -> Result<Vec<Update>, Memory>
    ensures ok { IfOk result (λ copies. copies.items ≡ updates.now) }
{
    let mut copies = Vec::new(alloc);
    for update in updates {
        copies.push(update.copy(alloc)?)?;
    }
    Ok(copies)
}

/// Keeps the state of a replica of a text at a place under a name, in place of what stood there.
///
/// Errors: `SaveFault` or `Memory`.
pub(crate) fn keep<K: Keeper>(
    alloc: Global,
    name: &Word,
    place: &Place,
    replica: &Replica,
    keeper: &mut K,
) -> Result<(), Fault>
    requires place { IsPlace place.now }
    ensures keeps { KeepsAs name.now place.now replica.now result (K.keeping keeper.old) (K.keeping keeper.new) }
{
    let bytes = state_bytes(alloc, place, replica)?;
    match keeper.save(alloc, name, &bytes) {
        Saved::Done => Ok(()),
        Saved::Failed => Err(Fault::SaveFault),
        Saved::Memory => Err(Fault::Memory),
    }
}

/// The text of the state of a replica of a text at a place. The updates are copied.
fn state_bytes(alloc: Global, place: &Place, replica: &Replica) -> Result<Bytes, Memory>
    requires place { IsPlace place.now }
    ensures ok { IfOk result (λ bytes. bytes ≡ state_text (state_of place.now replica.now)) }
{
    let confirmed = replica.confirmed();
    let all = confirmed + replica.unsent();
    let state = State {
        agent: replica.agent().copy(alloc)?,
        server: Bytes::of(alloc, place.server.get())?,
        path: Bytes::of(alloc, place.path.get())?,
        confirmed: entries(alloc, replica, 0, confirmed)?,
        unsent: entries(alloc, replica, confirmed, all)?,
    };
    write_state(alloc, &state)
}

/// Copies of a replica's updates from one number up to and without another.
fn entries(alloc: Global, replica: &Replica, from: u32, to: u32) -> Result<ListUpdate, Memory>
    requires ordered { from ≤ to }
    requires within { to ≤ length (all_of replica.now) }
    ensures ok { IfOk result (λ list. list ≡ drop from (take to (all_of replica.now))) }
{
    let mut list = Vec::new(alloc);
    for n in from..to {
        let Some(update) = replica.entry(n) else {
            unreachable!()
        };
        list.push(update.copy(alloc)?)?;
    }
    Ok(ListUpdate::of(list))
}
