//! The commands that need no server.

ghost use Rattle.std.specs.Prelude.{◌≡◌, ◌<◌, ◌^◌, true, length, IfOk, IfErr, OnOk};
ghost use Rattle.braid_change.specs.Changes.{patches_of};
ghost use Rattle.braid_text.specs.Rooms.{replica_limits};
ghost use Rattle.braid_outbox.specs.Writes.{additions, is_written, write};
ghost use Rattle.braid_sync.specs.Opening.{IsPlace};
ghost use Rattle.braid_client.specs.Texts.{wrote_text};
ghost use Rattle.braid_client.specs.Runs.{MakesState, WritesChange, ShowsState};
ghost use Rattle.braid_client.specs.Steps.{IsUnwritten};

use crate::fault::Fault;
use crate::keeping::{keep, load_kept, load_nothing};
use crate::lines::{new_text, show_text, wrote_text};
use crate::report::Report;
use braid_change::Change;
use braid_ids::{Agent, Bytes, Word};
use braid_io::{Keeper, Status};
use braid_outbox::{Replica, WriteFault};
use braid_sync::Place;
use std::alloc::Global;

/// `new`: keeps the state of an agent without updates, for a text at a place, where nothing is kept under the name.
///
/// What is to be printed is made before, so that nothing is kept where there was no memory. So it is in each command.
pub(crate) fn make<K: Keeper>(
    alloc: Global,
    name: &Word,
    place: &Place,
    agent: Agent,
    keeper: &mut K,
) -> Result<Report, Fault>
    requires place { IsPlace place.now }
    ensures makes { MakesState name.now place.now agent (K.keeping keeper.old) (K.keeping keeper.new) result }
{
    load_nothing(alloc, name, keeper)?;
    let text = new_text(alloc, &agent)?;
    keep(alloc, name, place, &Replica::new(alloc, agent), keeper)?;
    Ok(Report {
        text,
        status: Status::Done,
    })
}

/// `edit` and `set`: writes a change as the newest unsent update of the state that is kept under the name.
pub(crate) fn write<K: Keeper>(
    alloc: Global,
    name: &Word,
    change: Change,
    keeper: &mut K,
) -> Result<Report, Fault>
    requires counted { length (patches_of change) < 2 ^ 32 }
    ensures writes { WritesChange name.now change (K.keeping keeper.old) (K.keeping keeper.new) result }
{
    let mut kept = load_kept(alloc, name, keeper)?;
    let text = write_change(alloc, &mut kept.replica, change)?;
    keep(alloc, name, &kept.place, &kept.replica, keeper)?;
    Ok(Report {
        text,
        status: Status::Done,
    })
}

/// Writes a change, and answers the lines of the updates that were added.
///
/// Errors: `Write` with why it is not written, or `Memory`.
fn write_change(alloc: Global, replica: &mut Replica, change: Change) -> Result<Bytes, Fault>
    requires counted { length (patches_of change) < 2 ^ 32 }
    ensures due { OnOk result (is_written replica_limits replica.old change ≡ true) }
    ensures written { OnOk result (replica.new ≡ write replica_limits replica.old change) }
    ensures ok { IfOk result (λ text. text ≡ wrote_text (additions replica.old change)) }
    ensures fault { IfErr result (λ fault. IsUnwritten replica.old change fault) }
{
    let from = replica.confirmed() + replica.unsent();
    match replica.write(alloc, change) {
        Ok(_) => Ok(wrote_text(alloc, replica, from)?),
        Err(WriteFault::Memory) => Err(Fault::Memory),
        Err(fault) => Err(Fault::Write(fault)),
    }
}

/// `show`: what the state has that is kept under the name.
pub(crate) fn show<K: Keeper>(alloc: Global, name: &Word, keeper: &mut K) -> Result<Report, Fault>
    ensures shows { ShowsState name.now (K.keeping keeper.old) (K.keeping keeper.new) result }
{
    let kept = load_kept(alloc, name, keeper)?;
    let text = show_text(alloc, kept.place.path.get(), &kept.replica)?;
    Ok(Report {
        text,
        status: Status::Done,
    })
}
