//! The parts of an answer to an update.

ghost use Rattle.std.specs.Prelude.{◌≡◌, ◌<◌, ◌^◌};
ghost use Rattle.braid_ids.specs.Identifiers.{IsIdentifier};
ghost use Rattle.braid_ids.specs.Frontiers.{IsRising};
ghost use Rattle.braid_change.specs.Updates.{IsBuilt};
ghost use Rattle.braid_text.specs.Refusals.{first_full};
ghost use Rattle.braid_text.specs.Puts.{total_len};
ghost use Rattle.braid_text.specs.Judging.{IsHeldAnswer, NamesParent};
ghost use Rattle.braid_text.specs.declared.accept.Accept.TheVariants.{Known, Full};

use crate::accept::Accept;
use crate::room::{Room, Which};
use braid_change::Update;
use braid_ids::Id;
use braid_rebase::Run;
use std::alloc::Global;

/// The answer where an update with the identifier is held.
pub fn answer_held(alloc: Global, held: &Update, update: &Update) -> Accept
    ensures answer { IsHeldAnswer held.now update.now result }
    ensures known { held.now ≡ update.now → result ≡ Known }
{
    if held.same(update) {
        return Accept::Known;
    }
    match update.id().copy(alloc) {
        Ok(id) => Accept::Clash { id },
        Err(_) => Accept::Memory,
    }
}

/// The answer that names a parent which is not held.
pub fn unknown_parent(alloc: Global, id: &Id) -> Accept
    ensures names { NamesParent id.now result }
{
    match id.copy(alloc) {
        Ok(id) => Accept::UnknownParent { id },
        Err(_) => Accept::Memory,
    }
}

/// The first count of which more is needed than there is room.
pub fn first_full(need: &Room, room: &Room) -> Option<Accept>
    ensures full { result ≡ first_full need.now room.now }
{
    if need.versions > room.versions {
        return Some(full(Which::Versions, need.versions, room.versions));
    }
    if need.elements > room.elements {
        return Some(full(Which::Elements, need.elements, room.elements));
    }
    if need.deletions > room.deletions {
        return Some(full(Which::Deletions, need.deletions, room.deletions));
    }
    if need.width > room.width {
        return Some(full(Which::Width, need.width, room.width));
    }
    None
}

fn full(which: Which, need: u64, room: u64) -> Accept
    ensures full { result ≡ Full which need room }
{
    Accept::Full { which, need, room }
}

/// Each update has an identifier, rising parents and the shape of a built one: a proof learns it where they are read.
pub fn read_parts(update: &Update)
    ensures named { IsIdentifier update.now.id }
    ensures rising { IsRising update.now.parents }
    ensures built { IsBuilt update.now.parents update.now.change }
{
    let _bytes = update.id().bytes();
    let _len = update.parents().len();
}

/// How many characters runs insert.
pub fn total_len(runs: &[Run]) -> u32
    requires few { total_len runs.now < 2 ^ 32 }
    ensures len { result ≡ total_len runs.now }
{
    let mut len = 0;
    for run in runs {
        len += run.text.chars().len() as u32;
    }
    len
}
