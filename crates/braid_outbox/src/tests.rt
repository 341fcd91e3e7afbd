//! Updates that a replica is given to learn, and what it tells then.

ghost use Rattle.std.specs.Prelude.{◌<◌, ◌^◌, IfOk, length};
ghost use Rattle.braid_change.specs.Changes.{patches_of};

use super::*;
use braid_change::{Change, ListPatch, Patch, Text, Update};
use braid_ids::{Agent, Frontier, Id};
use std::alloc::Global;
use std::test::Fail;

/// What an update does: a whole body, one patch, or no patch.
#[derive(Clone, Copy)]
pub enum Edit<'a> {
    Body(&'a str),
    Patch(u32, u32, &'a str),
    Nothing,
}

/// The answer that is wanted.
#[derive(Clone, Copy)]
pub enum Want<'a> {
    New,
    Confirmed,
    Known,
    Clash(&'a str),
    Unknown(&'a str),
    Past(u32, u32),
}

/// An update that is given: its name, its parents, what it does, and the answer that is wanted.
#[derive(Clone, Copy)]
pub struct Offer<'a> {
    name: &'a str,
    parents: &'a str,
    edit: Edit<'a>,
    want: Want<'a>,
}

pub fn make_offer<'a>(
    name: &'a str,
    parents: &'a str,
    edit: Edit<'a>,
    want: Want<'a>,
) -> Offer<'a> {
    Offer {
        name,
        parents,
        edit,
        want,
    }
}

pub fn check(holds: bool, what: &'static str) -> Result<(), Fail> {
    if holds { Ok(()) } else { Err(what.into()) }
}

/// The set of the names between spaces.
pub fn names_of(alloc: Global, names: &str) -> Result<Frontier, Fail> {
    let mut ids = Vec::new(alloc);
    for name in names.split_ascii_whitespace() {
        ids.push(Id::read(alloc, name.as_bytes())?)?;
    }
    if ids.len() > 100 {
        return Err("too many names".into());
    }
    Ok(Frontier::of(ids)?)
}

pub fn change_of(alloc: Global, edit: Edit<'_>) -> Result<Change, Fail>
    ensures few { IfOk result (λ change. length (patches_of change) < 2 ^ 32) }
{
    match edit {
        Edit::Body(text) => Ok(Change::Body(Text::read(alloc, text.as_bytes())?)),
        Edit::Patch(start, end, text) => {
            let text = Text::read(alloc, text.as_bytes())?;
            let patch = Patch { start, end, text };
            Ok(Change::Patches(ListPatch::of(vec![in alloc; patch]?)))
        }
        Edit::Nothing => Ok(Change::Patches(ListPatch::of(Vec::new(alloc)))),
    }
}

pub fn update_of(alloc: Global, row: &Offer<'_>) -> Result<Update, Fail> {
    let id = Id::read(alloc, row.name.as_bytes())?;
    let parents = names_of(alloc, row.parents)?;
    let change = change_of(alloc, row.edit)?;
    if change.patches().len() > 9 {
        return Err("too many patches".into());
    }
    Ok(Update::build(id, parents, change)?)
}

pub fn is_answer(answer: &Learn, want: Want<'_>) -> bool {
    match (answer, want) {
        (Learn::New, Want::New) => true,
        (Learn::Confirmed, Want::Confirmed) => true,
        (Learn::Known, Want::Known) => true,
        (Learn::Clash { id }, Want::Clash(name)) => id.bytes() == name.as_bytes(),
        (Learn::UnknownParent { id }, Want::Unknown(name)) => id.bytes() == name.as_bytes(),
        (Learn::OutOfRange { patch, len }, Want::Past(n, end)) => *patch == n && *len == end,
        _ => false,
    }
}

/// A replica of agent `a` that was given these updates, each with the answer that is wanted.
pub fn given(alloc: Global, rows: &[Offer<'_>]) -> Result<Replica, Fail> {
    let mut replica = Replica::new(alloc, Agent::read(alloc, b"a")?);
    give(alloc, &mut replica, rows)?;
    Ok(replica)
}

/// Gives these updates to a replica, each with the answer that is wanted.
fn give(alloc: Global, replica: &mut Replica, rows: &[Offer<'_>]) -> Result<(), Fail> {
    for row in rows {
        let update = update_of(alloc, row)?;
        let answer = replica.learn(alloc, update);
        check(is_answer(&answer, row.want), "the answer")?;
    }
    Ok(())
}

/// Whether a replica holds the updates of these names.
fn holds_names(alloc: Global, replica: &Replica, names: &str) -> Result<bool, Fail> {
    let names = names_of(alloc, names)?;
    Ok(replica.holds(&names))
}

/// Whether a replica has this text.
fn has_text(alloc: Global, replica: &Replica, text: &[u8]) -> Result<bool, Fail> {
    let text = Text::read(alloc, text)?;
    Ok(replica.body(alloc)?.same(&text))
}

/// Whether a replica has three confirmed updates, two of them heads, from which it resumes, and their text.
fn stands_at_two(alloc: Global, replica: &Replica) -> Result<[bool; 4], Fail> {
    let counts = replica.confirmed() == 3 && replica.unsent() == 0;
    let heads = holds_names(alloc, replica, "p-1 q-1")?;
    let resumes = replica.resume(alloc)?.len() == 2;
    let text = has_text(alloc, replica, b"aQPb")?;
    Ok([counts, heads, resumes, text])
}

#[test]
fn a_replica_learns_what_stands_on_confirmed_updates(rt: HostRuntime) -> Result<(), Fail> {
    let alloc = rt.alloc();
    let rows = [
        make_offer("x-1", "", Edit::Body("ab"), Want::New),
        make_offer("x-1", "", Edit::Body("ab"), Want::Known),
        make_offer("x-1", "", Edit::Body("ho"), Want::Clash("x-1")),
        make_offer("y-1", "x-1 z-1", Edit::Nothing, Want::Unknown("z-1")),
        make_offer("y-1", "x-1", Edit::Patch(0, 3, "J"), Want::Past(0, 2)),
        make_offer("p-1", "x-1", Edit::Patch(1, 1, "P"), Want::New),
        make_offer("q-1", "x-1", Edit::Patch(1, 1, "Q"), Want::New),
    ];
    let replica = given(alloc, &rows)?;
    let stands = stands_at_two(alloc, &replica)?;
    check(stands == [true; 4], "counts, heads, where it resumes, text")
}

#[test]
fn an_unsent_version_is_learnt_as_the_same_alone(rt: HostRuntime) -> Result<(), Fail> {
    let alloc = rt.alloc();
    let mut replica = given(alloc, &[make_offer("x-1", "", Edit::Body("ab"), Want::New)])?;
    let _id = replica.write(alloc, change_of(alloc, Edit::Patch(1, 1, "P"))?)?;
    let rows = [
        make_offer("a-1", "x-1", Edit::Patch(1, 1, "Q"), Want::Clash("a-1")),
        make_offer("y-1", "a-1 x-1", Edit::Nothing, Want::Unknown("a-1")),
        make_offer("a-1", "x-1", Edit::Patch(1, 1, "P"), Want::Confirmed),
        make_offer("y-1", "a-1", Edit::Nothing, Want::New),
    ];
    give(alloc, &mut replica, &rows)?;
    check(
        replica.confirmed() == 3 && replica.unsent() == 0,
        "the counts",
    )
}

#[test]
fn nothing_is_acknowledged_where_nothing_is_unsent(rt: HostRuntime) -> Result<(), Fail> {
    let alloc = rt.alloc();
    let rows = [make_offer("x-1", "", Edit::Body("ab"), Want::New)];
    let mut replica = given(alloc, &rows)?;
    let id = Id::read(alloc, b"x-1")?;
    check(!replica.acked(&id), "the answer")?;
    check(replica.next_out().is_none(), "nothing is to be sent")
}
