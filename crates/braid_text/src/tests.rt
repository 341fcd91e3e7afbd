//! Updates that are offered to a resource, and what it answers and reads.

ghost use Rattle.std.specs.Prelude.{◌≡◌};

use super::*;
use braid_change::{Change, ListPatch, Patch, Text, Update};
use braid_ids::{Frontier, Id, Unknown};
use std::alloc::Global;
use std::test::Fail;

/// SHA-256 of no bytes (FIPS 180-4).
const NO_BYTES: [u8; 32] = [
    0xe3, 0xb0, 0xc4, 0x42, 0x98, 0xfc, 0x1c, 0x14, 0x9a, 0xfb, 0xf4, 0xc8, 0x99, 0x6f, 0xb9, 0x24,
    0x27, 0xae, 0x41, 0xe4, 0x64, 0x9b, 0x93, 0x4c, 0xa4, 0x95, 0x99, 0x1b, 0x78, 0x52, 0xb8, 0x55,
];

/// What an update does: a whole body, one patch, or no patch.
#[derive(Clone, Copy)]
enum Edit<'a> {
    Body(&'a str),
    Patch(u32, u32, &'a str),
    Nothing,
}

/// The answer that is wanted.
#[derive(Clone, Copy)]
enum Want<'a> {
    New,
    Known,
    Clash(&'a str),
    Unknown(&'a str),
    Past(u32, u32),
    Full(Which, u64, u64),
}

/// An update that is offered: its name, its parents, what it does, and the answer that is wanted.
#[derive(Clone, Copy)]
struct Offer<'a> {
    name: &'a str,
    parents: &'a str,
    edit: Edit<'a>,
    want: Want<'a>,
}

fn new_offer<'a>(name: &'a str, parents: &'a str, edit: Edit<'a>) -> Offer<'a> {
    Offer {
        name,
        parents,
        edit,
        want: Want::New,
    }
}

fn check(holds: bool, what: &'static str) -> Result<(), Fail> {
    if holds { Ok(()) } else { Err(what.into()) }
}

fn text_of(alloc: Global, text: &str) -> Result<Text, Fail> {
    Ok(Text::read(alloc, text.as_bytes())?)
}

/// The set of the names between spaces.
fn names_of(alloc: Global, names: &str) -> Result<Frontier, Fail> {
    let mut ids = Vec::new(alloc);
    for name in names.split_ascii_whitespace() {
        ids.push(Id::read(alloc, name.as_bytes())?)?;
    }
    if ids.len() > 100 {
        return Err("too many names".into());
    }
    Ok(Frontier::of(ids)?)
}

fn change_of(alloc: Global, edit: Edit<'_>) -> Result<Change, Fail> {
    match edit {
        Edit::Body(text) => Ok(Change::Body(text_of(alloc, text)?)),
        Edit::Patch(start, end, text) => {
            let text = text_of(alloc, text)?;
            let patch = Patch { start, end, text };
            Ok(Change::Patches(ListPatch::of(vec![in alloc; patch]?)))
        }
        Edit::Nothing => Ok(Change::Patches(ListPatch::of(Vec::new(alloc)))),
    }
}

fn update_of(alloc: Global, offer: &Offer<'_>) -> Result<Update, Fail> {
    let id = Id::read(alloc, offer.name.as_bytes())?;
    let parents = names_of(alloc, offer.parents)?;
    let change = change_of(alloc, offer.edit)?;
    if change.patches().len() > 9 {
        return Err("too many patches".into());
    }
    Ok(Update::build(id, parents, change)?)
}

fn is_answer(answer: &Accept, want: Want<'_>) -> bool {
    match (answer, want) {
        (Accept::New, Want::New) => true,
        (Accept::Known, Want::Known) => true,
        (Accept::Clash { id }, Want::Clash(name)) => id.bytes() == name.as_bytes(),
        (Accept::UnknownParent { id }, Want::Unknown(name)) => id.bytes() == name.as_bytes(),
        (Accept::OutOfRange { patch, len }, Want::Past(n, end)) => *patch == n && *len == end,
        (Accept::Full { which, need, room }, Want::Full(count, n, left)) => {
            *which == count && *need == n && *room == left
        }
        _ => false,
    }
}

/// Room for this many of each.
fn room_for(n: u64) -> Room
    ensures versions { result.versions ≡ n }
    ensures elements { result.elements ≡ n }
    ensures deletions { result.deletions ≡ n }
{
    Room {
        versions: n,
        elements: n,
        deletions: n,
        width: n,
    }
}

/// Offers an update to a small resource, and sees that the answer is the one that is wanted.
fn give(alloc: Global, resource: &mut Resource, room: u64, row: &Offer<'_>) -> Result<(), Fail> {
    if room >= 1000 {
        return Err("much room".into());
    }
    if resource.entries() >= 1000 {
        return Err("many updates".into());
    }
    if resource.elements() >= 100_000 {
        return Err("many elements".into());
    }
    if resource.deletions() >= 100_000 {
        return Err("many deletions".into());
    }
    let update = update_of(alloc, row)?;
    let before = resource.entries();
    let answer = resource.accept(alloc, update, &room_for(room));
    check(is_answer(&answer, row.want), "the answer")?;
    let more = match row.want {
        Want::New => 1,
        _ => 0,
    };
    check(resource.entries() == before + more, "the entries")
}

/// A resource that was given these updates.
fn given(alloc: Global, rows: &[Offer<'_>]) -> Result<Resource, Fail> {
    let mut resource = Resource::new(alloc);
    for row in rows {
        give(alloc, &mut resource, 100, row)?;
    }
    Ok(resource)
}

/// Whether a resource reads this text at its frontier.
fn reads(alloc: Global, resource: &Resource, want: &str) -> Result<bool, Fail> {
    let frontier = resource.frontier(alloc)?;
    let Ok(text) = resource.read(alloc, &frontier) else {
        return Ok(false);
    };
    Ok(text.same(&text_of(alloc, want)?))
}

/// Whether a resource reads this text at these versions.
fn reads_at(alloc: Global, resource: &Resource, at: &str, want: &str) -> Result<bool, Fail> {
    let at = names_of(alloc, at)?;
    let Ok(text) = resource.read(alloc, &at) else {
        return Ok(false);
    };
    Ok(text.same(&text_of(alloc, want)?))
}

/// Gives updates in two orders, and sees that both read one text and have one digest.
fn check_orders(
    alloc: Global,
    one: &[Offer<'_>],
    other: &[Offer<'_>],
    want: &str,
) -> Result<(), Fail> {
    let one = given(alloc, one)?;
    check(reads(alloc, &one, want)?, "the text")?;
    let digest = one.digest(alloc)?;
    drop(one);
    let other = given(alloc, other)?;
    check(reads(alloc, &other, want)?, "the text in the other order")?;
    check(other.digest(alloc)? == digest, "the digest")
}

#[test]
fn both_orders_of_arrival_read_one_text(rt: HostRuntime) -> Result<(), Fail> {
    let x = new_offer("x-1", "", Edit::Body("ab"));
    let p = new_offer("p-1", "x-1", Edit::Patch(1, 1, "P"));
    let q = new_offer("q-1", "x-1", Edit::Patch(1, 1, "Q"));
    let r = new_offer("r-1", "p-1 q-1", Edit::Patch(2, 2, "R"));
    check_orders(rt.alloc(), &[x, p, q], &[x, q, p], "aQPb")?;
    check_orders(rt.alloc(), &[x, p, q, r], &[x, q, p, r], "aQRPb")
}

#[test]
fn a_deletion_leaves_what_was_typed_inside(rt: HostRuntime) -> Result<(), Fail> {
    let x = new_offer("x-1", "", Edit::Body("ab"));
    let p = new_offer("p-1", "x-1", Edit::Patch(0, 2, ""));
    let q = new_offer("q-1", "x-1", Edit::Patch(1, 1, "Q"));
    check_orders(rt.alloc(), &[x, p, q], &[x, q, p], "Q")
}

#[test]
fn two_roots_are_merged(rt: HostRuntime) -> Result<(), Fail> {
    let a = new_offer("a-1", "", Edit::Body("A"));
    let b = new_offer("b-1", "", Edit::Body("B"));
    let m = new_offer("m-1", "a-1 b-1", Edit::Patch(1, 1, "+"));
    check_orders(rt.alloc(), &[a, b, m], &[b, a, m], "B+A")
}

/// A body replaces what is read, and the deleted elements stay.
fn check_bodies(alloc: Global, resource: &Resource) -> Result<(), Fail> {
    check(reads(alloc, resource, "c!")?, "the newest text")?;
    check(reads_at(alloc, resource, "a-1", "ab")?, "the first text")?;
    check(reads_at(alloc, resource, "a-2", "b")?, "the second text")?;
    check(reads_at(alloc, resource, "", "")?, "no version")?;
    // Each deleted element is a run of its own, and each inserted text is one.
    check(
        resource.elements() == 4 && resource.deletions() == 2 && resource.runs() == 4,
        "the counts",
    )
}

#[test]
fn a_body_replaces_what_is_read(rt: HostRuntime) -> Result<(), Fail> {
    let rows = [
        new_offer("a-1", "", Edit::Body("ab")),
        new_offer("a-2", "a-1", Edit::Patch(0, 1, "")),
        new_offer("a-3", "a-2", Edit::Body("c")),
        new_offer("b-1", "a-2", Edit::Patch(1, 1, "!")),
    ];
    let resource = given(rt.alloc(), &rows)?;
    check_bodies(rt.alloc(), &resource)
}

/// Offers with the room that each has, and the answers.
fn check_answers(alloc: Global, rows: &[(u64, Offer<'_>)]) -> Result<(), Fail> {
    let mut resource = Resource::new(alloc);
    for (room, row) in rows {
        give(alloc, &mut resource, *room, row)?;
    }
    Ok(())
}

fn wanted<'a>(name: &'a str, parents: &'a str, edit: Edit<'a>, want: Want<'a>) -> Offer<'a> {
    Offer {
        name,
        parents,
        edit,
        want,
    }
}

#[test]
fn each_refusal_comes_in_its_order(rt: HostRuntime) -> Result<(), Fail> {
    let hello = Edit::Body("hello");
    let rows = [
        (
            0,
            wanted("x-1", "", hello, Want::Full(Which::Versions, 1, 0)),
        ),
        (
            4,
            wanted("x-1", "", hello, Want::Full(Which::Elements, 5, 4)),
        ),
        (5, wanted("x-1", "", hello, Want::New)),
        (0, wanted("x-1", "", hello, Want::Known)),
        (0, wanted("x-1", "", Edit::Body("ho"), Want::Clash("x-1"))),
        (0, wanted("y-1", "z-1 b-1 x-1", hello, Want::Unknown("b-1"))),
        (
            0,
            wanted("y-1", "x-1", Edit::Patch(2, 6, ""), Want::Past(0, 5)),
        ),
        (
            1,
            wanted(
                "y-1",
                "x-1",
                Edit::Patch(0, 2, ""),
                Want::Full(Which::Deletions, 2, 1),
            ),
        ),
        (2, wanted("y-1", "x-1", Edit::Patch(0, 2, ""), Want::New)),
        (
            1,
            wanted("w-1", "", Edit::Body(""), Want::Full(Which::Width, 2, 1)),
        ),
        (2, wanted("w-1", "", Edit::Body(""), Want::New)),
    ];
    check_answers(rt.alloc(), &rows)
}

/// Whether these are all members of a frontier, in rising order.
fn has_members(frontier: &Frontier, names: &[&str]) -> bool {
    if frontier.len() as usize != names.len() {
        return false;
    }
    for n in 0..frontier.len() {
        let Some(id) = frontier.get(n) else {
            return false;
        };
        if id.bytes() != names[n as usize].as_bytes() {
            return false;
        }
    }
    true
}

/// Two roots, and an update that merges them and changes nothing.
fn merged(alloc: Global) -> Result<Resource, Fail> {
    let rows = [
        new_offer("a-1", "", Edit::Body("A")),
        new_offer("b-1", "", Edit::Body("B")),
        new_offer("m-1", "a-1 b-1", Edit::Nothing),
    ];
    given(alloc, &rows)
}

#[test]
fn a_merge_without_patches_leaves_the_text(rt: HostRuntime) -> Result<(), Fail> {
    let resource = merged(rt.alloc())?;
    let texts = reads(rt.alloc(), &resource, "BA")?
        && reads_at(rt.alloc(), &resource, "a-1 b-1", "BA")?;
    check(texts, "the text")?;
    let frontier = resource.frontier(rt.alloc())?;
    check(
        has_members(&frontier, &["m-1"]) && resource.width() == 1,
        "the frontier",
    )
}

#[test]
fn a_resource_begins_without_updates(rt: HostRuntime) -> Result<(), Fail> {
    let resource = Resource::new(rt.alloc());
    check(resource.digest(rt.alloc())? == NO_BYTES, "the digest")?;
    let frontier = resource.frontier(rt.alloc())?;
    check(
        frontier.len() == 0 && resource.width() == 0 && resource.entry(0).is_none(),
        "no updates",
    )
}

/// Two roots, the one with the greater name first.
fn two_roots(alloc: Global) -> Result<Resource, Fail> {
    let rows = [
        new_offer("b-1", "", Edit::Body("B")),
        new_offer("a-1", "", Edit::Body("A")),
    ];
    given(alloc, &rows)
}

#[test]
fn updates_are_found_by_number(rt: HostRuntime) -> Result<(), Fail> {
    let resource = two_roots(rt.alloc())?;
    let Some(second) = resource.entry(1) else {
        return Err("no second update".into());
    };
    check(
        second.id().bytes() == b"a-1".as_slice() && resource.entry(2).is_none(),
        "the second is the last",
    )
}

/// The arrival number of an identifier.
fn number_of(alloc: Global, resource: &Resource, name: &str) -> Result<Option<u32>, Fail> {
    Ok(resource.find(&Id::read(alloc, name.as_bytes())?))
}

#[test]
fn updates_are_found_by_name(rt: HostRuntime) -> Result<(), Fail> {
    let resource = two_roots(rt.alloc())?;
    let first = number_of(rt.alloc(), &resource, "b-1")?;
    let none = number_of(rt.alloc(), &resource, "c-1")?;
    check(first == Some(0) && none == None, "the numbers")
}

/// Whether all these names are held.
fn holds_names(alloc: Global, resource: &Resource, names: &str) -> Result<bool, Fail> {
    Ok(resource.holds(&names_of(alloc, names)?))
}

#[test]
fn each_root_is_held_and_in_the_frontier(rt: HostRuntime) -> Result<(), Fail> {
    let resource = two_roots(rt.alloc())?;
    let held = holds_names(rt.alloc(), &resource, "a-1 b-1")?;
    let unheld = !holds_names(rt.alloc(), &resource, "a-1 c-1")?;
    check(held && unheld, "what is held")?;
    let frontier = resource.frontier(rt.alloc())?;
    check(
        has_members(&frontier, &["a-1", "b-1"]) && resource.width() == 2,
        "the frontier",
    )
}

/// Whether an answer names this identifier as the least that is not held.
fn names_unheld(unknown: Option<Unknown>, name: &str) -> bool {
    match unknown {
        Some(Unknown::Id { id }) => id.bytes() == name.as_bytes(),
        _ => false,
    }
}

/// Whether the ancestry of one version is these of the first three updates.
fn has_ancestry(
    alloc: Global,
    resource: &Resource,
    name: &str,
    want: [bool; 3],
) -> Result<bool, Fail> {
    let Ok(marks) = resource.ancestry(alloc, &names_of(alloc, name)?) else {
        return Ok(false);
    };
    Ok([marks.has(0), marks.has(1), marks.has(2)] == want)
}

#[test]
fn the_ancestry_is_marked_by_arrival(rt: HostRuntime) -> Result<(), Fail> {
    let resource = merged(rt.alloc())?;
    let root = has_ancestry(rt.alloc(), &resource, "b-1", [false, true, false])?;
    let merge = has_ancestry(rt.alloc(), &resource, "m-1", [true, true, true])?;
    check(root && merge, "the ancestries")
}

#[test]
fn the_least_member_that_is_not_held_is_named(rt: HostRuntime) -> Result<(), Fail> {
    let resource = merged(rt.alloc())?;
    let at = names_of(rt.alloc(), "z-1 m-1 c-1 n-1")?;
    let text = resource.read(rt.alloc(), &at).err();
    let marks = resource.ancestry(rt.alloc(), &at).err();
    check(
        names_unheld(text, "c-1") && names_unheld(marks, "c-1"),
        "the least",
    )
}
