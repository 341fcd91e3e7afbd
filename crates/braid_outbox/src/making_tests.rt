//! Which two lists make a replica, and how replicas go on beside one book.

use super::*;
use crate::tests::{Edit, Want, change_of, check, is_answer, make_offer, update_of};
use braid_change::Update;
use braid_ids::{Agent, Frontier, Id};
use std::alloc::Global;
use std::test::Fail;

/// An update by its name, its parents and what it does.
#[derive(Clone, Copy)]
struct Line<'a> {
    name: &'a str,
    parents: &'a str,
    edit: Edit<'a>,
}

fn make_line<'a>(name: &'a str, parents: &'a str, edit: Edit<'a>) -> Line<'a> {
    Line {
        name,
        parents,
        edit,
    }
}

fn updates(alloc: Global, lines: &[Line<'_>]) -> Result<Vec<Update>, Fail> {
    let mut list = Vec::new(alloc);
    for line in lines {
        let offer = make_offer(line.name, line.parents, line.edit, Want::New);
        list.push(update_of(alloc, &offer)?)?;
    }
    Ok(list)
}

/// The entry that two lists are refused for, or None where they make a replica of agent `a`.
fn bad_entry(
    alloc: Global,
    confirmed: &[Line<'_>],
    unsent: &[Line<'_>],
) -> Result<Option<u32>, Fail> {
    let confirmed = updates(alloc, confirmed)?;
    let unsent = updates(alloc, unsent)?;
    made(alloc, confirmed, unsent)
}

fn made(alloc: Global, confirmed: Vec<Update>, unsent: Vec<Update>) -> Result<Option<u32>, Fail> {
    if confirmed.len() > 9_999 || unsent.len() > 9_999 {
        return Err("too many updates".into());
    }
    match Replica::of(alloc, Agent::read(alloc, b"a")?, confirmed, unsent) {
        Ok(_) => Ok(None),
        Err(BadReplica::Entry { n }) => Ok(Some(n)),
        Err(BadReplica::Memory) => Err("no memory".into()),
    }
}

/// The update of this identifier without parents and without a change.
pub fn head(alloc: Global, id: Id) -> Result<Update, Fail> {
    let none = Frontier::of(Vec::new(alloc))?;
    let change = change_of(alloc, Edit::Nothing)?;
    Ok(Update::build(id, none, change)?)
}

/// Updates without parents, as many as this.
fn heads(alloc: Global, count: u64) -> Result<Vec<Update>, Fail> {
    let agent = Agent::read(alloc, b"b")?;
    let mut list = Vec::new(alloc);
    for n in 0..count {
        let id = agent.name(alloc, n + 1)?;
        list.push(head(alloc, id)?)?;
    }
    Ok(list)
}

/// The entry that 2,001 updates without parents are refused for, with these unsent ones behind them.
fn bad_head(alloc: Global, unsent: &[Line<'_>]) -> Result<Option<u32>, Fail> {
    let unsent = updates(alloc, unsent)?;
    let confirmed = heads(alloc, 2_001)?;
    made(alloc, confirmed, unsent)
}

#[test]
fn two_lists_make_a_replica_or_name_an_entry(rt: HostRuntime) -> Result<(), Fail> {
    let alloc = rt.alloc();
    let first = make_line("x-1", "", Edit::Body("ab"));
    let second = make_line("p-1", "x-1", Edit::Patch(1, 1, "P"));
    let own = make_line("a-1", "p-1", Edit::Nothing);
    let rows = [
        bad_entry(
            alloc,
            &[first, second],
            &[own, make_line("a-2", "a-1", Edit::Nothing)],
        )? == None,
        bad_entry(alloc, &[first, second, first], &[])? == Some(2),
        bad_entry(alloc, &[second, first], &[])? == Some(0),
        bad_entry(
            alloc,
            &[first, make_line("y-1", "x-1", Edit::Patch(0, 3, "J"))],
            &[],
        )? == Some(1),
        bad_entry(alloc, &[first], &[own])? == Some(1),
        bad_entry(
            alloc,
            &[first, second],
            &[own, make_line("a-2", "p-1", Edit::Nothing)],
        )? == Some(3),
    ];
    check(
        rows[0] && rows[1] && rows[2] && rows[3] && rows[4] && rows[5],
        "the entries",
    )
}

#[test]
fn a_wide_frontier_names_the_last_entry(rt: HostRuntime) -> Result<(), Fail> {
    let alloc = rt.alloc();
    let narrow = bad_head(alloc, &[make_line("a-1", "b-1 b-2", Edit::Nothing)])?;
    let wide = bad_head(alloc, &[])?;
    check(narrow == None && wide == Some(2_000), "the entries")
}

/// The first unsent version of a replica comes to the book.
fn posts(alloc: Global, from: &Replica, book: &mut Replica) -> Result<Learn, Fail> {
    let Some(head) = from.next_out() else {
        return Err("nothing is to be sent".into());
    };
    let update = head.copy(alloc)?;
    Ok(book.learn(alloc, update))
}

/// An entry of the book comes to a replica.
fn carries(alloc: Global, book: &Replica, n: u32, to: &mut Replica) -> Result<Learn, Fail> {
    let Some(entry) = book.entry(n) else {
        return Err("the book has no such entry".into());
    };
    let update = entry.copy(alloc)?;
    Ok(to.learn(alloc, update))
}

/// A replica's first unsent version lands, its reply is lost, it lands again, and is acknowledged.
fn lands_twice(
    alloc: Global,
    from: &mut Replica,
    book: &mut Replica,
    id: &Id,
) -> Result<bool, Fail> {
    let first = posts(alloc, from, book)?;
    let again = posts(alloc, from, book)?;
    let acked = from.acked(id);
    Ok(is_answer(&first, Want::New) && is_answer(&again, Want::Known) && acked)
}

/// A replica reads the first two entries of the book.
fn reads_two(
    alloc: Global,
    book: &Replica,
    to: &mut Replica,
    wants: [Want<'_>; 2],
) -> Result<bool, Fail> {
    let first = carries(alloc, book, 0, to)?;
    let second = carries(alloc, book, 1, to)?;
    Ok(is_answer(&first, wants[0]) && is_answer(&second, wants[1]))
}

/// The replica that its two lists make once more.
fn goes_back(alloc: Global, from: &Replica, name: &[u8]) -> Result<Replica, Fail> {
    let confirmed = entries(alloc, from, 0, from.confirmed())?;
    let unsent = entries(
        alloc,
        from,
        from.confirmed(),
        from.confirmed() + from.unsent(),
    )?;
    if confirmed.len() > 9_999 || unsent.len() > 9_999 {
        return Err("too many updates".into());
    }
    match Replica::of(alloc, Agent::read(alloc, name)?, confirmed, unsent) {
        Ok(replica) => Ok(replica),
        Err(_) => Err("the lists make no replica".into()),
    }
}

fn entries(alloc: Global, from: &Replica, start: u32, end: u32) -> Result<Vec<Update>, Fail> {
    let mut list = Vec::new(alloc);
    for n in start..end {
        if let Some(entry) = from.entry(n) {
            list.push(entry.copy(alloc)?)?;
        }
    }
    Ok(list)
}

fn has_digest(alloc: Global, one: &Replica, other: &Replica) -> Result<bool, Fail> {
    Ok(one.digest(alloc)? == other.digest(alloc)?)
}

/// A new replica that has written a body, and that body's identifier.
fn writer(alloc: Global, name: &[u8], text: &str) -> Result<(Replica, Id), Fail> {
    let mut replica = Replica::new(alloc, Agent::read(alloc, name)?);
    let id = replica.write(alloc, change_of(alloc, Edit::Body(text))?)?;
    Ok((replica, id))
}

/// Both replicas' first versions land twice in the book.
fn both_land(
    alloc: Global,
    book: &mut Replica,
    a: &mut Replica,
    b: &mut Replica,
    ids: [&Id; 2],
) -> Result<bool, Fail> {
    let first = lands_twice(alloc, a, book, ids[0])?;
    let second = lands_twice(alloc, b, book, ids[1])?;
    Ok(first && second)
}

/// Both replicas read the book. Whether all three then have one digest.
fn both_read(
    alloc: Global,
    book: &Replica,
    a: &mut Replica,
    b: &mut Replica,
) -> Result<bool, Fail> {
    let first = reads_two(alloc, book, a, [Want::Known, Want::New])?;
    let second = reads_two(alloc, book, b, [Want::New, Want::Known])?;
    let equal = has_digest(alloc, a, book)? && has_digest(alloc, b, book)?;
    Ok(first && second && equal)
}

/// Two replicas, of which the second is made once more of its lists, and a new book.
fn meet(alloc: Global, a: &mut Replica, kept: &Replica, ids: [&Id; 2]) -> Result<[bool; 2], Fail> {
    let mut book = Replica::new(alloc, Agent::read(alloc, b"s")?);
    let mut b = goes_back(alloc, kept, b"b")?;
    let landed = both_land(alloc, &mut book, a, &mut b, ids)?;
    let read = both_read(alloc, &book, a, &mut b)?;
    Ok([landed, read])
}

#[test]
fn replicas_catch_up_with_a_book(rt: HostRuntime) -> Result<(), Fail> {
    let alloc = rt.alloc();
    let (mut a, one) = writer(alloc, b"a", "hi")?;
    let (kept, two) = writer(alloc, b"b", "yo")?;
    let met = meet(alloc, &mut a, &kept, [&one, &two])?;
    check(met == [true; 2], "they have the book's graph")
}
