//! What a replica writes, and how it goes on with a book.

use super::*;
use crate::making_tests::head;
use crate::tests::{Edit, Want, change_of, check, given, make_offer, names_of};
use braid_change::BuildFault;
use braid_ids::{Agent, Frontier, Id};
use std::alloc::Global;
use std::test::Fail;

/// A replica of agent `a` that has confirmed this many updates without parents, `b-01`, `b-02` and so on.
fn with_heads(alloc: Global, count: u8) -> Result<Replica, Fail> {
    let mut replica = Replica::new(alloc, Agent::read(alloc, b"a")?);
    for n in 0..count {
        let name = [b'b', b'-', b'0' + (n + 1) / 10, b'0' + (n + 1) % 10];
        let id = Id::read(alloc, name.as_slice())?;
        let _answer = replica.learn(alloc, head(alloc, id)?);
    }
    Ok(replica)
}

/// Whether entry `n` has this name and these parents.
fn is_entry(replica: &Replica, n: u32, name: &str, parents: &Frontier) -> bool {
    match replica.entry(n) {
        Some(update) => {
            update.id().bytes() == name.as_bytes()
                && update.parents().len() == parents.len()
                && holds_all(update.parents(), parents)
        }
        None => false,
    }
}

fn holds_all(all: &Frontier, some: &Frontier) -> bool {
    for n in 0..some.len() {
        let Some(id) = some.get(n) else { return false };
        if !all.holds(id) {
            return false;
        }
    }
    true
}

/// The same, where the parents are names with blanks between them.
fn is_named(
    alloc: Global,
    replica: &Replica,
    n: u32,
    name: &str,
    parents: &str,
) -> Result<bool, Fail> {
    let parents = names_of(alloc, parents)?;
    Ok(is_entry(replica, n, name, &parents))
}

/// Whether a write of a body adds two updates behind 33, the second of this name.
fn adds_two(alloc: Global, replica: &mut Replica, name: &[u8]) -> Result<bool, Fail> {
    let id = replica.write(alloc, change_of(alloc, Edit::Body("hi"))?)?;
    Ok(id.bytes() == name && replica.confirmed() == 33 && replica.unsent() == 2)
}

/// Whether a write merges the 32 least of 33 updates first, and then stands on the merge and the other one.
fn merges_first(alloc: Global, replica: &mut Replica) -> Result<[bool; 3], Fail> {
    let added = adds_two(alloc, replica, b"a-2")?;
    let merged = is_named(
        alloc,
        replica,
        33,
        "a-1",
        "b-01 b-02 b-03 b-04 b-05 b-06 b-07 b-08 b-09 b-10 b-11 b-12 b-13 b-14 b-15 b-16 b-17 b-18 b-19 b-20 b-21 b-22 b-23 b-24 b-25 b-26 b-27 b-28 b-29 b-30 b-31 b-32",
    )?;
    let written = is_named(alloc, replica, 34, "a-2", "a-1 b-33")?;
    Ok([added, merged, written])
}

#[test]
fn a_write_merges_a_wide_frontier_first(rt: HostRuntime) -> Result<(), Fail> {
    let alloc = rt.alloc();
    let mut replica = with_heads(alloc, 33)?;
    let rows = merges_first(alloc, &mut replica)?;
    check(rows == [true; 3], "one merge, and the change")
}

/// What a write is wanted to answer.
#[derive(Clone, Copy)]
enum Refusal {
    Shape,
    Past(u32, u32),
    Spent,
}

fn is_refused(answer: &Result<Id, WriteFault>, want: Refusal) -> bool {
    match (answer, want) {
        (Err(WriteFault::Shape(BuildFault::Backwards { patch })), Refusal::Shape) => *patch == 0,
        (Err(WriteFault::OutOfRange { patch, len }), Refusal::Past(n, end)) => {
            *patch == n && *len == end
        }
        (Err(WriteFault::NumbersSpent), Refusal::Spent) => true,
        _ => false,
    }
}

/// Whether a write of this change is refused so, and adds nothing.
fn is_refusal(
    alloc: Global,
    replica: &mut Replica,
    edit: Edit<'_>,
    want: Refusal,
) -> Result<bool, Fail> {
    let change = change_of(alloc, edit)?;
    let answer = replica.write(alloc, change);
    Ok(is_refused(&answer, want) && replica.unsent() == 0)
}

/// Whether each refusal of a write comes where no number is left.
fn are_refusals(alloc: Global, replica: &mut Replica) -> Result<[bool; 3], Fail> {
    let shape = is_refusal(alloc, replica, Edit::Patch(2, 1, "J"), Refusal::Shape)?;
    let past = is_refusal(alloc, replica, Edit::Patch(0, 3, "J"), Refusal::Past(0, 2))?;
    let spent = is_refusal(alloc, replica, Edit::Patch(0, 2, "J"), Refusal::Spent)?;
    Ok([shape, past, spent])
}

#[test]
fn a_write_is_refused_before_it_adds_anything(rt: HostRuntime) -> Result<(), Fail> {
    let alloc = rt.alloc();
    let rows = [
        make_offer("x-1", "", Edit::Body("ab"), Want::New),
        make_offer("a-18446744073709551615", "x-1", Edit::Nothing, Want::New),
    ];
    let mut replica = given(alloc, &rows)?;
    let rows = are_refusals(alloc, &mut replica)?;
    check(rows == [true; 3], "the refusals")
}
