//! Updates that are resolved over a small document.

ghost use Rattle.std.specs.Prelude.{OnOk, IsTrue};

use super::*;
use braid_change::{Change, ListPatch, Patch, Text, Update};
use braid_graph::Graph;
use braid_ids::{Frontier, Id};
use braid_tree::{At, Document, PlainDocument};
use std::alloc::Global;
use std::test::Fail;

fn check(holds: bool, what: &'static str) -> Result<(), Fail>
    ensures { OnOk result (IsTrue holds) }
{
    if holds { Ok(()) } else { Err(what.into()) }
}

/// The set of one name, or of none.
fn name_of(alloc: Global, name: &str) -> Result<Frontier, Fail> {
    let mut ids = Vec::new(alloc);
    if !name.is_empty() {
        ids.push(Id::read(alloc, name.as_bytes())?)?;
    }
    Ok(Frontier::of(ids)?)
}

/// A document and a graph of one version, which typed `abc`.
fn typed(alloc: Global) -> Result<(PlainDocument, Graph), Fail> {
    let mut graph = Graph::new(alloc);
    let id = Id::read(alloc, b"x-1")?;
    let parents = name_of(alloc, "")?;
    let None = graph.least_unheld(&parents) else {
        return Err("a parent".into());
    };
    graph.add(id, parents)?;
    let mut doc = PlainDocument::new(alloc);
    doc.reserve(1, 3, 0)?;
    doc.begin(Id::read(alloc, b"x-1")?, 1);
    doc.insert_run(None, &['a', 'b', 'c'], 0);
    Ok((doc, graph))
}

/// Patches of a text: start, end and text of each.
fn patches_of(alloc: Global, rows: &[(u32, u32, &str)]) -> Result<Change, Fail> {
    if rows.len() > 9 {
        return Err("too many patches".into());
    }
    let mut patches = Vec::new(alloc);
    for (start, end, text) in rows {
        patches.push(Patch {
            start: *start,
            end: *end,
            text: Text::read(alloc, text.as_bytes())?,
        })?;
    }
    Ok(Change::Patches(ListPatch::of(patches)))
}

fn update_of(alloc: Global, rows: &[(u32, u32, &str)]) -> Result<Update, Fail> {
    let change = patches_of(alloc, rows)?;
    if change.patches().len() > 9 {
        return Err("too many patches".into());
    }
    Ok(Update::build(Id::read(alloc, b"p-1")?, name_of(alloc, "x-1")?, change)?)
}

fn place(ordinal: u32) -> At {
    At {
        version: 0,
        ordinal,
    }
}

fn is_run(run: &Run, after: Option<At>, text: &str, ordinal: u32) -> bool {
    run.after == after
        && run.ordinal == ordinal
        && run.text.chars().iter().copied().eq(text.chars())
}

/// What a change of `abc` is resolved to.
fn resolved(
    alloc: Global,
    rows: &[(u32, u32, &str)],
) -> Result<Result<Resolved, RebaseFault>, Fail> {
    let (doc, graph) = typed(alloc)?;
    let update = update_of(alloc, rows)?;
    let None = graph.least_unheld(update.parents()) else {
        return Err("no parent".into());
    };
    Ok(resolve(alloc, &doc, &graph, &update))
}

#[test]
fn runs_stand_behind_what_is_before_their_ranges(rt: HostRuntime) -> Result<(), Fail> {
    let rows = [(0, 0, "x"), (1, 1, "y"), (1, 2, "z"), (3, 3, "!")];
    let Ok(resolved) = resolved(rt.alloc(), &rows)? else {
        return Err("not resolved".into());
    };
    check(resolved.level == 2, "the level")?;
    let [one, two, three] = resolved.runs.as_slice() else {
        return Err("not three runs".into());
    };
    check(is_run(one, None, "x", 0), "the first run")?;
    check(is_run(two, Some(place(0)), "yz", 1), "joined patches")?;
    check(is_run(three, Some(place(2)), "!", 3), "the last run")?;
    check(
        resolved.deletes.as_slice() == [place(1)].as_slice(),
        "the deletions",
    )
}

#[test]
fn the_first_patch_past_the_end_is_named(rt: HostRuntime) -> Result<(), Fail> {
    let rows = [(0, 1, ""), (1, 1, ""), (1, 4, "")];
    let fault = resolved(rt.alloc(), &rows)?.err();
    check(
        fault == Some(RebaseFault::OutOfRange { patch: 1, len: 3 }),
        "the fault",
    )
}
