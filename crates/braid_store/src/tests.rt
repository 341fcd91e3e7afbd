//! Books that updates are put to, and what they answer, read and send.

ghost use Rattle.braid_store.specs.Cursors.{CursorView, IsFit};

use super::*;
use braid_change::{Change, ListPatch, Patch, Text, Update};
use braid_hall::Annals;
use braid_ids::{Bytes, Frontier, Id, Unknown};
use braid_text::Which;
use std::alloc::Global;
use std::test::Fail;

/// What an update does: a whole body, one patch, or nothing.
#[derive(Clone, Copy)]
enum Edit<'a> {
    Body(&'a str),
    Patch(u32, u32, &'a str),
    Nothing,
}

/// The answer that is wanted.
#[derive(Clone, Copy)]
enum Want<'a> {
    New,
    Known,
    Clash(&'a str),
    Unknown(&'a str),
    Past(u32, u32),
    Full(Which, u64),
}

/// An update that is put to a path, and the answer that is wanted.
#[derive(Clone, Copy)]
struct Row<'a> {
    path: &'a str,
    name: &'a str,
    parents: &'a str,
    edit: Edit<'a>,
    want: Want<'a>,
}

fn new_row<'a>(
    path: &'a str,
    name: &'a str,
    parents: &'a str,
    edit: Edit<'a>,
    want: Want<'a>,
) -> Row<'a> {
    Row {
        path,
        name,
        parents,
        edit,
        want,
    }
}

fn check(holds: bool, what: &'static str) -> Result<(), Fail> {
    if holds { Ok(()) } else { Err(what.into()) }
}

fn text_of(alloc: Global, text: &str) -> Result<Text, Fail> {
    Ok(Text::read(alloc, text.as_bytes())?)
}

/// The set of the names between spaces.
fn names_of(alloc: Global, names: &str) -> Result<Frontier, Fail> {
    let mut ids = Vec::new(alloc);
    for name in names.split_ascii_whitespace() {
        ids.push(Id::read(alloc, name.as_bytes())?)?;
    }
    if ids.len() > 100 {
        return Err("too many names".into());
    }
    Ok(Frontier::of(ids)?)
}

fn change_of(alloc: Global, edit: Edit<'_>) -> Result<Change, Fail> {
    match edit {
        Edit::Body(text) => Ok(Change::Body(text_of(alloc, text)?)),
        Edit::Patch(start, end, text) => {
            let text = text_of(alloc, text)?;
            let patch = Patch { start, end, text };
            Ok(Change::Patches(ListPatch::of(vec![in alloc; patch]?)))
        }
        Edit::Nothing => Ok(Change::Patches(ListPatch::of(Vec::new(alloc)))),
    }
}

fn update_of(alloc: Global, row: &Row<'_>) -> Result<Update, Fail> {
    let id = Id::read(alloc, row.name.as_bytes())?;
    let parents = names_of(alloc, row.parents)?;
    let change = change_of(alloc, row.edit)?;
    if change.patches().len() > 9 {
        return Err("too many patches".into());
    }
    Ok(Update::build(id, parents, change)?)
}

fn is_wanted(answer: &Put, want: Want<'_>) -> bool {
    match (answer, want) {
        (Put::New, Want::New) => true,
        (Put::Known, Want::Known) => true,
        (Put::Clash { id }, Want::Clash(name)) => id.bytes() == name.as_bytes(),
        (Put::UnknownParent { id }, Want::Unknown(name)) => id.bytes() == name.as_bytes(),
        (Put::OutOfRange { patch, len }, Want::Past(n, end)) => *patch == n && *len == end,
        (Put::Full { which, limit }, Want::Full(count, n)) => *which == count && *limit == n,
        _ => false,
    }
}

/// Puts an update, and sees that the answer is the one that is wanted and that New alone adds an entry.
fn put(alloc: Global, book: &mut Book, row: &Row<'_>) -> Result<(), Fail> {
    let path = Bytes::of(alloc, row.path.as_bytes())?;
    if path.get().len() > 1024 {
        return Err("a long path".into());
    }
    let update = update_of(alloc, row)?;
    let before = book.len();
    let answer = book.put(alloc, &path, 7, update);
    check(is_wanted(&answer, row.want), "the answer")?;
    let more = match row.want {
        Want::New => 1,
        _ => 0,
    };
    check(book.len() == before + more, "the entries")
}

fn put_all(alloc: Global, book: &mut Book, rows: &[Row<'_>]) -> Result<(), Fail> {
    for row in rows {
        put(alloc, book, row)?;
    }
    Ok(())
}

/// What a path reads at a version: the text, or why not.
fn read(alloc: Global, book: &Book, path: &str, at: &str) -> Result<Result<Got, GetFault>, Fail> {
    let path = Bytes::of(alloc, path.as_bytes())?;
    let at = names_of(alloc, at)?;
    let at = if at.len() == 0 { None } else { Some(&at) };
    Ok(book.get(alloc, &path, at))
}

/// Whether a path reads this text at a version.
fn reads(alloc: Global, book: &Book, path: &str, at: &str, want: &str) -> Result<bool, Fail> {
    let want = text_of(alloc, want)?;
    match read(alloc, book, path, at)? {
        Ok(got) => Ok(got.text.same(&want)),
        Err(_) => Ok(false),
    }
}

/// How many entries any annals have.
fn count_of<A: Annals>(annals: &A) -> u64 {
    annals.count()
}

#[test]
fn each_put_has_one_answer(rt: HostRuntime) -> Result<(), Fail> {
    let rows = [
        new_row("/d", "b-1", "q-9", Edit::Body("B"), Want::Unknown("q-9")),
        new_row("/d", "a-1", "", Edit::Body("hello"), Want::New),
        new_row("/d", "a-1", "", Edit::Body("hello"), Want::Known),
        new_row("/d", "a-1", "", Edit::Body("ho"), Want::Clash("a-1")),
        new_row("/e", "a-1", "", Edit::Body("ho"), Want::New),
        new_row("/d", "y-1", "a-1", Edit::Body("hello you"), Want::New),
        new_row("/d", "z-1", "a-1", Edit::Patch(0, 6, ""), Want::Past(0, 5)),
        new_row("/e", "y-2", "y-1", Edit::Nothing, Want::Unknown("y-1")),
    ];
    let mut book = Book::new(rt.alloc());
    put_all(rt.alloc(), &mut book, &rows)?;
    check_reads(rt.alloc(), &book)
}

/// What the book of the rows has, and what it reads.
fn check_reads(alloc: Global, book: &Book) -> Result<(), Fail> {
    check(book.len() == 3 && count_of(book) == 3, "the entries")?;
    check(
        reads(alloc, book, "/d", "", "hello you")?,
        "the newest text",
    )?;
    check(reads(alloc, book, "/d", "a-1", "hello")?, "an old text")?;
    let Err(GetFault::Absent) = read(alloc, book, "/f", "")? else {
        return Err("an absent path".into());
    };
    match read(alloc, book, "/e", "y-1")? {
        Err(GetFault::Unknown { id }) => check(
            id.bytes() == b"y-1".as_slice(),
            "the unknown version",
        ),
        _ => Err("an unknown version".into()),
    }
}

/// Puts as many updates without parents to one path as it may have heads.
fn put_heads(alloc: Global, book: &mut Book) -> Result<(), Fail> {
    for n in 1..1001u32 {
        let name = format!(in alloc; "w-{n}")?;
        put(
            alloc,
            book,
            &new_row("/d", &name, "", Edit::Nothing, Want::New),
        )?;
    }
    Ok(())
}

#[test]
fn a_thousand_heads_and_no_more(rt: HostRuntime) -> Result<(), Fail> {
    let wide = Want::Full(Which::Width, 1_000);
    let rows = [
        new_row("/d", "w-1001", "", Edit::Nothing, wide),
        new_row("/e", "w-1001", "", Edit::Nothing, Want::New),
        new_row("/d", "v-1", "w-1", Edit::Nothing, Want::New),
    ];
    let mut book = Book::new(rt.alloc());
    put_heads(rt.alloc(), &mut book)?;
    put_all(rt.alloc(), &mut book, &rows)
}

/// Puts an update to as many paths as there may be.
fn put_paths(alloc: Global, book: &mut Book) -> Result<(), Fail> {
    for n in 0..4096u32 {
        let path = format!(in alloc; "/{n}")?;
        put(
            alloc,
            book,
            &new_row(&path, "a-1", "", Edit::Nothing, Want::New),
        )?;
    }
    Ok(())
}

#[test]
fn four_thousand_paths_and_no_more(rt: HostRuntime) -> Result<(), Fail> {
    let full = Want::Full(Which::Resources, 4_096);
    let rows = [
        new_row("/d", "a-1", "", Edit::Nothing, full),
        new_row("/d", "b-1", "q-9", Edit::Nothing, Want::Unknown("q-9")),
        new_row("/7", "b-1", "a-1", Edit::Nothing, Want::New),
    ];
    let mut book = Book::new(rt.alloc());
    put_paths(rt.alloc(), &mut book)?;
    put_all(rt.alloc(), &mut book, &rows)
}

/// Puts an update that is new. A cursor that fitted the book still fits it.
fn add(alloc: Global, book: &mut Book, row: &Row<'_>) -> Result<(), Fail>
    ensures fits { (c : CursorView) → IsFit book.old c → IsFit book.new c }
{
    let path = Bytes::of(alloc, row.path.as_bytes())?;
    if path.get().len() > 1024 {
        return Err("a long path".into());
    }
    let update = update_of(alloc, row)?;
    let answer = book.put(alloc, &path, 7, update);
    let _entries = book.len();
    match answer {
        Put::New => Ok(()),
        _ => Err("an answer other than New".into()),
    }
}

/// The next update that a cursor gives has this name, or there is none where the name is empty.
fn gives(book: &Book, cursor: &mut Cursor, name: &str) -> Result<(), Fail>
    requires fits { IsFit book.now cursor.old }
    ensures fits { IsFit book.now cursor.new }
{
    match book.next_for(cursor) {
        Some(update) => check(update.id().bytes() == name.as_bytes(), "the next update"),
        None => check(name.is_empty(), "no update"),
    }
}

/// What a cursor past `a-1` gives before and after two puts.
fn check_cursor(alloc: Global, book: &mut Book, cursor: &mut Cursor) -> Result<(), Fail>
    requires fits { IsFit book.old cursor.old }
{
    gives(book, cursor, "c-1")?;
    gives(book, cursor, "")?;
    add(
        alloc,
        book,
        &new_row("/e", "b-1", "a-1", Edit::Nothing, Want::New),
    )?;
    add(
        alloc,
        book,
        &new_row("/d", "b-1", "a-1", Edit::Body("yo"), Want::New),
    )?;
    gives(book, cursor, "b-1")?;
    gives(book, cursor, "")
}

#[test]
fn a_cursor_gives_what_comes_later(rt: HostRuntime) -> Result<(), Fail> {
    let rows = [
        new_row("/d", "a-1", "", Edit::Body("hi"), Want::New),
        new_row("/d", "c-1", "", Edit::Body("ho"), Want::New),
        new_row("/e", "a-1", "", Edit::Nothing, Want::New),
    ];
    let path = Bytes::of(rt.alloc(), b"/d")?;
    let from = names_of(rt.alloc(), "a-1")?;
    let mut book = Book::new(rt.alloc());
    put_all(rt.alloc(), &mut book, &rows)?;
    match book.open(rt.alloc(), &path, &from) {
        Ok(cursor) => {
            let mut cursor = cursor;
            check_cursor(rt.alloc(), &mut book, &mut cursor)
        }
        Err(_) => Err("no cursor".into()),
    }
}

/// The frontiers of a path that has `a-1` and of one that has nothing, and no cursor past what is not held.
fn check_frontiers(alloc: Global, book: &Book) -> Result<(), Fail> {
    let own = book.frontier(alloc, &Bytes::of(alloc, b"/d")?)?;
    check(
        own.len() == 1 && own.holds(&Id::read(alloc, b"a-1")?),
        "the frontier",
    )?;
    let absent = Bytes::of(alloc, b"/e")?;
    check(book.frontier(alloc, &absent)?.len() == 0, "no frontier")?;
    match book.open(alloc, &absent, &own) {
        Err(Unknown::Id { id }) => check(id.bytes() == b"a-1".as_slice(), "the unknown member"),
        _ => Err("a cursor past what is not held".into()),
    }
}

#[test]
fn a_frontier_is_the_path_s_own(rt: HostRuntime) -> Result<(), Fail> {
    let row = new_row("/d", "a-1", "", Edit::Body("hi"), Want::New);
    let mut book = Book::new(rt.alloc());
    put(rt.alloc(), &mut book, &row)?;
    check_frontiers(rt.alloc(), &book)
}
