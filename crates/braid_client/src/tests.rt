//! Commands that need no server, on states in memory.

use super::*;
use crate::scripts::{check, no_link};
use braid_ids::{Bytes, Word};
use braid_io::{MemKeeper, MemSink, Status};
use std::alloc::Global;
use std::test::Fail;

/// A state without updates.
pub const EMPTY: &[u8] =
    b"braid-state 1\nagent: a\nserver: 127.0.0.1:9000\npath: /doc\nconfirmed: 0\nunsent: 0\n\nend\n";

/// What `show` prints of `a-1` with the body `hi`, and `a-2` behind it, which inserts `!` at the end. The digest was
/// computed by python3's hashlib.
const SHOWN: &[u8] =
    b"agent: a\npath: /doc\nfrontier: \"a-2\"\nconfirmed: 0\nunsent: 2\nlength: 3\ndigest: d6a9da9e5ebb36306738a6f7800ca58457be539ee19a3352b120623b5ca42e89\ntext:\nhi!\n";

/// What it prints of a state without updates.
const SHOWN_EMPTY: &[u8] =
    b"agent: a\npath: /doc\nfrontier:\nconfirmed: 0\nunsent: 0\nlength: 0\ndigest: e3b0c44298fc1c149afbf4c8996fb92427ae41e4649b934ca495991b7852b855\ntext:\n\n";

/// The words of a run, and the status and the text that are wanted of it.
pub type Row<'a> = (&'a [&'a [u8]], Status, &'a [u8]);

/// These words.
pub fn words_of(alloc: Global, words: &[&[u8]]) -> Result<Vec<Word>, Fail> {
    let mut list = Vec::new(alloc);
    for word in words {
        list.push(Word::of(alloc, word)?)?;
    }
    Ok(list)
}

/// A keeper that keeps these bytes under `s`.
pub fn keeper_of(alloc: Global, bytes: &[u8]) -> Result<MemKeeper, Fail> {
    let entry = (Word::of(alloc, b"s")?, Bytes::of(alloc, bytes)?);
    Ok(MemKeeper::new(vec![in alloc; entry]?, Vec::new(alloc)))
}

/// Whether these bytes are kept under `s`.
pub fn keeps(keeper: &MemKeeper, bytes: &[u8]) -> bool {
    match keeper.kept(b"s") {
        Some(kept) => kept.get() == bytes,
        None => false,
    }
}

/// Whether a run without links has the status and the text of its row.
fn row_holds(alloc: Global, keeper: &mut MemKeeper, row: &Row<'_>) -> Result<bool, Fail> {
    let mut dialer = no_link(alloc)?;
    let mut out = MemSink::new(alloc, 1_000, Vec::new(alloc))?;
    let words = words_of(alloc, row.0)?;
    let status = client_run(alloc, &words, keeper, &mut dialer, &mut out);
    Ok(status == row.1 && out.written() == row.2 && dialer.calls() == 0)
}

/// Whether all rows hold, one after the other.
pub fn rows_hold(alloc: Global, keeper: &mut MemKeeper, rows: &[Row<'_>]) -> Result<bool, Fail> {
    for row in rows {
        if !row_holds(alloc, keeper, row)? {
            return Ok(false);
        }
    }
    Ok(true)
}

#[test]
fn a_state_is_made_written_and_shown(rt: HostRuntime) -> Result<(), Fail> {
    let alloc = rt.alloc();
    let mut keeper = MemKeeper::new(Vec::new(alloc), Vec::new(alloc));
    let first: [Row<'_>; 2] = [
        (
            &[b"new", b"s", b"a", b"127.0.0.1:9000", b"/doc"],
            Status::Done,
            b"agent: a\n",
        ),
        (&[b"show", b"s"], Status::Done, SHOWN_EMPTY),
    ];
    check(rows_hold(alloc, &mut keeper, &first)?, "it is made")?;
    check(keeps(&keeper, EMPTY), "its 85 bytes")?;
    let then: [Row<'_>; 8] = [
        (&[b"set", b"s", b"hi"], Status::Done, b"wrote: \"a-1\"\n"),
        (
            &[b"edit", b"s", b"2", b"2", b"!"],
            Status::Done,
            b"wrote: \"a-2\"\n",
        ),
        (&[b"show", b"s"], Status::Done, SHOWN),
        (
            &[b"edit", b"s", b"4", b"4", b"x"],
            Status::Bad,
            b"fault: OutOfRange patch 0 len 3\n",
        ),
        (
            &[b"edit", b"s", b"2", b"1", b"x"],
            Status::Bad,
            b"fault: Backwards\n",
        ),
        (
            &[b"new", b"s", b"b", b"h:1", b"/d"],
            Status::Bad,
            b"fault: Exists\n",
        ),
        (&[b"show", b"t"], Status::Bad, b"fault: NoState\n"),
        (&[b"show", b"s"], Status::Done, SHOWN),
    ];
    check(rows_hold(alloc, &mut keeper, &then)?, "it is written")
}

#[test]
fn a_text_may_begin_with_a_dash_or_be_empty(rt: HostRuntime) -> Result<(), Fail> {
    let alloc = rt.alloc();
    let mut keeper = keeper_of(alloc, EMPTY)?;
    let rows: [Row<'_>; 4] = [
        (
            &[b"set", b"s", b"--help"],
            Status::Done,
            b"wrote: \"a-1\"\n",
        ),
        (
            &[
                b"edit",
                b"s",
                b"00000000000000000000",
                b"00000000000000000002",
                b"",
            ],
            Status::Done,
            b"wrote: \"a-2\"\n",
        ),
        (
            &[b"edit", b"s", b"4", b"4", b"\xc3\xa9"],
            Status::Done,
            b"wrote: \"a-3\"\n",
        ),
        (&[b"set", b"s", b""], Status::Done, b"wrote: \"a-4\"\n"),
    ];
    check(rows_hold(alloc, &mut keeper, &rows)?, "four updates")
}

#[test]
fn words_of_no_form_are_told_and_touch_nothing(rt: HostRuntime) -> Result<(), Fail> {
    let alloc = rt.alloc();
    let mut keeper = keeper_of(alloc, EMPTY)?;
    let rows: [&[&[u8]]; 26] = [
        &[],
        &[b"new"],
        &[b"new", b"t", b"plain", b"h:1", b"/d"],
        &[b"new", b"t", b"A", b"h:1", b"/d"],
        &[b"new", b"t", b"a", b"", b"/d"],
        &[b"new", b"t", b"a", b"h 1", b"/d"],
        &[b"new", b"t", b"a", b"h:1", b"d"],
        &[b"new", b"t", b"a", b"h:1", b"/d", b"x"],
        &[b"new", b"\xff", b"a", b"h:1", b"/d"],
        &[b"edit", b"s", b"0", b"0"],
        &[b"edit", b"s", b"+0", b"0", b"x"],
        &[b"edit", b"s", b"0", b"-0", b"x"],
        &[b"edit", b"s", b"", b"0", b"x"],
        &[b"edit", b"s", b"0", b"4294967296", b"x"],
        &[b"edit", b"s", b"0", b"99999999999999999999", b"x"],
        &[b"edit", b"s", b"000000000000000000000", b"0", b"x"],
        &[b"edit", b"s", b"0", b"0", b"x", b"y"],
        &[b"edit", b"s", b"0", b"0", b"\xff"],
        &[b"set", b"s"],
        &[b"set", b"s", b"x", b"y"],
        &[b"show", b"s", b"s"],
        &[b"sync", b"s", b"s"],
        &[b"follow", b"s", b"0"],
        &[b"follow", b"s", b"262145"],
        &[b"follow", b"s"],
        &[b"Show", b"s"],
    ];
    for words in rows {
        let wanted: [Row<'_>; 1] = [(words, Status::Usage, b"fault: Usage\n")];
        check(rows_hold(alloc, &mut keeper, &wanted)?, "the line")?;
    }
    check(keeper.calls() == 0, "no call")
}

#[test]
fn a_state_that_is_none_is_told(rt: HostRuntime) -> Result<(), Fail> {
    let alloc = rt.alloc();
    let lone =
        b"braid-state 1\nagent: a\nserver: h:1\npath: /d\nconfirmed: 1\nunsent: 0\n\nVersion: \"b-1\"\nParents: \"z-1\"\nPatches: 0\n\nend\n";
    let rows: [(&[u8], &[u8]); 2] = [
        (&EMPTY[..80], b"fault: BadState at 80\n"),
        (lone, b"fault: BadEntry 0\n"),
    ];
    for (bytes, text) in rows {
        let mut keeper = keeper_of(alloc, bytes)?;
        let wanted: [Row<'_>; 4] = [
            (&[b"set", b"s", b"x"], Status::Bad, text),
            (&[b"show", b"s"], Status::Bad, text),
            (&[b"sync", b"s"], Status::Bad, text),
            (&[b"follow", b"s", b"1"], Status::Bad, text),
        ];
        check(rows_hold(alloc, &mut keeper, &wanted)?, "the line")?;
        check(keeps(&keeper, bytes), "it stays")?;
    }
    Ok(())
}

/// A state of agent `a` with so many confirmed versions without parents and without a change.
fn wide_state(alloc: Global, count: u64) -> Result<Bytes, Fail> {
    let mut state = Bytes::of(
        alloc,
        b"braid-state 1\nagent: a\nserver: h:1\npath: /d\nconfirmed: ",
    )?;
    state.push_number(count)?;
    state.push(b"\nunsent: 0\n\n")?;
    for n in 0..count {
        state.push(b"Version: \"b-")?;
        state.push_number(n)?;
        state.push(b"\"\nParents:\nPatches: 0\n\n")?;
    }
    state.push(b"end\n")?;
    Ok(state)
}

#[test]
fn each_update_that_a_write_adds_has_its_line(rt: HostRuntime) -> Result<(), Fail> {
    let alloc = rt.alloc();
    let mut keeper = keeper_of(alloc, wide_state(alloc, 33)?.get())?;
    let rows: [Row<'_>; 1] = [(
        &[b"set", b"s", b"x"],
        Status::Done,
        b"wrote: \"a-1\"\nwrote: \"a-2\"\n",
    )];
    check(rows_hold(alloc, &mut keeper, &rows)?, "a pure merge first")
}
