//! State files that are cut, that grew, or that another program made: what `show` prints of them.

use crate::commands::{Ran, STATE, keeper_of, left, run};
use braid_ids::{Bytes, Memory};
use braid_io::{MemDialer, MemKeeper, Status};
use std::alloc::Global;
use std::test::Fail;

/// The state without updates.
const EMPTY: &[u8] =
    b"braid-state 1\nagent: a\nserver: 127.0.0.1:9000\npath: /doc\nconfirmed: 0\nunsent: 0\n\nend\n";

/// Where the lines of both states begin, and in the second one the updates, each with the gap before it, and the gap
/// behind them.
const EMPTY_PLACES: &[usize] = &[0, 14, 23, 46, 57, 70, 80, 81];

const STATE_PLACES: &[usize] = &[0, 14, 23, 35, 46, 59, 69, 70, 119, 218, 220, 222];

/// `show`, which dials nothing.
fn run_show(alloc: Global, keeper: &mut MemKeeper) -> Result<Ran, Fail> {
    let mut dialer = MemDialer::new(alloc, Vec::new(alloc), Vec::new(alloc))?;
    run(alloc, &[b"show", b"s"], keeper, &mut dialer, 400)
}

/// Whether `show` of these bytes prints this, with this status, and keeps them.
fn shows(alloc: Global, state: &[u8], text: &[u8], status: Status) -> Result<bool, Fail> {
    let mut keeper = keeper_of(alloc, state, &[])?;
    let ran = run_show(alloc, &mut keeper)?;
    Ok(left(&ran, &keeper, text, status, state))
}

/// Adds a place and the end of a line.
fn push_place(line: &mut Bytes, place: usize) -> Result<(), Memory> {
    line.push_number(place as u64)?;
    line.push(b"\n")
}

/// The line that tells of no state at this place.
fn line_of(alloc: Global, place: usize) -> Result<Bytes, Memory> {
    let mut line = Bytes::of(alloc, b"fault: BadState at ")?;
    push_place(&mut line, place)?;
    Ok(line)
}

/// Whether `show` of these bytes tells that they are no state at this place.
fn is_none_at(alloc: Global, state: &[u8], place: usize) -> Result<bool, Fail> {
    let line = line_of(alloc, place)?;
    shows(alloc, state, line.get(), Status::Bad)
}

/// The last of these places that is at most this one.
fn place_at(places: &[usize], at: usize) -> usize {
    let mut last = 0;
    for place in places {
        if *place <= at {
            last = *place;
        }
    }
    last
}

/// The first byte behind which the state can be cut and is still one, or is none at another place.
fn first_cut(alloc: Global, state: &[u8], places: &[usize]) -> Result<Option<usize>, Fail> {
    for cut in 0..state.len() {
        if !is_none_at(alloc, &state[..cut], place_at(places, cut))? {
            return Ok(Some(cut));
        }
    }
    Ok(None)
}

/// A state, and where its lines and updates begin.
type State = (&'static [u8], &'static [usize]);

const STATES: &[State] = &[(EMPTY, EMPTY_PLACES), (STATE, STATE_PLACES)];

/// Whether each of these states can't be cut at any byte.
fn no_cuts(alloc: Global, states: &[State]) -> Result<bool, Fail> {
    for (state, places) in states {
        if first_cut(alloc, state, places)?.is_some() {
            return Ok(false);
        }
    }
    Ok(true)
}

#[test]
fn a_state_file_that_is_cut_is_none(rt: HostRuntime) -> Result<(), Fail> {
    assert!(rt; no_cuts(rt.alloc(), STATES)?);
    Ok(())
}

/// A state with one more byte.
fn grown(alloc: Global, state: &[u8], more: u8) -> Result<Bytes, Memory> {
    let mut grown = Bytes::of(alloc, state)?;
    grown.push(&[more])?;
    Ok(grown)
}

/// Whether a state with one more byte is none.
fn more_is_none(alloc: Global, state: &[u8], more: u8) -> Result<bool, Fail> {
    let grown = grown(alloc, state, more)?;
    is_none_at(alloc, grown.get(), state.len())
}

/// Whether the state can't grow by any byte.
fn is_whole(alloc: Global, state: &[u8]) -> Result<bool, Fail> {
    for more in 0..=255 {
        if !more_is_none(alloc, state, more)? {
            return Ok(false);
        }
    }
    Ok(true)
}

/// Whether each of these states can't grow.
fn are_whole(alloc: Global, states: &[State]) -> Result<bool, Fail> {
    for (state, _) in states {
        if !is_whole(alloc, state)? {
            return Ok(false);
        }
    }
    Ok(true)
}

#[test]
fn a_state_file_that_grew_is_none(rt: HostRuntime) -> Result<(), Fail> {
    assert!(rt; are_whole(rt.alloc(), STATES)?);
    Ok(())
}

/// A file, what `show` prints of it, and its status.
type Row = (&'static [u8], &'static [u8], Status);

/// Files that another program made.
const FILES: &[Row] = &[
    // Another agent's unsent version is taken as it stands. The digest was computed by python3's hashlib.
    (
        b"braid-state 1\nagent: b\nserver: h:1\npath: /doc\nconfirmed: 1\nunsent: 1\n\nVersion: \"x-1\"\nContent-Length: 2\n\nab\nVersion: \"a-1\"\nParents: \"x-1\"\nContent-Range: text [1:1]\nContent-Length: 1\n\nP\nend\n",
        b"agent: b\npath: /doc\nfrontier: \"a-1\"\nconfirmed: 1\nunsent: 1\nlength: 3\ndigest: 84cf15fbba34c1992c1501d7615c97468fc492ac2a5484cc386fb2979093d20a\ntext:\naPb\n",
        Status::Done,
    ),
    // No agent.
    (
        b"braid-state 1\nagent: a-b\nserver: h:1\npath: /doc\nconfirmed: 0\nunsent: 0\n\nend\n",
        b"fault: BadState at 14\n",
        Status::Bad,
    ),
    // An unsent version that does not name the one before it.
    (
        b"braid-state 1\nagent: a\nserver: h:1\npath: /doc\nconfirmed: 0\nunsent: 2\n\nVersion: \"a-1\"\nPatches: 0\n\nVersion: \"a-2\"\nPatches: 0\n\nend\n",
        b"fault: BadEntry 1\n",
        Status::Bad,
    ),
    // The same among confirmed versions.
    (
        b"braid-state 1\nagent: a\nserver: h:1\npath: /doc\nconfirmed: 2\nunsent: 0\n\nVersion: \"a-1\"\nPatches: 0\n\nVersion: \"a-2\"\nPatches: 0\n\nend\n",
        b"agent: a\npath: /doc\nfrontier: \"a-1\", \"a-2\"\nconfirmed: 2\nunsent: 0\nlength: 0\ndigest: 52d713ef4c2f7f4b2afb0de223548b79d8131d569a65c00e468fef961befb15b\ntext:\n\n",
        Status::Done,
    ),
    // A version that stands twice, a parent that stands behind its child, and a range past the text.
    (
        b"braid-state 1\nagent: a\nserver: h:1\npath: /doc\nconfirmed: 2\nunsent: 0\n\nVersion: \"x-1\"\nPatches: 0\n\nVersion: \"x-1\"\nPatches: 0\n\nend\n",
        b"fault: BadEntry 1\n",
        Status::Bad,
    ),
    (
        b"braid-state 1\nagent: a\nserver: h:1\npath: /doc\nconfirmed: 2\nunsent: 0\n\nVersion: \"y-1\"\nParents: \"x-1\"\nPatches: 0\n\nVersion: \"x-1\"\nPatches: 0\n\nend\n",
        b"fault: BadEntry 0\n",
        Status::Bad,
    ),
    (
        b"braid-state 1\nagent: a\nserver: h:1\npath: /doc\nconfirmed: 1\nunsent: 1\n\nVersion: \"x-1\"\nPatches: 0\n\nVersion: \"a-1\"\nParents: \"x-1\"\nContent-Range: text [0:1]\nContent-Length: 0\n\nend\n",
        b"fault: BadEntry 1\n",
        Status::Bad,
    ),
];

/// The first file that is shown otherwise.
fn first_other(alloc: Global, rows: &[Row]) -> Result<Option<usize>, Fail> {
    for (n, (state, text, status)) in rows.iter().enumerate() {
        if !shows(alloc, state, text, *status)? {
            return Ok(Some(n));
        }
    }
    Ok(None)
}

#[test]
fn a_state_file_may_be_of_another_make(rt: HostRuntime) -> Result<(), Fail> {
    assert_eq!(rt; first_other(rt.alloc(), FILES)?, None);
    Ok(())
}
