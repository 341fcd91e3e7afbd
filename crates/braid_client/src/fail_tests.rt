//! Commands of which a call of the outside fails.

use super::*;
use crate::scripts::{CHUNKS, HEAD, TAKEN, X, check, scripted, two_links};
use crate::sync_tests::TWO_UNSENT;
use crate::tests::words_of;
use braid_ids::{Bytes, Word};
use braid_io::{MemDialer, MemKeeper, MemSink, Status};
use std::alloc::Global;
use std::test::Fail;

/// Which calls of the keeper, of the dialer, of both links and of the output fail.
#[derive(Clone, Copy)]
struct Fails<'a> {
    keeper: &'a [u64],
    dials: &'a [u64],
    first: &'a [u64],
    second: &'a [u64],
    out: &'a [u64],
}

const NONE: &[u64] = &[];

const AT_0: &[u64] = &[0];

const AT_1: &[u64] = &[1];

const AT_2: &[u64] = &[2];

const NOTHING: Fails<'static> = Fails {
    keeper: NONE,
    dials: NONE,
    first: NONE,
    second: NONE,
    out: NONE,
};

/// A sync without a call that fails, with each of its calls in turn, and with a save that fails behind a dial.
const SYNCS: &[(Fails<'_>, Status, &[u8])] = &[
    (NOTHING, Status::Done, b"synced: confirmed 3 unsent 0\n"),
    (
        Fails {
            keeper: AT_0,
            ..NOTHING
        },
        Status::Outside,
        b"fault: LoadFault\n",
    ),
    (
        Fails {
            dials: AT_0,
            ..NOTHING
        },
        Status::Outside,
        b"fault: DialFault\n",
    ),
    (
        Fails {
            first: AT_0,
            ..NOTHING
        },
        Status::Outside,
        b"fault: WriteFault\n",
    ),
    (
        Fails {
            first: AT_1,
            ..NOTHING
        },
        Status::Outside,
        b"fault: ReadFault\n",
    ),
    (
        Fails {
            dials: AT_1,
            ..NOTHING
        },
        Status::Outside,
        b"fault: DialFault\n",
    ),
    (
        Fails {
            second: AT_0,
            ..NOTHING
        },
        Status::Outside,
        b"fault: WriteFault\n",
    ),
    (
        Fails {
            second: AT_1,
            ..NOTHING
        },
        Status::Outside,
        b"fault: ReadFault\n",
    ),
    (
        Fails {
            second: AT_2,
            ..NOTHING
        },
        Status::Outside,
        b"fault: WriteFault\n",
    ),
    (
        Fails {
            keeper: AT_1,
            ..NOTHING
        },
        Status::Outside,
        b"fault: SaveFault\n",
    ),
    (
        Fails {
            out: AT_0,
            ..NOTHING
        },
        Status::Outside,
        b"",
    ),
    (
        Fails {
            dials: AT_0,
            keeper: AT_1,
            ..NOTHING
        },
        Status::Outside,
        b"fault: SaveFault\n",
    ),
];

/// A keeper of the state of two unsent versions, of which these calls fail.
fn failing_keeper(alloc: Global, fails: &[u64]) -> Result<MemKeeper, Fail> {
    let entries = entries_of(alloc)?;
    Ok(MemKeeper::new(entries, Vec::from_slice(alloc, fails)?))
}

/// What it keeps.
fn entries_of(alloc: Global) -> Result<Vec<(Word, Bytes)>, Fail> {
    let entry = (Word::of(alloc, b"s")?, Bytes::of(alloc, TWO_UNSENT)?);
    Ok(vec![in alloc; entry]?)
}

/// A dialer of a link that gives `x-1` and of one that takes two PUTs.
fn failing_dialer(alloc: Global, fails: Fails<'_>) -> Result<MemDialer, Fail> {
    let first = scripted(alloc, &[HEAD, b"\"x-1\"", CHUNKS, X], fails.first)?;
    let second = scripted(alloc, &[TAKEN, TAKEN], fails.second)?;
    two_links(alloc, first, second, fails.dials)
}

/// Whether a sync of two unsent versions with these failing calls has this status and prints this.
fn ends_with(
    alloc: Global,
    words: &[Word],
    fails: Fails<'_>,
    status: Status,
    text: &[u8],
) -> Result<bool, Fail> {
    let mut keeper = failing_keeper(alloc, fails.keeper)?;
    let mut dialer = failing_dialer(alloc, fails)?;
    let mut out = MemSink::new(alloc, 1_000, Vec::from_slice(alloc, fails.out)?)?;
    let found = client_run(alloc, words, &mut keeper, &mut dialer, &mut out);
    Ok(found == status && out.written() == text)
}

#[test]
fn a_call_that_fails_ends_a_sync_with_its_line(rt: HostRuntime) -> Result<(), Fail> {
    let alloc = rt.alloc();
    let words = words_of(alloc, &[b"sync", b"s"])?;
    for (fails, status, text) in SYNCS {
        check(ends_with(alloc, &words, *fails, *status, text)?, "the line")?;
    }
    Ok(())
}
