//! Syncs of which a call of the outside fails.

ghost use Rattle.braid_sync.specs.Opening.{IsPlace};

use super::*;
use crate::tests::{
    CHUNKS, HEAD, TAKEN, Y, check, cut_sync, has_counts, place, scripted, two_links, two_unsent,
};
use braid_io::MemDialer;
use std::alloc::Global;
use std::test::Fail;

/// A call that fails.
#[derive(Clone, Copy)]
enum Failed {
    Dial,
    Read,
    Write,
    Nothing,
}

/// A second sync in which the dial, the read or write of the first link, or that of the second link with these numbers fails;
/// the call that its end names, and how many versions are confirmed and unsent then.
#[derive(Clone, Copy)]
struct Failing<'a> {
    dials: &'a [u64],
    first: &'a [u64],
    second: &'a [u64],
    failed: Failed,
    confirmed: u32,
    unsent: u32,
}

fn is_failure(end: &SyncEnd, failed: Failed) -> bool {
    match (end, failed) {
        (SyncEnd::DialFault, Failed::Dial) => true,
        (SyncEnd::ReadFault, Failed::Read) => true,
        (SyncEnd::WriteFault, Failed::Write) => true,
        (SyncEnd::Done, Failed::Nothing) => true,
        _ => false,
    }
}

fn failing_dialer(alloc: Global, row: &Failing<'_>) -> Result<MemDialer, Fail> {
    let one = scripted(alloc, &[HEAD, b"\"y-1\"", CHUNKS, Y], 4096, row.first)?;
    let two = scripted(alloc, &[TAKEN, TAKEN], TAKEN.len(), row.second)?;
    let fails = Vec::from_slice(alloc, row.dials)?;
    two_links(alloc, one, two, fails)
}

fn fails_so(alloc: Global, place: &Place, row: &Failing<'_>) -> Result<bool, Fail>
    requires place { IsPlace place.now }
{
    let mut dialer = failing_dialer(alloc, row)?;
    let mut replica = two_unsent(alloc)?;
    let cut = cut_sync(alloc, &mut replica, place, 4096)?;
    let end = sync(alloc, &mut replica, place, &mut dialer);
    Ok(cut && is_failure(&end, row.failed) && has_counts(&replica, row.confirmed, row.unsent))
}

/// Whether each call of a second sync ends it where it fails, and no further call is made.
fn calls_fail(alloc: Global) -> Result<bool, Fail> {
    let place = place(alloc)?;
    let rows = [
        Failing {
            dials: &[0],
            first: &[],
            second: &[],
            failed: Failed::Dial,
            confirmed: 1,
            unsent: 2,
        },
        Failing {
            dials: &[1],
            first: &[],
            second: &[],
            failed: Failed::Dial,
            confirmed: 2,
            unsent: 2,
        },
        Failing {
            dials: &[],
            first: &[0],
            second: &[],
            failed: Failed::Write,
            confirmed: 1,
            unsent: 2,
        },
        Failing {
            dials: &[],
            first: &[1],
            second: &[],
            failed: Failed::Read,
            confirmed: 1,
            unsent: 2,
        },
        Failing {
            dials: &[],
            first: &[],
            second: &[0],
            failed: Failed::Write,
            confirmed: 2,
            unsent: 2,
        },
        Failing {
            dials: &[],
            first: &[],
            second: &[1],
            failed: Failed::Read,
            confirmed: 2,
            unsent: 2,
        },
        Failing {
            dials: &[],
            first: &[],
            second: &[2],
            failed: Failed::Write,
            confirmed: 3,
            unsent: 1,
        },
        Failing {
            dials: &[],
            first: &[],
            second: &[3],
            failed: Failed::Read,
            confirmed: 3,
            unsent: 1,
        },
        Failing {
            dials: &[],
            first: &[],
            second: &[4],
            failed: Failed::Nothing,
            confirmed: 4,
            unsent: 0,
        },
    ];
    let mut all = true;
    for row in &rows {
        let one = fails_so(alloc, &place, row)?;
        all = all && one;
    }
    Ok(all)
}

#[test]
fn a_call_that_fails_ends_a_sync(rt: HostRuntime) -> Result<(), Fail> {
    let alloc = rt.alloc();
    check(calls_fail(alloc)?, "each call in turn")
}
