//! Follows whose reply is cut at every byte, or whose lines can't be printed behind any number of bytes.

ghost use Rattle.braid_sync.specs.Opening.{IsPlace};

use crate::scripts::{Want, dialer, is_end, one_and_one, place};
use crate::sessions::whole_in;
use braid_io::MemSink;
use braid_outbox::Replica;
use braid_sync::{Followed, Place, SyncEnd, follow};
use std::alloc::Global;
use std::test::Fail;

/// A subscription's reply with four updates: what is known, what is unsent, and two new ones.
const GIVEN: &[u8] =
    b"HTTP/1.1 209 X\r\nCurrent-Version: \"z-1\"\r\nTransfer-Encoding: chunked\r\n\r\n35\r\nVersion: \"x-1\"\r\nParents:\r\nContent-Length: 2\r\n\r\nab\r\n\r\n\r\n63\r\nVersion: \"a-1\"\r\nParents: \"x-1\"\r\nPatches: 1\r\n\r\nContent-Length: 1\r\nContent-Range: text [1:1]\r\n\r\nP\r\n\r\n\r\n63\r\nVersion: \"y-1\"\r\nParents: \"x-1\"\r\nPatches: 1\r\n\r\nContent-Length: 1\r\nContent-Range: text [2:2]\r\n\r\nc\r\n\r\n\r\n30\r\nVersion: \"z-1\"\r\nParents: \"y-1\"\r\nPatches: 0\r\n\r\n\r\n\r\n0\r\n\r\n";

/// How many bytes of it have come where each of them is whole.
const UPDATES: &[usize] = &[123, 228, 333, 389];

/// Its lines, and how many bytes are printed where each of them is whole.
const LINES: &[u8] = b"Known \"x-1\"\nConfirmed \"a-1\"\nNew \"y-1\"\nNew \"z-1\"\n";

const ENDS: &[usize] = &[12, 28, 38, 48];

/// How a follow went: its end, its count of lines, the bytes printed, whether these begin all lines, and the versions
/// confirmed.
#[derive(Drop)]
struct Went {
    end: SyncEnd,
    lines: u64,
    printed: usize,
    begins: bool,
    confirmed: u64,
}

/// A replica's follow of so many updates of these bytes.
fn follow_over(
    alloc: Global,
    place: &Place,
    replica: &mut Replica,
    given: &[u8],
    count: u32,
    out: &mut MemSink,
) -> Result<Followed, Fail>
    requires place { IsPlace place.now }
{
    let mut dialer = dialer(alloc, given, b"", 4_096)?;
    Ok(follow(alloc, replica, place, &mut dialer, count, out))
}

/// A follow of so many updates of the first bytes of the reply, printed where there is so much room.
fn follow_went(
    alloc: Global,
    place: &Place,
    given: usize,
    count: u32,
    room: usize,
) -> Result<Went, Fail>
    requires place { IsPlace place.now }
{
    let given = GIVEN.get(..given).unwrap_or(GIVEN);
    let mut replica = one_and_one(alloc)?;
    let mut out = MemSink::new(alloc, room, Vec::new(alloc))?;
    let followed = follow_over(alloc, place, &mut replica, given, count, &mut out)?;
    Ok(Went {
        end: followed.end,
        lines: followed.lines as u64,
        printed: out.written().len(),
        begins: LINES.starts_with(out.written()),
        confirmed: replica.confirmed() as u64,
    })
}

/// Whether a follow learnt and printed so many updates of the four, with no part of a line behind them.
fn has_learnt(went: &Went, whole: u64) -> bool {
    let want = if whole == 4 { Want::Done } else { Want::Cut };
    let all_whole = went.printed == 0 || ENDS.contains(&went.printed);
    // The first update was confirmed before.
    went.begins
        && all_whole
        && whole_in(ENDS, went.printed) == whole
        && went.lines == whole
        && went.confirmed == whole.max(1)
        && is_end(&went.end, want)
}

/// Whether a follow of four updates of the first bytes of the reply learns and prints exactly the updates that have
/// come whole.
fn cut_holds(alloc: Global, place: &Place, given: usize) -> Result<bool, Fail>
    requires place { IsPlace place.now }
{
    let went = follow_went(alloc, place, given, 4, 100)?;
    Ok(has_learnt(&went, whole_in(UPDATES, given)))
}

/// The first byte behind which a follow that is cut does otherwise.
fn first_cut(alloc: Global, place: &Place) -> Result<Option<usize>, Fail>
    requires place { IsPlace place.now }
{
    for given in 0..GIVEN.len() {
        if !cut_holds(alloc, place, given)? {
            return Ok(Some(given));
        }
    }
    Ok(None)
}

/// Whether a follow ended for want of room, and learnt the update of the line that is not whole.
fn has_no_room(went: &Went) -> bool {
    let whole = whole_in(ENDS, went.printed);
    went.begins
        && went.lines == whole
        && went.confirmed == whole.saturating_add(1)
        && matches!(went.end, SyncEnd::OutFault)
}

/// Whether a follow whose lines have no more room than this ends so, and has learnt the update of the line that is not
/// whole.
fn room_holds(alloc: Global, place: &Place, room: usize) -> Result<bool, Fail>
    requires place { IsPlace place.now }
{
    let went = follow_went(alloc, place, GIVEN.len(), 4, room)?;
    Ok(has_no_room(&went))
}

/// Whether a follow of more updates than come ends with them, where there is room for their lines.
fn all_hold(alloc: Global, place: &Place) -> Result<bool, Fail>
    requires place { IsPlace place.now }
{
    let all = follow_went(alloc, place, GIVEN.len(), 9, LINES.len())?;
    Ok(has_learnt(&all, 4) && all.printed == LINES.len())
}

/// Whether follows with each room, less than that of all lines, hold, and one with room for all lines.
fn in_rooms(alloc: Global, place: &Place) -> Result<bool, Fail>
    requires place { IsPlace place.now }
{
    for room in 0..LINES.len() {
        if !room_holds(alloc, place, room)? {
            return Ok(false);
        }
    }
    all_hold(alloc, place)
}

/// The first byte behind which a follow by a replica of that place does otherwise.
fn first_cut_of_all(alloc: Global) -> Result<Option<usize>, Fail> {
    let place = place(alloc)?;
    first_cut(alloc, &place)
}

/// Whether follows with less room and with enough of it do as they are to do.
fn rooms_hold(alloc: Global) -> Result<bool, Fail> {
    let place = place(alloc)?;
    in_rooms(alloc, &place)
}

#[test]
fn a_follow_may_be_cut_behind_any_byte(rt: HostRuntime) -> Result<(), Fail> {
    assert_eq!(rt; first_cut_of_all(rt.alloc())?, None);
    Ok(())
}

#[test]
fn a_line_of_a_follow_may_not_be_printed(rt: HostRuntime) -> Result<(), Fail> {
    assert!(rt; rooms_hold(rt.alloc())?);
    Ok(())
}
