use super::*;
use std::alloc::Global;
use std::test::Fail;

/// What reading is to answer.
#[derive(Clone, Copy)]
enum Wanted<'a> {
    /// A state with this text.
    Text(&'a [u8]),
    /// A fault at this place.
    Place(u64),
}

/// Whether reading the bytes answers so. What is read is written again.
fn answers(alloc: Global, bytes: &[u8], wanted: Wanted) -> Result<bool, Fail> {
    match read_state(alloc, bytes) {
        Ok(state) => is_text(wanted, write_state(alloc, &state)?.get()),
        Err(StateFault::BadState { at }) => Ok(is_place(wanted, at)),
        Err(fault) => Err(Fail::from(fault)),
    }
}

fn is_text(wanted: Wanted, text: &[u8]) -> Result<bool, Fail> {
    match wanted {
        Wanted::Text(bytes) => Ok(bytes == text),
        Wanted::Place(_) => Ok(false),
    }
}

fn is_place(wanted: Wanted, at: u64) -> bool {
    match wanted {
        Wanted::Text(_) => false,
        Wanted::Place(place) => place == at,
    }
}

const EMPTY: &[u8] =
    b"braid-state 1\nagent: a\nserver: 127.0.0.1:9000\npath: /doc\nconfirmed: 0\nunsent: 0\n\nend\n";

#[test]
fn a_state_is_read_whole_or_not_at_all(rt: HostRuntime) -> Result<(), Fail> {
    assert_eq!(rt; EMPTY.len(), 85);
    assert!(rt; answers(rt.alloc(), EMPTY, Wanted::Text(EMPTY))?);
    let mut start = 0;
    for len in 0..EMPTY.len() {
        if len == 81 || len > 0 && EMPTY[len - 1] == b'\n' {
            start = len as u64;
        }
        assert!(rt; answers(rt.alloc(), &EMPTY[..len], Wanted::Place(start))?);
    }
    Ok(())
}

const BOTH: &[u8] =
    b"braid-state 1\nagent: a\nserver: h\npath: /\nconfirmed: 1\nunsent: 2\n\n\n\r\nversion:\"x-1\"\nContent-Length: 2\n\nhi\n\nVersion: \"a-1\"\r\nParents: \"x-1\"\r\nContent-Range: text [2:2]\r\nContent-Length: 1\r\n\r\n!\nHTTP 200 OK\nVersion: \"a-2\"\nParents: \"a-1\"\nPatches: 0\n\n\r\nend\n";

const SPELLED: &[u8] =
    b"braid-state 1\nagent: a\nserver: h\npath: /\nconfirmed: 1\nunsent: 2\n\nVersion: \"x-1\"\r\nParents:\r\nContent-Length: 2\r\n\r\nhi\r\n\r\nVersion: \"a-1\"\r\nParents: \"x-1\"\r\nPatches: 1\r\n\r\nContent-Length: 1\r\nContent-Range: text [2:2]\r\n\r\n!\r\n\r\nVersion: \"a-2\"\r\nParents: \"a-1\"\r\nPatches: 0\r\n\r\n\r\nend\n";

#[test]
fn updates_are_read_in_any_spelling(rt: HostRuntime) -> Result<(), Fail> {
    assert!(rt; answers(rt.alloc(), BOTH, Wanted::Text(SPELLED))?);
    assert!(rt; answers(rt.alloc(), SPELLED, Wanted::Text(SPELLED))?);
    let state = read_state(rt.alloc(), BOTH)?;
    assert_eq!(rt; state.confirmed.get().len(), 1);
    assert_eq!(rt; state.unsent.get().len(), 2);
    Ok(())
}

#[test]
fn faults_have_their_places(rt: HostRuntime) -> Result<(), Fail> {
    let rows: [(&[u8], u64); 14] = [
        (b"braid-state 1\r\nagent: a\n", 0),
        (b"braid-state 1\nagent: plain\n", 14),
        (b"braid-state 1\nagent: a\nserver: \n", 23),
        (b"braid-state 1\nagent: a\nserver: h\npath: doc\n", 33),
        (b"braid-state 1\nagent: a\nserver: h\npath: /a b\n", 33),
        (
            b"braid-state 1\nagent: a\nserver: h\npath: /\nconfirmed: 00\n",
            41,
        ),
        (
            b"braid-state 1\nagent: a\nserver: h\npath: /\nconfirmed: 524288\nunsent: 1\n\n",
            59,
        ),
        (
            b"braid-state 1\nagent: a\nserver: h\npath: /\nconfirmed: 99999999999999999999\nunsent: 0\n\n",
            73,
        ),
        (
            b"braid-state 1\nagent: a\nserver: h\npath: /\nconfirmed: 0\nunsent: 0\n\r\nend\n",
            64,
        ),
        (
            b"braid-state 1\nagent: a\nserver: h\npath: /\nconfirmed: 1\nunsent: 0\n\n\nend\n",
            65,
        ),
        (
            b"braid-state 1\nagent: a\nserver: h\npath: /\nconfirmed: 1\nunsent: 1\n\n\nVersion: \"a\"\nPatches: 0\n\n\nVersion: \"b\"\nend\n",
            91,
        ),
        (
            b"braid-state 1\nagent: a\nserver: h\npath: /\nconfirmed: 0\nunsent: 0\n\n\r\n\nend",
            68,
        ),
        (
            b"braid-state 1\nagent: a\nserver: h\npath: /\nconfirmed: 0\nunsent: 0\n\n\n\rend\n",
            66,
        ),
        (
            b"braid-state 1\nagent: a\nserver: h\npath: /\nconfirmed: 0\nunsent: 0\n\nend\n\n",
            69,
        ),
    ];
    for (bytes, place) in rows {
        assert!(rt; answers(rt.alloc(), bytes, Wanted::Place(place))?);
    }
    Ok(())
}
