use super::*;
use std::alloc::Global;
use std::process::Abort;
use std::test::Fail;

/// The frontier of these names.
fn frontier_of(rt: &impl Abort, alloc: Global, names: &[&[u8]]) -> Result<Frontier, Fail> {
    let mut ids = Vec::new(alloc);
    for name in names {
        ids.push(Id::read(alloc, name)?)?;
    }
    assert!(rt; ids.len() < 100);
    Ok(Frontier::of(ids)?)
}

#[test]
fn reads_identifiers_up_to_their_limit(rt: HostRuntime) -> Result<(), Fail> {
    let alloc = rt.alloc();
    let longest = vec![in alloc; b'a'; 128]?;
    let id = Id::read(alloc, &longest)?;
    assert!(rt; id.bytes() == longest.as_slice());
    assert!(rt; id.copy(alloc)? == id);
    let longer = vec![in alloc; b'a'; 129]?;
    assert_eq!(rt;
        Id::read(alloc, &longer).err(),
        Some(IdFault::TooLong { len: 129 })
    );
    assert_eq!(rt; Id::read(alloc, b"").err(), Some(IdFault::Empty));
    assert_eq!(rt;
        Id::read(alloc, b"a\n").err(),
        Some(IdFault::BadByte { at: 1, byte: 10 })
    );
    assert_eq!(rt;
        Id::read(alloc, b"\x7f").err(),
        Some(IdFault::BadByte { at: 0, byte: 0x7f })
    );
    Ok(())
}

#[test]
fn spells_identifiers_as_strings(rt: HostRuntime) -> Result<(), Fail> {
    let alloc = rt.alloc();
    let plain = Id::read(alloc, b"a-1")?.spell(alloc)?;
    assert!(rt; plain.get() == b"\"a-1\"".as_slice());
    let quoted = Id::read(alloc, b"a\"\\1")?.spell(alloc)?;
    assert!(rt; quoted.get() == b"\"a\\\"\\\\1\"".as_slice());
    Ok(())
}

#[test]
fn sorts_identifiers_and_drops_repeats(rt: HostRuntime) -> Result<(), Fail> {
    let alloc = rt.alloc();
    let frontier = frontier_of(&rt, alloc, &[b"b-1", b"a-2", b"b-1", b"a"])?;
    assert_eq!(rt; frontier.len(), 3);
    let copied = frontier.copy(alloc)?;
    for (n, name) in [b"a".as_slice(), b"a-2", b"b-1"].iter().enumerate() {
        let id = copied.get(n as u32).ok_or("too few")?;
        assert!(rt; id.bytes() == *name);
        assert!(rt; frontier.holds(id));
    }
    assert!(rt; copied.get(3).is_none());
    assert!(rt; !frontier.holds(&Id::read(alloc, b"b")?));
    Ok(())
}

/// The set of the numbers below 10 in these ranges, put in in this order.
fn marks_of(alloc: Global, ranges: &[(u32, u32)]) -> Result<Marks, Fail> {
    let mut marks = Marks::of(alloc, 10)?;
    for (from, to) in ranges {
        if *from >= *to || *to > marks.size() {
            return Err("no range below 10".into());
        }
        marks.add(*from, *to)?;
    }
    Ok(marks)
}

#[test]
fn ranges_that_touch_or_overlap_become_one(rt: HostRuntime) -> Result<(), Fail> {
    let rows: [(&[(u32, u32)], &[u8], u32); 9] = [
        (&[], b"0000000000", 0),
        (&[(2, 4), (3, 10)], b"0011111111", 1),
        (&[(2, 4), (4, 6)], b"0011110000", 1),
        (&[(4, 6), (2, 4)], b"0011110000", 1),
        (&[(2, 8), (3, 5)], b"0011111100", 1),
        (&[(6, 8), (2, 4)], b"0011001100", 2),
        (&[(0, 1), (9, 10), (3, 4)], b"1001000001", 3),
        (&[(0, 1), (3, 4), (6, 7), (1, 6)], b"1111111000", 1),
        (&[(5, 10), (0, 5)], b"1111111111", 1),
    ];
    for (ranges, digits, pieces) in rows {
        let marks = marks_of(rt.alloc(), ranges)?;
        assert_eq!(rt; marks.size(), 10);
        assert_eq!(rt; marks.pieces(), pieces);
        assert_eq!(rt; marks.is_full(), !digits.contains(&b'0'));
        for n in 0..12u32 {
            let digit = digits.get(n as usize).copied();
            assert_eq!(rt; marks.has(n), digit == Some(b'1'));
        }
    }
    Ok(())
}

#[test]
fn byte_lists_grow_at_their_end(rt: HostRuntime) -> Result<(), Fail> {
    let mut bytes = Bytes::of(rt.alloc(), b"ab")?;
    bytes.push(b"c")?;
    assert!(rt; bytes.get() == b"abc".as_slice());
    let mut list = ListBytes::new(rt.alloc());
    list.push(bytes)?;
    list.push(Bytes::of(rt.alloc(), b"d")?)?;
    assert_eq!(rt; list.get().len(), 2);
    assert!(rt; list.get()[0].get() == b"abc".as_slice());
    assert!(rt; list.get()[1].get() == b"d".as_slice());
    let word = Word::of(rt.alloc(), b"check")?;
    assert!(rt; word.get() == b"check".as_slice());
    Ok(())
}

#[test]
fn reads_agents_and_names_their_versions(rt: HostRuntime) -> Result<(), Fail> {
    let alloc = rt.alloc();
    let faults = [
        (b"".as_slice(), AgentFault::Empty),
        (
            b"0123456789012345678901234567890ab",
            AgentFault::TooLong { len: 33 },
        ),
        (b"ann-1", AgentFault::BadByte { at: 3, byte: 45 }),
        (b"Ann", AgentFault::BadByte { at: 0, byte: 65 }),
        (b"plain", AgentFault::Reserved),
    ];
    for (bytes, fault) in faults {
        assert_eq!(rt; Agent::read(alloc, bytes).err(), Some(fault));
    }
    let agent = Agent::read(alloc, b"0123456789012345678901234567890a")?;
    assert_eq!(rt; agent.bytes().len(), 32);
    let agent = Agent::read(alloc, b"a")?.copy(alloc)?;
    assert!(rt; agent.bytes() == b"a".as_slice());
    assert!(rt; agent.name(alloc, 1)?.bytes() == b"a-1".as_slice());
    let last = agent.name(alloc, u64::MAX)?;
    assert!(rt; last.bytes() == b"a-18446744073709551615".as_slice());
    assert_eq!(rt; agent.number(&last), Some(u64::MAX));
    Ok(())
}

#[test]
fn numbers_only_the_agents_own_versions(rt: HostRuntime) -> Result<(), Fail> {
    let alloc = rt.alloc();
    let agent = Agent::read(alloc, b"a")?;
    let rows = [
        (b"a-1".as_slice(), Some(1)),
        (b"a-20", Some(20)),
        (b"a-01", None),
        (b"a-0", None),
        (b"a-", None),
        (b"a", None),
        (b"b-1", None),
        (b"aa-1", None),
        (b"a-1x", None),
        (b"a-18446744073709551616", None),
    ];
    for (bytes, number) in rows {
        assert_eq!(rt; agent.number(&Id::read(alloc, bytes)?), number);
    }
    Ok(())
}

#[test]
fn readers_take_bytes_apart(rt: HostRuntime) {
    assert!(rt; after(b"ab", b"abc") == Some(b"c".as_slice()));
    assert!(rt; after(b"b", b"abc").is_none());
    assert!(rt; split_at_byte(b':', b"a:b:c") == Some((b"a".as_slice(), b"b:c".as_slice())));
    assert!(rt; split_at_byte(b':', b"abc").is_none());
    assert_eq!(rt; read_decimal(b"1048576"), Some(1_048_576));
    assert_eq!(rt; read_decimal(b"00"), None);
    assert_eq!(rt; read_decimal(b"+1"), None);
}
