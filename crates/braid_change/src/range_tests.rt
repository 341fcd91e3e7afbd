use super::*;

/// Whether a value is this range.
fn is_range(value: &[u8], range: (u32, u32)) -> bool {
    match read_range(value) {
        Ok(found) => found == range,
        Err(_) => false,
    }
}

/// Whether a value is refused so.
fn is_refused(value: &[u8], fault: RangeFault) -> bool {
    match read_range(value) {
        Ok(_) => false,
        Err(found) => found == fault,
    }
}

/// Whether each of these values is refused so.
fn all_refused(rows: &[(&[u8], RangeFault)]) -> bool {
    for (value, fault) in rows {
        if !is_refused(value, *fault) {
            return false;
        }
    }
    true
}

/// Values, and the range of each.
const RANGES: [(&[u8], (u32, u32)); 4] = [
    (b"text [0:1]", (0, 1)),
    (b"text   [12:345]", (12, 345)),
    (b"text [0000000007:4294967295]", (7, 4_294_967_295)),
    (b"text [5:2]", (5, 2)),
];

#[test]
fn ranges_are_read(rt: HostRuntime) {
    for (value, range) in RANGES {
        assert!(rt; is_range(value, range));
    }
}

/// Values of another unit or with a number that is too large, and the fault of each.
const OTHERS: [(&[u8], RangeFault); 10] = [
    (b"", RangeFault::Unit),
    (b"json [0:1]", RangeFault::Unit),
    (b"text[0:0]", RangeFault::Unit),
    (b"Text [0:0]", RangeFault::Unit),
    (b" text [0:0]", RangeFault::Unit),
    (b"text\t[0:0]", RangeFault::Unit),
    (b"text [4294967296:x]", RangeFault::Number),
    (b"text [0:4294967296]", RangeFault::Number),
    (b"text [00000000000:1]", RangeFault::Number),
    (b"text [0:99999999999999999999", RangeFault::Number),
];

#[test]
fn other_units_and_large_numbers_are_no_ranges(rt: HostRuntime) {
    assert!(rt; all_refused(&OTHERS));
}

/// Values, and where each departs from the form.
const DEPARTURES: [(&[u8], RangeFault); 12] = [
    (b"text", RangeFault::Form { at: 4 }),
    (b"text ", RangeFault::Form { at: 5 }),
    (b"text  (0:1]", RangeFault::Form { at: 6 }),
    (b"text []", RangeFault::Form { at: 6 }),
    (b"text [-1:2]", RangeFault::Form { at: 6 }),
    (b"text [x:99999999999]", RangeFault::Form { at: 6 }),
    (b"text [1]", RangeFault::Form { at: 7 }),
    (b"text [1 :2]", RangeFault::Form { at: 7 }),
    (b"text [1:", RangeFault::Form { at: 8 }),
    (b"text [1:2", RangeFault::Form { at: 9 }),
    (b"text [1:2)", RangeFault::Form { at: 9 }),
    (b"text [1:2] ", RangeFault::Form { at: 10 }),
];

#[test]
fn values_depart_from_the_form_at_a_place(rt: HostRuntime) {
    assert!(rt; all_refused(&DEPARTURES));
}
