ghost use Rattle.std.specs.Prelude.{◌<◌, length};

use super::ShelfKind::{
    BadItem, BadKey, LongInteger, MissingComma, NotCarried, NotCount, NotString, TrailingComma,
    Unclosed,
};
use super::*;
use braid_ids::{Bytes, Frontier, Id, Memory};
use std::alloc::Global;

/// Writes a letter for a type, and a value.
fn show_as(letter: &[u8], value: &[u8], shown: &mut Bytes) -> Result<(), Memory> {
    shown.push(letter)?;
    shown.push(value)
}

/// Writes a number behind its letter.
fn show_number(alloc: Global, number: i64, shown: &mut Bytes) -> Result<(), Memory> {
    match format!(in alloc; "{number}") {
        Ok(digits) => show_as(b"i:", digits.as_bytes(), shown),
        Err(_) => Err(Memory),
    }
}

/// Writes an item as a letter for its type and its value.
fn show_item(alloc: Global, item: &Item, shown: &mut Bytes) -> Result<(), Memory> {
    match item {
        Item::Str(text) => show_as(b"s:", text.get(), shown),
        Item::Token(word) => show_as(b"t:", word.get(), shown),
        Item::Int(number) => show_number(alloc, *number, shown),
        Item::Bool(true) => shown.push(b"b:1"),
        Item::Bool(false) => shown.push(b"b:0"),
    }
}

/// Writes an item and its parameters, a `;` before each, and a `|` behind all.
fn show_member(alloc: Global, member: &Member, shown: &mut Bytes) -> Result<(), Memory> {
    show_item(alloc, &member.item, shown)?;
    for param in member.params.get() {
        show_as(b";", param.key.get(), shown)?;
        shown.push(b"=")?;
        show_item(alloc, &param.value, shown)?;
    }
    shown.push(b"|")
}

/// Whether members are written so, one after the other.
fn are_shown(alloc: Global, members: &[Member], wanted: &[u8]) -> Result<bool, Memory> {
    let mut shown = Bytes::of(alloc, b"")?;
    for member in members {
        show_member(alloc, member, &mut shown)?;
    }
    Ok(shown.get() == wanted)
}

/// Whether a value has these members.
fn has_members(alloc: Global, value: &[u8], wanted: &[u8]) -> bool {
    match read_list(alloc, value) {
        Ok(members) => are_shown(alloc, &members, wanted) == Ok(true),
        Err(_) => false,
    }
}

/// Whether a fault is of this kind at this place.
fn is_at(found: ShelfFault, at: u64, kind: ShelfKind) -> bool {
    found == ShelfFault::Bad { at, kind }
}

/// Whether a value has the fault of this kind at this place.
fn is_fault(alloc: Global, value: &[u8], at: u64, kind: ShelfKind) -> bool {
    match read_list(alloc, value) {
        Ok(_) => false,
        Err(found) => is_at(found, at, kind),
    }
}

/// Whether a value has that fault where strings are read.
fn is_fault_of_strings(alloc: Global, value: &[u8], at: u64, kind: ShelfKind) -> bool {
    match read_strings(alloc, value) {
        Ok(_) => false,
        Err(found) => is_at(found, at, kind),
    }
}

/// Whether a value has that fault where a count is read.
fn is_fault_of_a_count(alloc: Global, value: &[u8], at: u64, kind: ShelfKind) -> bool {
    match read_count(alloc, value) {
        Ok(_) => false,
        Err(found) => is_at(found, at, kind),
    }
}

/// Whether strings are these texts.
fn are_texts(strings: &[Bytes], texts: &[&[u8]]) -> bool {
    if strings.len() != texts.len() {
        return false;
    }
    for (string, text) in strings.iter().zip(texts) {
        if string.get() != *text {
            return false;
        }
    }
    true
}

/// Whether a value has these strings.
fn has_strings(alloc: Global, value: &[u8], texts: &[&[u8]]) -> bool {
    match read_strings(alloc, value) {
        Ok(strings) => are_texts(&strings, texts),
        Err(_) => false,
    }
}

/// Values, and how their members are shown.
const LISTS: [(&[u8], &[u8]); 13] = [
    (b"", b""),
    (b"   ", b""),
    (b"a;q=1, \"b\\\"c\" ,?1", b"t:a;q=i:1|s:b\"c|b:1|"),
    (b"999999999999999", b"i:999999999999999|"),
    (b"-999999999999999", b"i:-999999999999999|"),
    (b"-0", b"i:0|"),
    (b"007,?0", b"i:7|b:0|"),
    (b"*a/b:c+d", b"t:*a/b:c+d|"),
    (b"\"\", \"\\\\ ~\"", b"s:|s:\\ ~|"),
    (b"  \"a\"\t,\t \"b\" \t", b"s:a|s:b|"),
    (b"a;  b;*k-_.9=?0", b"t:a;b=b:1;*k-_.9=b:0|"),
    (b"a;b;c=\"x\";b=2;d=e", b"t:a;b=i:2;c=s:x;d=t:e|"),
    (b"a;b=1;b,-5;b", b"t:a;b=b:1|i:-5;b=b:1|"),
];

#[test]
fn reads_lists_into_their_members(rt: HostRuntime) {
    let alloc = rt.alloc();
    for (value, members) in LISTS {
        assert!(rt; has_members(alloc, value, members));
    }
}

/// Values, and the place of a bad item in each.
const BAD_ITEMS: [(&[u8], u64); 28] = [
    (b"\"a\\b\"", 2),
    (b"\"\\n", 1),
    (b"\"a\x7f\"", 2),
    (b"\"a\tb\"", 2),
    (b"\"\x1f", 1),
    (b"\"\x80\"", 1),
    (b"a, \"b\x00\"", 5),
    (b"-", 0),
    (b"-a", 0),
    (b"--1", 0),
    (b"1, -", 3),
    (b"a;q=-", 4),
    (b"?", 0),
    (b"?2", 0),
    (b"a, ?t", 3),
    (b"a;b=?", 4),
    (b",", 0),
    (b", a", 0),
    (b"a,, b", 2),
    (b"a, ,b", 3),
    (b"\ta", 0),
    (b" \ta", 1),
    (b";a", 0),
    (b"a;b=", 4),
    (b"a;b=,c", 4),
    (b"a;b= c", 4),
    (b"\xff", 0),
    (b"a, @", 3),
];

#[test]
fn names_the_place_of_a_bad_item(rt: HostRuntime) {
    let alloc = rt.alloc();
    for (value, at) in BAD_ITEMS {
        assert!(rt; is_fault(alloc, value, at, BadItem));
    }
}

/// Values, and the place and the kind of an item that is not carried or too long.
const OTHER_ITEMS: [(&[u8], u64, ShelfKind); 14] = [
    (b"9999999999999999", 0, LongInteger),
    (b"-1234567890123456", 0, LongInteger),
    (b"1234567890123456.5", 0, LongInteger),
    (b"a, 1234567890123456", 3, LongInteger),
    (b"a;q=0000000000000000", 4, LongInteger),
    (b"1.5", 0, NotCarried),
    (b"-1.5", 0, NotCarried),
    (b"123456789012345.", 0, NotCarried),
    (b"1, 2.0", 3, NotCarried),
    (b"a;q=0.5", 4, NotCarried),
    (b":YQ==:", 0, NotCarried),
    (b"(a b)", 0, NotCarried),
    (b"a, (b)", 3, NotCarried),
    (b"a;b=:", 4, NotCarried),
];

#[test]
fn names_the_place_of_what_is_not_carried_or_too_long(rt: HostRuntime) {
    let alloc = rt.alloc();
    for (value, at, kind) in OTHER_ITEMS {
        assert!(rt; is_fault(alloc, value, at, kind));
    }
}

/// Values, and the place and the kind of what is missing at an end or a comma.
const MISSING: [(&[u8], u64, ShelfKind); 21] = [
    (b"\"", 0, Unclosed),
    (b"\"a", 0, Unclosed),
    (b"\"a\\", 0, Unclosed),
    (b"\"a\\\"", 0, Unclosed),
    (b"a, \"b", 3, Unclosed),
    (b"a;q=\"b", 4, Unclosed),
    (b"\"a\" \"b\"", 4, MissingComma),
    (b"\"a\"b", 3, MissingComma),
    (b"1a", 1, MissingComma),
    (b"a=1", 1, MissingComma),
    (b"?0x", 2, MissingComma),
    (b"a ;b", 2, MissingComma),
    (b"a;b c", 4, MissingComma),
    (b"a;b=\"c\"d", 7, MissingComma),
    (b"a;b=1=2", 5, MissingComma),
    (b"a, b\t\"c\"", 5, MissingComma),
    (b"\"a\",", 3, TrailingComma),
    (b"1 ,", 2, TrailingComma),
    (b"a,  ", 1, TrailingComma),
    (b"a, b,\t", 4, TrailingComma),
    (b"a;b=1 , ", 6, TrailingComma),
];

#[test]
fn names_the_place_of_a_missing_end_or_comma(rt: HostRuntime) {
    let alloc = rt.alloc();
    for (value, at, kind) in MISSING {
        assert!(rt; is_fault(alloc, value, at, kind));
    }
}

/// Values, and the place where no key begins in each.
const BAD_KEYS: [(&[u8], u64); 10] = [
    (b"a;Q", 2),
    (b"a;", 2),
    (b"a; ", 3),
    (b"a;  Q=1", 4),
    (b"a;1", 2),
    (b"a;;b", 2),
    (b"a;=1", 2),
    (b"a;b=1;", 6),
    (b"\"a\";\"b\"", 4),
    (b"a, b;\tc", 5),
];

#[test]
fn names_the_place_where_no_key_begins(rt: HostRuntime) {
    let alloc = rt.alloc();
    for (value, at) in BAD_KEYS {
        assert!(rt; is_fault(alloc, value, at, BadKey));
    }
}

/// Values that are not of strings alone, and the place and the kind of the fault.
const NOT_STRINGS: [(&[u8], u64, ShelfKind); 6] = [
    (b"a", 0, NotString),
    (b" 1", 1, NotString),
    (b"\"a\", b", 5, NotString),
    (b"\"a\";q, \"b\"", 0, NotString),
    (b"\"a\", \"b\";x, c", 5, NotString),
    (b"\"a\", 1,", 6, TrailingComma),
];

#[test]
fn reads_strings_alone(rt: HostRuntime) {
    let alloc = rt.alloc();
    assert!(rt; has_strings(alloc, b" ", &[]));
    let value = b"\"b\" ,\"a\\\\\",\"b\"";
    assert!(rt; has_strings(alloc, value, &[b"b", b"a\\", b"b"]));
    for (value, at, kind) in NOT_STRINGS {
        assert!(rt; is_fault_of_strings(alloc, value, at, kind));
    }
}

/// Values, and the count of each.
const COUNTS: [(&[u8], u64); 3] = [
    (b" 12 ", 12),
    (b"-0", 0),
    (b"999999999999999", 999_999_999_999_999),
];

/// Values that are no count, and the place and the kind of the fault.
const NOT_COUNTS: [(&[u8], u64, ShelfKind); 7] = [
    (b"", 0, NotCount),
    (b" -5", 0, NotCount),
    (b"1;q", 0, NotCount),
    (b"1, 2", 0, NotCount),
    (b"\"1\"", 0, NotCount),
    (b" 1.5", 1, NotCarried),
    (b"1,", 1, TrailingComma),
];

#[test]
fn reads_one_count(rt: HostRuntime) {
    let alloc = rt.alloc();
    for (value, count) in COUNTS {
        assert!(rt; read_count(alloc, value) == Ok(count));
    }
    for (value, at, kind) in NOT_COUNTS {
        assert!(rt; is_fault_of_a_count(alloc, value, at, kind));
    }
}

/// The frontier of these names.
fn frontier_of(alloc: Global, names: &[&[u8]]) -> Option<Frontier>
    requires { length names.now < 100 }
{
    let mut ids = Vec::new(alloc);
    for name in names {
        ids.push(Id::read(alloc, name).ok()?).ok()?;
    }
    Frontier::of(ids).ok()
}

/// Whether identifiers are written so, and that is read as these strings.
fn are_written(alloc: Global, names: &[&[u8]], wanted: &[u8], texts: &[&[u8]]) -> Option<bool>
    requires { length names.now < 100 }
{
    let frontier = frontier_of(alloc, names)?;
    let value = write_strings(alloc, &frontier).ok()?;
    Some(value.get() == wanted && has_strings(alloc, value.get(), texts))
}

#[test]
fn writes_identifiers_in_rising_order(rt: HostRuntime) {
    let alloc = rt.alloc();
    let names: [&[u8]; 3] = [b"b-1", b"a\"\\1", b"a"];
    let risen: [&[u8]; 3] = [b"a", b"a\"\\1", b"b-1"];
    let wanted = b"\"a\", \"a\\\"\\\\1\", \"b-1\"";
    let none = are_written(alloc, &[], b"", &[]);
    let three = are_written(alloc, &names, wanted, &risen);
    assert!(rt; none == Some(true) && three == Some(true));
}

/// The number of parameters in a list that is made of one.
fn made_of_one(alloc: Global) -> Option<usize> {
    let key = Bytes::of(alloc, b"q").ok()?;
    let value = Item::Int(1);
    let params = vec![in alloc; Param { key, value }].ok()?;
    Some(ListParam::of(params).get().len())
}

#[test]
fn makes_lists_of_parameters(rt: HostRuntime) {
    assert!(rt; made_of_one(rt.alloc()) == Some(1));
}
