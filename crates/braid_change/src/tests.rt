ghost use Rattle.std.specs.Prelude.{◌<◌, ◌^◌, length, IfSome};
ghost use Rattle.braid_change.specs.Changes.{patches_of};

use super::*;
use braid_ids::{Bytes, Frontier, Id};
use std::alloc::Global;

/// The text that is written here.
fn text_of(alloc: Global, text: &str) -> Option<Text> {
    Text::read(alloc, text.as_bytes()).ok()
}

/// The patch of a start, an end and a text.
fn patch_of(alloc: Global, start: u32, end: u32, text: &str) -> Option<Patch> {
    let text = text_of(alloc, text)?;
    Some(Patch { start, end, text })
}

/// The change of these patches: start, end and text of each.
fn change_of(alloc: Global, rows: &[(u32, u32, &str)]) -> Option<Change>
    requires few { length rows.now < 2000 }
    ensures few { IfSome result (λ change. length (patches_of change) < 2000) }
{
    let mut patches = Vec::new(alloc);
    for (start, end, text) in rows {
        patches.push(patch_of(alloc, *start, *end, text)?).ok()?;
    }
    Some(Change::Patches(ListPatch::of(patches)))
}

/// The body that is written here.
fn body_of(alloc: Global, text: &str) -> Option<Change>
    ensures few { IfSome result (λ change. length (patches_of change) < 2000) }
{
    Some(Change::Body(text_of(alloc, text)?))
}

/// The frontier of these names.
fn frontier_of(alloc: Global, names: &[&[u8]]) -> Option<Frontier>
    requires few { length names.now < 100 }
{
    let mut ids = Vec::new(alloc);
    for name in names {
        ids.push(Id::read(alloc, name).ok()?).ok()?;
    }
    Frontier::of(ids).ok()
}

/// What the building of these parts answers.
fn built(
    alloc: Global,
    name: &[u8],
    parents: &[&[u8]],
    change: Option<Change>,
) -> Option<Result<Update, BuildFault>>
    requires few { length parents.now < 100 }
    requires counted { IfSome change (λ change. length (patches_of change) < 2000) }
{
    let change = change?;
    let id = Id::read(alloc, name).ok()?;
    let parents = frontier_of(alloc, parents)?;
    Some(Update::build(id, parents, change))
}

/// The update of these parts.
fn update_of(
    alloc: Global,
    name: &[u8],
    parents: &[&[u8]],
    change: Option<Change>,
) -> Option<Update>
    requires few { length parents.now < 100 }
    requires counted { IfSome change (λ change. length (patches_of change) < 2000) }
{
    built(alloc, name, parents, change)?.ok()
}

/// Whether that is an update, or is refused with this fault.
fn answers(update: Option<Result<Update, BuildFault>>, fault: Option<BuildFault>) -> bool {
    match update {
        Some(Ok(_)) => fault.is_none(),
        Some(Err(found)) => fault == Some(found),
        None => false,
    }
}

/// Whether a text is the one that is written here.
fn is_text(alloc: Global, text: &Text, want: &str) -> bool {
    match text_of(alloc, want) {
        Some(want) => text.same(&want),
        None => false,
    }
}

/// Whether patches make this of `hello`: a text, or a fault.
fn makes_of_hello(
    alloc: Global,
    rows: &[(u32, u32, &str)],
    want: Result<&str, SpliceFault>,
) -> Option<bool>
    requires few { length rows.now < 2000 }
{
    let hello = Text::of(Vec::from_slice(alloc, &['h', 'e', 'l', 'l', 'o']).ok()?);
    let update = update_of(alloc, b"u-1", &[], change_of(alloc, rows))?;
    Some(match (splice(alloc, &hello, update.change()), want) {
        (Ok(made), Ok(want)) => is_text(alloc, &made, want),
        (Err(found), Err(fault)) => found == fault,
        _ => false,
    })
}

/// Patches, and what they make of `hello`.
const MADE: [(&[(u32, u32, &str)], &str); 6] = [
    (&[(0, 1, "J"), (5, 5, "!")], "Jello!"),
    (&[(1, 1, "x"), (1, 3, "y")], "hxylo"),
    (&[(0, 5, "")], ""),
    (&[(1, 2, ""), (2, 3, "ü"), (3, 3, "€")], "hü€lo"),
    (&[(5, 5, " you")], "hello you"),
    (&[], "hello"),
];

#[test]
fn patches_replace_ranges(rt: HostRuntime) {
    for (patches, want) in MADE {
        let made = makes_of_hello(rt.alloc(), patches, Ok(want));
        assert!(rt; made == Some(true));
    }
}

/// Patches, and the first joined one that is past the end of `hello`.
const PAST_THE_END: [(&[(u32, u32, &str)], u32); 4] = [
    (&[(0, 6, "")], 0),
    (&[(0, 1, ""), (1, 1, ""), (1, 6, "")], 1),
    (&[(0, 1, ""), (1, 1, ""), (1, 5, ""), (9, 9, "")], 2),
    (&[(6, 6, ""), (6, 7, "")], 0),
];

#[test]
fn the_first_joined_patch_past_the_end_is_named(rt: HostRuntime) {
    for (patches, patch) in PAST_THE_END {
        let fault = SpliceFault::OutOfRange { patch, len: 5 };
        let made = makes_of_hello(rt.alloc(), patches, Err(fault));
        assert!(rt; made == Some(true));
    }
}

/// Whether patches of one start are joined to these.
fn joins(alloc: Global, rows: &[(u32, u32, &str)], want: &[(u32, u32, &str)]) -> Option<bool>
    requires few { length rows.now < 2000 }
    requires few_wanted { length want.now < 2000 }
{
    let change = change_of(alloc, rows)?;
    let want = change_of(alloc, want)?;
    let list = joined(alloc, change.patches()).ok()?;
    Some(Change::Patches(ListPatch::of(list)).same(&want))
}

#[test]
fn patches_of_one_start_are_joined(rt: HostRuntime) {
    let rows = [(1, 1, "x"), (1, 3, "y"), (3, 3, "z"), (4, 4, "")];
    let want = [(1, 3, "xy"), (3, 3, "z"), (4, 4, "")];
    assert!(rt; joins(rt.alloc(), &rows, &want) == Some(true));
}

/// Whether patches are refused with this fault.
fn is_fault(alloc: Global, rows: &[(u32, u32, &str)], fault: BuildFault) -> bool
    requires few { length rows.now < 2000 }
{
    answers(
        built(alloc, b"u-1", &[], change_of(alloc, rows)),
        Some(fault),
    )
}

/// Patches, and the fault of the first that has one.
const FAULTS: [(&[(u32, u32, &str)], BuildFault); 5] = [
    (&[(2, 4, ""), (3, 5, "")], BuildFault::Overlap { patch: 1 }),
    (&[(4, 2, "")], BuildFault::Backwards { patch: 0 }),
    (
        &[(0, 1, ""), (3, 2, ""), (9, 8, "")],
        BuildFault::Backwards { patch: 1 },
    ),
    (
        &[(3, 3, ""), (2, 2, ""), (5, 4, "")],
        BuildFault::Backwards { patch: 2 },
    ),
    (
        &[(1, 2, ""), (2, 2, ""), (1, 3, ""), (0, 9, "")],
        BuildFault::Overlap { patch: 2 },
    ),
];

#[test]
fn faults_of_patches_name_the_first(rt: HostRuntime) {
    for (patches, fault) in FAULTS {
        assert!(rt; is_fault(rt.alloc(), patches, fault));
    }
}

/// A frontier of so many names.
fn parents_of(alloc: Global, n: u8) -> Option<Frontier>
    requires few { n < 100 }
{
    let mut ids = Vec::new(alloc);
    for at in 0..n {
        let name = [b'0' + at / 10, b'0' + at % 10];
        ids.push(Id::read(alloc, &name).ok()?).ok()?;
    }
    Frontier::of(ids).ok()
}

/// What an empty body with so many parents answers.
fn with_parents(alloc: Global, n: u8) -> Option<Result<Update, BuildFault>>
    requires few { n < 100 }
{
    let id = Id::read(alloc, b"u-1").ok()?;
    let parents = parents_of(alloc, n)?;
    let body = text_of(alloc, "")?;
    Some(Update::build(id, parents, Change::Body(body)))
}

/// What so many patches that do nothing answer.
fn with_patches(alloc: Global, n: u32) -> Option<Result<Update, BuildFault>>
    requires few { n < 2000 }
{
    built(alloc, b"u-1", &[], empty_patches(alloc, n))
}

/// The change of so many patches that do nothing.
fn empty_patches(alloc: Global, n: u32) -> Option<Change>
    requires few { n < 2000 }
    ensures few { IfSome result (λ change. length (patches_of change) < 2000) }
{
    let mut patches = Vec::new(alloc);
    for at in 0..n {
        patches.push(patch_of(alloc, at, at, "")?).ok()?;
    }
    Some(Change::Patches(ListPatch::of(patches)))
}

/// What a body of so many characters of one byte answers.
fn with_content(alloc: Global, n: usize) -> Option<Result<Update, BuildFault>> {
    let body = Text::of(vec![in alloc; 'a'; n].ok()?);
    built(alloc, b"u-1", &[], Some(Change::Body(body)))
}

#[test]
fn parents_patches_and_content_are_limited_exactly(rt: HostRuntime) {
    let alloc = rt.alloc();
    let parents = BuildFault::TooManyParents { n: 33 };
    assert!(rt; answers(with_parents(alloc, 32), None));
    assert!(rt; answers(with_parents(alloc, 33), Some(parents)));
    let patches = BuildFault::TooManyPatches { n: 1_001 };
    assert!(rt; answers(with_patches(alloc, 1_000), None));
    assert!(rt; answers(with_patches(alloc, 1_001), Some(patches)));
    let content = BuildFault::TooLong { bytes: 1_048_577 };
    assert!(rt; answers(with_content(alloc, 1_048_576), None));
    assert!(rt; answers(with_content(alloc, 1_048_577), Some(content)));
}

/// The body `hi` of `a-1`.
fn first_update(alloc: Global) -> Option<Update> {
    update_of(alloc, b"a-1", &[], body_of(alloc, "hi"))
}

/// Two patches with the parent `a-1`.
fn second_update(alloc: Global) -> Option<Update> {
    let change = change_of(alloc, &[(0, 1, "J"), (5, 5, "!")]);
    update_of(alloc, b"b-1", &[b"a-1"], change)
}

/// A body behind a name and parents that are to be quoted and sorted.
fn quoted_update(alloc: Global) -> Option<Update> {
    update_of(alloc, b"q\"\\", &[b"b", b"a", b"c"], body_of(alloc, "é€😀"))
}

const FIRST_SPELLING: &[u8] =
    b"Version: \"a-1\"\r\nParents:\r\nContent-Length: 2\r\n\r\nhi\r\n\r\n";

const SECOND_SPELLING: &[u8] =
    b"Version: \"b-1\"\r\nParents: \"a-1\"\r\nPatches: 2\r\n\r\nContent-Length: 1\r\nContent-Range: text [0:1]\r\n\r\nJ\r\nContent-Length: 1\r\nContent-Range: text [5:5]\r\n\r\n!\r\n\r\n";

const QUOTED_SPELLING: &[u8] =
    b"Version: \"q\\\"\\\\\"\r\nParents: \"a\", \"b\", \"c\"\r\nContent-Length: 9\r\n\r\n\xc3\xa9\xe2\x82\xac\xf0\x9f\x98\x80\r\n\r\n";

/// Whether an update is spelled so, in so many bytes.
fn is_spelled(alloc: Global, update: Option<Update>, spelling: &[u8], len: usize) -> Option<bool> {
    let update = update?;
    let spelled = canon(alloc, &update).ok()?;
    Some(
        canon_len(&update) == len as u64 && spelled.get().len() == len && spelled.get() == spelling,
    )
}

#[test]
fn updates_are_spelled_line_by_line(rt: HostRuntime) {
    let alloc = rt.alloc();
    let first = is_spelled(alloc, first_update(alloc), FIRST_SPELLING, 53);
    let second = is_spelled(alloc, second_update(alloc), SECOND_SPELLING, 150);
    let quoted = is_spelled(alloc, quoted_update(alloc), QUOTED_SPELLING, 76);
    assert!(rt; first == Some(true) && second == Some(true) && quoted == Some(true));
}

/// Adds an update to a digest.
fn add(alloc: Global, digester: &mut Digester, update: Option<Update>) -> Option<()> {
    digester.add(alloc, &update?).ok()
}

/// Whether the digest of the first so many updates is this one.
fn is_digest(alloc: Global, n: u32, digest: &[u8; 32]) -> Option<bool> {
    let mut digester = Digester::new();
    if n > 0 {
        add(alloc, &mut digester, first_update(alloc))?;
    }
    if n > 1 {
        add(alloc, &mut digester, second_update(alloc))?;
    }
    Some(digester.finish() == *digest)
}

#[test]
fn digests_are_those_of_another_tool(rt: HostRuntime) {
    let alloc = rt.alloc();
    let none = is_digest(alloc, 0, &NO_UPDATES);
    let one = is_digest(alloc, 1, &ONE_UPDATE);
    let two = is_digest(alloc, 2, &TWO_UPDATES);
    assert!(rt; none == Some(true) && one == Some(true) && two == Some(true));
}

// What `sha256sum` prints for no bytes, for the 53 bytes of `a-1`, and for these and the 150 bytes of `b-1`.
const NO_UPDATES: [u8; 32] = [
    0xe3, 0xb0, 0xc4, 0x42, 0x98, 0xfc, 0x1c, 0x14, 0x9a, 0xfb, 0xf4, 0xc8, 0x99, 0x6f, 0xb9, 0x24,
    0x27, 0xae, 0x41, 0xe4, 0x64, 0x9b, 0x93, 0x4c, 0xa4, 0x95, 0x99, 0x1b, 0x78, 0x52, 0xb8, 0x55,
];

const ONE_UPDATE: [u8; 32] = [
    0x16, 0xf6, 0x8e, 0x38, 0xe2, 0xd2, 0xaf, 0x2c, 0x0f, 0x82, 0x45, 0x53, 0x55, 0xd7, 0x69, 0x64,
    0x0b, 0x1d, 0xda, 0x0f, 0x72, 0xc9, 0x9b, 0x60, 0xb1, 0x8f, 0x6f, 0x42, 0xde, 0xef, 0xbc, 0x9d,
];

const TWO_UPDATES: [u8; 32] = [
    0xf4, 0x08, 0xa3, 0x80, 0x54, 0x02, 0x8b, 0x69, 0x52, 0x16, 0xdf, 0x0a, 0xf2, 0x47, 0xd4, 0xd4,
    0xb8, 0x8f, 0x52, 0x1c, 0xf0, 0x95, 0x63, 0x49, 0xd0, 0x87, 0x0c, 0xd7, 0x36, 0x87, 0x07, 0xe7,
];

/// Whether two patches are the same change as this one.
fn is_same_change(alloc: Global, other: Option<Change>) -> Option<bool> {
    let change = change_of(alloc, &[(1, 1, "x"), (1, 3, "y")])?;
    Some(change.same(&other?))
}

/// Patches, and whether they are the same change as two patches.
const ALIKE: [(&[(u32, u32, &str)], bool); 5] = [
    (&[(1, 1, "x"), (1, 3, "y")], true),
    (&[(1, 3, "xy")], false),
    (&[(1, 1, "x"), (1, 2, "y")], false),
    (&[(1, 1, "x"), (1, 3, "z")], false),
    (&[], false),
];

#[test]
fn changes_are_the_same_as_listed(rt: HostRuntime) {
    let alloc = rt.alloc();
    for (row, same) in ALIKE {
        assert!(rt; is_same_change(alloc, change_of(alloc, row)) == Some(same));
    }
    assert!(rt; is_same_change(alloc, body_of(alloc, "xy")) == Some(false));
}

/// An update that replaces the first character.
fn named(alloc: Global, name: &[u8], parent: &[u8]) -> Option<Update> {
    update_of(alloc, name, &[parent], change_of(alloc, &[(0, 1, "x")]))
}

/// Whether an update is the same as the one of this name and this parent.
fn is_same(alloc: Global, update: &Update, name: &[u8], parent: &[u8]) -> Option<bool> {
    Some(update.same(&named(alloc, name, parent)?))
}

/// Whether an update tells its parts, and a copy of it has them.
fn tells_its_parts(alloc: Global, update: &Update) -> Option<bool> {
    let copy = update.copy(alloc).ok()?;
    Some(
        update.same(&copy)
            && update.id().bytes() == b"u-1".as_slice()
            && update.parents().len() == 1,
    )
}

/// What is asked of one update.
fn asks_of_one(alloc: Global) -> Option<[bool; 4]> {
    let update = named(alloc, b"u-1", b"a")?;
    let parts = tells_its_parts(alloc, &update)?;
    let same = is_same(alloc, &update, b"u-1", b"a")?;
    let other = is_same(alloc, &update, b"u-2", b"a")?;
    let child = is_same(alloc, &update, b"u-1", b"b")?;
    Some([parts, same, other, child])
}

#[test]
fn updates_are_the_same_in_all_their_parts(rt: HostRuntime) {
    let asked = asks_of_one(rt.alloc());
    assert!(rt; asked == Some([true, true, false, false]));
}

/// Whether a text of four lengths tells its characters and its bytes.
fn tells_its_characters(alloc: Global, text: &Text) -> Option<bool> {
    let copy = text.copy(alloc).ok()?;
    let chars = text.chars() == ['a', 'é', '€', '😀'].as_slice();
    Some(chars && text.utf8_len() == 10 && text.same(&copy))
}

/// Whether a text is put behind other bytes.
fn is_put(alloc: Global, text: &Text) -> Option<bool> {
    let mut out = Bytes::of(alloc, b"text: ").ok()?;
    text.push_to(&mut out).ok()?;
    Some(out.get() == b"text: a\xc3\xa9\xe2\x82\xac\xf0\x9f\x98\x80".as_slice())
}

/// What is asked of one text.
fn asks_of_a_text(alloc: Global) -> Option<[bool; 2]> {
    let text = Text::read(alloc, b"a\xc3\xa9\xe2\x82\xac\xf0\x9f\x98\x80").ok()?;
    let tells = tells_its_characters(alloc, &text)?;
    let put = is_put(alloc, &text)?;
    Some([tells, put])
}

/// Whether bytes are no text.
fn is_no_text(alloc: Global, bytes: &[u8]) -> bool {
    match Text::read(alloc, bytes) {
        Ok(_) => false,
        Err(fault) => fault == TextFault::NotText,
    }
}

#[test]
fn texts_are_read_from_utf8(rt: HostRuntime) {
    let alloc = rt.alloc();
    assert!(rt; asks_of_a_text(alloc) == Some([true, true]));
    for bytes in [b"\xc3".as_slice(), b"\xff", b"a\xe2\x82", b"\xed\xa0\x80"] {
        assert!(rt; is_no_text(alloc, bytes));
    }
}
