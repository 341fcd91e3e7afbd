//! Texts that are typed into a document of runs, and into the plain one beside it.

ghost use Rattle.std.specs.Prelude.{◌≡◌, ◌+◌, ◌<◌, length, IfOk, OnOk, IsTrue};

use super::*;
use braid_ids::{Id, Marks};
use braid_tree::{Document, PlainDocument};
use std::alloc::Global;
use std::test::Fail;

/// Fails where something does not hold.
fn check(holds: bool, what: &'static str) -> Result<(), Fail>
    ensures { OnOk result (IsTrue holds) }
{
    if holds { Ok(()) } else { Err(what.into()) }
}

/// Marks of the versions with these arrival numbers, one digit for each.
fn marks_of(alloc: Global, digits: &str) -> Result<Marks, Fail> {
    if digits.len() > 9 {
        return Err("too many digits".into());
    }
    let mut marks = Marks::of(alloc, digits.len() as u32)?;
    for (n, digit) in digits.as_bytes().iter().enumerate() {
        if *digit == b'1' {
            marks.add(n as u32, n as u32 + 1)?;
        }
    }
    Ok(marks)
}

/// Whether the characters are those of a text.
fn same_text(text: &[char], want: &str) -> bool {
    let mut chars = text.iter();
    for character in want.chars() {
        if chars.next() != Some(&character) {
            return false;
        }
    }
    chars.next().is_none()
}

/// Whether the marked versions see this text.
fn reads<D: Document>(alloc: Global, doc: &D, digits: &str, want: &str) -> Result<bool, Fail> {
    let marks = marks_of(alloc, digits)?;
    let text = doc.text(alloc, &marks)?;
    Ok(same_text(&text, want) && doc.len(&marks) as usize == text.len())
}

/// A version: its name, its level, and the digits of the versions that it sees.
#[derive(Clone, Copy)]
struct Author<'a> {
    name: &'a str,
    level: u32,
    sees: &'a str,
}

fn by<'a>(name: &'a str, level: u32, sees: &'a str) -> Author<'a> {
    Author { name, level, sees }
}

/// Types characters as a version of its own: behind the first `at` elements that its author sees.
fn type_chars<D: Document>(
    alloc: Global,
    doc: &mut D,
    author: Author<'_>,
    at: u32,
    text: &[char],
) -> Result<(), Fail>
    requires few { length (D.stamps doc.old) < 2000 }
    ensures begun { OnOk result (length (D.stamps doc.new) ≡ length (D.stamps doc.old) + 1) }
{
    let id = Id::read(alloc, author.name.as_bytes())?;
    let marks = marks_of(alloc, author.sees)?;
    type_seen(doc, id, author.level, &marks, at, text)
}

/// Types characters as a version of its own: behind the first `at` elements that marked versions see.
fn type_seen<D: Document>(
    doc: &mut D,
    id: Id,
    level: u32,
    marks: &Marks,
    at: u32,
    text: &[char],
) -> Result<(), Fail>
    requires few { length (D.stamps doc.old) < 2000 }
    ensures begun { OnOk result (length (D.stamps doc.new) ≡ length (D.stamps doc.old) + 1) }
{
    check(doc.elements() < 1_000_000 && text.len() < 1_000_000, "few")?;
    check(doc.deletions() < 1_000_000, "few")?;
    doc.reserve(1, text.len() as u32, 0)?;
    let after = match at {
        0 => None,
        _ => doc.visible_at(marks, at - 1),
    };
    doc.begin(id, level);
    doc.insert_run(after, text, 0);
    Ok(())
}

/// Types a text as a version of its own.
fn type_text<D: Document>(
    alloc: Global,
    doc: &mut D,
    author: Author<'_>,
    at: u32,
    text: &str,
) -> Result<(), Fail>
    requires few { length (D.stamps doc.old) < 2000 }
    ensures begun { OnOk result (length (D.stamps doc.new) ≡ length (D.stamps doc.old) + 1) }
{
    let mut chars = Vec::new(alloc);
    for character in text.chars() {
        chars.push(character)?;
    }
    type_chars(alloc, doc, author, at, &chars)
}

/// Deletes as version number `number`, which sees itself too, some elements from the one at `from` on.
fn delete_chars<D: Document>(
    alloc: Global,
    doc: &mut D,
    number: u32,
    author: Author<'_>,
    from: u32,
    count: u32,
) -> Result<(), Fail>
    requires few { length (D.stamps doc.old) < 2000 }
    requires next { number ≡ length (D.stamps doc.old) }
    ensures begun { OnOk result (length (D.stamps doc.new) ≡ number + 1) }
{
    let id = Id::read(alloc, author.name.as_bytes())?;
    let marks = marks_of(alloc, author.sees)?;
    delete_seen(doc, number, id, author.level, &marks, from, count)
}

/// Deletes as version number `number`, which is marked, some elements that marked versions see from the one at `from` on.
fn delete_seen<D: Document>(
    doc: &mut D,
    number: u32,
    id: Id,
    level: u32,
    marks: &Marks,
    from: u32,
    count: u32,
) -> Result<(), Fail>
    requires few { length (D.stamps doc.old) < 2000 }
    requires next { number ≡ length (D.stamps doc.old) }
    ensures begun { OnOk result (length (D.stamps doc.new) ≡ number + 1) }
{
    check(doc.elements() < 1_000_000 && count < 1_000_000, "few")?;
    check(doc.deletions() < 1_000_000, "few")?;
    check(marks.has(number), "it sees itself")?;
    doc.reserve(1, 0, count)?;
    doc.begin(id, level);
    for _ in 0..count {
        if let Some(at) = doc.visible_at(marks, from) {
            doc.delete(at);
        }
    }
    Ok(())
}

/// Two texts that are typed behind one character at one time, and a third between them.
fn type_aside<D: Document>(
    alloc: Global,
    doc: &mut D,
    first: (&str, &str),
    second: (&str, &str),
) -> Result<(), Fail>
    requires few { length (D.stamps doc.old) < 10 }
{
    type_text(alloc, doc, by("x-1", 1, ""), 0, "ab")?;
    type_text(alloc, doc, by(first.0, 2, "1"), 1, first.1)?;
    type_text(alloc, doc, by(second.0, 2, "1"), 1, second.1)?;
    check(reads(alloc, doc, "111", "aQPb")?, "two asides")?;
    check(reads(alloc, doc, "100", "ab")?, "the text before")?;
    type_text(alloc, doc, by("r-1", 3, "111"), 2, "R")?;
    check(reads(alloc, doc, "1111", "aQRPb")?, "three asides")
}

#[test]
fn both_orders_of_arrival_read_alike(rt: HostRuntime) -> Result<(), Fail> {
    let alloc = rt.alloc();
    let mut doc = SpanDocument::new(alloc);
    type_aside(alloc, &mut doc, ("p-1", "P"), ("q-1", "Q"))?;
    let mut doc = SpanDocument::new(alloc);
    type_aside(alloc, &mut doc, ("q-1", "Q"), ("p-1", "P"))
}

/// A deleted range does not take what was typed in it at the same time, and its elements stay as origins.
fn delete_around<D: Document>(alloc: Global, doc: &mut D) -> Result<(), Fail>
    requires new { length (D.stamps doc.old) ≡ 0 }
{
    type_text(alloc, doc, by("x-1", 1, ""), 0, "abcd")?;
    delete_chars(alloc, doc, 1, by("p-1", 2, "11"), 1, 2)?;
    type_text(alloc, doc, by("q-1", 2, "1"), 2, "Q")?;
    check(reads(alloc, doc, "111", "aQd")?, "kept between")?;
    check(reads(alloc, doc, "101", "abQcd")?, "not deleted there")?;
    check(reads(alloc, doc, "110", "ad")?, "deleted there")?;
    delete_chars(alloc, doc, 3, by("r-1", 2, "1001"), 2, 2)?;
    check(reads(alloc, doc, "1001", "ab")?, "deleted by another")?;
    check(reads(alloc, doc, "1111", "aQ")?, "deleted by both")?;
    check(doc.elements() == 5 && doc.deletions() == 4, "the counts")
}

#[test]
fn a_deletion_leaves_what_was_typed_inside(rt: HostRuntime) -> Result<(), Fail> {
    let mut doc = SpanDocument::new(rt.alloc());
    delete_around(rt.alloc(), &mut doc)
}

/// A run of 10,000 characters, and texts at its end, its front and in its middle.
fn type_long<D: Document>(alloc: Global, doc: &mut D) -> Result<(), Fail>
    requires few { length (D.stamps doc.old) < 10 }
{
    let run = vec![in alloc; 'x'; 10_000]?;
    type_chars(alloc, doc, by("a-1", 1, ""), 0, &run)?;
    type_text(alloc, doc, by("a-2", 2, "1"), 10_000, "end")?;
    type_text(alloc, doc, by("a-3", 3, "11"), 0, "front")?;
    type_text(alloc, doc, by("a-4", 4, "111"), 5_005, "middle")
}

/// Whether the long text has its three texts where they were typed.
fn check_long<D: Document>(alloc: Global, doc: &D) -> Result<(), Fail> {
    let marks = marks_of(alloc, "1111")?;
    check(doc.len(&marks) == 10_014, "the length")?;
    let text = doc.text(alloc, &marks)?;
    check(text.len() == 10_014, "the text's length")?;
    check(same_text(&text[..6], "frontx"), "the front")?;
    check(same_text(&text[5_004..5_012], "xmiddlex"), "the middle")?;
    check(same_text(&text[10_010..], "xend"), "the end")
}

#[test]
fn a_long_run_is_cut_at_any_place(rt: HostRuntime) -> Result<(), Fail> {
    let mut doc = SpanDocument::new(rt.alloc());
    type_long(rt.alloc(), &mut doc)?;
    check_long(rt.alloc(), &doc)?;
    // The long run in two parts, and three runs beside them.
    check(doc.runs() == 5, "the runs")
}

/// The next number of a sequence that looks random.
fn next(seed: &mut u32) -> u32 {
    *seed = seed.wrapping_mul(1_664_525).wrapping_add(1_013_904_223);
    *seed >> 8
}

const NAMES: [&str; 8] = ["a-1", "b-1", "a-2", "b-2", "a-3", "b-3", "a-4", "b-4"];

/// What each version sees, itself last: two writers, who see one another now and then.
const SEES: [&str; 8] = [
    "1", "01", "101", "0101", "10101", "111111", "1010111", "11111111",
];

const LETTERS: [char; 12] = ['a', 'b', 'c', 'd', 'e', 'f', 'g', 'h', 'i', 'j', 'k', 'l'];

/// This many letters.
fn letters(alloc: Global, count: u32) -> Result<Vec<char>, Fail> {
    let mut text = Vec::new(alloc);
    for k in 0..count {
        text.push(LETTERS[k as usize % 12])?;
    }
    Ok(text)
}

/// One of eight versions types up to 600 characters, or deletes up to 40, at a place that a seed gives.
fn write_version<D: Document>(
    alloc: Global,
    doc: &mut D,
    n: u32,
    seed: &mut u32,
) -> Result<(), Fail>
    requires one { n < 8 }
    requires next { n ≡ length (D.stamps doc.old) }
    ensures begun { OnOk result (length (D.stamps doc.new) ≡ n + 1) }
{
    let author = by(NAMES[n as usize], n + 1, SEES[n as usize]);
    let at = next(seed) % 700;
    let count = next(seed) % 600 + 1;
    if next(seed) % 3 == 0 {
        return delete_chars(alloc, doc, n, author, at, count % 40 + 1);
    }
    let text = letters(alloc, count)?;
    type_chars(alloc, doc, author, at, &text)
}

/// Whether two documents answer alike what these versions ask.
fn same_answers<A: Document, B: Document>(
    alloc: Global,
    a: &A,
    b: &B,
    digits: &str,
) -> Result<bool, Fail> {
    let marks = marks_of(alloc, digits)?;
    let text = a.text(alloc, &marks)?;
    let places = a.visible_between(alloc, &marks, 2, 900)?;
    let others = b.visible_between(alloc, &marks, 2, 900)?;
    Ok(
        text.as_slice() == b.text(alloc, &marks)?.as_slice()
            && a.len(&marks) == b.len(&marks)
            && a.visible_at(&marks, 3) == b.visible_at(&marks, 3)
            && places.as_slice() == others.as_slice(),
    )
}

/// Eight versions of a seed write into both documents, which answer alike after each.
fn write_both(alloc: Global, start: u32) -> Result<(), Fail> {
    let mut rows = PlainDocument::new(alloc);
    let mut runs = SpanDocument::new(alloc);
    let mut seed = start;
    for n in 0..8 {
        let mut same = seed;
        write_version(alloc, &mut rows, n, &mut same)?;
        write_version(alloc, &mut runs, n, &mut seed)?;
        for digits in ["11111111", "10101010", "01010101", "11111", "1011"] {
            check(same_answers(alloc, &rows, &runs, digits)?, "the answers")?;
        }
    }
    check(
        rows.elements() == runs.elements() && rows.deletions() == runs.deletions(),
        "the counts",
    )
}

#[test]
fn runs_answer_as_rows_do(rt: HostRuntime) -> Result<(), Fail> {
    for start in 1..11 {
        write_both(rt.alloc(), start)?;
    }
    Ok(())
}

/// A version that deletes neighbours leaves one run of them.
#[test]
fn neighbours_are_deleted_as_one_run(rt: HostRuntime) -> Result<(), Fail> {
    let alloc = rt.alloc();
    let mut doc = SpanDocument::new(alloc);
    type_chars(alloc, &mut doc, by("a-1", 1, ""), 0, &LETTERS)?;
    delete_chars(alloc, &mut doc, 1, by("b-1", 2, "11"), 3, 6)?;
    check(doc.runs() == 3, "one run deleted")
}

/// Marks of the first versions.
fn first_marks(alloc: Global, count: u32) -> Result<Marks, Fail>
    requires some { 0 < count }
    ensures size { IfOk result (λ marks. length marks ≡ count) }
{
    let mut marks = Marks::of(alloc, count)?;
    marks.add(0, count)?;
    Ok(marks)
}

/// The identifier of a version by its number.
fn name_of(alloc: Global, number: u32) -> Result<Id, Fail> {
    let name = format!(in alloc; "a-{number}")?;
    Ok(Id::read(alloc, name.as_bytes())?)
}

/// A run of 2,000 characters, and one character each by 599 versions that see all before them: at the front, in the
/// middle and at the end, in turn.
fn type_many<D: Document>(alloc: Global, doc: &mut D) -> Result<(), Fail>
    requires new { length (D.stamps doc.old) ≡ 0 }
    ensures begun { OnOk result (length (D.stamps doc.new) ≡ 600) }
{
    let run = vec![in alloc; 'x'; 2_000]?;
    type_chars(alloc, doc, by("a-0", 1, ""), 0, &run)?;
    for n in 1..600 {
        let marks = first_marks(alloc, n)?;
        let at = match n % 3 {
            0 => 0,
            1 => 1_000,
            _ => 1_999 + n,
        };
        let letter = LETTERS[n as usize % 12];
        type_seen(doc, name_of(alloc, n)?, n + 1, &marks, at, &[letter])?;
    }
    Ok(())
}

/// Deletes 700 elements that stand in several blocks.
fn delete_many<D: Document>(alloc: Global, doc: &mut D) -> Result<(), Fail>
    requires begun { length (D.stamps doc.old) ≡ 600 }
{
    let marks = first_marks(alloc, 601)?;
    delete_seen(doc, 600, name_of(alloc, 600)?, 601, &marks, 800, 700)
}

/// Whether two documents answer alike what the first versions ask, everywhere.
fn same_first<A: Document, B: Document>(
    alloc: Global,
    a: &A,
    b: &B,
    count: u32,
) -> Result<bool, Fail>
    requires some { 0 < count }
{
    let marks = first_marks(alloc, count)?;
    let len = a.len(&marks);
    let places = a.visible_between(alloc, &marks, 500, 2_500)?;
    let others = b.visible_between(alloc, &marks, 500, 2_500)?;
    Ok(
        len == b.len(&marks)
            && places.as_slice() == others.as_slice()
            && same_places(a, b, &marks, len)
            && a.text(alloc, &marks)?.as_slice() == b.text(alloc, &marks)?.as_slice(),
    )
}

/// Whether two documents have the same elements at every fifth number, and none past the last.
fn same_places<A: Document, B: Document>(a: &A, b: &B, marks: &Marks, len: u32) -> bool {
    for n in 0..600 {
        if a.visible_at(marks, n * 5) != b.visible_at(marks, n * 5) {
            return false;
        }
    }
    a.visible_at(marks, len).is_none() && b.visible_at(marks, len).is_none()
}

#[test]
fn blocks_that_are_cut_answer_as_rows_do(rt: HostRuntime) -> Result<(), Fail> {
    let alloc = rt.alloc();
    let mut rows = PlainDocument::new(alloc);
    let mut runs = SpanDocument::new(alloc);
    type_many(alloc, &mut rows)?;
    type_many(alloc, &mut runs)?;
    check(same_first(alloc, &rows, &runs, 600)?, "all versions")?;
    check(same_first(alloc, &rows, &runs, 301)?, "half of them")?;
    delete_many(alloc, &mut rows)?;
    delete_many(alloc, &mut runs)?;
    check(same_first(alloc, &rows, &runs, 601)?, "after a deletion")?;
    check(same_first(alloc, &rows, &runs, 600)?, "before it")?;
    check(runs.runs() > 768, "more runs than three blocks hold")
}

/// A run of 10,000 characters, and one character each by 1,000 versions that see all before them, each inside the last part
/// of the run.
fn type_inside<D: Document>(alloc: Global, doc: &mut D) -> Result<(), Fail>
    requires new { length (D.stamps doc.old) ≡ 0 }
{
    let run = letters(alloc, 10_000)?;
    type_chars(alloc, doc, by("a-0", 1, ""), 0, &run)?;
    for n in 1..1_001 {
        let marks = first_marks(alloc, n)?;
        let letter = LETTERS[n as usize % 12];
        type_seen(doc, name_of(alloc, n)?, n + 1, &marks, n * 10, &[letter])?;
    }
    Ok(())
}

#[test]
fn a_run_that_is_cut_often_answers_as_rows_do(rt: HostRuntime) -> Result<(), Fail> {
    let alloc = rt.alloc();
    let mut rows = PlainDocument::new(alloc);
    let mut runs = SpanDocument::new(alloc);
    type_inside(alloc, &mut rows)?;
    type_inside(alloc, &mut runs)?;
    check(same_first(alloc, &rows, &runs, 1_001)?, "all versions")?;
    check(same_first(alloc, &rows, &runs, 500)?, "half of them")?;
    check(runs.runs() == 2_001, "the runs")
}
