//! Whole drills, words of no form, and outputs that fail.

use super::*;
use braid_ids::{Memory, Word};
use braid_io::{MemSink, Status};
use std::alloc::Global;
use std::marker::Sync;
use std::sync::Wait;
use std::test::Fail;

/// What a drill prints that draws one sync of a replica without updates. The digest is that of no bytes.
const NOTHING: &[u8] =
    b"rounds: 1\nversions: 0\nunsent: 0\nequal: 4\ndigest: e3b0c44298fc1c149afbf4c8996fb92427ae41e4649b934ca495991b7852b855\n";

/// What a drill prints that draws one edit: `w4` writes `b` into its empty text. The digest was computed by python3's
/// hashlib.
const ONE_EDIT: &[u8] =
    b"rounds: 1\nversions: 1\nunsent: 0\nequal: 4\ndigest: af89b32e213454f1d11ee0243a5c527a0852389dc593feac3092e0b33785eb6d\n";

/// The line for words of no form.
const NO_FORM: &[u8] = b"fault: Usage\n";

/// Words as a run takes them.
fn words_of(alloc: Global, texts: &[&[u8]]) -> Result<Vec<Word>, Memory> {
    let mut words = Vec::new(alloc);
    for text in texts {
        words.push(Word::of(alloc, text)?)?;
    }
    Ok(words)
}

/// What a run leaves whose sink has this room and fails at these calls: its status, and the sink.
fn run<R: Wait + Sync>(
    alloc: Global,
    rt: &R,
    texts: &[&[u8]],
    room: usize,
    fails: &[u64],
) -> Result<(Status, MemSink), Memory> {
    let words = words_of(alloc, texts)?;
    let mut out = MemSink::new(alloc, room, Vec::from_slice(alloc, fails)?)?;
    let status = drill_run(alloc, rt, &words, &mut out);
    Ok((status, out))
}

/// Whether a run prints just this, under this status.
fn prints<R: Wait + Sync>(
    alloc: Global,
    rt: &R,
    texts: &[&[u8]],
    status: Status,
    text: &[u8],
) -> Result<bool, Memory> {
    let (ended, out) = run(alloc, rt, texts, 1_000, &[])?;
    Ok(ended == status && out.written() == text)
}

#[test]
fn a_sync_of_nothing_leaves_an_empty_book(rt: HostRuntime) -> Result<(), Fail> {
    let rows: [[&[u8]; 3]; 3] = [
        [b"drill", b"5", b"1"],
        [b"drill", b"05", b"01"],
        [b"drill", b"00000000000000000005", b"00000000000000000001"],
    ];
    for words in rows {
        assert!(rt; prints(rt.alloc(), &rt, &words, Status::Done, NOTHING)?);
    }
    Ok(())
}

#[test]
fn an_edit_reaches_the_book_and_all_replicas(rt: HostRuntime) -> Result<(), Fail> {
    let words: [&[u8]; 3] = [b"drill", b"0", b"1"];
    assert!(rt; prints(rt.alloc(), &rt, &words, Status::Done, ONE_EDIT)?);
    Ok(())
}

#[test]
fn the_greatest_seed_is_one(rt: HostRuntime) -> Result<(), Fail> {
    let words: [&[u8]; 3] = [b"drill", b"18446744073709551615", b"1"];
    let (status, _out) = run(rt.alloc(), &rt, &words, 1_000, &[])?;
    assert!(rt; status == Status::Done);
    Ok(())
}

#[test]
fn other_words_are_no_form(rt: HostRuntime) -> Result<(), Fail> {
    let rows: [&[&[u8]]; 13] = [
        &[],
        &[b"drill"],
        &[b"drill", b"5"],
        &[b"drill", b"5", b"1", b"1"],
        &[b"drill", b"5", b"0"],
        &[b"drill", b"5", b"20001"],
        &[b"drill", b"5", b""],
        &[b"drill", b"-5", b"1"],
        &[b"drill", b"+5", b"1"],
        &[b"drill", b"18446744073709551616", b"1"],
        &[b"drill", b"000000000000000000005", b"1"],
        &[b"drill", b"\xff", b"1"],
        &[b"Drill", b"5", b"1"],
    ];
    for words in rows {
        assert!(rt; prints(rt.alloc(), &rt, words, Status::Usage, NO_FORM)?);
    }
    Ok(())
}

/// Whether a run whose sink has less room than the text ends as Outside, with what there was room for.
fn breaks_off<R: Wait + Sync>(
    alloc: Global,
    rt: &R,
    texts: &[&[u8]],
    room: usize,
    text: &[u8],
) -> Result<bool, Memory> {
    let (status, out) = run(alloc, rt, texts, room, &[])?;
    Ok(status == Status::Outside && Some(out.written()) == text.get(..room))
}

#[test]
fn an_output_that_fails_at_any_line_ends_the_run(rt: HostRuntime) -> Result<(), Fail> {
    let words: [&[u8]; 3] = [b"drill", b"5", b"1"];
    // The lines begin at 0, 10, 22, 32 and 41.
    for room in [0, 9, 10, 21, 22, 31, 32, 40, 41, 112, 113] {
        assert!(rt; breaks_off(rt.alloc(), &rt, &words, room, NOTHING)?);
    }
    let (status, out) = run(rt.alloc(), &rt, &words, 1_000, &[0])?;
    assert!(rt; status == Status::Outside && out.written().is_empty());
    let none: [&[u8]; 1] = [b"drill"];
    for room in [0, 12] {
        assert!(rt; breaks_off(rt.alloc(), &rt, &none, room, NO_FORM)?);
    }
    Ok(())
}

/// What a drill of seed 7 and 2,000 rounds prints. A model of its own, written in Python from the drill's definition
/// alone, prints the same.
const TWO_THOUSAND: &[u8] =
    b"rounds: 2000\nversions: 1292\nunsent: 0\nequal: 4\ndigest: 915f462ac6658ecd20ecdb628164b1a0560fff6a600651c8708aa58aeb512a5c\n";

#[test]
fn two_thousand_rounds_come_together(rt: HostRuntime) -> Result<(), Fail> {
    let words: [&[u8]; 3] = [b"drill", b"7", b"2000"];
    assert!(rt; prints(rt.alloc(), &rt, &words, Status::Done, TWO_THOUSAND)?);
    Ok(())
}
