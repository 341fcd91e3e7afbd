use super::Reason::{
    Backwards, BadCount, BadId, BadLength, BadList, BadRange, Encoded, ManyVersions, NoLength,
    NoRange, NoVersion, OtherMergeType, OtherUnit, Overlap, RepeatedField, TooLong, TooManyPatches,
};
use super::tests::{answers, answers_behind, fields_of, head_answers};
use super::*;
use std::alloc::Global;

/// Whether a patch of these lines is planned behind 1,048,570 bytes and a patch that ends at 7, or refused so.
fn patch_answers(alloc: Global, lines: &[u8], reason: Option<Reason>) -> bool {
    match fields_of(alloc, lines) {
        Some(fields) => plan_patch(&fields, 1_048_570, 7).err() == reason,
        None => false,
    }
}

/// Whether each of these patches is planned, or refused so.
fn all_patches_answer(alloc: Global, rows: &[(&[u8], Option<Reason>)]) -> bool {
    for (lines, reason) in rows {
        if !patch_answers(alloc, lines, *reason) {
            return false;
        }
    }
    true
}

/// Whether a PUT of these lines and a body of so many bytes is planned, or refused so.
fn put_answers(alloc: Global, lines: &[u8], len: u64, reason: Option<Reason>) -> bool {
    match fields_of(alloc, lines) {
        Some(fields) => answers(plan_put(alloc, &fields.parts, len), reason),
        None => false,
    }
}

/// Whether each of these heads behind `Version: "a"` has a plan, or is refused for its reason.
fn all_answer_behind(alloc: Global, rows: &[(&str, Option<Reason>)]) -> bool {
    for (lines, reason) in rows {
        if !answers_behind(alloc, lines, *reason) {
            return false;
        }
    }
    true
}

/// Whether each of these heads is refused for its reason.
fn all_refused(alloc: Global, rows: &[(&[u8], Reason)]) -> bool {
    for (lines, reason) in rows {
        if !head_answers(alloc, lines, Some(*reason)) {
            return false;
        }
    }
    true
}

/// Lines behind a version, and the reason of the rows on fields that refuses them.
const FIELD_ROWS: [(&str, Option<Reason>); 16] = [
    ("Content-Length: 0\n", None),
    (
        "PARENTS: \"b\"\nContent-length: 5\nOther: x\nOther: y\n",
        None,
    ),
    ("Transfer-Encoding:\n", Some(Encoded)),
    ("Content-Encoding: gzip\n", Some(Encoded)),
    ("Content-Encoding:\n", Some(Encoded)),
    (
        "Content-Encoding: IDENTITY\nContent-Encoding: identity\nPatches: 0\n",
        None,
    ),
    ("Patches: 1\nPatches: 1\n", Some(RepeatedField)),
    (
        "Patches: 1\nContent-Length: 1\ncontent-length: 1\n",
        Some(RepeatedField),
    ),
    (
        "Merge-Type: ti-text\nMerge-Type: ti-text\n",
        Some(RepeatedField),
    ),
    ("Merge-Type: ti-text\nPatches: 0\n", None),
    ("Merge-Type: \"ti-text\"\nPatches: 0\n", None),
    ("Merge-Type: sync9\n", Some(OtherMergeType)),
    ("Version:\n", Some(BadList)),
    ("Version: \"b\"\n", Some(ManyVersions)),
    ("Parents: \"b\";c\n", Some(BadList)),
    ("Parents: \"b\", \"\"\n", Some(BadId)),
];

#[test]
fn the_rows_on_fields_give_their_reasons(rt: HostRuntime) {
    assert!(rt; all_answer_behind(rt.alloc(), &FIELD_ROWS));
}

/// Lines, and the reason of the rows on a version that refuses them.
const VERSION_ROWS: [(&[u8], Reason); 6] = [
    (b"Version: \"a\",\n", BadList),
    (b"Version: a\n", BadList),
    (b"Parents: \"b\"\nContent-Length: 1\n", NoVersion),
    (b"Version:\n", NoVersion),
    (b"Version: \"a\", \"a\"\n", ManyVersions),
    (b"Version: \"\"\n", BadId),
];

#[test]
fn the_rows_on_a_version_give_their_reasons(rt: HostRuntime) {
    assert!(rt; all_refused(rt.alloc(), &VERSION_ROWS));
}

/// Lines behind a version, and the reason of the rows on a content that refuses them.
const CONTENT_ROWS: [(&str, Option<Reason>); 16] = [
    ("Patches: 0\n", None),
    ("Patches: -0\n", None),
    ("Patches: 1000\n", None),
    ("Patches: 1001\n", Some(TooManyPatches)),
    ("Patches: -1\n", Some(BadCount)),
    ("Patches: 1, 2\n", Some(BadCount)),
    ("Patches: 1;a\n", Some(BadCount)),
    ("Patches:\n", Some(BadCount)),
    ("Patches: 1\nContent-Length: x\n", None),
    ("", Some(NoLength)),
    ("Content-Length:\n", Some(BadLength)),
    ("Content-Length: +1\n", Some(BadLength)),
    ("Content-Length: 0000000000000001\n", Some(BadLength)),
    ("Content-Length: 000000001048576\n", None),
    ("Content-Length: 1048577\n", Some(TooLong)),
    ("Content-Length: 999999999999999\n", Some(TooLong)),
];

#[test]
fn the_rows_on_a_content_give_their_reasons(rt: HostRuntime) {
    assert!(rt; all_answer_behind(rt.alloc(), &CONTENT_ROWS));
}

/// Lines behind a version, and the reason of the rows on a range that refuses them.
const RANGE_ROWS: [(&str, Option<Reason>); 8] = [
    (
        "Content-Length: 1\nContent-Range: text  [3:4294967295]\n",
        None,
    ),
    (
        "Content-Length: 1\nContent-Range: bytes [0:1]\n",
        Some(OtherUnit),
    ),
    (
        "Content-Length: 1\nContent-Range: text[0:1]\n",
        Some(OtherUnit),
    ),
    (
        "Content-Length: 1\nContent-Range: text [0:4294967296]\n",
        Some(BadRange),
    ),
    ("Content-Length: 1\nContent-Range: text\n", Some(BadRange)),
    (
        "Content-Length: 1\nContent-Range: text [1:0]\n",
        Some(Backwards),
    ),
    ("Patches: 1\nContent-Range: text [0:0]\n", Some(BadRange)),
    ("Patches: 1\nContent-Range: bytes [0:0]\n", Some(OtherUnit)),
];

#[test]
fn the_rows_on_a_range_give_their_reasons(rt: HostRuntime) {
    assert!(rt; all_answer_behind(rt.alloc(), &RANGE_ROWS));
}

/// Lines that several rows refuse, and the reason of the first.
const SEVERAL_ROWS: [(&[u8], Reason); 12] = [
    (b"Transfer-Encoding: x\nPatches: 1\nPatches: 1\n", Encoded),
    (b"Merge-Type: x\nMerge-Type: y\n", RepeatedField),
    (b"Merge-Type: x\nVersion: a\n", OtherMergeType),
    (b"Version:\nParents: b\n", BadList),
    (b"Version:\nParents: \"\"\n", NoVersion),
    (b"Version: \"\", \"\"\n", ManyVersions),
    (b"Version: \"\"\nPatches: x\n", BadId),
    (b"Version: \"a\"\nPatches: x\nContent-Range: x\n", BadCount),
    (
        b"Version: \"a\"\nPatches: 1001\nContent-Range: x\n",
        TooManyPatches,
    ),
    (b"Version: \"a\"\nContent-Range: x\n", NoLength),
    (
        b"Version: \"a\"\nContent-Length: x\nContent-Range: x\n",
        BadLength,
    ),
    (
        b"Version: \"a\"\nContent-Length: 1048577\nContent-Range: x\n",
        TooLong,
    ),
];

#[test]
fn the_first_row_counts(rt: HostRuntime) {
    assert!(rt; all_refused(rt.alloc(), &SEVERAL_ROWS));
}

/// Lines of a patch, and the reason that refuses them.
const PATCH_ROWS: [(&[u8], Option<Reason>); 14] = [
    (b"Content-Length: 6\nContent-Range: text [7:7]\n", None),
    (
        b"Content-Length: 6\nContent-Range: text [7:9]\nPatches: x\nMerge-Type: x\n",
        None,
    ),
    (
        b"Content-Length: 7\nContent-Range: text [7:9]\n",
        Some(TooLong),
    ),
    (b"Transfer-Encoding: x\n", Some(Encoded)),
    (b"Content-Encoding: br\n", Some(Encoded)),
    (
        b"Content-Length: 1\nContent-Length: 1\n",
        Some(RepeatedField),
    ),
    (b"Content-Range: x\nContent-Range: x\n", Some(RepeatedField)),
    (b"Content-Range: x\n", Some(NoLength)),
    (b"Content-Length: -1\n", Some(BadLength)),
    (b"Content-Length: 1\n", Some(NoRange)),
    (
        b"Content-Length: 1\nContent-Range: json [0:0]\n",
        Some(OtherUnit),
    ),
    (
        b"Content-Length: 1\nContent-Range: text [0:]\n",
        Some(BadRange),
    ),
    (
        b"Content-Length: 1\nContent-Range: text [6:5]\n",
        Some(Backwards),
    ),
    (
        b"Content-Length: 1\nContent-Range: text [6:9]\n",
        Some(Overlap),
    ),
];

#[test]
fn the_rows_of_a_patch_give_their_reasons(rt: HostRuntime) {
    assert!(rt; all_patches_answer(rt.alloc(), &PATCH_ROWS));
}

/// Lines of a PUT, the length of its body, and the reason that refuses it.
const PUT_ROWS: [(&[u8], u64, Option<Reason>); 6] = [
    (b"Version: \"a\"\n", 1_048_576, None),
    (b"Version: \"a\"\n", 1_048_577, Some(TooLong)),
    (
        b"Version: \"a\"\nContent-Length: x\nContent-Length: y\n",
        0,
        None,
    ),
    (b"Version: \"a\"\nPatches: 3\n", 2_097_152, None),
    (
        b"Version: \"a\"\nContent-Range: text [2:1]\n",
        0,
        Some(Backwards),
    ),
    (b"Version: \"a\"\nContent-Encoding: x\n", 0, Some(Encoded)),
];

#[test]
fn a_put_takes_the_length_of_its_body(rt: HostRuntime) {
    let alloc = rt.alloc();
    for (lines, len, reason) in PUT_ROWS {
        assert!(rt; put_answers(alloc, lines, len, reason));
    }
}
