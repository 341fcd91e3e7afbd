ghost use Rattle.std.specs.Prelude.{◌<◌};

use super::*;
use braid_fields::Reason;
use braid_ids::{Bytes, Word};
use braid_io::{MemSink, MemSource, Status};
use std::alloc::Global;

/// `a-1` with the body `hi`, without a last line end.
const ONE: &[u8] = b"Version: \"a-1\"\r\nParents:\r\nContent-Length: 2\r\n\r\nhi";

/// The canonical spelling of the same update.
const ONE_CANONICAL: &[u8] = b"Version: \"a-1\"\r\nParents:\r\nContent-Length: 2\r\n\r\nhi\r\n\r\n";

/// What is printed for it.
const ONE_TEXT: &[u8] =
    b"versions: 1\nfrontier: \"a-1\"\nlength: 2\ndigest: 16f68e38e2d2af2c0f82455355d769640b1dda0f72c99b60b18f6f42deefbc9d\ntext:\nhi\n";

/// What is printed for no update.
const NONE_TEXT: &[u8] =
    b"versions: 0\nfrontier:\nlength: 0\ndigest: e3b0c44298fc1c149afbf4c8996fb92427ae41e4649b934ca495991b7852b855\ntext:\n\n";

/// `x-1` with the body `ab`.
const X_1: &[u8] = b"Version: \"x-1\"\nContent-Length: 2\n\nab\n";

/// `p-1` inserts `P` behind the first character of `x-1`.
const P_1: &[u8] =
    b"Version: \"p-1\"\nParents: \"x-1\"\nContent-Range: text [1:1]\nContent-Length: 1\n\nP\n";

/// Another `p-1` deletes both characters of `x-1`.
const P_DELETES: &[u8] =
    b"Version: \"p-1\"\nParents: \"x-1\"\nPatches: 1\n\nContent-Length: 0\nContent-Range: text [0:2]\n\n\n";

/// `q-1` inserts `Q` behind the first character of `x-1`.
const Q_1: &[u8] =
    b"Version: \"q-1\"\nParents: \"x-1\"\nContent-Range: text [1:1]\nContent-Length: 1\n\nQ\n";

/// `r-1` inserts `R` behind the second character of what `p-1` and `q-1` see.
const R_1: &[u8] =
    b"Version: \"r-1\"\nParents: \"q-1\", \"p-1\"\nContent-Range: text [2:2]\nContent-Length: 1\n\nR\n";

/// `a-1` with the body `A`, and `b-1` with the body `B`, both without parents.
const A_1: &[u8] = b"Version: \"a-1\"\nContent-Length: 1\n\nA\n";

const B_1: &[u8] = b"Version: \"b-1\"\nContent-Length: 1\n\nB\n";

/// `m-1` merges both and changes nothing.
const M_1: &[u8] = b"Version: \"m-1\"\nParents: \"a-1\", \"b-1\"\nPatches: 0\n\n";

/// What a run on these words left.
#[derive(Drop)]
struct Outcome {
    status: Status,
    out: MemSink,
    source: MemSource,
}

/// A list of these words.
fn words_of(alloc: Global, words: &[&[u8]]) -> Option<Vec<Word>> {
    let mut list = Vec::new(alloc);
    for word in words {
        list.push(Word::of(alloc, word).ok()?).ok()?;
    }
    Some(list)
}

/// A source of this input in pieces, with these calls failing.
fn source_of(alloc: Global, input: &[u8], piece: usize, fails: &[u64]) -> Option<MemSource>
    requires { 0 < piece }
{
    let bytes = Bytes::of(alloc, input).ok()?;
    Some(MemSource::new(bytes, piece, Vec::from_slice(alloc, fails).ok()?))
}

/// Runs `check_run` on these words, over this input in pieces, with these calls of the source and the sink failing.
fn run_words(
    alloc: Global,
    words: &[&[u8]],
    input: &[u8],
    piece: usize,
    read_fails: &[u64],
    write_fails: &[u64],
) -> Option<Outcome>
    requires { 0 < piece }
{
    let mut source = source_of(alloc, input, piece, read_fails)?;
    let mut out = MemSink::new(alloc, 40_000, Vec::from_slice(alloc, write_fails).ok()?).ok()?;
    let list = words_of(alloc, words)?;
    let status = check_run(alloc, &list, &mut source, &mut out);
    Some(Outcome {
        status,
        out,
        source,
    })
}

/// Whether a run ended with this status and wrote this text.
fn has_text(found: &Outcome, status: Status, text: &[u8]) -> bool {
    found.status == status && found.out.written() == text
}

/// Whether a run on this input in pieces ends so.
fn answers_in(alloc: Global, input: &[u8], piece: usize, status: Status, text: &[u8]) -> bool
    requires { 0 < piece }
{
    match run_words(alloc, &[b"check"], input, piece, &[], &[]) {
        Some(found) => has_text(&found, status, text),
        None => false,
    }
}

/// Whether runs on this input, whole and in pieces, end so.
fn answers(alloc: Global, input: &[u8], status: Status, text: &[u8]) -> bool {
    answers_in(alloc, input, 1, status, text)
        && answers_in(alloc, input, 10, status, text)
        && answers_in(alloc, input, 9000, status, text)
}

/// The bytes of these pieces, one after the other.
fn joined(alloc: Global, pieces: &[&[u8]]) -> Option<Vec<u8>> {
    let mut bytes = Vec::new(alloc);
    for piece in pieces {
        bytes.extend_from_slice(piece).ok()?;
    }
    Some(bytes)
}

/// Whether runs on these pieces, one after the other, end so.
fn joined_answers(alloc: Global, pieces: &[&[u8]], status: Status, text: &[u8]) -> bool {
    match joined(alloc, pieces) {
        Some(input) => answers(alloc, &input, status, text),
        None => false,
    }
}

#[test]
fn a_history_is_printed_with_all_its_lines(rt: HostRuntime) {
    let rows: [(&[u8], &[u8]); 6] = [
        (ONE, ONE_TEXT),
        (ONE_CANONICAL, ONE_TEXT),
        (b"", NONE_TEXT),
        (b"\n\r\n", NONE_TEXT),
        (
            b"\n\n\n\n\nHTTP 200 OK\nVersion: \"a-1\"\nParents:\nContent-Length: 2\n\nhi",
            ONE_TEXT,
        ),
        (
            b"version:\"a-1\"\nmerge-type: ti-text\nother: x\ncontent-length: 0\n\n",
            b"versions: 1\nfrontier: \"a-1\"\nlength: 0\ndigest: b8f0f337493b10e03c24be167a90bbf1745b45d4783ba66cfa58506f63b640ac\ntext:\n\n",
        ),
    ];
    for (input, text) in rows {
        assert!(rt; answers(rt.alloc(), input, Status::Done, text));
    }
}

#[test]
fn a_length_counts_characters_and_an_identifier_is_escaped(rt: HostRuntime) {
    let pieces = [
        ONE_CANONICAL,
        b"Version: \"a\\\"2\"\nParents: \"a-1\", \"a-1\"\nContent-Length: 10\n\na\xc3\xa9\xe2\x82\xac\xf0\x9f\x98\x80",
    ];
    let text =
        b"versions: 2\nfrontier: \"a\\\"2\"\nlength: 4\ndigest: 0bca348f406dc33832939dfa4de6b9f09d9dd273863dd35823d63ed5d2a6c15e\ntext:\na\xc3\xa9\xe2\x82\xac\xf0\x9f\x98\x80\n";
    assert!(rt; joined_answers(rt.alloc(), &pieces, Status::Done, text));
}

/// Updates in two orders, and the text of both.
type Orders<'a> = (&'a [&'a [u8]], &'a [&'a [u8]], &'a [u8]);

#[test]
fn updates_read_the_same_in_each_order(rt: HostRuntime) {
    let rows: [Orders; 6] = [
        (
            &[X_1, P_1, Q_1],
            &[X_1, Q_1, P_1],
            b"versions: 3\nfrontier: \"p-1\", \"q-1\"\nlength: 4\ndigest: 211bf1e20861d7807b6a44d1df00344fb6393a360bb0759cbf0d2bbd8a4b4db0\ntext:\naQPb\n",
        ),
        (
            &[X_1, P_1, Q_1, R_1],
            &[X_1, Q_1, P_1, R_1],
            b"versions: 4\nfrontier: \"r-1\"\nlength: 5\ndigest: b599ad1256893b296afe5375c7db43959da175a8fc6457405ac0474b25ba306f\ntext:\naQRPb\n",
        ),
        (
            &[X_1, P_DELETES, Q_1],
            &[X_1, Q_1, P_DELETES],
            b"versions: 3\nfrontier: \"p-1\", \"q-1\"\nlength: 1\ndigest: 02d1670991ce30d8be70cab74ba2b3099306ac7d6940d065ac4381e6d384a0dc\ntext:\nQ\n",
        ),
        (
            &[A_1, B_1],
            &[B_1, A_1],
            b"versions: 2\nfrontier: \"a-1\", \"b-1\"\nlength: 2\ndigest: 8cd0bf28634409d55acb3f8f2778be4550aa2b9e41cc0e83662210d549003a74\ntext:\nBA\n",
        ),
        (
            &[A_1, B_1, M_1],
            &[B_1, A_1, M_1],
            b"versions: 3\nfrontier: \"m-1\"\nlength: 2\ndigest: f3f5ce4f33f4ff204e5430b3431e027152d17db4e198d8a7208c9bdbd02b7aba\ntext:\nBA\n",
        ),
        (&[ONE_CANONICAL, ONE_CANONICAL], &[ONE], ONE_TEXT),
    ];
    for (first, second, text) in rows {
        assert!(rt; joined_answers(rt.alloc(), first, Status::Done, text));
        assert!(rt; joined_answers(rt.alloc(), second, Status::Done, text));
    }
}

#[test]
fn a_fault_of_the_stream_is_told_with_its_place(rt: HostRuntime) {
    let rows: [(&[u8], &[u8]); 8] = [
        (
            b"Version: \"a-1\"\r\nParents:\r\nContent-Length: 4\r\n\r\nhi",
            b"fault: Torn at 49\n",
        ),
        (b"Version", b"fault: Torn at 7\n"),
        (
            b"Version: \"a\",\"b\"\r\nContent-Length: 0\r\n\r\n",
            b"fault: ManyVersions at 0\n",
        ),
        (
            b"Version: \"a\",\r\nContent-Length: 0\r\n\r\n",
            b"fault: BadList at 0\n",
        ),
        (
            b"Version: \"\"\r\nContent-Length: 0\r\n\r\n",
            b"fault: BadId at 0\n",
        ),
        (
            b"Version: \"a-1\"\r\nno colon\r\n",
            b"fault: BadLine at 16\n",
        ),
        (
            b"Version: \"a-1\"\r\nParents:\r\nContent-Length: 2\r\n\r\nhi\r\n\r\nHTTP 404 Not Found\r\n",
            b"fault: BadStatus at 53\n",
        ),
        (
            b"\n\nVersion: \"a-1\"\nContent-Length: 1\n\n\xff",
            b"fault: NotText at 36\n",
        ),
    ];
    for (input, text) in rows {
        assert!(rt; answers(rt.alloc(), input, Status::Bad, text));
    }
}

#[test]
fn the_first_refused_update_is_told(rt: HostRuntime) {
    let rows: [(&[&[u8]], &[u8]); 6] = [
        (
            &[ONE_CANONICAL, b"Version: \"a-1\"\nContent-Length: 2\n\nho"],
            b"fault: Clash \"a-1\"\n",
        ),
        (
            &[X_1, M_1, b"no colon\n"],
            b"fault: UnknownParent \"a-1\"\n",
        ),
        (&[A_1, M_1], b"fault: UnknownParent \"b-1\"\n"),
        (
            &[
                b"Version: \"x-1\"\nContent-Length: 5\n\nhello\n",
                b"Version: \"y-1\"\nParents: \"x-1\"\nContent-Length: 9\n\nhello you\n",
                b"Version: \"z-1\"\nParents: \"x-1\"\nContent-Range: text [0:6]\nContent-Length: 0\n\n",
            ],
            b"fault: OutOfRange patch 0 len 5\n",
        ),
        (&[X_1, b"no colon\n", M_1], b"fault: BadLine at 37\n"),
        (
            &[ONE_CANONICAL, ONE, b"no colon\n"],
            b"fault: BadLine at 102\n",
        ),
    ];
    for (pieces, text) in rows {
        assert!(rt; joined_answers(rt.alloc(), pieces, Status::Bad, text));
    }
}

/// So many versions without parents that change nothing.
fn wide(alloc: Global, count: u32) -> Option<Vec<u8>> {
    let mut bytes = Vec::new(alloc);
    for n in 0..count {
        let update = format!(in alloc; "Version: \"w-{n}\"\nPatches: 0\n\n").ok()?;
        bytes.extend_from_slice(update.as_bytes()).ok()?;
    }
    Some(bytes)
}

/// Whether a run ended Done, with a text that begins and ends so.
fn is_done(found: &Outcome, begin: &[u8], end: &[u8]) -> bool {
    let text = found.out.written();
    found.status == Status::Done && text.starts_with(begin) && text.ends_with(end)
}

/// Whether a run on this input ends Done, with a text that begins and ends so.
fn input_is_done(alloc: Global, input: &[u8], begin: &[u8], end: &[u8]) -> bool {
    match run_words(alloc, &[b"check"], input, 9000, &[], &[]) {
        Some(found) => is_done(&found, begin, end),
        None => false,
    }
}

/// Whether so many versions side by side are told.
fn are_told(alloc: Global, count: u32, begin: &[u8]) -> Option<bool> {
    let input = wide(alloc, count)?;
    Some(input_is_done(alloc, &input, begin, b"\ntext:\n\n"))
}

/// Whether so many versions side by side are refused so.
fn are_refused(alloc: Global, count: u32, text: &[u8]) -> Option<bool> {
    let input = wide(alloc, count)?;
    Some(answers_in(alloc, &input, 9000, Status::Bad, text))
}

#[test]
fn a_frontier_may_have_two_thousand_identifiers(rt: HostRuntime) {
    let begin = b"versions: 2000\nfrontier: \"w-0\", \"w-1\", \"w-10\", ";
    let told = are_told(rt.alloc(), 2_000, begin);
    let refused = are_refused(rt.alloc(), 2_001, b"fault: Full width 2000\n");
    assert!(rt; told == Some(true) && refused == Some(true));
}

/// Puts a body of 1 KiB behind the version of this number.
fn push_body(alloc: Global, bytes: &mut Vec<u8>, body: &[u8], n: u32) -> Option<()>
    requires few { n < 1000 }
{
    let next = n + 1;
    let head = format!(in alloc;
        "Version: \"a-{next}\"\nParents: \"a-{n}\"\nContent-Length: 1024\n\n"
    ).ok()?;
    bytes.extend_from_slice(head.as_bytes()).ok()?;
    bytes.extend_from_slice(body).ok()
}

/// So many bodies of 1 KiB, each on the one before.
fn chain(alloc: Global, count: u32) -> Option<Vec<u8>>
    requires few { count < 1000 }
{
    let body = vec![in alloc; b'x'; 1024].ok()?;
    let mut bytes = Vec::from_slice(alloc, b"Version: \"a-0\"\nPatches: 0\n\n").ok()?;
    for n in 0..count {
        push_body(alloc, &mut bytes, &body, n)?;
    }
    Some(bytes)
}

/// Whether a chain of two hundred bodies is told.
fn is_chain_told(alloc: Global) -> Option<bool> {
    let input = chain(alloc, 200)?;
    let begin = b"versions: 201\nfrontier: \"a-200\"\nlength: 1024\n";
    Some(input_is_done(alloc, &input, begin, b"x\n"))
}

#[test]
fn a_chain_of_two_hundred_bodies_has_the_last_one(rt: HostRuntime) {
    assert!(rt; is_chain_told(rt.alloc()) == Some(true));
}

/// Whether a run where these reads and writes fail ends so.
fn failing_answers(
    alloc: Global,
    reads: &[u64],
    writes: &[u64],
    status: Status,
    text: &[u8],
) -> bool {
    match run_words(alloc, &[b"check"], ONE, 10, reads, writes) {
        Some(found) => has_text(&found, status, text),
        None => false,
    }
}

#[test]
fn a_failed_read_and_a_failed_write_are_told_by_the_status(rt: HostRuntime) {
    let rows: [(&[u64], &[u64], Status, &[u8]); 4] = [
        (&[2], &[], Status::Outside, b"fault: ReadFault\n"),
        (&[], &[0], Status::Outside, b""),
        (&[], &[1], Status::Done, ONE_TEXT),
        (&[2], &[0], Status::Outside, b""),
    ];
    for (reads, writes, status, text) in rows {
        assert!(rt; failing_answers(rt.alloc(), reads, writes, status, text));
    }
}

/// Whether words are refused and nothing is read.
fn are_no_words(alloc: Global, words: &[&[u8]]) -> bool {
    match run_words(alloc, words, ONE, 10, &[], &[]) {
        Some(found) => {
            has_text(&found, Status::Usage, b"fault: Usage\n") && found.source.left() == ONE
        }
        None => false,
    }
}

#[test]
fn other_words_are_refused_and_nothing_is_read(rt: HostRuntime) {
    let rows: [&[&[u8]]; 6] = [
        &[],
        &[b"Check"],
        &[b"check", b"--help"],
        &[b"check", b""],
        &[b"--check"],
        &[b"check\xff"],
    ];
    for words in rows {
        assert!(rt; are_no_words(rt.alloc(), words));
    }
}

/// Whether a sink with this room keeps this front of the text, and the run ends Outside.
fn keeps_a_front(alloc: Global, room: usize, front: &[u8]) -> Option<bool> {
    let mut source = source_of(alloc, ONE, 10, &[])?;
    let mut out = MemSink::new(alloc, room, Vec::new(alloc)).ok()?;
    let words = words_of(alloc, &[b"check"])?;
    let status = check_run(alloc, &words, &mut source, &mut out);
    Some(status == Status::Outside && out.written() == front)
}

#[test]
fn a_sink_without_room_keeps_a_prefix_of_the_text(rt: HostRuntime) {
    assert!(rt; keeps_a_front(rt.alloc(), 5, b"versi") == Some(true));
}

/// Whether a reason's name is the one that it is printed by.
fn is_named(alloc: Global, reason: Reason) -> Option<bool> {
    let name = format!(in alloc; "{reason:?}").ok()?;
    Some(reason.name() == name.as_str())
}

#[test]
fn a_reason_is_printed_by_its_name(rt: HostRuntime) {
    use Reason::*;
    let reasons = [
        BadLine,
        BadStatus,
        HeadTooLong,
        Encoded,
        RepeatedField,
        OtherMergeType,
        BadList,
        NoVersion,
        ManyVersions,
        BadId,
        TooManyParents,
        BadCount,
        TooManyPatches,
        NoLength,
        BadLength,
        TooLong,
        NoRange,
        OtherUnit,
        BadRange,
        Backwards,
        Overlap,
        NotText,
    ];
    for reason in reasons {
        assert!(rt; is_named(rt.alloc(), reason) == Some(true));
    }
}
