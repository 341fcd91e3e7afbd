use super::*;
use braid_ids::{Bytes, after};
use std::alloc::Global;
use std::fs::File;
use std::io;
use std::rt::Files;

/// A reader that gives a byte a call, errs at its call 1 and has ended at its call 3.
#[derive(Drop)]
struct ErringReader {
    calls: u64,
}

impl io::Read for ErringReader {
    fn read(&mut self, buf: &mut [u8]) -> io::Result<usize> {
        let call = self.calls;
        self.calls = call.saturating_add(1);
        match call {
            1 => Err(io::Error::from(io::ErrorKind::Interrupted)),
            3 => Ok(0),
            _ if buf.is_empty() => Ok(0),
            _ => {
                buf[0] = b'a';
                Ok(1)
            }
        }
    }
}

/// A writer into a pipe that takes at most two bytes a call, errs at its call 1 and takes nothing at its call 3.
#[derive(Drop)]
struct ErringWriter {
    to: io::PipeWriter,
    calls: u64,
}

impl io::Write for ErringWriter {
    fn write(&mut self, buf: &[u8]) -> io::Result<usize> {
        let call = self.calls;
        self.calls = call.saturating_add(1);
        match call {
            1 => Err(io::Error::from(io::ErrorKind::Interrupted)),
            3 => Ok(0),
            _ => self.to.write(&buf[..buf.len().min(2)]),
        }
    }

    fn flush(&mut self) -> io::Result<()> {
        Ok(())
    }
}

/// Reads once for each of the answers, into a buffer of `size` bytes, which is 1 to 16. Whether they came, with these bytes.
fn reads<S: Source>(source: &mut S, size: usize, answers: &[Read], bytes: &[u8]) -> bool {
    let mut buf = [0u8; 16];
    let size = size.clamp(1, 16);
    let mut rest = bytes;
    for answer in answers {
        let read = source.read(&mut buf[..size]);
        if read != *answer {
            return false;
        }
        if let Read::Got(n) = read {
            match after(&buf[..n], rest) {
                Some(after) => rest = after,
                None => return false,
            }
        }
    }
    rest.is_empty()
}

/// Whether a source in memory has given this, has nothing left, and counted so many calls and faults.
fn has_given(source: &MemSource, taken: &[u8], calls: usize, faults: u64) -> bool {
    source.taken() == taken
        && source.left().is_empty()
        && source.calls() == calls as u64
        && source.faults() == faults
}

/// Whether a source of these bytes in pieces, with these calls failing, answers reads of `size` bytes so.
fn source_answers(
    alloc: Global,
    left: &[u8],
    (piece, size): (usize, usize),
    fails: &[u64],
    answers: &[Read],
    faults: u64,
) -> Option<bool> {
    let fails = Vec::from_slice(alloc, fails).ok()?;
    let mut source = MemSource::new(Bytes::of(alloc, left).ok()?, piece.max(1), fails);
    let came = reads(&mut source, size, answers, left);
    Some(came && has_given(&source, left, answers.len(), faults))
}

#[test]
fn a_source_in_memory_gives_pieces_and_fails_where_told(rt: HostRuntime) {
    use Read::{End, Failed, Got};
    let rows: [(&[u8], (usize, usize), &[u64], &[Read], u64); 5] = [
        (
            b"abcde",
            (2, 4),
            &[],
            &[Got(2), Got(2), Got(1), End, End],
            0,
        ),
        (b"abcde", (9, 2), &[], &[Got(2), Got(2), Got(1), End], 0),
        (b"abcde", (9, 9), &[], &[Got(5), End], 0),
        (
            b"abcde",
            (3, 9),
            &[0, 2, 5],
            &[Failed, Got(3), Failed, Got(2), End, Failed, End],
            3,
        ),
        (b"", (1, 1), &[1], &[End, Failed, End], 1),
    ];
    for (left, sizes, fails, answers, faults) in rows {
        let came = source_answers(rt.alloc(), left, sizes, fails, answers, faults);
        assert!(rt; came == Some(true));
    }
}

/// Writes a piece, which is not empty. Whether the answer came.
fn takes_one(sink: &mut MemSink, piece: &[u8], answer: Wrote) -> bool {
    !piece.is_empty() && sink.write(piece) == answer
}

/// Writes the pieces, each of which is not empty. Whether the answers came.
fn takes(sink: &mut MemSink, pieces: &[&[u8]], answers: &[Wrote]) -> bool {
    for (piece, answer) in pieces.iter().zip(answers) {
        if !takes_one(sink, piece, *answer) {
            return false;
        }
    }
    pieces.len() == answers.len()
}

/// Whether a sink with so much room left has taken this, and counted so many calls and faults.
fn has_taken(sink: &MemSink, written: &[u8], room: usize, calls: usize, faults: u64) -> bool {
    sink.written() == written
        && sink.room() == room
        && sink.calls() == calls as u64
        && sink.faults() == faults
}

/// Whether a sink with this room, with these calls failing, answers writes of the pieces so.
fn sink_answers(
    alloc: Global,
    room: usize,
    fails: &[u64],
    pieces: &[&[u8]],
    answers: &[Wrote],
    written: &[u8],
    faults: u64,
) -> Option<bool> {
    let mut sink = MemSink::new(alloc, room, Vec::from_slice(alloc, fails).ok()?).ok()?;
    let came = takes(&mut sink, pieces, answers);
    let left = room.saturating_sub(written.len());
    Some(came && has_taken(&sink, written, left, answers.len(), faults))
}

#[test]
fn a_sink_in_memory_takes_what_it_has_room_for(rt: HostRuntime) {
    use Wrote::{Failed, Took};
    let rows: [(usize, &[u64], &[&[u8]], &[Wrote], &[u8], u64); 4] = [
        (9, &[], &[b"abc", b"de"], &[Took(3), Took(2)], b"abcde", 0),
        (
            4,
            &[],
            &[b"abc", b"de", b"e"],
            &[Took(3), Took(1), Failed],
            b"abcd",
            1,
        ),
        (
            9,
            &[0, 2],
            &[b"ab", b"ab", b"cd", b"cd"],
            &[Failed, Took(2), Failed, Took(2)],
            b"abcd",
            2,
        ),
        (0, &[], &[b"a"], &[Failed], b"", 1),
    ];
    for (room, fails, pieces, answers, written, faults) in rows {
        let came = sink_answers(rt.alloc(), room, fails, pieces, answers, written, faults);
        assert!(rt; came == Some(true));
    }
    let alloc = rt.alloc();
    assert!(rt; MemSink::new(alloc, usize::MAX, Vec::new(alloc)).is_err());
}

/// A call of a link and its answer: a read of at most two bytes, or a write of `xyz`.
#[derive(Clone, Copy)]
enum Call {
    Reads(Read),
    Writes(Wrote),
}

/// Whether a link answers a call so.
fn comes(link: &mut MemLink, call: Call) -> bool {
    match call {
        Call::Reads(answer) => link.read(&mut [0u8; 3]) == answer,
        Call::Writes(answer) => link.write(b"xyz") == answer,
    }
}

/// Whether a link answers the calls so.
fn is_called(link: &mut MemLink, calls: &[Call]) -> bool {
    for call in calls {
        if !comes(link, *call) {
            return false;
        }
    }
    true
}

/// Whether a link of `abc` has given and taken this, and counted so many calls and faults.
fn has_passed(link: &MemLink, bytes: (&[u8], &[u8]), calls: usize, faults: (u64, u64)) -> bool {
    let (taken, written) = bytes;
    link.taken() == taken
        && link.left().len() == 3usize.saturating_sub(taken.len())
        && link.written() == written
        && link.calls() == calls as u64
        && (link.read_faults(), link.write_faults()) == faults
}

/// Whether a link of `abc` in pieces of two, with room for four and these calls failing, answers so.
fn link_answers(
    alloc: Global,
    fails: &[u64],
    calls: &[Call],
    bytes: (&[u8], &[u8]),
    faults: (u64, u64),
) -> Option<bool> {
    let left = Bytes::of(alloc, b"abc").ok()?;
    let mut link = MemLink::new(alloc, left, 2, 4, Vec::from_slice(alloc, fails).ok()?).ok()?;
    let came = is_called(&mut link, calls);
    Some(came && has_passed(&link, bytes, calls.len(), faults))
}

#[test]
fn a_link_in_memory_numbers_its_calls_together(rt: HostRuntime) {
    use Call::{Reads, Writes};
    use Read::{End, Failed, Got};
    use Wrote::{Failed as Refused, Took};
    let rows: [(&[u64], &[Call], (&[u8], &[u8]), (u64, u64)); 3] = [
        (
            &[],
            &[
                Reads(Got(2)),
                Writes(Took(3)),
                Reads(Got(1)),
                Writes(Took(1)),
                Writes(Refused),
                Reads(End),
            ],
            (b"abc", b"xyzx"),
            (0, 1),
        ),
        (
            &[0, 3],
            &[
                Reads(Failed),
                Reads(Got(2)),
                Writes(Took(3)),
                Writes(Refused),
                Reads(Got(1)),
            ],
            (b"abc", b"xyz"),
            (1, 1),
        ),
        (
            &[1, 2],
            &[
                Reads(Got(2)),
                Writes(Refused),
                Reads(Failed),
                Writes(Took(3)),
            ],
            (b"ab", b"xyz"),
            (1, 1),
        ),
    ];
    for (fails, calls, bytes, faults) in rows {
        assert!(rt; link_answers(rt.alloc(), fails, calls, bytes, faults) == Some(true));
    }
}

/// Whether a source that never fails answers reads of `size` bytes so, and has then given all.
fn pure_answers(alloc: Global, bytes: &[u8], size: usize, answers: &[Read]) -> Option<bool> {
    let mut source = PureSource::new(Bytes::of(alloc, bytes).ok()?);
    let came = reads(&mut source, size, answers, bytes);
    Some(came && source.left().is_empty())
}

#[test]
fn a_source_that_never_fails_fills_the_buffer(rt: HostRuntime) {
    use Read::{End, Got};
    let rows: [(&[u8], usize, &[Read]); 4] = [
        (b"abcde", 2, &[Got(2), Got(2), Got(1), End, End]),
        (b"abcde", 9, &[Got(5), End]),
        (b"abcde", 5, &[Got(5), End]),
        (b"", 1, &[End]),
    ];
    for (bytes, size, answers) in rows {
        assert!(rt; pure_answers(rt.alloc(), bytes, size, answers) == Some(true));
    }
}

/// Whether a sink with this room, with these calls failing, is written so by one `write_all`.
fn is_written_so(
    alloc: Global,
    room: usize,
    fails: &[u64],
    bytes: &[u8],
    answer: Result<(), WriteEnd>,
    written: &[u8],
    calls: u64,
) -> Option<bool> {
    let mut sink = MemSink::new(alloc, room, Vec::from_slice(alloc, fails).ok()?).ok()?;
    let came = write_all(bytes, &mut sink) == answer;
    Some(came && sink.written() == written && sink.calls() == calls)
}

/// A room, the calls that fail, the bytes, the answer, what was written, and the calls.
const WRITES: [(usize, &[u64], &[u8], Result<(), WriteEnd>, &[u8], u64); 4] = [
    (9, &[], b"abcde", Ok(()), b"abcde", 1),
    (3, &[], b"abcde", Err(WriteEnd::WriteFault), b"abc", 2),
    (9, &[0], b"abcde", Err(WriteEnd::WriteFault), b"", 1),
    (0, &[0], b"", Ok(()), b"", 0),
];

#[test]
fn write_all_writes_all_or_a_prefix(rt: HostRuntime) {
    for (room, fails, bytes, answer, written, calls) in WRITES {
        let came = is_written_so(rt.alloc(), room, fails, bytes, answer, written, calls);
        assert!(rt; came == Some(true));
    }
}

#[test]
fn a_source_goes_on_after_an_error_of_its_reader(rt: HostRuntime) {
    let mut source = StdSource::new(ErringReader { calls: 0 });
    let answers = [Read::Got(1), Read::Failed, Read::Got(1), Read::End];
    let came = reads(&mut source, 4, &answers, b"aa");
    assert!(rt; came && source.faults() == 1);
}

/// Writes three times over a writer that errs and takes nothing. The faults after each, where the first two fail.
fn writes_thrice(to: io::PipeWriter) -> Option<[u64; 3]> {
    let mut sink = StdSink::new(ErringWriter { to, calls: 0 });
    let first = write_all(b"hello", &mut sink);
    let one = sink.faults();
    let second = write_all(b"llo", &mut sink);
    let two = sink.faults();
    let third = write_all(b"o", &mut sink);
    let fault = Err(WriteEnd::WriteFault);
    if first == fault && second == fault && third == Ok(()) {
        Some([one, two, sink.faults()])
    } else {
        None
    }
}

/// Whether a pipe holds these bytes and no more.
fn holds(from: io::PipeReader, answers: &[Read], bytes: &[u8]) -> bool {
    let mut source = StdSource::new(from);
    reads(&mut source, 3, answers, bytes) && source.faults() == 0
}

#[test]
fn a_sink_goes_on_after_an_error_of_its_writer(rt: HostRuntime) {
    let Ok((from, to)) = io::pipe(&rt) else {
        panic!(rt; "no pipe")
    };
    let faults = writes_thrice(to);
    let held = holds(from, &[Read::Got(3), Read::Got(2), Read::End], b"hello");
    assert!(rt; faults == Some([1, 2, 2]) && held);
}

/// Writes five bytes into a pipe, whole. Whether they were taken.
fn fills(to: io::PipeWriter) -> bool {
    let mut to = to;
    io::Write::write_all(&mut to, b"abcde").is_ok()
}

/// Whether a source over a file answers so, with so many faults.
fn file_answers<F: io::Read + Drop>(file: io::Result<F>, answers: &[Read], faults: u64) -> bool {
    match file {
        Ok(file) => {
            let mut source = StdSource::new(file);
            reads(&mut source, 1, answers, b"") && source.faults() == faults
        }
        Err(_) => false,
    }
}

/// Whether a file without bytes ends, and one that is open to write alone fails.
fn files_are_read<R: Files>(rt: &R) -> [bool; 2] {
    let empty = file_answers(File::open(rt, "/dev/null"), &[Read::End], 0);
    let unreadable = file_answers(
        File::create(rt, "/dev/null"),
        &[Read::Failed, Read::Failed],
        2,
    );
    [empty, unreadable]
}

#[test]
fn a_source_reads_a_real_pipe_and_file(rt: HostRuntime) {
    let Ok((from, to)) = io::pipe(&rt) else {
        panic!(rt; "no pipe")
    };
    let filled = fills(to);
    let answers = [Read::Got(3), Read::Got(2), Read::End, Read::End];
    let held = holds(from, &answers, b"abcde");
    assert!(rt; filled && held && files_are_read(&rt) == [true; 2]);
}

/// Whether a sink over a pipe takes two pieces whole.
fn takes_two(to: io::PipeWriter) -> bool {
    let mut pipe = StdSink::new(to);
    let first = pipe.write(b"abc");
    let second = pipe.write(b"de");
    (first, second) == (Wrote::Took(3), Wrote::Took(2)) && pipe.faults() == 0
}

/// Whether a sink over a file that is open to read alone fails.
fn is_unwritable<R: Files>(rt: &R) -> bool {
    match File::open(rt, "/dev/null") {
        Ok(file) => {
            let mut sink = StdSink::new(file);
            sink.write(b"a") == Wrote::Failed && sink.faults() == 1
        }
        Err(_) => false,
    }
}

#[test]
fn a_sink_writes_a_real_pipe_and_file(rt: HostRuntime) {
    let Ok((from, to)) = io::pipe(&rt) else {
        panic!(rt; "no pipe")
    };
    let taken = takes_two(to);
    let held = holds(from, &[Read::Got(3), Read::Got(2), Read::End], b"abcde");
    assert!(rt; taken && held && is_unwritable(&rt));
}

/// Statuses and their codes.
const STATUSES: [(Status, u8); 6] = [
    (Status::Done, 0),
    (Status::Bad, 1),
    (Status::Usage, 2),
    (Status::Outside, 3),
    (Status::Memory, 4),
    (Status::Cut, 5),
];

#[test]
fn statuses_are_0_to_5(rt: HostRuntime) {
    for (status, code) in STATUSES {
        assert!(rt; status.code() == code);
    }
}
