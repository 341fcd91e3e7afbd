use crate::{
    fault_line, full_line, id_line, line_with, numbered_line, print, push_content, push_count,
    push_frontier, push_line, range_line, read_number, refuse_words, stream_line,
};
use braid_change::Text;
use braid_fields::Reason;
use braid_frame::FrameFault;
use braid_ids::{Bytes, Frontier, Id};
use braid_io::{MemSink, Status};
use braid_text::Which;
use std::test::Fail;

/// Words, the most that is asked for, and the number.
const NUMBERS: [(&[u8], u64, Option<u64>); 12] = [
    (b"0", 0, Some(0)),
    (b"1", 0, None),
    (b"7", u64::MAX, Some(7)),
    (b"4294967295", 4_294_967_295, Some(4_294_967_295)),
    (b"4294967296", 4_294_967_295, None),
    (b"18446744073709551615", u64::MAX, Some(u64::MAX)),
    (b"18446744073709551616", u64::MAX, None),
    (b"00000000000000000007", 9, Some(7)),
    (b"000000000000000000007", 9, None),
    (b"+7", 9, None),
    (b"-7", 9, None),
    (b"", 9, None),
];

#[test]
fn a_word_is_its_number(rt: HostRuntime) {
    for (word, most, wanted) in NUMBERS {
        assert!(rt; read_number(word, most) == wanted);
    }
}

#[test]
fn a_text_has_its_status(rt: HostRuntime) -> Result<(), Fail> {
    let alloc = rt.alloc();
    let mut out = MemSink::new(alloc, 15, Vec::new(alloc))?;
    assert!(rt; refuse_words(&mut out) == Status::Usage);
    assert!(rt; out.written() == b"fault: Usage\n".as_slice());
    assert!(rt; print(&mut out, b"done\n", Status::Done) == Status::Outside);
    assert!(rt; out.written() == b"fault: Usage\ndo".as_slice());
    Ok(())
}

#[test]
fn faults_have_their_lines(rt: HostRuntime) -> Result<(), Fail> {
    let alloc = rt.alloc();
    let id = Id::read(alloc, b"a\"1")?;
    let fault = FrameFault {
        at: 59,
        reason: Reason::NoLength,
    };
    let lines = [
        (fault_line(alloc, b"Cut")?, b"fault: Cut\n".as_slice()),
        (
            numbered_line(alloc, b"Torn at ", 80)?,
            b"fault: Torn at 80\n",
        ),
        (
            id_line(alloc, b"Clash ", &id)?,
            b"fault: Clash \"a\\\"1\"\n",
        ),
        (stream_line(alloc, &fault)?, b"fault: NoLength at 59\n"),
        (
            range_line(alloc, 1, 7)?,
            b"fault: OutOfRange patch 1 len 7\n",
        ),
        (
            full_line(alloc, Which::Width, 2_000)?,
            b"fault: Full width 2000\n",
        ),
    ];
    for (line, wanted) in &lines {
        assert!(rt; line.get() == *wanted);
    }
    Ok(())
}

#[test]
fn lines_follow_one_another(rt: HostRuntime) -> Result<(), Fail> {
    let alloc = rt.alloc();
    let mut out = line_with(alloc, b"agent: ", b"a")?;
    push_line(&mut out, b"path: ", b"/doc")?;
    push_count(&mut out, b"unsent: ", 2)?;
    push_frontier(alloc, &mut out, &Frontier::of(Vec::new(alloc))?)?;
    let ids = vec![in alloc; Id::read(alloc, b"b-1")?, Id::read(alloc, b"a-2")?]?;
    push_frontier(alloc, &mut out, &Frontier::of(ids)?)?;
    push_content(
        alloc,
        &mut out,
        &Text::read(alloc, "h\u{e9}".as_bytes())?,
        &[0xab; 32],
    )?;
    let mut wanted = Bytes::of(
        alloc,
        b"agent: a\npath: /doc\nunsent: 2\nfrontier:\nfrontier: \"a-2\", \"b-1\"\nlength: 2\ndigest: ",
    )?;
    for _ in 0..32u32 {
        wanted.push(b"ab")?;
    }
    wanted.push("\ntext:\nh\u{e9}\n".as_bytes())?;
    assert!(rt; out.get() == wanted.get());
    Ok(())
}
