use super::*;
use std::alloc::Global;

/// The known fields of field lines, each with its LF.
pub(crate) fn fields_of(alloc: Global, lines: &[u8]) -> Option<HeadFields> {
    let mut fields = HeadFields::new(alloc);
    for line in lines.split_inclusive(|byte| *byte == b'\n') {
        let (name, value) = read_field(line)?;
        fields.add(alloc, name, value).ok()?;
    }
    Some(fields)
}

/// Whether that is a plan, or was refused for this reason.
pub(crate) fn answers(answer: Result<Plan, PlanFault>, reason: Option<Reason>) -> bool {
    match answer {
        Ok(_) => reason.is_none(),
        Err(PlanFault::Reason(found)) => reason == Some(found),
        Err(PlanFault::Memory) => false,
    }
}

/// Whether a head of these lines has a plan, or is refused for this reason.
pub(crate) fn head_answers(alloc: Global, lines: &[u8], reason: Option<Reason>) -> bool {
    match fields_of(alloc, lines) {
        Some(fields) => answers(plan_head(alloc, &fields), reason),
        None => false,
    }
}

/// Whether a head of `Version: "a"` and these lines has a plan, or is refused for this reason.
pub(crate) fn answers_behind(alloc: Global, lines: &str, reason: Option<Reason>) -> bool {
    match format!(in alloc; "Version: \"a\"\n{lines}") {
        Ok(head) => head_answers(alloc, head.as_bytes(), reason),
        Err(_) => false,
    }
}

/// Lines, and the field of each.
const FIELD_LINES: [(&[u8], Option<(&[u8], &[u8])>); 14] = [
    (b"A:b\n", Some((b"A", b"b"))),
    (b"A:b\r\n", Some((b"A", b"b"))),
    (b"A: \t b c \t\r\n", Some((b"A", b"b c"))),
    (b"A:\n", Some((b"A", b""))),
    (b"a!#$%&'*+-.^_`|~9::\n", Some((b"a!#$%&'*+-.^_`|~9", b":"))),
    (b"A:\x80\xff\n", Some((b"A", b"\x80\xff"))),
    (b"A:b\r\r\n", None),
    (b"A:b\x7f\n", None),
    (b"A:\x1f\n", None),
    (b"A b:c\n", None),
    (b":c\n", None),
    (b"A\n", None),
    (b"A:b", None),
    (b"\n", None),
];

#[test]
fn a_field_line_is_a_name_a_colon_and_a_value(rt: HostRuntime) {
    for (line, field) in FIELD_LINES {
        assert!(rt; read_field(line) == field);
    }
}

/// Lines, whether each begins as a status line, and whether it is a good one.
const STATUS_LINES: [(&[u8], bool, bool); 12] = [
    (b"HTTP 200\n", true, true),
    (b"HTTP/1.1 200 OK\r\n", true, true),
    (b"HTTP 200 \x00\xff\r\r\n", true, true),
    (b"HTTP/1.1 200\r\n", true, true),
    (b"HTTP/1.1 200OK\n", true, false),
    (b"HTTP/1.0 200\n", true, false),
    (b"HTTP  200\n", true, false),
    (b"HTTP 404 Not Found\r\n", true, false),
    (b"HTTP/\n", true, false),
    (b"HTTP\n", false, false),
    (b"http 200\n", false, false),
    (b"HTTPS: 1\n", false, false),
];

#[test]
fn a_status_line_has_one_form(rt: HostRuntime) {
    for (line, taken, good) in STATUS_LINES {
        let found = [is_status(line), is_good_status(line), is_empty_line(line)];
        assert!(rt; found == [taken, good, false]);
    }
    assert!(rt; is_empty_line(b"\n") && is_empty_line(b"\r\n"));
}

/// Puts a field with the parents of this number and `0` at the end.
fn push_parents(alloc: Global, lines: &mut String, n: u32) -> Option<()> {
    let line = format!(in alloc; "Parents: \"{n}\", \"0\"\n").ok()?;
    lines.push_str(line.as_str()).ok()
}

/// A head with the parents `0`, `1` and so on, and `0` again with each.
fn head_of_parents(alloc: Global, count: u32) -> Option<String> {
    let mut lines = String::new(alloc);
    lines.push_str("Version: \"v\"\nContent-Length: 0\n").ok()?;
    for n in 0..count {
        push_parents(alloc, &mut lines, n)?;
    }
    Some(lines)
}

/// Whether so many parents have a plan with them all.
fn are_planned(alloc: Global, count: u32) -> Option<bool> {
    let lines = head_of_parents(alloc, count)?;
    let fields = fields_of(alloc, lines.as_bytes())?;
    let plan = plan_head(alloc, &fields).ok()?;
    Some(plan.parents.len() == count)
}

/// Whether so many parents are refused for this reason.
fn are_refused(alloc: Global, count: u32, reason: Reason) -> bool {
    match head_of_parents(alloc, count) {
        Some(lines) => head_answers(alloc, lines.as_bytes(), Some(reason)),
        None => false,
    }
}

#[test]
fn parents_are_a_set_of_at_most_32(rt: HostRuntime) {
    let planned = are_planned(rt.alloc(), 32);
    let refused = are_refused(rt.alloc(), 33, Reason::TooManyParents);
    assert!(rt; planned == Some(true) && refused);
}

/// Whether an identifier of so many bytes has a plan, or is refused for this reason.
fn id_answers(alloc: Global, len: usize, reason: Option<Reason>) -> Option<bool> {
    let id = "a".repeat(alloc, len).ok()?;
    let id = id.as_str();
    let head = format!(in alloc; "Version: \"{id}\"\nContent-Length: 0\n").ok()?;
    Some(head_answers(alloc, head.as_bytes(), reason))
}

#[test]
fn an_identifier_has_at_most_128_bytes(rt: HostRuntime) {
    let whole = id_answers(rt.alloc(), 128, None);
    let longer = id_answers(rt.alloc(), 129, Some(Reason::BadId));
    assert!(rt; whole == Some(true) && longer == Some(true));
}

/// Whether a plan names the version `b-1` with two parents, and asks for this.
fn plans(plan: &Plan, asks: Asks) -> bool {
    plan.id.bytes() == b"b-1".as_slice() && plan.parents.len() == 2 && plan.asks == asks
}

/// Whether a head with one range plans one patch.
fn plans_one_patch(alloc: Global) -> Option<bool> {
    let fields = fields_of(
        alloc,
        b"Version: \"b-1\"\nParents: \"c\", \"a\", \"c\"\nContent-Length: 2\nContent-Range: text [1:3]\n",
    )?;
    let plan = plan_head(alloc, &fields).ok()?;
    let patch = PatchPlan {
        start: 1,
        end: 3,
        len: 2,
    };
    Some(plans(&plan, Asks::OnePatch { patch }))
}

#[test]
fn a_plan_says_what_follows_the_head(rt: HostRuntime) {
    assert!(rt; plans_one_patch(rt.alloc()) == Some(true));
}

/// Whether so many slashes are a path, and a server.
fn slashes_are(alloc: Global, n: usize) -> Option<[bool; 2]> {
    let slashes = vec![in alloc; b'/'; n].ok()?;
    Some([is_path(&slashes), is_server(&slashes)])
}

/// Numbers of slashes, and whether so many are a path, and a server.
const SLASHES: [(usize, [bool; 2]); 4] = [
    (255, [true, true]),
    (256, [true, false]),
    (1_024, [true, false]),
    (1_025, [false, false]),
];

/// Bytes, and whether they are a path, and a server.
const SIGNS: [(&[u8], [bool; 2]); 5] = [
    (b"/-._~!$&'()*+,;=:@%/?aZ09", [true, true]),
    (b"/#", [false, true]),
    (b"", [false, false]),
    (b" /", [false, false]),
    (b"\x7f", [false, false]),
];

#[test]
fn servers_and_paths_have_their_limits(rt: HostRuntime) {
    for (n, answers) in SLASHES {
        assert!(rt; slashes_are(rt.alloc(), n) == Some(answers));
    }
    for (bytes, answers) in SIGNS {
        let found = [is_path(bytes), is_server(bytes)];
        assert!(rt; found == answers);
    }
}
