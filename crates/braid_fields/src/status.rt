//! The status line that may stand before the fields of an update.

ghost use Rattle.std.specs.Prelude.{◌≡◌};
ghost use Rattle.braid_fields.specs.Lines.{ends_line};
ghost use Rattle.braid_fields.specs.Statuses.{is_status, ends_phrase, has_phrase, is_good_status};

use crate::line::is_empty_line;

/// Whether a line is taken for a status line: it begins with `HTTP ` or `HTTP/`. It takes no memory.
///
/// `line` is a line with its LF.
#[tactic(auto, unfolding(crate::specs::Statuses::is_status))]
pub fn is_status(line: &[u8]) -> bool
    ensures value { result ≡ is_status line.now }
{
    line.starts_with(b"HTTP ") || line.starts_with(b"HTTP/")
}

/// Whether the last byte is a LF.
fn ends_line(bytes: &[u8]) -> bool
    ensures { result ≡ ends_line bytes.now }
{
    match bytes.split_last() {
        Some((last, _)) => *last == b'\n',
        None => false,
    }
}

/// Whether nothing but the end of a line is left, or a space and then any bytes up to an end.
fn ends_phrase(rest: &[u8]) -> bool
    ensures { result ≡ ends_phrase rest.now }
{
    is_empty_line(rest) || (matches!(rest.first(), Some(b' ')) && ends_line(rest))
}

/// Whether a line begins so and a phrase follows.
fn has_phrase(front: &[u8], line: &[u8]) -> bool
    ensures { result ≡ has_phrase front.now line.now }
{
    line.starts_with(front) && ends_phrase(&line[front.len()..])
}

/// Whether a line has the form of a status line: `HTTP` or `HTTP/1.1`, one space, `200`, and then nothing, or a space
/// and any bytes. It takes no memory.
///
/// `line` is a line with its LF.
#[tactic(auto, unfolding(crate::specs::Statuses::is_good_status))]
pub fn is_good_status(line: &[u8]) -> bool
    ensures value { result ≡ is_good_status line.now }
{
    has_phrase(b"HTTP 200", line) || has_phrase(b"HTTP/1.1 200", line)
}
