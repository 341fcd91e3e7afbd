ghost use Rattle.std.specs.Prelude.{◌≡◌};
ghost use Rattle.braid_fields.specs.Lines.{is_empty_line};

/// Whether a line is its end alone: LF, or CR and LF. It takes no memory.
///
/// `line` is a line with its LF.
pub fn is_empty_line(line: &[u8]) -> bool
    ensures value { result ≡ is_empty_line line.now }
{
    matches!(line, [b'\n'] | [b'\r', b'\n'])
}
