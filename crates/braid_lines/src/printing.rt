//! Texts that are written with their status.

ghost use Rattle.std.specs.Prelude.{◌≡◌};
ghost use Rattle.braid_lines.specs.Prints.{IsPrinted, EndsAsUsage};

use braid_io::{Sink, Status, write_all};

/// Writes a text whose status this is. Answers that status; or Outside where a write failed, and then a front of the
/// text was written. It takes no memory.
pub fn print<O: Sink>(out: &mut O, text: &[u8], status: Status) -> Status
    ensures prints { IsPrinted text.now status result (O.outflow out.old) (O.outflow out.new) }
    ensures kept { O.beside_writes out.new ≡ O.beside_writes out.old }
{
    match write_all(text, out) {
        Ok(()) => status,
        Err(_) => Status::Outside,
    }
}

/// Writes that words are no command: `fault: Usage`. Answers Usage; or Outside where a write failed, and then a front
/// of the line was written. It takes no memory.
pub fn refuse_words<O: Sink>(out: &mut O) -> Status
    ensures refused { EndsAsUsage result (O.outflow out.old) (O.outflow out.new) }
    ensures kept { O.beside_writes out.new ≡ O.beside_writes out.old }
{
    print(out, b"fault: Usage\n", Status::Usage)
}
