ghost use Rattle.std.specs.Prelude.{◌≡◌, ◌↔◌, ◌∷◌, ◌++◌, [], OnOk, IfErr};

use braid_ids::Word;
use std::alloc::Global;
use std::env;
use std::io::ErrorKind;
use std::rt::Env;

/// Why the words of the command line were not read.
#[derive(Clone, Copy, Debug, PartialEq, Eq)]
pub enum WordsFault {
    /// A word is not UTF-8. Such words are no command.
    NotText,
    /// There was no memory for the words.
    Memory,
}

/// The words after the program's name, in their order.
///
/// Errors: `NotText` where a word is not UTF-8, or `Memory`.
pub fn read_words<R: Env + AllocGlobal>(rt: &R) -> Result<Vec<Word>, WordsFault> {
    let args = match env::args(rt) {
        Ok(args) => args,
        Err(error) => return Err(words_fault(error.kind())),
    };
    let mut words = Vec::new(rt.alloc());
    for arg in args.skip(1) {
        push_word(rt.alloc(), &mut words, arg.as_bytes())?;
    }
    Ok(words)
}

/// What an error of reading the arguments says of the words.
pub fn words_fault(kind: ErrorKind) -> WordsFault
    ensures memory { result ≡ WordsFault.Memory ↔ (kind ≡ ErrorKind.OutOfMemory) }
{
    match kind {
        ErrorKind::OutOfMemory => WordsFault::Memory,
        _ => WordsFault::NotText,
    }
}

/// Puts a word at the end.
fn push_word(alloc: Global, words: &mut Vec<Word>, bytes: &[u8]) -> Result<(), WordsFault>
    ensures ok { OnOk result (words.new.items ≡ words.old.items ++ bytes.now ∷ []) }
    ensures fault { IfErr result (λ fault. fault ≡ WordsFault.Memory) }
{
    let Ok(word) = Word::of(alloc, bytes) else {
        return Err(WordsFault::Memory);
    };
    if words.push(word).is_err() {
        return Err(WordsFault::Memory);
    }
    Ok(())
}
