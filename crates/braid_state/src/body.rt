//! The updates of a state's text, and its end.

ghost use Rattle.std.specs.Prelude.{◌≡◌, ◌+◌, ◌++◌, List, [], ℕ, length, IfOk, IfErr};
ghost use Rattle.braid_grammar.specs.Streams.{IsGap};
ghost use Rattle.braid_frame.specs.Framing.{StandsFor};
ghost use Rattle.braid_state.specs.States.{UpdatesThen, end_mark};
ghost use Rattle.braid_state.specs.StateFaults.{BeginsNoUpdate, LacksUpdate, IsBadBody};
ghost use Rattle.braid_state.specs.Stops.{IfBad, IsFirstUpdate};

use crate::stop::Stop;
use crate::tail::read_tail;
use braid_change::Update;
use braid_frame::{FeedFault, Framer};
use std::alloc::Global;

/// The updates of a state.
#[derive(Drop)]
pub struct Body {
    pub confirmed: Vec<Update>,
    pub unsent: Vec<Update>,
}

/// Reads so many confirmed and so many unsent updates, and the end of the text.
pub fn read_body<'a>(
    alloc: Global,
    confirmed: u64,
    unsent: u64,
    bytes: &'a [u8],
) -> Result<Body, Stop<'a>>
    ensures counted { IfOk result (λ body. (length body.confirmed.items ≡ confirmed)
        × (length body.unsent.items ≡ unsent)) }
    ensures ok { IfOk result (λ body. (gap : List ℕ) × IsGap gap
        × UpdatesThen (body.confirmed.items ++ body.unsent.items) (gap ++ end_mark) bytes.now) }
    ensures stop { IfErr result (λ stop. IfBad stop (λ rest. IsBadBody (confirmed + unsent) rest bytes.now)) }
{
    let (confirmed, rest) = read_updates(alloc, confirmed, bytes)?;
    let (unsent, rest) = read_updates(alloc, unsent, rest)?;
    read_tail(rest)?;
    Ok(Body { confirmed, unsent })
}

/// Reads so many updates, each after a gap, and what follows the last.
fn read_updates<'a>(
    alloc: Global,
    count: u64,
    bytes: &'a [u8],
) -> Result<(Vec<Update>, &'a [u8]), Stop<'a>>
    ensures ok { IfOk result (λ read. (length read.0.items ≡ count) × UpdatesThen read.0.items read.1.now bytes.now) }
    ensures stop { IfErr result (λ stop. IfBad stop (λ rest. LacksUpdate count rest bytes.now)) }
{
    let mut updates = Vec::new(alloc);
    let mut rest = bytes;
    'updates: while (updates.len() as u64) < count {
        let (update, after) = read_update(alloc, rest)?;
        updates.push(update)?;
        rest = after;
    }
    Ok((updates, rest))
}

/// The update after a gap at the front of the bytes, and what follows it.
fn read_update<'a>(alloc: Global, bytes: &'a [u8]) -> Result<(Update, &'a [u8]), Stop<'a>>
    ensures ok { IfOk result (λ read. IsFirstUpdate read.0 read.1.now bytes.now) }
    ensures stop { IfErr result (λ stop. IfBad stop (λ rest. (rest ≡ bytes.now) × BeginsNoUpdate bytes.now)) }
{
    let mut framer = Framer::new(alloc);
    feed_update(&mut framer, bytes)
}

/// The same by a framer that was fed nothing. It takes no byte behind the update.
fn feed_update<'a>(framer: &mut Framer, bytes: &'a [u8]) -> Result<(Update, &'a [u8]), Stop<'a>>
    requires stands { StandsFor [] framer.old [] }
    ensures ok { IfOk result (λ read. IsFirstUpdate read.0 read.1.now bytes.now) }
    ensures stop { IfErr result (λ stop. IfBad stop (λ rest. (rest ≡ bytes.now) × BeginsNoUpdate bytes.now)) }
{
    match framer.feed(bytes) {
        Ok(fed) => {
            let rest = &bytes[fed.taken..];
            match fed.update {
                Some(update) => Ok((update, rest)),
                None => Err(Stop::Bad(bytes)),
            }
        }
        Err(fault) => match fault {
            FeedFault::Frame(_) => Err(Stop::Bad(bytes)),
            FeedFault::Memory => Err(Stop::Memory),
        },
    }
}
