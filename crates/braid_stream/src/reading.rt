//! How far one stream is read: the answers of a reader, and what it keeps between them.

ghost use Rattle.std.specs.Prelude.{◌≡◌, ℕ, List, [], Some, None};
ghost use Rattle.braid_change.specs.Updates.{UpdateView};

use crate::held::Held;
use crate::next::{Ended, Next};
use braid_frame::{FeedFault, Framer};
use braid_io::{Read, Source};
use std::alloc::Global;

/// The most bytes that are read of one stream.
const MOST_BYTES: u64 = 1_099_511_627_776;

/// What a reader keeps between its answers.
#[derive(Drop)]
pub struct Reading {
    framer: Framer,
    /// What was read and not yet fed.
    held: Held,
    /// How many bytes were read.
    read: u64,
    /// The answer that is given for good, once there is one.
    ended: Option<Ended>,
}

impl Reading {
    ghost use Rattle.braid_stream.specs.declared.next.Next.{Next as Answer};
    ghost use Rattle.braid_stream.specs.Readers.{HasTaken, GoesOn, HasEnded, IsReadable, HaveAnswer, Answers};
    ghost use Rattle.braid_stream.specs.Steps.{FeedsHeld, Refills, Rises, EndsSource, answer_of};

    /// Nothing was read.
    pub fn new(alloc: Global) -> Reading
        ensures none { HasTaken [] result [] }
        ensures going { GoesOn result }
    {
        Reading {
            framer: Framer::new(alloc),
            held: Held::new(),
            read: 0,
            ended: None,
        }
    }

    /// The next update of the stream, or why there is none.
    pub fn next<S: Source>(&mut self, source: &mut S) -> Next
        requires readable { IsReadable self.old }
        ensures readable { IsReadable self.new }
        ensures answers { (us : List UpdateView) (bytes : List ℕ) → GoesOn self.old → HasTaken us self.old bytes
            → Answers us bytes result self.new (S.intake source.old) (S.intake source.new) }
        ensures at_hand { (us : List UpdateView) (bytes : List ℕ) → GoesOn self.old → HasTaken us self.old bytes
            → HaveAnswer us bytes → source.new ≡ source.old }
        ensures again { (next : Answer) → HasEnded self.old next
            → (result ≡ next) × (self.new ≡ self.old) × (source.new ≡ source.old) }
        ensures kept { S.beside_reads source.new ≡ S.beside_reads source.old }
    {
        match self.ended {
            Some(ended) => ended.answer(),
            None => self.go_on(source),
        }
    }

    /// Feeds what is held and reads on, until there is an answer.
    fn go_on<S: Source>(&mut self, source: &mut S) -> Next
        requires going { GoesOn self.old }
        requires stands { (us : List UpdateView) × (bytes : List ℕ) × HasTaken us self.old bytes }
        ensures answers { (us : List UpdateView) (bytes : List ℕ) → HasTaken us self.old bytes
            → Answers us bytes result self.new (S.intake source.old) (S.intake source.new) }
        ensures at_hand { (us : List UpdateView) (bytes : List ℕ) → HasTaken us self.old bytes → HaveAnswer us bytes
            → source.new ≡ source.old }
        ensures kept { S.beside_reads source.new ≡ S.beside_reads source.old }
    {
        'reading: loop {
            if let Some(next) = self.feed_held() {
                return next;
            }
            if let Some(next) = self.refill(source) {
                return next;
            }
        }
    }

    /// Feeds the bytes that are held, up to an update; `None` where all of them were fed and completed none.
    fn feed_held(&mut self) -> Option<Next>
        requires going { GoesOn self.old }
        requires stands { (us : List UpdateView) × (bytes : List ℕ) × HasTaken us self.old bytes }
        ensures feeds { (us : List UpdateView) (bytes : List ℕ) → HasTaken us self.old bytes
            → FeedsHeld us bytes result self.new }
        ensures read { self.new.read ≡ self.old.read }
    {
        match self.framer.feed(self.held.get()) {
            Ok(fed) => {
                self.held.pass(fed.taken);
                match fed.update {
                    Some(update) => Some(Next::Update(update)),
                    None => None,
                }
            }
            Err(fault) => match fault {
                FeedFault::Frame(fault) => Some(self.end(Ended::Fault(fault))),
                FeedFault::Memory => Some(self.end(Ended::Memory)),
            },
        }
    }

    /// Reads the next bytes, where none are held; `None` where some came.
    fn refill<S: Source>(&mut self, source: &mut S) -> Option<Next>
        requires going { GoesOn self.old }
        requires fed { self.old.held ≡ [] }
        requires stands { (us : List UpdateView) × (bytes : List ℕ) × HasTaken us self.old bytes }
        ensures fills { (us : List UpdateView) (bytes : List ℕ) → HasTaken us self.old bytes
            → Refills us bytes result self.new (S.intake source.old) (S.intake source.new) }
        ensures rises { result ≡ None → Rises self.old self.new }
        ensures kept { S.beside_reads source.new ≡ S.beside_reads source.old }
    {
        let most = MOST_BYTES - self.read;
        if most == 0 {
            return Some(self.end(Ended::Spent));
        }
        match self.held.fill(source, most) {
            Read::Got(count) => {
                self.read += count as u64;
                None
            }
            Read::End => Some(self.end_source()),
            Read::Failed => Some(Next::ReadFault),
        }
    }

    /// Ends with the source: its bytes are a stream, or are torn.
    fn end_source(&mut self) -> Next
        requires going { GoesOn self.old }
        requires fed { self.old.held ≡ [] }
        requires stands { (us : List UpdateView) × (bytes : List ℕ) × HasTaken us self.old bytes }
        ensures ends { (us : List UpdateView) (bytes : List ℕ) → HasTaken us self.old bytes
            → EndsSource us bytes result self.new }
    {
        if self.framer.resting() {
            self.end(Ended::End)
        } else {
            let at = self.read;
            self.end(Ended::Torn { at })
        }
    }

    /// Ends for good.
    fn end(&mut self, ended: Ended) -> Next
        ensures answer { result ≡ answer_of ended }
        ensures ended { self.new ≡ record self.old { ended = Some ended } }
    {
        self.ended = Some(ended);
        ended.answer()
    }
}
