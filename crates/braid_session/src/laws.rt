//! Laws of sessions, each the contract of a function that does nothing.

ghost use Rattle.braid_session.specs.Pieces.{PiecesSpell, PiecesSend, WatchIsStream};
ghost use Rattle.braid_session.specs.Laws.{StaysAsItGrows, TextStays, PlacesStay, FitsLonger, PassedBoth, HeardBoth, OneText, OneTextUnwatched, WroteAll, WroteFront, Completes};

/// What a session wrote and added on the history that its pass has seen stays so as the history grows.
pub fn stays_as_it_grows()
    ensures answers { StaysAsItGrows }
    ensures text { TextStays }
    ensures places { PlacesStay }
    ensures whole { FitsLonger }
{}

/// What a pass gained in one session after another, and what its bell answered and was rung, is that of both
/// together, in order.
pub fn one_after_another()
    ensures passed { PassedBoth }
    ensures rings { HeardBoth }
{}

/// A legal history, the bytes that were read and the marks determine the text; where it ends in a subscription, they
/// do with whether that was stopped.
pub fn one_text()
    ensures law { OneText }
    ensures unwatched { OneTextUnwatched }
{}

/// At each end but `WriteFault` and `Memory` the whole text was written: at each but `Worn`, every request has its
/// reply, and at `Stopped` the last is a subscription with its last chunk.
///
/// At those two what was written is a front of the text, where the history is legal.
pub fn wrote_all()
    ensures whole { WroteAll }
    ensures front { WroteFront }
{}

/// Where no read and no write failed and the hall gives turns, a session behind whose requests no byte is left, or
/// none that is looked at, ends `Closed`, `Stopped` or `Spent`, or there was no memory.
pub fn completes()
    ensures law { Completes }
{}

/// Of a subscription that was stopped the bytes are its head and a chunked body, and the body's data is a stream of
/// what is sent up to the last mark. The head and the pieces of the body are told one by one, and the updates in
/// them.
pub fn subscription_is_a_stream()
    ensures pieces { PiecesSpell }
    ensures updates { PiecesSend }
    ensures stream { WatchIsStream }
{}
