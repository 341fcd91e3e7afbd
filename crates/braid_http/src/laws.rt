//! Laws of the definitions, each the contract of a function that does nothing.

ghost use Rattle.braid_http.specs.Bodies.{OneChunked, HasOneState};
ghost use Rattle.braid_http.specs.Chunks.{OneBody, OneData};
ghost use Rattle.braid_http.specs.Cuts.{OneCut};
ghost use Rattle.braid_http.specs.Requests.{OneAnswer, StaysDecided, FewBytes};
ghost use Rattle.braid_http.specs.Responses.{OneReply, ReplyStaysDecided};
ghost use Rattle.braid_http.specs.WrittenChunks.{WritesChunked};

/// No bytes that decide an answer begin others that do, and they decide one.
pub fn one_answer()
    ensures law { OneAnswer }
{}

/// What is decided stays decided, whatever bytes follow.
pub fn stays_decided()
    ensures law { StaysDecided }
{}

/// At most 543,200,000 bytes belong to a request, or stand up to the byte that shows its refusal.
pub fn few_bytes()
    ensures law { FewBytes }
{}

/// The bytes of a connection are cut into requests in one way.
pub fn one_cut()
    ensures law { OneCut }
{}

/// No bytes that decide a chunked body begin others that decide one, and they decide it in one way.
pub fn one_body()
    ensures law { OneBody }
{}

/// Chunked bytes have one data.
pub fn one_data()
    ensures law { OneData }
{}

/// No bytes that decide a reply begin others that do, and they decide one answer.
pub fn one_reply()
    ensures law { OneReply }
{}

/// What is decided of a reply stays decided, whatever bytes follow.
pub fn reply_stays_decided()
    ensures law { ReplyStaysDecided }
{}

/// No chunked body begins another one, and one has one data.
pub fn one_chunked()
    ensures law { OneChunked }
{}

/// Bytes are not both a whole chunked body and against one, and what has come of one in part is neither, nor begins with
/// either.
pub fn one_state()
    ensures law { HasOneState }
{}

/// Chunks as a server writes them (the size in lower-case hexadecimal without leading zeros, CRLF, the data, CRLF), and
/// then the last one, are a chunked body of the joined data.
pub fn writes_chunked()
    ensures law { WritesChunked }
{}
