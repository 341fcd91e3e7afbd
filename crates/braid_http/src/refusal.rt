ghost use Rattle.std.specs.Prelude.{◌≡◌};
ghost use Rattle.braid_http.specs.Replies.{refusal_status, refusal_name};

/// Why bytes are no request.
#[derive(Clone, Copy, Debug, PartialEq, Eq)]
pub enum Refusal {
    /// 16,384 bytes have come in which no head ends.
    LongHead,
    /// A head has more than 64 lines between its first line and the empty one.
    ManyFields,
    /// A head is not read.
    BadHead,
    /// The version is HTTP/1.0.
    Version,
    /// There are both `Content-Length` and `Transfer-Encoding`.
    BothLengths,
    /// `Content-Length` stands twice or is not 1 to 15 digits, or `Transfer-Encoding` is not once `chunked`.
    BadLength,
    /// The body passes 2,097,152 bytes.
    TooLong,
    /// A chunk line is too long or not read, CRLF does not follow a chunk's data, or the trailer passes 16,384 bytes.
    BadChunk,
}

impl Refusal {
    /// The status of the reply that says so.
    pub fn status(self) -> u16
        ensures value { result ≡ refusal_status self }
    {
        match self {
            Refusal::LongHead | Refusal::ManyFields => 431,
            Refusal::Version => 505,
            Refusal::TooLong => 413,
            Refusal::BadHead | Refusal::BothLengths | Refusal::BadLength | Refusal::BadChunk => 400,
        }
    }

    /// Its name, as the reply has it.
    pub fn name(self) -> &'static [u8]
        ensures value { result.now ≡ refusal_name self }
    {
        match self {
            Refusal::LongHead => b"LongHead",
            Refusal::ManyFields => b"ManyFields",
            Refusal::BadHead => b"BadHead",
            Refusal::Version => b"Version",
            Refusal::BothLengths => b"BothLengths",
            Refusal::BadLength => b"BadLength",
            Refusal::TooLong => b"TooLong",
            Refusal::BadChunk => b"BadChunk",
        }
    }
}
