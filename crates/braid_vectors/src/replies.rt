//! The bytes of the replies that hostile requests are answered with.

/// A text that is not there.
pub const ABSENT: &[u8] =
    b"HTTP/1.1 404 Not Found\r\nContent-Type: text/plain; charset=utf-8\r\nContent-Length: 7\r\n\r\nAbsent\n";

/// A method that is not served.
pub const METHOD: &[u8] =
    b"HTTP/1.1 405 Method Not Allowed\r\nAllow: GET, PUT\r\nContent-Type: text/plain; charset=utf-8\r\nContent-Length: 7\r\n\r\nMethod\n";

/// A target that is no path.
pub const PATH: &[u8] =
    b"HTTP/1.1 400 Bad Request\r\nContent-Type: text/plain; charset=utf-8\r\nContent-Length: 5\r\n\r\nPath\n";

/// A PUT without a version.
pub const NO_VERSION: &[u8] =
    b"HTTP/1.1 400 Bad Request\r\nContent-Type: text/plain; charset=utf-8\r\nContent-Length: 10\r\n\r\nNoVersion\n";

/// A head that is none.
pub const BAD_HEAD: &[u8] =
    b"HTTP/1.1 400 Bad Request\r\nContent-Type: text/plain; charset=utf-8\r\nContent-Length: 8\r\nConnection: close\r\n\r\nBadHead\n";

/// A length or an encoding that is none.
pub const BAD_LENGTH: &[u8] =
    b"HTTP/1.1 400 Bad Request\r\nContent-Type: text/plain; charset=utf-8\r\nContent-Length: 10\r\nConnection: close\r\n\r\nBadLength\n";

/// A length and an encoding.
pub const BOTH_LENGTHS: &[u8] =
    b"HTTP/1.1 400 Bad Request\r\nContent-Type: text/plain; charset=utf-8\r\nContent-Length: 12\r\nConnection: close\r\n\r\nBothLengths\n";

/// A chunk or a trailer that is none.
pub const BAD_CHUNK: &[u8] =
    b"HTTP/1.1 400 Bad Request\r\nContent-Type: text/plain; charset=utf-8\r\nContent-Length: 9\r\nConnection: close\r\n\r\nBadChunk\n";

/// A body that is too long.
pub const TOO_LONG: &[u8] =
    b"HTTP/1.1 413 Content Too Large\r\nContent-Type: text/plain; charset=utf-8\r\nContent-Length: 8\r\nConnection: close\r\n\r\nTooLong\n";

/// A version of HTTP that is not served.
pub const VERSION: &[u8] =
    b"HTTP/1.1 505 HTTP Version Not Supported\r\nContent-Type: text/plain; charset=utf-8\r\nContent-Length: 8\r\nConnection: close\r\n\r\nVersion\n";
