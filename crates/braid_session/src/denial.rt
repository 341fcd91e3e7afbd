ghost use Rattle.std.specs.Prelude.{◌≡◌};
ghost use Rattle.braid_session.specs.Denials.{denial_status, denial_name};

use braid_fields::Reason;

/// Why a request is answered without a look at the book.
#[derive(Clone, Copy, Debug, PartialEq, Eq)]
pub enum Denial {
    /// The method is neither GET nor PUT, or it is PUT and none are served.
    Method,
    /// There is a `Content-Encoding` other than `identity`.
    Encoded,
    /// The target does not begin with `/`, or has more than 1,024 bytes.
    Path,
    /// Of a GET: `Merge-Type` stands twice, or is neither `ti-text` nor `"ti-text"`.
    OtherMergeType,
    /// Of a GET: `Subscribe` beside `Version`, `Parents` without `Subscribe`, or a subscription where none are served.
    NotServed,
    /// Of a GET: the list in use is no List of Strings without parameters.
    BadList,
    /// Of a GET: a member of it has 0 or more than 128 bytes.
    BadId,
    /// Of a PUT: the first reason against its fields or a patch of its body.
    NoUpdate(Reason),
    /// Of a PUT: the body ends before the last patch is whole.
    Short,
    /// Of a PUT: a byte that belongs to no gap follows the last patch.
    Extra,
}

impl Denial {
    /// The status of the reply that says so.
    pub fn status(self) -> u16
        ensures value { result ≡ denial_status self }
    {
        match self {
            Denial::Method => 405,
            Denial::NoUpdate(Reason::TooLong | Reason::TooManyPatches) => 413,
            _ => 400,
        }
    }

    /// Its name, as the reply has it.
    pub fn name(self) -> &'static str
        ensures value { result.now ≡ denial_name self }
    {
        match self {
            Denial::Method => "Method",
            Denial::Encoded => "Encoded",
            Denial::Path => "Path",
            Denial::OtherMergeType => "OtherMergeType",
            Denial::NotServed => "NotServed",
            Denial::BadList => "BadList",
            Denial::BadId => "BadId",
            Denial::NoUpdate(reason) => reason.name(),
            Denial::Short => "Short",
            Denial::Extra => "Extra",
        }
    }
}
