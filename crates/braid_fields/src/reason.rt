ghost use Rattle.std.specs.Prelude.{◌≡◌};
ghost use Rattle.braid_fields.specs.Reasons.{reason_name};

/// What is wrong with a line, a head or a content of an update stream, in the order in which it is looked for.
#[derive(Clone, Copy, Debug, PartialEq, Eq)]
pub enum Reason {
    /// A line of a head is neither a field line nor empty, or no field line follows a status line.
    BadLine,
    /// A status line has another form.
    BadStatus,
    /// The first 16,384 bytes of a head have come without its end.
    HeadTooLong,
    /// The content is encoded: `Transfer-Encoding` is there, or a `Content-Encoding` other than `identity`.
    Encoded,
    /// `Patches`, `Content-Length`, `Content-Range` or `Merge-Type` has two lines.
    RepeatedField,
    /// `Merge-Type` is neither `ti-text` nor `"ti-text"`.
    OtherMergeType,
    /// The joined lines of `Version`, or of `Parents`, are no List of Strings without parameters.
    BadList,
    /// `Version` is absent or the empty List.
    NoVersion,
    /// `Version` has two members or more.
    ManyVersions,
    /// A member of `Version` or `Parents` has 0 or more than 128 bytes.
    BadId,
    /// There are more than 32 different parents.
    TooManyParents,
    /// `Patches` is not one Integer that is not negative.
    BadCount,
    /// There are more than 1,000 patches.
    TooManyPatches,
    /// `Content-Length` is absent where it is used.
    NoLength,
    /// `Content-Length` is not 1 to 15 digits, where it is used.
    BadLength,
    /// The contents of an update are longer than 1,048,576 bytes.
    TooLong,
    /// A patch has no `Content-Range`.
    NoRange,
    /// The unit of a range is not `text`.
    OtherUnit,
    /// A range has another fault of form or number, or stands beside `Patches`.
    BadRange,
    /// The start of a range is above its end.
    Backwards,
    /// The start of a range is below the end of the patch before.
    Overlap,
    /// A content is not UTF-8.
    NotText,
}

impl Reason {
    /// Its name, as it is printed and sent. It takes no memory.
    pub fn name(self) -> &'static str
        ensures value { result.now ≡ reason_name self }
    {
        match self {
            Reason::BadLine => "BadLine",
            Reason::BadStatus => "BadStatus",
            Reason::HeadTooLong => "HeadTooLong",
            Reason::Encoded => "Encoded",
            Reason::RepeatedField => "RepeatedField",
            Reason::OtherMergeType => "OtherMergeType",
            Reason::BadList => "BadList",
            Reason::NoVersion => "NoVersion",
            Reason::ManyVersions => "ManyVersions",
            Reason::BadId => "BadId",
            Reason::TooManyParents => "TooManyParents",
            Reason::BadCount => "BadCount",
            Reason::TooManyPatches => "TooManyPatches",
            Reason::NoLength => "NoLength",
            Reason::BadLength => "BadLength",
            Reason::TooLong => "TooLong",
            Reason::NoRange => "NoRange",
            Reason::OtherUnit => "OtherUnit",
            Reason::BadRange => "BadRange",
            Reason::Backwards => "Backwards",
            Reason::Overlap => "Overlap",
            Reason::NotText => "NotText",
        }
    }
}
