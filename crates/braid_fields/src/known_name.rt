ghost use Rattle.std.specs.Prelude.{◌≡◌};
ghost use Rattle.std.specs.Str.{str_eq_ignore_ascii_case};
ghost use Rattle.braid_fields.specs.KnownNames.{IsNamed};

/// Whether two names are of one field.
fn is_same(name: &[u8], known: &[u8]) -> bool
    ensures { result ≡ str_eq_ignore_ascii_case name.now known.now }
{
    name.eq_ignore_ascii_case(known)
}

/// The names of fields that a head is looked at for.
#[derive(Clone, Copy, Debug, PartialEq, Eq)]
pub(crate) enum KnownName {
    Version,
    Parents,
    MergeType,
    Patches,
    ContentLength,
    ContentRange,
    ContentEncoding,
    TransferEncoding,
    Other,
}

impl KnownName {
    /// What a name is, whatever the case of its letters.
    pub(crate) fn of(name: &[u8]) -> KnownName
        ensures { IsNamed result name.now }
    {
        if is_same(name, b"Version") {
            return KnownName::Version;
        }
        if is_same(name, b"Parents") {
            return KnownName::Parents;
        }
        if is_same(name, b"Merge-Type") {
            return KnownName::MergeType;
        }
        if is_same(name, b"Patches") {
            return KnownName::Patches;
        }
        if is_same(name, b"Content-Length") {
            return KnownName::ContentLength;
        }
        if is_same(name, b"Content-Range") {
            return KnownName::ContentRange;
        }
        if is_same(name, b"Content-Encoding") {
            return KnownName::ContentEncoding;
        }
        if is_same(name, b"Transfer-Encoding") {
            return KnownName::TransferEncoding;
        }
        KnownName::Other
    }
}
