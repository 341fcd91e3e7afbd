ghost use Rattle.std.specs.Prelude.{◌≡◌, ◌++◌, ◌∷◌, [], List, OnOk, OnErr};
ghost use Rattle.braid_fields.specs.Fields.{Field};
ghost use Rattle.braid_fields.specs.Known.{known};
ghost use Rattle.braid_fields.specs.KnownNames.{with_value};

use crate::known_name::KnownName;
use braid_ids::{Bytes, ListBytes, Memory};
use std::alloc::Global;

/// The values of the known fields, each list in the order of the lines.
#[derive(Debug, Drop)]
pub struct Parts {
    pub version: ListBytes,
    pub parents: ListBytes,
    pub merge_type: ListBytes,
    pub patches: ListBytes,
    pub length: ListBytes,
    pub range: ListBytes,
    pub encoding: ListBytes,
}

/// The known fields of a head, as far as it has come.
#[derive(Debug, Drop)]
pub struct HeadFields {
    pub parts: Parts,
    /// Whether a `Transfer-Encoding` is there, whatever its value.
    pub has_transfer_encoding: bool,
}

/// Puts a copy of the value at the end.
fn push(alloc: Global, values: &mut ListBytes, value: &[u8]) -> Result<(), Memory>
    ensures ok { OnOk result (values.new ≡ values.old ++ value.now ∷ []) }
    ensures err { OnErr result (values.new ≡ values.old) }
{
    let value = Bytes::of(alloc, value)?;
    values.push(value)
}

impl HeadFields {
    /// The head of which no field has come. It takes no memory.
    pub fn new(alloc: Global) -> HeadFields
        ensures none { result ≡ known [] }
    {
        HeadFields {
            parts: Parts {
                version: ListBytes::new(alloc),
                parents: ListBytes::new(alloc),
                merge_type: ListBytes::new(alloc),
                patches: ListBytes::new(alloc),
                length: ListBytes::new(alloc),
                range: ListBytes::new(alloc),
                encoding: ListBytes::new(alloc),
            },
            has_transfer_encoding: false,
        }
    }

    /// Puts a value behind those of its field.
    fn put(&mut self, alloc: Global, name: KnownName, value: &[u8]) -> Result<(), Memory>
        ensures ok { OnOk result (self.new ≡ with_value name value.now self.old) }
        ensures err { OnErr result (self.new ≡ self.old) }
    {
        match name {
            KnownName::Version => push(alloc, &mut self.parts.version, value),
            KnownName::Parents => push(alloc, &mut self.parts.parents, value),
            KnownName::MergeType => push(alloc, &mut self.parts.merge_type, value),
            KnownName::Patches => push(alloc, &mut self.parts.patches, value),
            KnownName::ContentLength => push(alloc, &mut self.parts.length, value),
            KnownName::ContentRange => push(alloc, &mut self.parts.range, value),
            KnownName::ContentEncoding => push(alloc, &mut self.parts.encoding, value),
            KnownName::TransferEncoding => {
                self.has_transfer_encoding = true;
                Ok(())
            }
            KnownName::Other => Ok(()),
        }
    }

    /// Adds the field of the next line. Names are compared without ASCII case, and fields of other names passed over.
    ///
    /// `value` is the field's value without spaces and tabs at both ends, as `read_field` gives it.
    ///
    /// Errors: `Memory` where there was none for the value; the fields are then unchanged.
    pub fn add(&mut self, alloc: Global, name: &[u8], value: &[u8]) -> Result<(), Memory>
        ensures ok { OnOk result ((fs : List Field) → self.old ≡ known fs
            → self.new ≡ known (fs ++ record { name = name.now; value = value.now } ∷ [])) }
        ensures err { OnErr result (self.new ≡ self.old) }
    {
        self.put(alloc, KnownName::of(name), value)
    }
}
