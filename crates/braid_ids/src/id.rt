ghost use Rattle.std.specs.Prelude.{◌≡◌, IfOk, IfErr};
ghost use Rattle.std.specs.Ordering.{nat_cmp};
ghost use Rattle.std.specs.Cmp.Lexicographic.{slice_cmp};
ghost use Rattle.braid_ids.specs.Identifiers.{IsIdentifier, IsIdFault, spelled_id};

use crate::bytes::Bytes;
use crate::id_bytes::IdBytes;
use crate::memory::Memory;
use std::alloc::Global;
use std::cmp::Ordering;
use std::hash::{Hash, Hasher};
use std::marker::Model;

const LONGEST: usize = 128;

/// The identifier of a version: 1 to 128 bytes from 0x20 to 0x7E. Identifiers are ordered by their bytes.
///
/// One of at most 22 bytes takes 24 bytes, and none beside them.
#[derive(Debug, Drop)]
pub struct Id {
    bytes: IdBytes,
}

impl Model for Id {
    ghost use Rattle.std.specs.Prelude.{List, ℕ};
    ghost use Rattle.braid_ids.specs.Identifiers.{IsIdentifier};

    ghost Value = { List ℕ };

    ghost view = { λ id. id.bytes };

    ghost invariant = { λ id. IsIdentifier id.bytes };
}

/// Why bytes are no identifier: the first of these that holds, in this order.
#[derive(Clone, Copy, Debug, PartialEq, Eq)]
pub enum IdFault {
    /// There are no bytes.
    Empty,
    /// There are more than 128 bytes: `len` of them.
    TooLong { len: u64 },
    /// The byte at place `at`, counted from 0, is the first outside 0x20 to 0x7E.
    BadByte { at: u64, byte: u8 },
    /// There was no memory for a copy.
    Memory,
}

impl Id {
    /// Reads an identifier from all of the bytes, and keeps a copy of them.
    ///
    /// Errors: the first of `IdFault` that holds of the bytes, or `Memory`. Nothing is kept then.
    pub fn read(alloc: Global, bytes: &[u8]) -> Result<Id, IdFault>
        ensures ok { IfOk result (λ id. (id ≡ bytes.now) × IsIdentifier bytes.now) }
        ensures fault { IfErr result (λ fault. IsIdFault bytes.now fault) }
    {
        if bytes.is_empty() {
            return Err(IdFault::Empty);
        }
        if bytes.len() > LONGEST {
            return Err(IdFault::TooLong {
                len: bytes.len() as u64,
            });
        }
        for (at, byte) in bytes.iter().enumerate() {
            if *byte < 0x20 || *byte > 0x7e {
                return Err(IdFault::BadByte {
                    at: at as u64,
                    byte: *byte,
                });
            }
        }
        match IdBytes::of(alloc, bytes) {
            Ok(bytes) => Ok(Id { bytes }),
            Err(_) => Err(IdFault::Memory),
        }
    }

    /// The identifier of bytes that are known to be one.
    ///
    /// Errors: `Memory` where there was none for a copy.
    pub(crate) fn from_bytes(alloc: Global, bytes: &[u8]) -> Result<Id, Memory>
        requires { IsIdentifier bytes.now }
        ensures value { IfOk result (λ id. id ≡ bytes.now) }
    {
        let bytes = IdBytes::of(alloc, bytes)?;
        Ok(Id { bytes })
    }

    /// The bytes, lent as a slice. It takes no memory.
    pub fn bytes(&self) -> &[u8]
        ensures value { result.now ≡ self.now }
        ensures valid { IsIdentifier self.now }
    {
        self.bytes.get()
    }

    /// The same identifier once more.
    ///
    /// Errors: `Memory` where there was none for the copy.
    pub fn copy(&self, alloc: Global) -> Result<Id, Memory>
        ensures ok { IfOk result (λ id. id ≡ self.now) }
    {
        let bytes = IdBytes::of(alloc, self.bytes.get())?;
        Ok(Id { bytes })
    }

    /// The identifier as a String of a header list (RFC 8941, section 3.3.3): a `"`, its bytes with a `\` before
    /// each `"` and each `\`, and a `"`.
    ///
    /// Errors: `Memory` where there was none for the spelling.
    pub fn spell(&self, alloc: Global) -> Result<Bytes, Memory>
        ensures ok { IfOk result (λ spelling. spelling ≡ spelled_id self.now) }
    {
        let mut spelling = Bytes::of(alloc, b"\"")?;
        for byte in self.bytes() {
            if *byte == b'"' || *byte == b'\\' {
                spelling.push(b"\\")?;
            }
            spelling.push(&[*byte])?;
        }
        spelling.push(b"\"")?;
        Ok(spelling)
    }
}

impl PartialEq for Id {
    ghost use Rattle.std.specs.Prelude.{nat_eq};
    ghost use Rattle.std.specs.Cmp.{partial_equiv_from_equiv};
    ghost use Rattle.std.specs.Cmp.Lexicographic.{pointwise};
    ghost use Rattle.std.proofs.lemmas.Cmp.{nat_list_eq_equiv};

    ghost eq = { pointwise nat_eq };

    ghost laws = { partial_equiv_from_equiv nat_list_eq_equiv };

    fn eq(&self, other: &Id) -> bool {
        self.bytes() == other.bytes()
    }
}

impl Eq for Id {
    ghost use Rattle.std.proofs.lemmas.Cmp.{nat_list_eq_equiv};

    ghost laws = { nat_list_eq_equiv };
}

impl Hash for Id {
    ghost use Rattle.std.proofs.Common.{rules};
    ghost use Rattle.std.specs.Cmp.Rules.{hashing};
    ghost use Rattle.std.specs.Hash as fed;

    ghost hash_input = { fed.slice fed.u8 };

    ghost respects_eq = { Prim.search (hashing, rules) };

    fn hash<H: Hasher>(&self, state: &mut H) {
        self.bytes().hash(state);
    }
}

impl PartialOrd for Id {
    ghost use Rattle.std.proofs.Common.{rules};
    ghost use Rattle.std.specs.Cmp.{partial_order_from_own_ties};
    ghost use Rattle.std.specs.Cmp.Rules.{comparing};
    ghost use Rattle.std.specs.Cmp.Lexicographic.{slice_cmp};
    ghost use Rattle.std.specs.Ordering.{nat_cmp, as_partial_cmp};

    ghost partial_cmp = { as_partial_cmp (slice_cmp nat_cmp) };

    ghost laws = { partial_order_from_own_ties (Prim.search (comparing, rules)) (Prim.search (comparing, rules)) };

    fn partial_cmp(&self, other: &Id) -> Option<Ordering> {
        Some(self.cmp(other))
    }
}

impl Ord for Id {
    ghost use Rattle.std.proofs.Common.{rules};
    ghost use Rattle.std.specs.Cmp.Rules.{comparing};
    ghost use Rattle.std.specs.Cmp.Lexicographic.{slice_cmp};
    ghost use Rattle.std.specs.Ordering.{nat_cmp};
    ghost use Rattle.std.proofs.lemmas.Cmp.{nat_list_cmp_total};

    ghost cmp = { slice_cmp nat_cmp };

    ghost total = { nat_list_cmp_total };

    ghost matches_partial_cmp = { Prim.search (comparing, rules) };

    ghost matches_eq = { Prim.search (comparing, rules) };

    fn cmp(&self, other: &Id) -> Ordering {
        self.bytes().cmp(other.bytes())
    }
}
