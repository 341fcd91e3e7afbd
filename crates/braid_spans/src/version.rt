ghost use Rattle.std.specs.Prelude.{◌≡◌, ◌<◌, ◌↔◌, length, IsTrue};
ghost use Rattle.std.specs.declared.cmp.Ordering.TheVariants.{Less};
ghost use Rattle.braid_tree.specs.Keys.{key_cmp};
ghost use Rattle.braid_tree.specs.Rows.{key_at};
ghost use Rattle.braid_spans.specs.Kept.{stamps_in};

use braid_ids::Id;
use braid_tree::At;
use std::cmp::Ordering;

/// A version as it is kept.
#[derive(Drop)]
pub struct SpanVersion {
    pub id: Id,
    pub level: u32,
}

/// How the keys of two elements compare: by level, then by the bytes of the identifier, then by ordinal.
pub fn compare_keys(versions: &[SpanVersion], a: At, b: At) -> Ordering
    requires a_known { a.version < length versions.now }
    requires b_known { b.version < length versions.now }
    ensures order { result ≡ key_cmp (key_at (stamps_in versions.now) a) (key_at (stamps_in versions.now) b) }
{
    let x = &versions[a.version as usize];
    let y = &versions[b.version as usize];
    x.level
        .cmp(&y.level)
        .then(x.id.cmp(&y.id))
        .then(a.ordinal.cmp(&b.ordinal))
}

/// Whether the element at `at` has a greater key than the one at `first`.
pub fn has_greater_key(versions: &[SpanVersion], at: At, first: At) -> bool
    requires at_known { at.version < length versions.now }
    requires first_known { first.version < length versions.now }
    ensures greater { IsTrue result
        ↔ (key_cmp (key_at (stamps_in versions.now) first) (key_at (stamps_in versions.now) at) ≡ Less) }
{
    compare_keys(versions, first, at).is_lt()
}
