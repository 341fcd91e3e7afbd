ghost use Rattle.std.specs.Prelude.{◌≡◌, [], IfOk, OnOk};
ghost use Rattle.braid_shelf.specs.Lists.{put};

use crate::item::Item;
use crate::param::{ListParam, Param};
use braid_ids::{Bytes, Memory};
use indexmap::IndexMap;
use std::alloc::Global;
use std::hash::{Hash, Hasher};
use std::marker::Model;

/// The key of a parameter, by which it is found again.
#[derive(Drop)]
struct Key {
    bytes: Bytes,
}

impl Model for Key {
    ghost use Rattle.std.specs.Prelude.{List, ℕ};

    ghost Value = { List ℕ };

    ghost view = { λ key. key.bytes };
}

impl PartialEq for Key {
    ghost use Rattle.std.specs.Prelude.{nat_eq};
    ghost use Rattle.std.specs.Cmp.{partial_equiv_from_equiv};
    ghost use Rattle.std.specs.Cmp.Lexicographic.{pointwise};
    ghost use Rattle.std.proofs.lemmas.Cmp.{nat_list_eq_equiv};

    ghost eq = { pointwise nat_eq };

    ghost laws = { partial_equiv_from_equiv nat_list_eq_equiv };

    fn eq(&self, other: &Key) -> bool {
        self.bytes.get() == other.bytes.get()
    }
}

impl Eq for Key {
    ghost use Rattle.std.proofs.lemmas.Cmp.{nat_list_eq_equiv};

    ghost laws = { nat_list_eq_equiv };
}

impl Hash for Key {
    ghost use Rattle.std.proofs.Common.{rules};
    ghost use Rattle.std.specs.Cmp.Rules.{hashing};
    ghost use Rattle.std.specs.Hash as fed;

    ghost hash_input = { fed.slice fed.u8 };

    ghost respects_eq = { Prim.search (hashing, rules) };

    fn hash<H: Hasher>(&self, state: &mut H) {
        self.bytes.get().hash(state);
    }
}

/// Parameters while they are read. A key that stands there again is found without a look at the others.
#[derive(Drop)]
pub(crate) struct ParamMap {
    params: IndexMap<Key, Item>,
}

impl Model for ParamMap {
    ghost use Rattle.std.specs.Prelude.{List, map};
    ghost use Rattle.braid_shelf.specs.declared.param.Param.{Param};
    ghost use Rattle.braid_shelf.specs.Lists.{param_of};

    ghost Value = { List Param };

    ghost view = { λ params. map param_of params.params.entries };
}

impl ParamMap {
    /// No parameters. It takes no memory.
    pub(crate) fn new(alloc: Global) -> ParamMap
        ensures none { result ≡ [] }
    {
        ParamMap {
            params: IndexMap::new(alloc),
        }
    }

    /// Puts a parameter at the end, or its value in the place of one with the same key.
    ///
    /// Errors: `Memory` where there was none to grow; the parameter is then dropped.
    pub(crate) fn put(&mut self, param: Param) -> Result<(), Memory>
        ensures ok { OnOk result (self.new ≡ put self.old param) }
    {
        let Param { key, value } = param;
        self.params.insert(Key { bytes: key }, value)?;
        Ok(())
    }

    /// The parameters as a list.
    ///
    /// Errors: `Memory` where there was none for the list.
    pub(crate) fn into_list(self, alloc: Global) -> Result<ListParam, Memory>
        ensures ok { IfOk result (λ list. list ≡ self) }
    {
        let mut params = Vec::with_capacity(alloc, self.params.len())?;
        for (key, value) in self.params {
            let Key { bytes } = key;
            params.push(Param { key: bytes, value })?;
        }
        Ok(ListParam::of(params))
    }
}
