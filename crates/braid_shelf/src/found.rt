ghost use Rattle.std.specs.Prelude.{◌≡◌, [], None, OnOk};
ghost use Rattle.braid_shelf.specs.Reading.{with_member, no_members};

use crate::member::Member;
use braid_ids::Memory;
use std::alloc::Global;
use std::marker::Model;

/// Members that were read, and how many bytes were left at the first of them that is no String alone.
#[derive(Debug, Drop)]
pub(crate) struct Found {
    members: Vec<Member>,
    other: Option<usize>,
}

impl Model for Found {
    ghost use Rattle.braid_shelf.specs.Reading.{Found};

    ghost Value = { Found };

    ghost view = { λ found. record { members = found.members.items; other = found.other } };
}

impl Found {
    /// No members. It takes no memory.
    pub(crate) fn new(alloc: Global) -> Found
        ensures none { result ≡ no_members }
    {
        Found {
            members: Vec::new(alloc),
            other: None,
        }
    }

    /// Puts a member at the end, at whose first byte so many bytes were left.
    ///
    /// Errors: `Memory` where there was none to grow; the member is then dropped.
    pub(crate) fn put(&mut self, left: usize, member: Member) -> Result<(), Memory>
        ensures ok { OnOk result (self.new ≡ with_member self.old left member) }
    {
        if self.other.is_none() && !member.is_string() {
            self.other = Some(left);
        }
        self.members.push(member)?;
        Ok(())
    }

    /// How many bytes were left at the first member that is no String alone.
    pub(crate) fn other(&self) -> Option<usize>
        ensures value { result ≡ self.now.other }
    {
        self.other
    }

    /// The members.
    pub(crate) fn members(self) -> Vec<Member>
        ensures value { result.items ≡ self.members }
    {
        self.members
    }
}
