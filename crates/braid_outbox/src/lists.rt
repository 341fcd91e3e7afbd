ghost use Rattle.std.specs.Prelude.{◌≡◌};

use crate::world::{Answered, Posted, Side};
use std::marker::Model;

/// The sides of a world, in their order.
#[derive(Drop)]
pub struct ListSide {
    items: Vec<Side>,
}

impl Model for ListSide {
    ghost use Rattle.std.specs.Prelude.{List};
    ghost use Rattle.braid_outbox.specs.declared.world.Side.{Side};

    ghost Value = { List Side };

    ghost view = { λ list. list.items.items };
}

impl ListSide {
    /// The list of these sides. It takes no memory.
    pub fn of(items: Vec<Side>) -> ListSide
        ensures value { result ≡ items.items }
    {
        ListSide { items }
    }

    /// The sides, lent as a slice. It takes no memory.
    pub fn get(&self) -> &[Side]
        ensures value { result.now ≡ self.now }
    {
        self.items.as_slice()
    }
}

/// The PUTs ever made, in the order of their making.
#[derive(Drop)]
pub struct ListPosted {
    items: Vec<Posted>,
}

impl Model for ListPosted {
    ghost use Rattle.std.specs.Prelude.{List};
    ghost use Rattle.braid_outbox.specs.declared.world.Posted.{Posted};

    ghost Value = { List Posted };

    ghost view = { λ list. list.items.items };
}

impl ListPosted {
    /// The list of these PUTs. It takes no memory.
    pub fn of(items: Vec<Posted>) -> ListPosted
        ensures value { result ≡ items.items }
    {
        ListPosted { items }
    }

    /// The PUTs, lent as a slice. It takes no memory.
    pub fn get(&self) -> &[Posted]
        ensures value { result.now ≡ self.now }
    {
        self.items.as_slice()
    }
}

/// The replies ever made, in the order of their making.
#[derive(Drop)]
pub struct ListAnswered {
    items: Vec<Answered>,
}

impl Model for ListAnswered {
    ghost use Rattle.std.specs.Prelude.{List};
    ghost use Rattle.braid_outbox.specs.declared.world.Answered.{Answered};

    ghost Value = { List Answered };

    ghost view = { λ list. list.items.items };
}

impl ListAnswered {
    /// The list of these replies. It takes no memory.
    pub fn of(items: Vec<Answered>) -> ListAnswered
        ensures value { result ≡ items.items }
    {
        ListAnswered { items }
    }

    /// The replies, lent as a slice. It takes no memory.
    pub fn get(&self) -> &[Answered]
        ensures value { result.now ≡ self.now }
    {
        self.items.as_slice()
    }
}
