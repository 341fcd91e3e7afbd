ghost use Rattle.std.specs.Prelude.{◌≡◌};

use crate::update::Update;
use std::marker::Model;

/// A list of updates, in their order.
#[derive(Drop)]
pub struct ListUpdate {
    items: Vec<Update>,
}

impl Model for ListUpdate {
    ghost use Rattle.std.specs.Prelude.{List};
    ghost use Rattle.braid_change.specs.Updates.{UpdateView};

    ghost Value = { List UpdateView };

    ghost view = { λ list. list.items.items };
}

impl ListUpdate {
    /// The list of these updates. It takes no memory.
    pub fn of(items: Vec<Update>) -> ListUpdate
        ensures value { result ≡ items.items }
    {
        ListUpdate { items }
    }

    /// The updates, lent as a slice. It takes no memory.
    pub fn get(&self) -> &[Update]
        ensures value { result.now ≡ self.now }
    {
        self.items.as_slice()
    }
}
