ghost use Rattle.std.specs.Prelude.{◌≡◌};

use crate::session::SessionNote;
use std::marker::Model;

/// A list of session notes, in their order.
#[derive(Debug, Drop)]
pub struct ListSessionNote {
    items: Vec<SessionNote>,
}

impl Model for ListSessionNote {
    ghost use Rattle.std.specs.Prelude.{List};
    ghost use Rattle.braid_session.specs.declared.session.SessionNote.{SessionNote};

    ghost Value = { List SessionNote };

    ghost view = { λ list. list.items.items };
}

impl ListSessionNote {
    /// The list of these notes. It takes no memory.
    pub fn of(items: Vec<SessionNote>) -> ListSessionNote
        ensures value { result ≡ items.items }
    {
        ListSessionNote { items }
    }

    /// The notes, lent as a slice. It takes no memory.
    pub fn get(&self) -> &[SessionNote]
        ensures value { result.now ≡ self.now }
    {
        self.items.as_slice()
    }
}
