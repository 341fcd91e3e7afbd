use braid_change::Text;
use braid_ids::Agent;
use braid_sync::Place;

/// What the words of a command ask for, of the state that they name.
#[derive(Drop)]
pub enum Command {
    /// That it is made, of an agent without updates, for a text at a place.
    New { agent: Agent, place: Place },
    /// That the characters from number `start` up to and without number `end` become this text.
    Edit { start: u32, end: u32, text: Text },
    /// That all characters become this text.
    Set { text: Text },
    /// That its replica is printed.
    Show,
    /// That what the server has is learnt, and what is unsent is sent.
    Sync,
    /// That so many updates of the server are learnt as they come, at least 1.
    Follow { count: u32 },
}
