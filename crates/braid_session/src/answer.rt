//! What the book answers to a wish: asked in a turn, and told behind it.

ghost use Rattle.std.specs.Prelude.{◌≡◌, ◌≤◌, length, Some, IfOk};
ghost use Rattle.braid_session.specs.Steps.{IsAtOnce};
ghost use Rattle.braid_session.specs.Telling.{AsksFor, Tells, told_reply};

use crate::replies::{fault_reply, put_reply};
use crate::wish::Wish;
use braid_change::Update;
use braid_http::Reply;
use braid_ids::{Bytes, Frontier, Id, Memory};
use braid_store::{Book, GetFault, Got, Put};
use std::alloc::Global;

/// What the book is asked, with what the reply will name.
#[derive(Drop)]
pub enum Question {
    /// For the text at a version, or at the path's own frontier.
    Read { at: Option<Frontier> },
    /// To take an update, which has this identifier.
    Store { id: Id, update: Update },
}

/// What the book answered, with what the reply names.
#[derive(Drop)]
pub enum Told {
    /// This was read.
    Found(Got),
    /// Nothing was read.
    NotFound(GetFault),
    /// This became of the update with an identifier.
    Answered { id: Id, put: Put },
}

/// What the book is to be asked for a wish that is not a subscription.
pub(crate) fn question_of(alloc: Global, wish: Wish) -> Result<Question, Memory>
    requires at_once { IsAtOnce wish }
    ensures ok { IfOk result (λ question. AsksFor question wish) }
{
    match wish {
        Wish::Read { at } => Ok(Question::Read { at }),
        Wish::Watch { .. } => unreachable!(),
        Wish::Store { update } => {
            let id = update.id().copy(alloc)?;
            Ok(Question::Store { id, update })
        }
    }
}

/// Asks the book, in a turn.
pub(crate) fn ask(alloc: Global, book: &mut Book, by: u32, path: &Bytes, question: Question) -> Told
    requires short { length path.now ≤ 1024 }
    ensures told { Tells book.old by path.now question result book.new }
{
    match question {
        Question::Read { at } => match book.get(alloc, path, at.as_ref()) {
            Ok(got) => Told::Found(got),
            Err(fault) => Told::NotFound(fault),
        },
        Question::Store { id, update } => {
            let put = book.put(alloc, path, by, update);
            Told::Answered { id, put }
        }
    }
}

/// The reply to what the book answered.
pub(crate) fn reply_to(alloc: Global, told: Told) -> Result<Reply, Memory>
    ensures ok { IfOk result (λ reply. told_reply told ≡ Some reply) }
{
    match told {
        Told::Found(Got { version, text }) => Ok(Reply::Text { version, text }),
        Told::NotFound(fault) => fault_reply(alloc, fault),
        Told::Answered { id, put } => put_reply(alloc, id, put),
    }
}
