//! A world of one history and its replicas as plain data, and what may happen in it.

use crate::lists::{ListAnswered, ListPosted, ListSide};
use braid_change::{Change, ListUpdate, Update};
use braid_ids::{Agent, Frontier, Id};

/// The history of one resource, the replicas beside it, and all PUTs and replies ever made.
#[derive(Drop)]
pub struct World {
    pub history: ListUpdate,
    pub sides: ListSide,
    pub puts: ListPosted,
    pub replies: ListAnswered,
}

/// A replica, the copy of it that is kept, and its open subscription, where it has one.
#[derive(Drop)]
pub struct Side {
    pub agent: Agent,
    pub confirmed: ListUpdate,
    pub unsent: ListUpdate,
    pub kept_confirmed: ListUpdate,
    pub kept_unsent: ListUpdate,
    pub reading: Option<Reading>,
}

/// An open subscription: the frontier that it was opened from, and how many updates it has carried.
#[derive(Drop)]
pub struct Reading {
    pub from: Frontier,
    pub position: u64,
}

/// A PUT: the number of the side that made it, and its update.
#[derive(Drop)]
pub struct Posted {
    pub by: u32,
    pub update: Update,
}

/// A reply to a PUT: the number of the side that made the PUT, the update's identifier, and the status.
#[derive(Drop)]
pub struct Answered {
    pub by: u32,
    pub id: Id,
    pub status: u16,
}

/// What may happen in a world. Sides, PUTs and replies are numbered from 0; with a number that is not there, nothing
/// happens.
#[derive(Drop)]
pub enum Event {
    /// A replica writes a change.
    Write { a: u32, change: Change },
    /// A replica opens its subscription.
    Open { a: u32 },
    /// A subscription carries its next update, and the replica learns it.
    Carry { a: u32 },
    /// A subscription ends.
    Cut { a: u32 },
    /// The kept copy becomes the replica as it is.
    Keep { a: u32 },
    /// The replica becomes its kept copy, and its subscription ends.
    Back { a: u32 },
    /// The replica's first unsent update is made a PUT, where the kept copy holds it.
    Post { a: u32 },
    /// A PUT is put to the history, again or late. Where `full` is true, it is refused for want of room if it is new.
    Land { k: u32, full: bool },
    /// A reply comes back to the side that made the PUT.
    Ack { k: u32 },
    /// An update of another author joins the history, where it may follow.
    Foreign { update: Update },
}
