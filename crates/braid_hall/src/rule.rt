//! The rule that the words, the slot and all views of a hall keep, and what each step tells its pass.

ghost use Rattle.std.specs.Prelude.{ℕ, Option};

use crate::annals::Annals;
use crate::view::View;
use atomic_table::{Join, Play, Split, TableRule};
use std::marker::PhantomData;
use std::snapshot::Snapshot;

/// What the rule reads of an opening: the ticket, and the book as it was.
#[derive(Drop)]
pub struct Opening<B> {
    pub ticket: u64,
    pub book: Snapshot<B>,
}

/// The rule of a hall round a `B`.
pub struct TurnRule<B> {
    book: PhantomData<B>,
}

impl<B: Annals> TableRule<Option<B>, View<B::Entry>, Opening<B>> for TurnRule<B> {
    ghost use Rattle.braid_hall.specs.Turns.{IsKept};
    ghost use Rattle.braid_hall.specs.Views.{first_view};

    ghost holds = { λ key. IsKept B.entries B.by key.ticket (B.entries key.book.value) };

    ghost first = { λ key. first_view key.ticket (B.entries key.book.value) };
}

/// A load of the next ticket.
pub(crate) struct Look;

impl<B: Annals> Play<Option<B>, View<B::Entry>> for Look {
    ghost use Rattle.braid_hall.specs.Steps.{looked};

    ghost then = { looked };
}

/// A fetch-and-add on the next ticket.
pub(crate) struct Draw;

impl<B: Annals> Play<Option<B>, View<B::Entry>> for Draw {
    ghost use Rattle.braid_hall.specs.Steps.{drew};

    ghost then = { drew };
}

/// A load of the ticket that is served.
pub(crate) struct Find;

impl<B: Annals> Play<Option<B>, View<B::Entry>> for Find {
    ghost use Rattle.braid_hall.specs.Steps.{found};

    ghost then = { found B.entries B.by };
}

/// A fetch-and-add on the ticket that is served.
pub(crate) struct Leave;

impl<B: Annals> Play<Option<B>, View<B::Entry>> for Leave {
    ghost use Rattle.braid_hall.specs.Steps.{left};

    ghost then = { left B.entries };
}

/// A load that changes no part of the view.
pub(crate) struct Compare;

impl<B: Annals> Play<Option<B>, View<B::Entry>> for Compare {
    ghost use Rattle.braid_hall.specs.Steps.{compared};

    ghost then = { compared };
}

/// How a view is cut in two.
pub(crate) struct Part;

impl<E> Split<View<E>> for Part {
    ghost use Rattle.braid_hall.specs.Views.{after_split, new_view};

    ghost left = { after_split };

    ghost right = { new_view };
}

/// How two views are made one.
pub(crate) struct Merge;

impl<E> Join<View<E>> for Merge {
    ghost use Rattle.braid_hall.specs.Views.{after_join, spent_view};

    ghost both = { after_join };

    ghost spent = { spent_view };
}
