ghost use Rattle.std.specs.Prelude.{◌≡◌, IfOk, IfErr};
ghost use Rattle.braid_session.specs.Wishes.{Means, wanted};
ghost use Rattle.braid_session.specs.Judging.{IsNoWish, WantsGet, WantsPut};

use crate::denial::Denial;
use crate::head::{ids_in_use, is_get, is_subscription, judge_any, judge_get};
use crate::parts::parts_of;
use crate::serving::Serving;
use braid_change::Update;
use braid_frame::{PutFault, read_put};
use braid_http::Request;
use braid_ids::{Frontier, Memory};
use std::alloc::{AllocError, AllocFailed, Global};

/// What a request that is not denied wants of the book, on the path that its target is.
#[derive(Drop)]
pub enum Wish {
    /// The text at a version, or at the path's own frontier.
    Read { at: Option<Frontier> },
    /// All updates outside the ancestry of a frontier, those that are there and those to come.
    Watch { from: Frontier },
    /// That an update is taken.
    Store { update: Update },
}

/// Why a request wants nothing of the book.
#[derive(Clone, Copy, Debug, PartialEq, Eq)]
pub enum NoWish {
    /// It is denied.
    Denied(Denial),
    /// There was no memory to read it.
    Memory,
}

impl From<Memory> for NoWish {
    ghost use Rattle.braid_session.specs.declared.wish.NoWish.TheVariants as no;

    ghost from_gives = { λ _ e. e ≡ no.Memory };

    fn from(_memory: Memory) -> NoWish {
        NoWish::Memory
    }
}

impl From<AllocError> for NoWish {
    ghost use Rattle.braid_session.specs.declared.wish.NoWish.TheVariants as no;

    ghost from_gives = { λ _ e. e ≡ no.Memory };

    fn from(_error: AllocError) -> NoWish {
        NoWish::Memory
    }
}

impl<T: Drop> From<AllocFailed<T>> for NoWish {
    ghost use Rattle.braid_session.specs.declared.wish.NoWish.TheVariants as no;

    ghost from_gives = { λ _ e. e ≡ no.Memory };

    fn from(_failed: AllocFailed<T>) -> NoWish {
        NoWish::Memory
    }
}

/// What a request wants of the book, or the first row that denies it.
///
/// Rows on every request come first, then those on a GET, or what the reading of a PUT says.
pub(crate) fn wish_of(alloc: Global, serving: Serving, request: &Request) -> Result<Wish, NoWish>
    ensures ok { IfOk result (λ wish. Means serving request.now (wanted wish)) }
    ensures err { IfErr result (λ no. IsNoWish serving request.now no) }
{
    judge_any(alloc, serving, request)?;
    if is_get(request) {
        judge_get(alloc, serving, request)?;
        wish_of_get(alloc, request)
    } else {
        wish_of_put(alloc, request)
    }
}

/// What a GET that no row before its list denies wants.
fn wish_of_get(alloc: Global, request: &Request) -> Result<Wish, NoWish>
    ensures wants { WantsGet result request.now }
{
    let ids = ids_in_use(alloc, request)?;
    if is_subscription(request) {
        return Ok(Wish::Watch { from: ids });
    }
    let at = if ids.len() == 0 { None } else { Some(ids) };
    Ok(Wish::Read { at })
}

/// What a PUT that no row denies wants.
fn wish_of_put(alloc: Global, request: &Request) -> Result<Wish, NoWish>
    ensures wants { WantsPut result request.now }
{
    let parts = parts_of(alloc, request)?;
    match read_put(alloc, &parts, request.body.get()) {
        Ok(update) => Ok(Wish::Store { update }),
        Err(PutFault::Reason(reason)) => Err(NoWish::Denied(Denial::NoUpdate(reason))),
        Err(PutFault::Short) => Err(NoWish::Denied(Denial::Short)),
        Err(PutFault::Extra) => Err(NoWish::Denied(Denial::Extra)),
        Err(PutFault::Memory) => Err(NoWish::Memory),
    }
}
