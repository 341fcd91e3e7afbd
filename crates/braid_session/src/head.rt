//! The rows on a request's head, in their order.

ghost use Rattle.std.specs.Prelude.{◌≡◌, ◌≢◌, IfOk};
ghost use Rattle.braid_fields.specs.declared.reason.Reason.TheVariants as reasons;
ghost use Rattle.braid_session.specs.declared.denial.Denial.TheVariants as denials;
ghost use Rattle.braid_session.specs.Orders.{is_get, is_put, names_resource, is_subscription, is_served, is_other_form, list_in_use, rows_of_any, rows_of_form};
ghost use Rattle.braid_session.specs.Judging.{Judges, Lists};

use crate::denial::Denial;
use crate::parts::{has_field, values};
use crate::serving::Serving;
use crate::wish::NoWish;
use braid_fields::{PlanFault, Reason, is_encoded, is_other_merge_type, list_ids};
use braid_http::Request;
use braid_ids::{Frontier, ListBytes, Memory};
use std::alloc::Global;

/// The most bytes of a path.
const MOST_PATH: usize = 1_024;

/// Whether it is a GET.
pub(crate) fn is_get(request: &Request) -> bool
    ensures value { result ≡ is_get request.now }
{
    request.method.as_str() == "GET"
}

/// Whether it is a PUT.
fn is_put(request: &Request) -> bool
    ensures value { result ≡ is_put request.now }
{
    request.method.as_str() == "PUT"
}

/// Whether a GET is a subscription.
pub(crate) fn is_subscription(request: &Request) -> bool
    ensures value { result ≡ is_subscription request.now }
{
    has_field(request, "subscribe")
}

/// Whether a target names a resource.
fn names_resource(target: &[u8]) -> bool
    ensures value { result ≡ names_resource target.now }
{
    match target.first() {
        Some(first) => *first == b'/' && target.len() <= MOST_PATH,
        None => false,
    }
}

/// Whether the method is served.
fn is_served(serving: Serving, request: &Request) -> bool
    ensures value { result ≡ is_served serving request.now }
{
    is_get(request) || (serving.puts && is_put(request))
}

/// Whether a GET has a form that is not served.
fn is_other_form(serving: Serving, request: &Request) -> bool
    ensures value { result ≡ is_other_form serving request.now }
{
    if is_subscription(request) {
        has_field(request, "version") || !serving.subscriptions
    } else {
        has_field(request, "parents")
    }
}

/// The rows on every request.
pub(crate) fn judge_any(alloc: Global, serving: Serving, request: &Request) -> Result<(), NoWish>
    ensures rows { Judges result (rows_of_any serving request.now) }
{
    if !is_served(serving, request) {
        return Err(NoWish::Denied(Denial::Method));
    }
    let encodings = values(alloc, request, "content-encoding")?;
    if is_encoded(&encodings) {
        return Err(NoWish::Denied(Denial::Encoded));
    }
    if !names_resource(request.target.get()) {
        return Err(NoWish::Denied(Denial::Path));
    }
    Ok(())
}

/// The rows on a GET before those on its list.
pub(crate) fn judge_get(alloc: Global, serving: Serving, request: &Request) -> Result<(), NoWish>
    ensures rows { Judges result (rows_of_form serving request.now) }
{
    let types = values(alloc, request, "merge-type")?;
    if types.get().len() > 1 || is_other_merge_type(&types) {
        return Err(NoWish::Denied(Denial::OtherMergeType));
    }
    if is_other_form(serving, request) {
        return Err(NoWish::Denied(Denial::NotServed));
    }
    Ok(())
}

/// The lines of the list that a GET uses.
fn lines_in_use(alloc: Global, request: &Request) -> Result<ListBytes, Memory>
    ensures ok { IfOk result (λ lines. lines ≡ list_in_use request.now) }
{
    if is_subscription(request) {
        values(alloc, request, "parents")
    } else {
        values(alloc, request, "version")
    }
}

/// The identifiers of the list that a GET uses.
pub(crate) fn ids_in_use(alloc: Global, request: &Request) -> Result<Frontier, NoWish>
    ensures list { Lists result (list_in_use request.now) }
{
    let lines = lines_in_use(alloc, request)?;
    match list_ids(alloc, &lines) {
        Ok(ids) => Ok(ids),
        Err(PlanFault::Reason(reason)) => Err(NoWish::Denied(list_denial(reason))),
        Err(PlanFault::Memory) => Err(NoWish::Memory),
    }
}

/// The denial of a list that has a reason against it: it is no list, or a member is no identifier.
fn list_denial(reason: Reason) -> Denial
    ensures no_list { reason ≡ reasons.BadList → result ≡ denials.BadList }
    ensures no_id { reason ≢ reasons.BadList → result ≡ denials.BadId }
{
    match reason {
        Reason::BadList => Denial::BadList,
        _ => Denial::BadId,
    }
}
