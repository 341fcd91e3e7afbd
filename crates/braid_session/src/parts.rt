//! The values of a request's fields.

ghost use Rattle.std.specs.Prelude.{◌≡◌, IfOk};
ghost use Rattle.http_header.specs.Token.{lowercase};
ghost use Rattle.braid_session.specs.Orders.{values_of, has_field};
ghost use Rattle.braid_session.specs.Wishes.{parts_of};

use braid_fields::Parts;
use braid_http::Request;
use braid_ids::{Bytes, ListBytes, Memory};
use std::alloc::Global;

/// The values of the lines of a field.
pub(crate) fn values(
    alloc: Global,
    request: &Request,
    name: &'static str,
) -> Result<ListBytes, Memory>
    ensures ok { IfOk result (λ values. values ≡ values_of request.now (lowercase name.now)) }
{
    let mut values = ListBytes::new(alloc);
    for value in request.fields.get_all(name).iter() {
        values.push(Bytes::of(alloc, value.as_bytes())?)?;
    }
    Ok(values)
}

/// Whether there is a line of a field.
pub(crate) fn has_field(request: &Request, name: &'static str) -> bool
    ensures value { result ≡ has_field request.now (lowercase name.now) }
{
    match request.fields.get_all(name).iter().next() {
        Some(_) => true,
        None => false,
    }
}

/// The known fields of a request.
pub(crate) fn parts_of(alloc: Global, request: &Request) -> Result<Parts, Memory>
    ensures ok { IfOk result (λ parts. parts ≡ parts_of request.now) }
{
    Ok(Parts {
        version: values(alloc, request, "version")?,
        parents: values(alloc, request, "parents")?,
        merge_type: values(alloc, request, "merge-type")?,
        patches: values(alloc, request, "patches")?,
        length: values(alloc, request, "content-length")?,
        range: values(alloc, request, "content-range")?,
        encoding: values(alloc, request, "content-encoding")?,
    })
}
