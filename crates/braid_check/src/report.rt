ghost use Rattle.std.specs.Prelude.{◌≡◌, IfOk};
ghost use Rattle.braid_graph.specs.Frontiers.{IsFrontierOf};
ghost use Rattle.braid_text.specs.Histories.{graph_of, text_of};
ghost use Rattle.braid_check.specs.CheckTexts.{text_at_stop, history_text};

use crate::refusal::refusal_report;
use crate::stop::Stop;
use braid_change::Text;
use braid_ids::{Bytes, Frontier, Memory, Unknown};
use braid_lines::{numbered_line, push_content, push_count, push_frontier, stream_line};
use braid_text::Resource;
use std::alloc::Global;

/// What is printed for a resource and why the reading of its stream stopped.
pub fn report(alloc: Global, resource: &Resource, stop: &Stop) -> Result<Bytes, Memory>
    ensures ok { IfOk result (λ text. text ≡ text_at_stop resource.now stop.now) }
{
    match stop {
        Stop::End => history_report(alloc, resource),
        Stop::Torn { at } => numbered_line(alloc, b"Torn at ", *at),
        Stop::Fault(fault) => stream_line(alloc, fault),
        Stop::Refused(answer) => refusal_report(alloc, answer),
        Stop::ReadFault => Bytes::of(alloc, b"fault: ReadFault\n"),
        Stop::Spent => Bytes::of(alloc, b"fault: Spent\n"),
    }
}

/// The lines for a resource: how many versions it has, its frontier, the length of its text, its digest and its text.
fn history_report(alloc: Global, resource: &Resource) -> Result<Bytes, Memory>
    ensures ok { IfOk result (λ text. text ≡ history_text resource.now) }
{
    let frontier = resource.frontier(alloc)?;
    let text = read_text(alloc, resource, &frontier)?;
    let digest = resource.digest(alloc)?;
    let mut out = Bytes::of(alloc, b"")?;
    push_count(&mut out, b"versions: ", resource.entries() as u64)?;
    push_frontier(alloc, &mut out, &frontier)?;
    push_content(alloc, &mut out, &text, &digest)?;
    Ok(out)
}

/// What is read at the frontier of a resource.
fn read_text(alloc: Global, resource: &Resource, frontier: &Frontier) -> Result<Text, Memory>
    requires frontier { IsFrontierOf (graph_of resource.now) frontier.now }
    ensures ok { IfOk result (λ text. text ≡ text_of resource.now) }
{
    match resource.read(alloc, frontier) {
        Ok(text) => Ok(text),
        Err(Unknown::Memory) => Err(Memory),
        Err(Unknown::Id { .. }) => unreachable!(),
    }
}
