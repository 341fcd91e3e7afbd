ghost use Rattle.std.specs.Prelude.{◌<◌};

use super::*;
use braid_ids::{Frontier, Id, Marks, Unknown};
use std::alloc::Global;

/// Twelve versions in an order of arrival, a line each: name, level, own ancestry (a digit for each version), and behind
/// the bar the parents.
/// Levels and ancestries were computed by python3 from names and parents.
const VERSIONS: &str = "\
h-1 1 100000000000|
l-1 2 110000000000|h-1
d-1 1 001000000000|
k-1 1 000100000000|
i-1 2 100110000000|h-1 k-1
e-1 2 100001000000|h-1
j-1 2 100100100000|h-1 k-1
b-1 3 110000010000|h-1 l-1
a-1 3 100110101000|h-1 i-1 j-1
g-1 2 100100000100|h-1 k-1
c-1 1 000000000010|
f-1 3 101110000001|d-1 i-1
";

/// The same versions in another order of arrival.
const REORDERED: &str = "\
c-1 1 100000000000|
k-1 1 010000000000|
d-1 1 001000000000|
h-1 1 000100000000|
g-1 2 010110000000|h-1 k-1
j-1 2 010101000000|h-1 k-1
e-1 2 000100100000|h-1
i-1 2 010100010000|h-1 k-1
f-1 3 011100011000|d-1 i-1
a-1 3 010101010100|h-1 i-1 j-1
l-1 2 000100000010|h-1
b-1 3 000100000011|h-1 l-1
";

/// The frontier of these names.
fn frontier_of(alloc: Global, names: &str) -> Option<Frontier> {
    let mut ids = Vec::new(alloc);
    for name in names.split_whitespace() {
        ids.push(Id::read(alloc, name.as_bytes()).ok()?).ok()?;
    }
    if ids.len() > 100 {
        return None;
    }
    Frontier::of(ids).ok()
}

/// Adds an entry, where the graph allows it.
fn add(graph: &mut Graph, id: Id, parents: Frontier) -> Option<u32> {
    if graph.index_of(&id).is_some() {
        return None;
    }
    if graph.least_unheld(&parents).is_some() {
        return None;
    }
    if graph.at(524_287).is_some() {
        return None;
    }
    graph.add(id, parents).ok()
}

/// Adds an entry of this name and these parents, and answers its number.
fn put(alloc: Global, graph: &mut Graph, name: &str, parents: &str) -> Option<u32> {
    let id = Id::read(alloc, name.as_bytes()).ok()?;
    let parents = frontier_of(alloc, parents)?;
    add(graph, id, parents)
}

/// The four parts of a line.
fn parts(line: &str) -> Option<(&str, &str, &str, &str)> {
    let (front, parents) = line.split_once('|')?;
    let (name, rest) = front.split_once(' ')?;
    let (level, digits) = rest.split_once(' ')?;
    Some((name, level, digits, parents))
}

/// The name and the parents of a line, which has four parts or these two alone.
fn name_and_parents(line: &str) -> Option<(&str, &str)> {
    let (front, parents) = line.split_once('|')?;
    match front.split_once(' ') {
        Some((name, _)) => Some((name, parents)),
        None => Some((front, parents)),
    }
}

/// The graph of these lines.
fn graph_of(alloc: Global, lines: &str) -> Option<Graph> {
    let mut graph = Graph::new(alloc);
    for line in lines.lines() {
        let (name, parents) = name_and_parents(line)?;
        put(alloc, &mut graph, name, parents)?;
    }
    Some(graph)
}

/// The level of a version.
fn level_of(alloc: Global, graph: &Graph, name: &str) -> Option<u32> {
    let id = Id::read(alloc, name.as_bytes()).ok()?;
    let n = graph.index_of(&id)?;
    Some(graph.level(n))
}

/// The ancestry of these names.
fn ancestry_of(alloc: Global, graph: &Graph, names: &str) -> Option<Marks> {
    let of = frontier_of(alloc, names)?;
    graph.ancestry(alloc, &of).ok()
}

/// Whether exactly these numbers are marked, one digit for each entry.
fn are_marked(marks: &Marks, digits: &str) -> bool {
    if marks.size() as usize != digits.len() {
        return false;
    }
    for (n, digit) in digits.as_bytes().iter().enumerate() {
        if marks.has(n as u32) != (*digit == b'1') {
            return false;
        }
    }
    true
}

/// Whether an ancestry has exactly these numbers.
fn is_ancestry(alloc: Global, graph: &Graph, of: &str, digits: &str) -> bool {
    match ancestry_of(alloc, graph, of) {
        Some(marks) => are_marked(&marks, digits),
        None => false,
    }
}

/// Whether two frontiers have the same members.
fn are_same(frontier: &Frontier, other: &Frontier) -> bool {
    for n in 0..other.len() {
        if frontier.get(n) != other.get(n) {
            return false;
        }
    }
    frontier.len() == other.len()
}

/// Whether the graph's frontier has exactly these names.
fn has_frontier(alloc: Global, graph: &Graph, names: &str) -> Option<bool> {
    let frontier = graph.frontier(alloc).ok()?;
    let wanted = frontier_of(alloc, names)?;
    Some(are_same(&frontier, &wanted) && graph.width() == wanted.len())
}

/// Whether the version of a line has its level and its own ancestry.
fn is_line(alloc: Global, graph: &Graph, line: &str) -> Option<bool> {
    let (name, level, digits, _) = parts(line)?;
    let found = level_of(alloc, graph, name)?;
    Some(level.parse::<u32>() == Ok(found) && is_ancestry(alloc, graph, name, digits))
}

/// Whether the versions of all lines have their levels, their ancestries and one frontier.
fn are_lines(alloc: Global, lines: &str) -> Option<bool> {
    let graph = graph_of(alloc, lines)?;
    for line in lines.lines() {
        if is_line(alloc, &graph, line) != Some(true) {
            return None;
        }
    }
    has_frontier(alloc, &graph, "a-1 b-1 c-1 e-1 f-1 g-1")
}

#[test]
fn levels_and_ancestries_are_those_of_any_order(rt: HostRuntime) {
    let found = are_lines(rt.alloc(), VERSIONS);
    let reordered = are_lines(rt.alloc(), REORDERED);
    assert!(rt; found == Some(true) && reordered == Some(true));
}

/// Whether an ancestry is refused, with this identifier as the least that is not known.
fn refuses(alloc: Global, graph: &Graph, of: &Frontier, name: &str) -> bool {
    match graph.ancestry(alloc, of) {
        Err(Unknown::Id { id }) => id.bytes() == name.as_bytes(),
        Ok(_) | Err(Unknown::Memory) => false,
    }
}

/// Whether an identifier is the least that is not known of these.
fn is_least_unknown(alloc: Global, graph: &Graph, of: &str, name: &str) -> Option<bool> {
    let of = frontier_of(alloc, of)?;
    let least = graph.least_unheld(&of)?;
    Some(least.bytes() == name.as_bytes() && refuses(alloc, graph, &of, name))
}

/// Ancestries of no member, of several, and of unknown ones.
fn frontiers_of_twelve(alloc: Global) -> Option<[bool; 3]> {
    let graph = graph_of(alloc, VERSIONS)?;
    let none = is_ancestry(alloc, &graph, "", "000000000000");
    let several = is_ancestry(alloc, &graph, "c-1 l-1 d-1 l-1", "111000000010");
    let unknown = is_least_unknown(alloc, &graph, "y-1 h-1 x-1 x-1", "x-1")?;
    Some([none, several, unknown])
}

#[test]
fn an_ancestry_has_all_members_or_names_the_least_unknown(rt: HostRuntime) {
    let found = frontiers_of_twelve(rt.alloc());
    assert!(rt; found == Some([true, true, true]));
}

/// Whether the entry of this number has this name and so many parents.
fn is_entry(graph: &Graph, n: u32, name: &[u8], count: u32) -> bool {
    match graph.at(n) {
        Some((id, parents)) => id.bytes() == name && parents.len() == count,
        None => false,
    }
}

/// The numbers of a fork, and whether both ends are the frontier.
fn forks(alloc: Global, graph: &mut Graph) -> Option<bool> {
    let none = has_frontier(alloc, graph, "")?;
    let root = put(alloc, graph, "a-1", "")?;
    put(alloc, graph, "b-1", "a-1")?;
    put(alloc, graph, "c-1", "a-1")?;
    Some(none && root == 0 && has_frontier(alloc, graph, "c-1 b-1")?)
}

/// Whether a fork is joined.
fn joins(alloc: Global, graph: &mut Graph) -> Option<bool> {
    let last = put(alloc, graph, "d-1", "c-1 b-1 c-1")?;
    let joined = has_frontier(alloc, graph, "d-1")?;
    Some(last == 3 && joined && is_entry(graph, 3, b"d-1", 2))
}

#[test]
fn a_diamond_joins_its_branches(rt: HostRuntime) {
    let mut graph = Graph::new(rt.alloc());
    let forked = forks(rt.alloc(), &mut graph);
    let joined = joins(rt.alloc(), &mut graph);
    assert!(rt; forked == Some(true) && joined == Some(true));
}

/// Frontiers with their answers, a line each: the upper, the lower, and a yes, a no or the least unknown identifier.
const COVERS: &str = "\
||yes
|h-1|no
h-1||yes
f-1|d-1 h-1 i-1 k-1|yes
f-1|d-1 h-1 j-1|no
f-1 j-1 f-1|d-1 h-1 j-1|yes
b-1|c-1 h-1|no
b-1|h-1 y-1 x-1|x-1
z-1 y-1 b-1|h-1|y-1
z-1|h-1 x-1|x-1
b-0 z-1|h-1 x-1|b-0
";

/// Whether `covers` answers so: a yes, a no, or the identifier that is not known.
fn covers(alloc: Global, graph: &Graph, upper: &str, lower: &str, answer: &str) -> Option<bool> {
    let upper = frontier_of(alloc, upper)?;
    let lower = frontier_of(alloc, lower)?;
    Some(match graph.covers(alloc, &upper, &lower) {
        Ok(true) => answer == "yes",
        Ok(false) => answer == "no",
        Err(Unknown::Id { id }) => id.bytes() == answer.as_bytes(),
        Err(Unknown::Memory) => false,
    })
}

/// Whether a line has its answer.
fn is_covered(alloc: Global, graph: &Graph, line: &str) -> Option<bool> {
    let (upper, rest) = line.split_once('|')?;
    let (lower, answer) = rest.split_once('|')?;
    covers(alloc, graph, upper, lower, answer)
}

/// Whether each line has its answer.
fn are_covered(alloc: Global, lines: &str) -> Option<bool> {
    let graph = graph_of(alloc, VERSIONS)?;
    for line in lines.lines() {
        if is_covered(alloc, &graph, line) != Some(true) {
            return None;
        }
    }
    Some(true)
}

#[test]
fn covers_looks_at_all_members(rt: HostRuntime) {
    assert!(rt; are_covered(rt.alloc(), COVERS) == Some(true));
}

/// Adds a version of this number on the one before it.
fn put_next(alloc: Global, graph: &mut Graph, n: u32) -> Option<u32>
    requires { 0 < n }
{
    let name = format!(in alloc; "{n}").ok()?;
    let parent = format!(in alloc; "{}", n - 1).ok()?;
    put(alloc, graph, name.as_str(), parent.as_str())
}

/// A chain of 100,000 versions, each with the one before it as its parent.
fn put_chain(alloc: Global, graph: &mut Graph) -> Option<u32> {
    let mut last = put(alloc, graph, "0", "")?;
    for n in 1..100_000u32 {
        last = put_next(alloc, graph, n)?;
    }
    Some(last)
}

/// Whether the newest version of the chain has all others in its ancestry, in one range.
fn is_chain(alloc: Global, graph: &Graph) -> Option<bool> {
    let newest = has_frontier(alloc, graph, "99999")?;
    let level = level_of(alloc, graph, "99999")?;
    let marks = ancestry_of(alloc, graph, "99999")?;
    let whole = marks.is_full() && marks.size() == 100_000;
    Some(newest && level == 100_000 && whole && marks.pieces() == 1 && graph.runs() == 1)
}

#[test]
fn a_long_chain_is_walked_to_its_root(rt: HostRuntime) {
    let mut graph = Graph::new(rt.alloc());
    let last = put_chain(rt.alloc(), &mut graph);
    let chain = is_chain(rt.alloc(), &graph);
    assert!(rt; last == Some(99_999) && chain == Some(true));
}

/// Five versions, each on the one before it.
const CHAIN: &str = "a-1|\na-2|a-1\na-3|a-2\na-4|a-3\na-5|a-4";

/// Two writers who do not see one another.
const COMB: &str = "a-1|\nb-1|\na-2|a-1\nb-2|b-1";

/// A fork and its join.
const DIAMOND: &str = "a-1|\nb-1|a-1\nc-1|a-1\nd-1|b-1 c-1";

/// Whether the graph of these lines has this many runs, and the ancestry of a frontier these members in so many ranges.
fn has_ranges(
    alloc: Global,
    lines: &str,
    runs: u32,
    of: &str,
    digits: &str,
    pieces: u32,
) -> Option<bool> {
    let graph = graph_of(alloc, lines)?;
    let marks = ancestry_of(alloc, &graph, of)?;
    Some(graph.runs() == runs && are_marked(&marks, digits) && marks.pieces() == pieces)
}

#[test]
fn an_ancestry_has_a_range_for_each_front_of_runs(rt: HostRuntime) {
    let rows = [
        (CHAIN, 1, "a-5", "11111", 1),
        (CHAIN, 1, "a-3", "11100", 1),
        (CHAIN, 1, "", "00000", 0),
        (COMB, 4, "b-2", "0101", 2),
        (COMB, 4, "a-2 b-1", "1110", 1),
        (COMB, 4, "a-2 b-2", "1111", 1),
        (DIAMOND, 3, "d-1", "1111", 1),
        (DIAMOND, 3, "c-1", "1010", 2),
        (DIAMOND, 3, "b-1", "1100", 1),
    ];
    for (lines, runs, of, digits, pieces) in rows {
        let holds = has_ranges(rt.alloc(), lines, runs, of, digits, pieces);
        assert!(rt; holds == Some(true));
    }
}
