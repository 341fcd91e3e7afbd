//! One more deletion of an element.

ghost use Rattle.std.specs.Prelude.{◌≡◌, ℕ, ◌+◌, ◌-◌, ◌<◌, ◌≤◌, ◌^◌, ◌++◌, ◌∷◌, [], List, Some, All, IfSome, IsSomeAnd, IsTrue, length, take, slice_get, slice_set, vec_len, vec_capacity};
ghost use Rattle.braid_tree.specs.Rows.{place};
ghost use Rattle.braid_spans.specs.SeenRuns.{places_from};
ghost use Rattle.braid_spans.specs.Spans.{spelled};
ghost use Rattle.braid_spans.specs.Kept.{IsHeldAt, IsSmall, IsNext, IsPassable, AreFitting, MarksOne, MarksEach, AreLinked, reach, chain_at, chains_of, spans_of, linked_to};
ghost use Rattle.braid_spans.specs.declared.run.Run.{Run};
ghost use Rattle.braid_spans.specs.declared.link.Link.{Link};

use crate::editing::{pass_first, set_apart};
use crate::link::Link;
use crate::run::Run;
use crate::runs::Runs;
use braid_tree::At;

/// Whether the element at `at`, the first one of run number `index`, may go over to the run before it once the version
/// `by` deletes it too.
pub fn can_pass(runs: &Runs, links: &[Link], index: usize, at: At, by: u32) -> bool
    requires within { index < length runs.now.list }
    requires small { All IsSmall runs.now.list }
    requires linked { AreLinked links.now }
    requires reached { All (λ (r : Run). reach r.newest ≤ length links.now) runs.now.list }
    ensures can { IsTrue result → IsPassable runs.now.list (chains_of links.now) index at by }
{
    if index == 0 {
        return false;
    }
    let left = runs.get(index - 1);
    let run = runs.get(index);
    run.first == at && left.is_before(&run) && begins_with(links, left.newest, by, run.newest)
}

/// Whether the chain that the first link begins is a version and then the chain that the second link begins.
fn begins_with(links: &[Link], newest: Option<u32>, by: u32, rest: Option<u32>) -> bool
    requires linked { AreLinked links.now }
    requires within { reach newest ≤ length links.now }
    ensures begins { IsTrue result → chain_at (chains_of links.now) newest ≡ by ∷ chain_at (chains_of links.now) rest }
{
    match newest {
        None => false,
        Some(n) => {
            let link = &links[n as usize];
            link.by == by && link.earlier == rest
        }
    }
}

/// Notes that one more version deletes the elements of run number `index`.
pub fn add_link(runs: &mut Runs, links: &mut Vec<Link>, index: usize, by: u32)
    requires some { IsSomeAnd (slice_get runs.old.list index) (λ r. 0 < r.len) }
    requires few { vec_len links.old + 1 < 2 ^ 32 }
    requires roomy { vec_len links.old < vec_capacity links.old }
    ensures link { IsSomeAnd (slice_get runs.old.list index) (λ r. links.new.items
        ≡ links.old.items ++ record { by = by; earlier = r.newest } ∷ []) }
    ensures run { IsSomeAnd (slice_get runs.old.list index) (λ r. runs.new.list
        ≡ slice_set runs.old.list index (linked_to r (vec_len links.old))) }
    ensures in_place { vec_capacity links.new ≡ vec_capacity links.old }
    ensures room { runs.old.room ≤ runs.new.room }
{
    let run = runs.get(index);
    let number = links.len() as u32;
    links.push_reserved(Link {
        by,
        earlier: run.newest,
    });
    runs.set(
        index,
        Run {
            newest: Some(number),
            ..run
        },
    );
}

/// Notes that the version `by` deletes the element at `at` too.
pub fn note_deletion(runs: &mut Runs, links: &mut Vec<Link>, at: At, by: u32)
    requires there { (i : ℕ) × IsHeldAt runs.old.list at i }
    requires small { All IsSmall runs.old.list }
    requires linked { AreLinked links.old.items }
    requires fitting { (versions : ℕ) × (chars : List ℕ)
        × AreFitting versions chars (chains_of links.old.items) runs.old.list }
    requires few { vec_len links.old + 1 < 2 ^ 32 }
    requires links_fit { vec_len links.old < vec_capacity links.old }
    requires roomy { 1 < runs.old.room }
    ensures marked { (versions : ℕ) (chars : List ℕ)
        → AreFitting versions chars (chains_of links.old.items) runs.old.list
        → AreFitting versions chars (chains_of links.new.items) runs.new.list
        × MarksOne (spelled (spans_of chars (chains_of links.old.items) runs.old.list))
        (spelled (spans_of chars (chains_of links.new.items) runs.new.list)) at by }
    ensures linked { AreLinked links.new.items }
    ensures made { (versions : ℕ) → by < versions → All (λ (x : Link). x.by < versions) links.old.items
        → All (λ (x : Link). x.by < versions) links.new.items }
    ensures few { vec_len links.new ≤ vec_len links.old + 1 }
    ensures in_place { vec_capacity links.new ≡ vec_capacity links.old }
    ensures count { length runs.new.list ≤ length runs.old.list + 2 }
    ensures room { runs.old.room ≤ runs.new.room + 2 }
{
    note_deletions(runs, links, at, by, 1);
}

/// Notes that the version `by` deletes the elements from the one at `at` on too, as far as one run has them and at most
/// `most`: how many.
///
/// Where the run before it ends with the element before and is deleted by the same versions and this one, one element
/// goes over to that run. So a version that deletes neighbours one after the other leaves one run of them.
pub fn note_deletions(runs: &mut Runs, links: &mut Vec<Link>, at: At, by: u32, most: u32) -> u32
    requires there { (i : ℕ) × IsHeldAt runs.old.list at i }
    requires small { All IsSmall runs.old.list }
    requires linked { AreLinked links.old.items }
    requires fitting { (versions : ℕ) × (chars : List ℕ)
        × AreFitting versions chars (chains_of links.old.items) runs.old.list }
    requires few { vec_len links.old + 1 < 2 ^ 32 }
    requires links_fit { vec_len links.old < vec_capacity links.old }
    requires some { 0 < most }
    requires roomy { 1 < runs.old.room }
    ensures some { 0 < result }
    ensures most { result ≤ most }
    ensures marked { (versions : ℕ) (chars : List ℕ)
        → AreFitting versions chars (chains_of links.old.items) runs.old.list
        → AreFitting versions chars (chains_of links.new.items) runs.new.list
        × MarksEach (spelled (spans_of chars (chains_of links.old.items) runs.old.list))
        (spelled (spans_of chars (chains_of links.new.items) runs.new.list)) at.version at.ordinal result by }
    ensures linked { AreLinked links.new.items }
    ensures made { (versions : ℕ) → by < versions → All (λ (x : Link). x.by < versions) links.old.items
        → All (λ (x : Link). x.by < versions) links.new.items }
    ensures few { vec_len links.new ≤ vec_len links.old + 1 }
    ensures in_place { vec_capacity links.new ≡ vec_capacity links.old }
    ensures count { length runs.new.list ≤ length runs.old.list + 2 }
    ensures room { runs.old.room ≤ runs.new.room + 2 }
{
    let index = runs.find(at);
    if can_pass(runs, links, index, at, by) {
        pass_first(runs, index);
        return 1;
    }
    let part = set_apart(runs, index, at, most);
    let run = runs.get(part);
    add_link(runs, links, part, by);
    run.len
}

/// Whether a place is that of number `k` from the first on: of one version, with the ordinal that is greater by `k`.
fn is_number(first: At, k: usize, at: At) -> bool
    requires few { k < 2 ^ 32 }
    ensures number { IsTrue result → at ≡ place first.version (first.ordinal + k) }
{
    at.version == first.version && at.ordinal as usize == first.ordinal as usize + k
}

/// How many places at the front are those of neighbours by number: of one version, with ordinals that rise by one.
pub fn neighbours(places: &[At]) -> usize
    requires few { length places.now < 2 ^ 32 }
    ensures some { 0 < length places.now → 0 < result }
    ensures within { result ≤ length places.now }
    ensures rising { IfSome (slice_get places.now 0) (λ first. take result places.now
        ≡ places_from first.version first.ordinal result) }
{
    let Some(first) = places.first() else {
        return 0;
    };
    let first = *first;
    let mut len = 1;
    while len < places.len() && is_number(first, len, places[len]) {
        len += 1;
    }
    len
}
