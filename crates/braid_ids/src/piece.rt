//! Rising ranges of numbers that do not touch: one more among them, and a look for a number.

ghost use Rattle.std.specs.Prelude.{◌≡◌, ℕ, ◌<◌, ◌≤◌, ◌↔◌, length, slice_index_or, IfOk, OnOk, OnErr, IsTrue};
ghost use Rattle.braid_ids.specs.declared.piece.Piece.{Piece};
ghost use Rattle.braid_ids.specs.Pieces.{IsIn, ArePieces, BeginsBeforeLast, AreAll, KeepPieces, merged, with_piece};

use crate::memory::Memory;
use std::alloc::Global;

/// A range of numbers: from `from` up to and without `to`.
#[derive(Clone, Copy, Debug)]
pub struct Piece {
    pub from: u32,
    pub to: u32,
}

/// The one range of two that overlap or touch.
fn merge(one: Piece, other: Piece) -> Piece
    ensures value { result ≡ merged one other }
{
    Piece {
        from: one.from.min(other.from),
        to: one.to.max(other.to),
    }
}

/// Whether the range begins before the last of rising ones.
pub fn begins_before_last(pieces: &[Piece], piece: Piece) -> bool
    ensures before { IsTrue result ↔ BeginsBeforeLast pieces.now piece }
{
    match pieces.last() {
        Some(last) => piece.from < last.from,
        None => false,
    }
}

/// Puts in a range that begins no earlier than the last of rising ones. It takes constant time.
///
/// Errors: `Memory` where there was none to grow; the ranges are then unchanged.
pub fn add_last(pieces: &mut Vec<Piece>, piece: Piece) -> Result<(), Memory>
    requires rise { ArePieces 0 pieces.old.items }
    requires some { piece.from < piece.to }
    requires last { ¬ (BeginsBeforeLast pieces.old.items piece) }
    ensures ok { OnOk result (pieces.new.items ≡ with_piece piece pieces.old.items) }
    ensures err { OnErr result (pieces.new.items ≡ pieces.old.items) }
{
    let Some(last) = pieces.last() else {
        pieces.push(piece)?;
        return Ok(());
    };
    if last.to < piece.from {
        pieces.push(piece)?;
        return Ok(());
    }
    let last = merge(piece, *last);
    let at = pieces.len() - 1;
    pieces[at] = last;
    Ok(())
}

/// Rising ranges with one more. It takes time linear in the ranges.
///
/// Errors: `Memory` where there was none for the ranges.
pub fn add_among(alloc: Global, pieces: &[Piece], piece: Piece) -> Result<Vec<Piece>, Memory>
    ensures ok { IfOk result (λ all. all.items ≡ with_piece piece pieces.now) }
{
    let mut all = Vec::new(alloc);
    let mut rest = piece;
    for p in pieces {
        if p.to < rest.from {
            all.push(*p)?;
        } else if rest.to < p.from {
            all.push(rest)?;
            rest = *p;
        } else {
            rest = merge(rest, *p);
        }
    }
    all.push(rest)?;
    Ok(all)
}

/// Whether a number is in one of rising ranges: where it is looked for first, in the first one or before it, near where it
/// is looked for first, or else by bisection.
pub fn is_in(pieces: &[Piece], n: u32, rate: u64) -> bool
    requires rise { ArePieces 0 pieces.now }
    ensures is_in { IsTrue result ↔ IsIn pieces.now n }
{
    let near = guess(n, rate);
    if has_at(pieces, near, n) {
        return true;
    }
    let at = ended_by(pieces, n, near);
    match pieces.get(at) {
        Some(p) => p.from <= n,
        None => false,
    }
}

/// Whether range number `at`, if there is one, has a number.
fn has_at(pieces: &[Piece], at: usize, n: u32) -> bool
    ensures has { IsTrue result → IsIn pieces.now n }
{
    match pieces.get(at) {
        Some(p) => p.from <= n && n < p.to,
        None => false,
    }
}

/// How many of rising ranges end at a number or below it: a look for it begins at `near`.
fn ended_by(pieces: &[Piece], n: u32, near: usize) -> usize
    requires rise { ArePieces 0 pieces.now }
    ensures before { (k : ℕ) (d : Piece) → k < result → k < length pieces.now → (slice_index_or pieces.now k d).to ≤ n }
    ensures behind { (d : Piece) → result < length pieces.now → n < (slice_index_or pieces.now result d).to }
{
    if is_end(pieces, 0, n) {
        return 0;
    }
    if is_end(pieces, near, n) {
        return near;
    }
    if is_end(pieces, near.saturating_add(1), n) {
        return near.saturating_add(1);
    }
    let at = pieces.partition_point(|p| p.to <= n);
    at
}

/// Where to look for a number first: as far on among the ranges as it is among all numbers. Nothing rests on it.
fn guess(n: u32, rate: u64) -> usize {
    ((n as u64).wrapping_mul(rate) >> 32) as usize
}

/// How many ranges there are for each number, times 2^32: measured anew where their count is a power of two, and else as it
/// was, so that no look and hardly any range divides.
pub fn rate_of(pieces: &[Piece], rate: u64) -> u64 {
    let count = pieces.len() as u64;
    if count & count.wrapping_sub(1) != 0 {
        return rate;
    }
    match pieces.last() {
        Some(last) => count.wrapping_mul(4_294_967_296) / (last.to as u64).max(1),
        None => 0,
    }
}

/// Whether the first `at` of rising ranges are those that end at a number or below it.
fn is_end(pieces: &[Piece], at: usize, n: u32) -> bool
    requires rise { ArePieces 0 pieces.now }
    ensures before { IsTrue result → (k : ℕ) (d : Piece) → k < at → k < length pieces.now
        → (slice_index_or pieces.now k d).to ≤ n }
    ensures behind { IsTrue result → (d : Piece) → at < length pieces.now → n < (slice_index_or pieces.now at d).to }
{
    have_ended(pieces, at, n) && goes_on(pieces, at, n)
}

/// Whether the first `at` of rising ranges end at a number or below it.
fn have_ended(pieces: &[Piece], at: usize, n: u32) -> bool
    requires rise { ArePieces 0 pieces.now }
    ensures ended { IsTrue result → (k : ℕ) (d : Piece) → k < at → k < length pieces.now
        → (slice_index_or pieces.now k d).to ≤ n }
{
    if at == 0 {
        return true;
    }
    match pieces.get(at - 1) {
        Some(last) => last.to <= n,
        None => false,
    }
}

/// Whether range number `at`, if there is one, ends above a number.
fn goes_on(pieces: &[Piece], at: usize, n: u32) -> bool
    ensures above { IsTrue result → (d : Piece) → at < length pieces.now → n < (slice_index_or pieces.now at d).to }
{
    match pieces.get(at) {
        Some(next) => n < next.to,
        None => true,
    }
}

/// Whether rising ranges are all numbers below the size.
pub fn is_all(pieces: &[Piece], size: u32) -> bool
    requires keep { KeepPieces size pieces.now }
    ensures all { IsTrue result ↔ AreAll size pieces.now }
{
    let Some(first) = pieces.first() else {
        return size == 0;
    };
    first.from == 0 && first.to == size
}
