//! Many passes at once: split off, joined again, and the close after that.

ghost use Rattle.std.specs.Prelude.{◌≡◌, ℕ, false, [], OnOk, vec_len};
ghost use Rattle.braid_hall.specs.Many.{AreAway, JoinsAll, SplitsAll, IsClosed};

use crate::annals::Annals;
use crate::hall::Hall;
use crate::pass::Pass;
use braid_ids::Memory;
use std::alloc::Global;

/// Splits off `count` passes, with the numbers from 1 on, from a pass that has split off none, into an empty list.
///
/// Errors: `Memory` where there was none. The passes made until then are in the list.
pub fn split_all<B: Annals>(
    hall: &Hall<B>,
    alloc: Global,
    root: &mut Pass<B>,
    passes: &mut Vec<Pass<B>>,
    count: u32,
) -> Result<(), Memory>
    requires hall { root.old.hall ≡ hall.now }
    requires first { root.old.number ≡ 0 }
    requires none_made { (root.old.made ≡ 0) × (root.old.away ≡ []) }
    requires idle { root.old.held ≡ false }
    requires empty { passes.old.items ≡ [] }
    ensures made { SplitsAll hall.now root.old (vec_len passes.new) root.new passes.new.items }
    ensures ok { OnOk result (vec_len passes.new ≡ count) }
{
    for _ in 0..count {
        passes.reserve(1)?;
        let pass = hall.split(alloc, root)?;
        let kept = passes.push(pass);
        prove!(kept.is_ok());
    }
    Ok(())
}

/// Joins all passes that are away, the last one first. It takes no memory.
pub fn join_all<B: Annals>(hall: &Hall<B>, root: &mut Pass<B>, mut passes: Vec<Pass<B>>)
    requires away { AreAway hall.now root.old passes.items }
    ensures joins_all { JoinsAll root.old passes.items root.new }
    ensures none_away { root.new.away ≡ [] }
{
    while let Some(pass) = passes.pop() {
        hall.join(root, pass);
    }
}

/// Joins all passes that are away, and closes the hall. It takes no memory.
pub fn close_all<B: Annals>(hall: Hall<B>, mut root: Pass<B>, passes: Vec<Pass<B>>) -> B
    requires away { AreAway hall root passes.items }
    ensures closed { IsClosed B.by root passes.items (B.entries result) }
{
    join_all(&hall, &mut root, passes);
    hall.close(root)
}
