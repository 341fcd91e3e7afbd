ghost use Rattle.std.specs.Prelude.{◌≡◌, ◌<◌, ◌++◌, ◌∷◌, ◌↔◌, ◌^◌, [], true, false, length, count_by, slice_set, slice_get, IsTrue, OnOk, OnErr, Some, All};
ghost use Rattle.braid_graph.specs.Inside.{cleared};

use braid_ids::Memory;
use std::alloc::Global;
use std::marker::Model;

/// Which numbers are nobody's parent, one flag a number, and how many there are.
#[derive(Debug, Drop)]
pub struct Heads {
    flags: Vec<bool>,
    count: u32,
}

impl Model for Heads {
    ghost use Rattle.std.specs.Prelude.{◌≡◌, List, Bool, count_by};

    ghost Value = { List Bool };

    ghost view = { λ heads. heads.flags.items };

    ghost invariant = { λ heads. heads.count ≡ count_by (λ flag. flag) heads.flags.items };
}

impl Heads {
    /// No numbers.
    pub fn new(alloc: Global) -> Heads
        ensures none { result ≡ [] }
    {
        Heads {
            flags: Vec::new(alloc),
            count: 0,
        }
    }

    /// Takes the next number, which is nobody's parent.
    ///
    /// Errors: `Memory` where there was none to grow; nothing is changed then.
    pub fn add(&mut self) -> Result<(), Memory>
        requires { length self.old < 2 ^ 31 }
        ensures ok { OnOk result (self.new ≡ self.old ++ true ∷ []) }
        ensures err { OnErr result (self.new ≡ self.old) }
    {
        self.flags.push(true)?;
        self.count += 1;
        Ok(())
    }

    /// Notes that a number is a parent.
    fn clear(&mut self, n: u32)
        requires { n < length self.old }
        ensures cleared { self.new ≡ slice_set self.old n false }
    {
        if self.flags[n as usize] {
            self.flags[n as usize] = false;
            self.count -= 1;
        }
    }

    /// Notes that these numbers are parents.
    pub fn clear_all(&mut self, numbers: &[u32])
        requires within { All (λ n. n < length self.old) numbers.now }
        ensures cleared { self.new ≡ cleared self.old numbers.now }
    {
        for n in numbers {
            self.clear(*n);
        }
    }

    /// Whether a number is nobody's parent.
    pub fn has(&self, n: u32) -> bool
        requires { n < length self.now }
        ensures has { slice_get self.now n ≡ Some result }
    {
        self.flags[n as usize]
    }

    /// How many numbers are nobody's parent.
    pub fn count(&self) -> u32
        ensures count { result ≡ count_by (λ flag. flag) self.now }
    {
        self.count
    }
}
