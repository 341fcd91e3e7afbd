ghost use Rattle.std.specs.Prelude.{◌≡◌, ◌↔◌, IsTrue};
ghost use Rattle.std.specs.List.{Contains};
ghost use Rattle.braid_io.specs.Outside.{next_count};

/// The calls made of an object in memory: their number, which of them fail, and how many failed.
#[derive(Drop)]
pub struct Calls {
    fails: Vec<u64>,
    made: u64,
    faults: u64,
}

impl Calls {
    /// None made yet; `fails` has the numbers of those that are to fail, counted from 0.
    pub fn new(fails: Vec<u64>) -> Calls
        ensures value { result ≡ record { fails = fails; made = 0; faults = 0 } }
    {
        Calls {
            fails,
            made: 0,
            faults: 0,
        }
    }

    /// Counts a call, and says whether its number is one of those that are to fail.
    pub fn begin(&mut self) -> bool
        ensures fails { IsTrue result ↔ Contains self.old.fails.items self.old.made }
        ensures counted { self.new ≡ record self.old { made = next_count self.old.made } }
    {
        let call = self.made;
        self.made = call.saturating_add(1);
        self.fails.contains(&call)
    }

    /// Counts a fault.
    pub fn fault(&mut self)
        ensures counted { self.new ≡ record self.old { faults = next_count self.old.faults } }
    {
        self.faults = self.faults.saturating_add(1);
    }

    /// The number of calls made, or 2^64 - 1 where there were more.
    pub fn made(&self) -> u64
        ensures value { result ≡ self.now.made }
    {
        self.made
    }

    /// The number of faults, or 2^64 - 1 where there were more.
    pub fn faults(&self) -> u64
        ensures value { result ≡ self.now.faults }
    {
        self.faults
    }
}
