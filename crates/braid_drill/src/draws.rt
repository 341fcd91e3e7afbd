ghost use Rattle.std.specs.Prelude.{◌≡◌, ◌<◌, ◌^◌};
ghost use Rattle.braid_drill.specs.Draws.{next_state, drawn};

/// The factor and the summand of one step, after Knuth's MMIX.
const FACTOR: u64 = 6_364_136_223_846_793_005;

const SUMMAND: u64 = 1_442_695_040_888_963_407;

/// What a state is divided by: its low 33 bits are left out.
const DIVISOR: u64 = 8_589_934_592;

/// The numbers of a drill, one after the other. They follow from the seed.
#[derive(Drop)]
pub struct Draws {
    state: u64,
}

impl Draws {
    /// The numbers of a seed.
    pub fn new(seed: u64) -> Draws
        ensures state { result.state ≡ seed }
    {
        Draws { state: seed }
    }

    /// The next number, which is below `below`. That is at least 1.
    pub fn draw(&mut self, below: u64) -> u32
        requires some { 0 < below }
        ensures state { self.new.state ≡ next_state self.old.state }
        ensures number { result ≡ drawn self.new.state below }
        ensures below { result < below }
        ensures short { result < 2 ^ 31 }
    {
        self.state = self.state.wrapping_mul(FACTOR).wrapping_add(SUMMAND);
        (self.state / DIVISOR % below) as u32
    }
}
