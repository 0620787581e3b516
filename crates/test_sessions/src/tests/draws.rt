//! Numbers that look random, the same in each run.
ghost use Rattle.std.specs.Prelude.{◌<◌};

/// Numbers that look random: a linear congruential generator with Knuth's constants.
#[derive(Drop)]
pub struct Draws {
    seed: u64,
}

impl Draws {
    pub fn new(seed: u64) -> Self {
        Draws { seed }
    }

    /// A number below the bound.
    pub fn below(&mut self, bound: u32) -> u32
        requires { 0 < bound }
        ensures { result < bound }
    {
        self.seed = self
            .seed
            .wrapping_mul(6_364_136_223_846_793_005)
            .wrapping_add(1_442_695_040_888_963_407);
        let draw = self.seed ^ (self.seed >> 32);
        (draw % u64::from(bound)) as u32
    }
}
