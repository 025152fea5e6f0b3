//! Numbers that are drawn, equal in each run.

ghost use Rattle.std.specs.Prelude.{◌<◌};

/// A sequence of numbers as Knuth's generator MMIX makes them: 64 bits, each a linear function of
/// the one before. Its high bits are drawn.
#[derive(Drop)]
pub(crate) struct Draws {
    last: u64,
}

impl Draws {
    /// Creates the draws after the number `seed`.
    pub(crate) fn new(seed: u64) -> Self {
        Draws { last: seed }
    }

    /// Returns the next number, below `bound`.
    pub(crate) fn below(&mut self, bound: u8) -> u8
        requires { 0 < bound }
        ensures { result < bound }
    {
        self.last = self
            .last
            .wrapping_mul(6_364_136_223_846_793_005)
            .wrapping_add(1_442_695_040_888_963_407);
        ((self.last >> 33) % u64::from(bound)) as u8
    }
}
