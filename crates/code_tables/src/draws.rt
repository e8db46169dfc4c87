//! A linear congruential generator.

#[derive(Drop)]
pub struct Draws {
    state: u64,
}

impl Draws {
    pub fn new(seed: u64) -> Self {
        Draws { state: seed }
    }

    /// A number below this one, or 0 where there is none.
    pub fn below(&mut self, most: u32) -> u32 {
        self.state = self
            .state
            .wrapping_mul(6_364_136_223_846_793_005)
            .wrapping_add(1_442_695_040_888_963_407);
        ((self.state >> 33) as u32).checked_rem(most).unwrap_or(0)
    }

    /// One of `many` numbers from the least on.
    pub fn at_least(&mut self, least: u32, many: u32) -> u32 {
        least.saturating_add(self.below(many))
    }
}
