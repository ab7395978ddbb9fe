//! What happens next, by a fixed rule.

/// Numbers that look drawn: the high bits of a linear congruence.
#[derive(Clone, Copy, Drop)]
pub struct Draws {
    last: u64,
}

impl Draws {
    pub fn new() -> Draws {
        Draws { last: 2_026 }
    }

    /// A number below that one, or nothing below zero.
    pub fn below(&mut self, count: usize) -> Option<usize> {
        self.last = self
            .last
            .wrapping_mul(6_364_136_223_846_793_005)
            .wrapping_add(1_442_695_040_888_963_407);
        let high = (self.last >> 33) as usize;
        high.checked_rem(count)
    }
}
