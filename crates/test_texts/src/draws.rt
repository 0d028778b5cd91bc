//! Numbers that look random, the same ones for the same seed.

/// A xorshift generator.
#[derive(Drop)]
pub struct Draws {
    // not 0
    state: u64,
}

impl Draws {
    /// The numbers of that seed. Those of 0 are those of 1.
    pub fn new(seed: u64) -> Draws {
        Draws { state: seed.max(1) }
    }

    fn next(&mut self) -> u64 {
        let drawn = self.state;
        let drawn = drawn ^ (drawn << 13);
        let drawn = drawn ^ (drawn >> 7);
        let drawn = drawn ^ (drawn << 17);
        self.state = drawn;
        drawn
    }

    /// A number below `end`, and 0 if there is none.
    pub fn below(&mut self, end: u64) -> u64 {
        self.next().checked_rem(end).unwrap_or(0)
    }

    /// A number from the least to the most.
    pub fn between(&mut self, least: u64, most: u64) -> u64 {
        let count = most.saturating_sub(least).saturating_add(1);
        least.saturating_add(self.below(count))
    }

    /// A number from the least to the most, and often one of these or right beside it.
    pub fn within(&mut self, least: u64, most: u64) -> u64 {
        match self.below(6) {
            0 => least,
            1 => least.saturating_add(1),
            2 => most.saturating_sub(1),
            3 => most,
            _ => least.saturating_add(self.below(most.saturating_sub(least))),
        }
    }

    /// Whether it is one time of so many.
    pub fn is_one_in(&mut self, times: u64) -> bool {
        self.below(times) == 0
    }

    /// One of these texts, and the empty one if there is none.
    pub fn one_of(&mut self, texts: &[&'static str]) -> &'static str {
        let place = usize::try_from(self.below(texts.len() as u64)).unwrap_or(0);
        texts.get(place).copied().unwrap_or("")
    }
}
