// The seven questions that every plant answers, read off its meaning.
ghost use Rattle.std.specs.Prelude.{◌≡◌};
ghost use Rattle.plant.specs.Meaning.{Meaning, Lawful, Smallest};

// The most states and the most promises that a fit plant has.
pub const MAX_STATES: u32 = 1_048_576;

pub const MAX_PROMISES: u32 = 64;

pub trait Plant {
    ghost meaning: { Self → Meaning };

    ghost lawful: { (x : Self) → Lawful (meaning x) };

    fn is_fit(&self) -> bool
        ensures { result ≡ (meaning self.now).fit };

    fn states(&self) -> u32
        ensures { result ≡ (meaning self.now).states };

    fn promises(&self) -> u32
        ensures { result ≡ (meaning self.now).promises };

    fn is_start(&self, s: u32) -> bool
        ensures { result ≡ (meaning self.now).start s };

    // The smallest state at or above t to which s steps.
    fn next_step(&self, s: u32, t: u32) -> Option<u32>
        ensures { Smallest (meaning self.now) s t result };

    fn fulfils(&self, s: u32, k: u32) -> bool
        ensures { result ≡ (meaning self.now).fulfils s k };

    // The mark word of s.
    fn marks(&self, s: u32) -> u32
        ensures { result ≡ (meaning self.now).marks s };
}
