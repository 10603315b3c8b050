// Numbers that look random and are the same in each run.
ghost use Rattle.std.specs.Prelude.{◌≤◌};

// A linear congruential generator of 64 bits, of which the upper ones are used.
#[derive(Clone, Copy)]
pub struct Generator {
    state: u64,
}

impl Generator {
    // The same seed gives the same numbers.
    pub fn new(seed: u64) -> Generator {
        Generator { state: seed }
    }

    // The next number, below 2 to the 31.
    fn next(&mut self) -> u32 {
        self.state = self
            .state
            .wrapping_mul(6_364_136_223_846_793_005)
            .wrapping_add(1_442_695_040_888_963_407);
        u32::try_from(self.state >> 33).unwrap_or(0)
    }

    // A number below the limit, and 0 where the limit is 0.
    pub fn below(&mut self, limit: u32) -> u32
        ensures { result ≤ limit }
    {
        if limit == 0 { 0 } else { self.next() % limit }
    }

    // The same of an index.
    pub fn index(&mut self, limit: usize) -> usize
        ensures { result ≤ limit }
    {
        usize::min(self.next() as usize % limit.max(1), limit)
    }

    // Whether something comes to pass that does so in `percent` of a hundred cases.
    pub fn chance(&mut self, percent: u32) -> bool {
        self.below(100) < percent
    }
}
