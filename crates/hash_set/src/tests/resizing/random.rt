// Random numbers: the same ones from the same seed.
ghost use Rattle.std.specs.Prelude.{◌<◌};

// Where random numbers come from. After G. Steele, D. Lea and C. Flood, "Fast splittable pseudorandom
// number generators" (OOPSLA 2014).
#[derive(Clone, Copy, Debug, PartialEq, Eq)]
pub(super) struct Random {
    state: u64,
}

impl Random {
    pub(super) fn from_seed(seed: u64) -> Self {
        Random { state: seed }
    }

    // Any number.
    fn next(&mut self) -> u64 {
        self.state = self.state.wrapping_add(0x9E37_79B9_7F4A_7C15);
        let state = self.state;
        let mixed = (state ^ (state >> 30)).wrapping_mul(0xBF58_476D_1CE4_E5B9);
        let mixed = (mixed ^ (mixed >> 27)).wrapping_mul(0x94D0_49BB_1331_11EB);
        mixed ^ (mixed >> 31)
    }

    // A number below the limit.
    pub(super) fn below(&mut self, limit: u64) -> u64
        requires { 0 < limit }
        ensures { result < limit }
    {
        self.next() % limit
    }
}
