ghost use Rattle.std.specs.Prelude.{◌<◌};

/// Numbers that look drawn by chance, and are the same each time from the same start.
#[derive(Drop)]
pub(super) struct Draws {
    state: u64,
}

impl Draws {
    pub fn from(start: u32) -> Draws {
        Draws {
            state: u64::from(start),
        }
    }

    /// A number below this one.
    pub fn below(&mut self, end: usize) -> usize
        requires { 0 < end }
        ensures { result < end }
    {
        self.state = self
            .state
            .wrapping_mul(6_364_136_223_846_793_005)
            .wrapping_add(1_442_695_040_888_963_407);
        (self.state >> 33) as usize % end
    }
}
