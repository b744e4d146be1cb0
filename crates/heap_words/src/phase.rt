ghost use Rattle.std.specs.Prelude.{◌≡◌, ◌+◌, ◌-◌, ◌*◌, ◌^◌, ◌<◌};
ghost use Rattle.heap_words.specs.Phase.{phase_number, phase_of};

/// What stands in a seat's word once the seat has left: no phase has this number.
pub const LEFT: u64 = u64::MAX;

/// One of the seven phases of a cycle of the collector.
#[derive(Clone, Copy, Debug, PartialEq, Eq)]
pub struct Phase {
    /// How many cycles were over before it.
    pub cycle: u64,
    /// Which of the seven of its cycle it is: below 7.
    pub k: u8,
}

impl Phase {
    /// The phase's number: how many come before it.
    pub fn pack(&self) -> u64
        requires in_cycle { self.now.k < 7 }
        requires fits { 7 * self.now.cycle + self.now.k < 2 ^ 64 - 1 }
        ensures { result ≡ phase_number self.now }
    {
        7 * self.cycle + u64::from(self.k)
    }

    /// The phase with this number.
    pub fn read(number: u64) -> Phase
        ensures { result ≡ phase_of number }
    {
        Phase {
            cycle: number / 7,
            k: (number % 7) as u8,
        }
    }
}
