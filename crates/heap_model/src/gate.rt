/// What each worker of a run passes before each of its commands, while it holds no lock.
pub trait Gate: Sync {
    /// Seat `seat` is about to make its command `n`, counted from 0.
    fn pass(&self, seat: u8, n: u32);
}

/// A gate at which nobody waits.
#[derive(Clone, Copy, Debug)]
pub struct OpenGate;

impl Gate for OpenGate {
    fn pass(&self, _seat: u8, _n: u32) {}
}
