use heap_model::{Gate, Memory};
use std::alloc::Global;
use std::sync::atomic::{AtomicU64, Ordering};
use std::thread::yield_now;

/// The most turns of a wait at the gate.
const MOST_TURNS: u32 = 100;

/// A gate of two seats, which notes the order in which they pass. Where it yields a seat lets other threads go on before each command.
/// Before each command whose number is a multiple of `every` it waits a while for the other seat to come to its own.
#[derive(Drop)]
pub(super) struct Together {
    yields: bool,
    every: u32,
    first: AtomicU64,
    second: AtomicU64,
    passed: AtomicU64,
    seats: Vec<AtomicU64>,
}

impl Together {
    /// A gate at which each of two seats passes so often.
    pub fn new(
        alloc: Global,
        yields: bool,
        every: u32,
        commands: usize,
    ) -> Result<Together, Memory> {
        let mut seats = Vec::new(alloc);
        for _ in 0..commands {
            seats.push(AtomicU64::new(0))?;
            seats.push(AtomicU64::new(0))?;
        }
        Ok(Together {
            yields,
            every,
            first: AtomicU64::new(0),
            second: AtomicU64::new(0),
            passed: AtomicU64::new(0),
            seats,
        })
    }

    /// Comes to the command, and waits for the other seat.
    fn meet(&self, seat: u8, n: u32) {
        let (own, other) = match seat {
            0 => (&self.first, &self.second),
            _ => (&self.second, &self.first),
        };
        own.store(u64::from(n) + 1, Ordering::SeqCst);
        if n.checked_rem(self.every) != Some(0) {
            return;
        }
        for _ in 0..MOST_TURNS {
            if other.load(Ordering::SeqCst) > u64::from(n) {
                return;
            }
            yield_now();
        }
    }

    /// The seats in the order in which they have passed, once they pass no more.
    pub fn order(&self, alloc: Global) -> Result<Vec<u8>, Memory> {
        let passed = self.passed.load(Ordering::SeqCst);
        let mut order = Vec::new(alloc);
        for (position, seat) in self.seats.iter().enumerate() {
            if (position as u64) < passed {
                order.push(u8::try_from(seat.load(Ordering::SeqCst)).unwrap_or(u8::MAX))?;
            }
        }
        Ok(order)
    }
}

impl Gate for Together {
    fn pass(&self, seat: u8, n: u32) {
        if self.yields {
            yield_now();
        }
        self.meet(seat, n);
        let position = self.passed.fetch_add(1, Ordering::SeqCst);
        if let Some(passing) = self.seats.get(position as usize) {
            passing.store(u64::from(seat), Ordering::SeqCst);
        }
    }
}
