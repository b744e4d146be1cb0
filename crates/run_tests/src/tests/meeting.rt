//! A gate at which two seats meet.

use heap_model::Gate;
use std::sync::atomic::{AtomicU64, Ordering};
use std::thread::yield_now;

/// The most turns of a wait at the gate.
const MOST_TURNS: u64 = 10_000_000;

/// Before its first command each seat waits until another one has come there.
#[derive(Drop)]
pub struct Meeting {
    here: AtomicU64,
    met: AtomicU64,
}

impl Meeting {
    pub fn new() -> Meeting {
        Meeting {
            here: AtomicU64::new(0),
            met: AtomicU64::new(0),
        }
    }

    /// Whether two seats have met.
    pub fn met(&self) -> bool {
        self.met.load(Ordering::SeqCst) == 2
    }
}

impl Gate for Meeting {
    fn pass(&self, _seat: u8, n: u32) {
        if n > 0 {
            return;
        }
        self.here.fetch_add(1, Ordering::SeqCst);
        for turn in 0..MOST_TURNS {
            if self.here.load(Ordering::SeqCst) >= 2 {
                self.met.fetch_add(1, Ordering::SeqCst);
                return;
            }
            if turn % 1000 == 0 {
                yield_now();
            }
        }
    }
}
