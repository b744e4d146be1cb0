//! Gates that hold a seat back until another one has come on.

use heap_model::Gate;
use std::sync::atomic::{AtomicU64, Ordering};
use std::thread::yield_now;

/// The most turns of a wait at a gate.
const MOST_TURNS: u64 = 100_000_000;

/// Waits until the number is at least this, and tells whether it came to be. Now and then it lets other threads go on, since on a busy machine they may be behind.
pub fn comes_to(number: &AtomicU64, least: u64) -> bool {
    for turn in 0..MOST_TURNS {
        if number.load(Ordering::SeqCst) >= least {
            return true;
        }
        if turn % 1000 == 0 {
            yield_now();
        }
    }
    false
}

/// How far a seat has come at a gate.
#[derive(Drop)]
pub struct Passes {
    next: AtomicU64,
    astray: AtomicU64,
}

impl Passes {
    pub fn new() -> Passes {
        Passes {
            next: AtomicU64::new(0),
            astray: AtomicU64::new(0),
        }
    }

    /// Notes that the seat came with its command `n`.
    pub fn note(&self, n: u32) {
        if self.next.load(Ordering::SeqCst) != u64::from(n) {
            self.astray.store(1, Ordering::SeqCst);
        }
        self.next.store(u64::from(n) + 1, Ordering::SeqCst);
    }

    /// Whether the seat came with each of so many commands once, in their order.
    pub fn are(&self, commands: u64) -> bool {
        self.next.load(Ordering::SeqCst) == commands && self.astray.load(Ordering::SeqCst) == 0
    }
}

/// One of two seats at a gate.
#[derive(Drop)]
struct Meeting {
    passes: Passes,
    here: AtomicU64,
    met: AtomicU64,
}

impl Meeting {
    fn new() -> Meeting {
        Meeting {
            passes: Passes::new(),
            here: AtomicU64::new(0),
            met: AtomicU64::new(0),
        }
    }

    /// Whether the seat came with each of so many commands once, and met the other one once.
    fn has_met(&self, commands: u64) -> bool {
        self.passes.are(commands) && self.met.load(Ordering::SeqCst) == 1
    }
}

/// Before its second command each of two seats waits until the other one has come there.
#[derive(Drop)]
pub struct TwoAtOnce {
    first: Meeting,
    second: Meeting,
}

impl TwoAtOnce {
    pub fn new() -> TwoAtOnce {
        TwoAtOnce {
            first: Meeting::new(),
            second: Meeting::new(),
        }
    }

    /// Whether each seat came with each of so many commands once, and met the other one once.
    pub fn met(&self, commands: u64) -> bool {
        self.first.has_met(commands) && self.second.has_met(commands)
    }
}

impl Gate for TwoAtOnce {
    fn pass(&self, seat: u8, n: u32) {
        let (own, other) = match seat {
            0 => (&self.first, &self.second),
            _ => (&self.second, &self.first),
        };
        own.passes.note(n);
        if n != 1 {
            return;
        }
        own.here.store(1, Ordering::SeqCst);
        if comes_to(&other.here, 1) {
            own.met.fetch_add(1, Ordering::SeqCst);
        }
    }
}

/// Seat 1 waits before its first command until seat 0 has come to its second one.
#[derive(Drop)]
pub struct OneAfterTheOther {
    past: AtomicU64,
}

impl OneAfterTheOther {
    pub fn new() -> OneAfterTheOther {
        OneAfterTheOther {
            past: AtomicU64::new(0),
        }
    }
}

impl Gate for OneAfterTheOther {
    fn pass(&self, seat: u8, n: u32) {
        if seat == 0 && n == 1 {
            self.past.store(1, Ordering::SeqCst);
        }
        if seat == 1 && n == 0 {
            let _ = comes_to(&self.past, 1);
        }
    }
}
