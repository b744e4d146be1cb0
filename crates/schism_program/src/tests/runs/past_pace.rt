//! A gate and a pace that hold each other: seats that go on while the pace is asked.

use super::gates::comes_to;
use super::paced::paces_by;
use heap_model::Gate;
use slack_pace::{Pace, Paces};
use std::alloc::{AllocError, Global};
use std::sync::Arc;
use std::sync::atomic::{AtomicU64, Ordering};

/// Whether the pace was asked, how many seats have come to their third command, and whether both had while the pace was asked for the first time.
#[derive(Drop)]
struct Flags {
    asked: AtomicU64,
    here: AtomicU64,
    met: AtomicU64,
}

/// When it is asked for the first time, a pace that waits for both seats to come to their third command. It asks for 16 turns.
#[derive(Drop)]
struct Waiting(Arc<Flags>);

impl Pace for Waiting {
    ghost use Rattle.std.specs.Prelude.{◌≡◌, []};

    ghost asks = { λ _ _. 16 };

    ghost kept = { λ _. [] };

    ghost came = { λ _ _ kept. kept ≡ [] };

    fn turns(&mut self, _claimed: u64) -> u64 {
        if self.0.asked.fetch_add(1, Ordering::SeqCst) == 0 && comes_to(&self.0.here, 2) {
            self.0.met.store(1, Ordering::SeqCst);
        }
        16
    }
}

/// Before its first command each seat waits until the pace is asked.
#[derive(Drop)]
pub struct PastThePace(Arc<Flags>);

impl PastThePace {
    pub fn new(alloc: Global) -> Result<PastThePace, AllocError> {
        let flags = Flags {
            asked: AtomicU64::new(0),
            here: AtomicU64::new(0),
            met: AtomicU64::new(0),
        };
        Ok(PastThePace(Arc::new(alloc, flags)?))
    }

    /// The paces of a run that the gate goes with.
    pub fn paces(&self, alloc: Global) -> Result<Paces, AllocError> {
        let waiting = Waiting(self.0.clone()?);
        paces_by(alloc, Box::new(alloc, waiting)?)
    }

    /// Whether both seats came to their third command while the pace was asked.
    pub fn met(&self) -> bool {
        self.0.met.load(Ordering::SeqCst) == 1
    }
}

impl Gate for PastThePace {
    fn pass(&self, _seat: u8, n: u32) {
        if n == 0 {
            let _ = comes_to(&self.0.asked, 1);
        }
        if n == 2 {
            self.0.here.fetch_add(1, Ordering::SeqCst);
        }
    }
}
