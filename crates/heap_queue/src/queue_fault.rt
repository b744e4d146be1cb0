ghost use Rattle.std.specs.Prelude.{◌≡◌};
ghost use Rattle.heap_queue.specs.declared.queue_fault.QueueFault.TheVariants as faults;

use heap_model::Memory;

/// Why a queue was not run: its first node needs fragments, and these were found; or memory was wanting.
#[derive(Clone, Copy, Debug, PartialEq, Eq)]
pub enum QueueFault {
    Full { need: u32, found: u32 },
    Memory,
}

impl From<Memory> for QueueFault {
    ghost from_gives = { λ _ e. e ≡ faults.Memory };

    fn from(_e: Memory) -> QueueFault {
        QueueFault::Memory
    }
}
