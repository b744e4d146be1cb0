ghost use Rattle.std.specs.Prelude.{◌≡◌};
ghost use Rattle.log_merge.specs.declared.fault.CheckFault.TheVariants as faults;

use heap_model::{ApplyFault, Memory};
use thiserror::Error;

/// Why a history was not found legal.
#[derive(Clone, Copy, Debug, PartialEq, Eq, Error)]
pub enum CheckFault {
    #[error("not legal at line {line}")]
    NotLegal { line: u32 },
    #[error("out of memory")]
    Memory,
}

impl From<Memory> for CheckFault {
    ghost from_gives = { λ _ e. e ≡ faults.Memory };

    fn from(_e: Memory) -> CheckFault {
        CheckFault::Memory
    }
}
