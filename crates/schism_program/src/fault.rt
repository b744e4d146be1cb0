ghost use Rattle.std.specs.Prelude.{◌≡◌};
ghost use Rattle.schism_program.specs.declared.fault.WorkFault.TheVariants as faults;

use heap_model::Memory;
use log_merge::CheckFault;
use script_text::{LineFault, ScriptFault};

/// Why the program makes no text of an input.
#[derive(Clone, Copy, Debug, PartialEq, Eq)]
pub enum WorkFault {
    /// The first line that is faulty, or that the program doesn't serve.
    Refused(LineFault),
    /// The first line of a history that isn't legal.
    NotLegal { line: u32 },
    Memory,
}

impl From<Memory> for WorkFault {
    ghost from_gives = { λ _ e. e ≡ faults.Memory };

    fn from(_e: Memory) -> WorkFault {
        WorkFault::Memory
    }
}

impl From<ScriptFault> for WorkFault {
    ghost use Rattle.schism_program.specs.WorkFaults.{fault_of_text};

    ghost from_gives = { λ fault e. e ≡ fault_of_text fault };

    fn from(fault: ScriptFault) -> WorkFault {
        match fault {
            ScriptFault::Line(fault) => WorkFault::Refused(fault),
            ScriptFault::Memory => WorkFault::Memory,
        }
    }
}

impl From<CheckFault> for WorkFault {
    ghost use Rattle.schism_program.specs.WorkFaults.{fault_of_check};

    ghost from_gives = { λ fault e. e ≡ fault_of_check fault };

    fn from(fault: CheckFault) -> WorkFault {
        match fault {
            CheckFault::NotLegal { line } => WorkFault::NotLegal { line },
            CheckFault::Memory => WorkFault::Memory,
        }
    }
}
