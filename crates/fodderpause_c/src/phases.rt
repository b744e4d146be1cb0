ghost use Rattle.std.specs.Prelude.{◌≡◌, ℕ};
ghost use Rattle.fodderpause_c.specs.Phases.{phase_shown, behind_shown};
ghost use Rattle.fodderpause_c.specs.Replies.{poll_shown};

use crate::codes::{DONE, refusal_code};
use crate::refusal::Refusal;
use heap_model::Reply;

/// What C is told where that is a phase.
#[repr(C)]
#[derive(Clone, Copy)]
pub struct Phase {
    pub code: u32,
    pub phase: u64,
}

/// What C is told of whether another seat is behind: and if so, what it answered last, and the phase.
#[repr(C)]
#[derive(Clone, Copy)]
pub struct Behind {
    pub code: u32,
    pub behind: u32,
    pub answered: u64,
    pub phase: u64,
}

impl Phase {
    /// Of a phase, or of why it isn't told.
    pub fn of(answer: Result<u64, Refusal>) -> Phase
        ensures { result ≡ phase_shown answer }
    {
        match answer {
            Ok(phase) => Phase { code: DONE, phase },
            Err(refusal) => Phase {
                code: refusal_code(refusal),
                phase: 0,
            },
        }
    }

    /// Of the reply to a poll, or of why it wasn't made.
    pub fn of_poll(answer: Result<Reply, Refusal>) -> Phase
        ensures { result ≡ poll_shown answer }
    {
        match answer {
            Ok(Reply::Phase(phase)) => Phase { code: DONE, phase },
            Ok(_) => Phase {
                code: DONE,
                phase: 0,
            },
            Err(refusal) => Phase {
                code: refusal_code(refusal),
                phase: 0,
            },
        }
    }
}

impl Behind {
    /// Of who was found behind, or of why nobody looked.
    pub fn of(answer: Result<Option<(u64, u64)>, Refusal>) -> Behind
        ensures { result ≡ behind_shown answer }
    {
        let (code, behind, answered, phase) = match answer {
            Ok(Some((answered, phase))) => (DONE, 1, answered, phase),
            Ok(None) => (DONE, 0, 0, 0),
            Err(refusal) => (refusal_code(refusal), 0, 0, 0),
        };
        Behind {
            code,
            behind,
            answered,
            phase,
        }
    }
}
