ghost use Rattle.std.specs.Prelude.{◌≡◌};
ghost use Rattle.fodderpause_c.specs.Codes.{refusal_code, answer_code};

use crate::refusal::Refusal;

/// What C is told where a call came to what it asked for.
pub const DONE: u32 = 0;

/// The register holds no object.
pub const NO_OBJECT: u32 = 12;

/// The object has no such field.
pub const NO_FIELD: u32 = 13;

/// Fragments are too few.
pub const FULL: u32 = 14;

/// Spine words are too few.
pub const SPINE_FULL: u32 = 15;

/// The refusal as C is told of it.
pub fn refusal_code(refusal: Refusal) -> u32
    ensures { result ≡ refusal_code refusal }
{
    refusal as u32
}

/// The answer's code where nothing else is told.
pub fn answer_code(answer: Result<(), Refusal>) -> u32
    ensures { result ≡ answer_code answer }
{
    match answer {
        Ok(()) => DONE,
        Err(refusal) => refusal_code(refusal),
    }
}
