//! What tests say of what they found, each in a call of its own, since a test whose comparisons are calls is proved several times as fast.

ghost use Rattle.std.specs.Prelude.{IsTrue};

use crate::status::Status;
use std::fmt::Display;
use std::process::Abort;

/// The program ended so, and wrote these bytes, at this point of a test.
pub(super) fn tells(
    rt: &impl Abort,
    found: &(Status, Vec<u8>),
    end: Status,
    written: &[u8],
    at: &impl Display,
) {
    let (status, bytes) = found;
    assert_eq!(rt; *status, end, "at {at}");
    assert_eq!(rt; bytes.as_slice(), written, "at {at}");
}

/// What was wanted holds, at this point of a test.
pub(super) fn holds(rt: &impl Abort, found: bool, at: &impl Display)
    ensures { IsTrue found }
{
    assert!(rt; found, "at {at}");
}
