//! What tests say of what they found, each in a call of its own, since a test whose comparisons are calls is proved several times as fast.

ghost use Rattle.std.specs.Prelude.{IsTrue};

use std::fmt::{Debug, Display};
use std::process::Abort;

/// What was found is what was wanted, at this point of a test.
pub fn same<T: PartialEq + Debug>(rt: &impl Abort, found: &T, wanted: &T, at: &impl Display) {
    assert_eq!(rt; found, wanted, "at {at}");
}

/// What was wanted holds, at this point of a test.
pub fn holds(rt: &impl Abort, found: bool, at: &impl Display)
    ensures { IsTrue found }
{
    assert!(rt; found, "at {at}");
}
