ghost use Rattle.locked_heap.specs.Given.{Given, nothing_given};

use std::marker::Brand;

/// The name of a run: what it was given. Each run picks it for itself.
pub trait Handed {
    ghost given: { Given };
}

impl Handed for Brand {
    ghost given = { nothing_given };
}
