ghost use Rattle.std.specs.Prelude.{◌≡◌, ◌≤◌};
ghost use Rattle.io_edge.specs.Faults.{Rose};

use crate::Failed;
use crate::failed::raised;

/// A reader or a writer of std, and how many of its calls have failed.
#[derive(Debug, Drop)]
pub struct Counted<T> {
    pub inner: T,
    pub faults: u64,
}

impl<T> Counted<T> {
    /// None of its calls has failed.
    pub fn new(inner: T) -> Counted<T>
        ensures inner { result.inner ≡ inner }
        ensures faults { result.faults ≡ 0 }
    {
        Counted { inner, faults: 0 }
    }

    /// One more of its calls has failed.
    pub fn fail(&mut self) -> Failed
        ensures inner { self.new.inner ≡ self.old.inner }
        ensures rose { Rose self.old.faults self.new.faults }
        ensures later { self.old.faults ≤ self.new.faults }
    {
        self.faults = raised(self.faults);
        Failed
    }
}
