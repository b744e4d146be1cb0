use crate::counted::Counted;
use crate::{Failed, Source};
use std::io::Read;

/// One of std's readers as a source, which tells the bytes that the reader tells.
#[derive(Debug, Drop)]
pub struct StdSource<R>(Counted<R>);

impl<R: Read> StdSource<R> {
    ghost use Rattle.std.specs.Prelude.{◌≡◌};
    ghost use Rattle.io_edge.specs.Adapters.{reader};

    /// Takes over a reader.
    pub fn new(input: R) -> StdSource<R>
        ensures reader { reader result ≡ input }
        ensures faults { ⟦<StdSource<R> as Source>⟧.faults result ≡ 0 }
    {
        StdSource(Counted::new(input))
    }
}

impl<R: Read> Source for StdSource<R> {
    ghost left = { λ s. R.remaining s.0.inner };

    ghost faults = { λ s. s.0.faults };

    fn read(&mut self, into: &mut [u8]) -> Result<usize, Failed> {
        match self.0.inner.read(into) {
            Ok(n) => Ok(n),
            Err(_) => Err(self.0.fail()),
        }
    }
}
