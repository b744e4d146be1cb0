ghost use Rattle.std.specs.Prelude.{◌≡◌, [], None, IfOk, OnErr, take};
ghost use Rattle.std.specs.Io.KnownBytes.{Appends, Keeps};
ghost use Rattle.io_edge.specs.Faults.{CountsFault};
ghost use Rattle.io_edge.specs.Taken.{Takes, TakesSome};

use crate::counted::Counted;
use crate::{Failed, Sink};
use std::io::Write;

/// One of std's writers as a sink, which doesn't tell what it took. It flushes nothing.
#[derive(Debug, Drop)]
pub struct StdSink<W>(Counted<W>);

impl<W: Write> StdSink<W> {
    ghost use Rattle.io_edge.specs.Adapters.{writer};

    /// Takes over a writer.
    pub fn new(output: W) -> StdSink<W>
        ensures writer { writer result ≡ output }
        ensures faults { ⟦<StdSink<W> as Sink>⟧.faults result ≡ 0 }
    {
        StdSink(Counted::new(output))
    }
}

impl<W: Write> Sink for StdSink<W> {
    ghost use Rattle.std.specs.Prelude.{None};
    ghost use Rattle.io_edge.specs.Adapters.{writer};

    ghost taken = { λ _. None };

    ghost faults = { λ s. s.0.faults };

    fn write(&mut self, piece: &[u8]) -> Result<usize, Failed>
        ensures ok { IfOk result (TakesSome None None piece.now) }
        ensures err { OnErr result (Takes None None []) }
        ensures count { CountsFault result
            (⟦<StdSink<W> as Sink>⟧.faults self.old)
            (⟦<StdSink<W> as Sink>⟧.faults self.new) }

        // The writer got what the sink took.
        ensures passed { IfOk result (λ n. Appends
            (W.contents (writer self.old)) (W.contents (writer self.new)) (take n piece.now)) }
        ensures kept { OnErr result
            (Keeps (W.contents (writer self.old)) (W.contents (writer self.new))) }
    {
        match self.0.inner.write(piece) {
            Ok(n) if 0 < n || piece.is_empty() => Ok(n),
            _ => Err(self.0.fail()),
        }
    }
}
