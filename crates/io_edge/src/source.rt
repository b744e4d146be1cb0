ghost use Rattle.std.specs.Prelude.{ℕ, List, Option, IfOk, OnErr};
ghost use Rattle.std.specs.Io.KnownBytes.{Keeps};
ghost use Rattle.io_edge.specs.Faults.{CountsFault};
ghost use Rattle.io_edge.specs.Left.{Gives};

use crate::Failed;

/// Where bytes come from.
pub trait Source {
    /// The bytes still to come, where the source tells them.
    ghost left: { Self → Option (List ℕ) };

    /// How often it has failed, up to `u64::MAX`.
    ghost faults: { Self → ℕ };

    /// Fills the front of `into` with the next bytes, and says how many. What stands behind them
    /// is not told.
    fn read(&mut self, into: &mut [u8]) -> Result<usize, Failed>
        ensures ok { IfOk result (Gives (left self.old) (left self.new) into.new) }
        ensures err { OnErr result (Keeps (left self.old) (left self.new)) }
        ensures count { CountsFault result (faults self.old) (faults self.new) };
}
