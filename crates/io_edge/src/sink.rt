ghost use Rattle.std.specs.Prelude.{ℕ, List, [], Option, IfOk, OnErr};
ghost use Rattle.io_edge.specs.Faults.{CountsFault};
ghost use Rattle.io_edge.specs.Taken.{Takes, TakesSome};

use crate::Failed;

/// Where bytes go to.
pub trait Sink {
    /// The bytes that it has taken, where the sink tells them.
    ghost taken: { Self → Option (List ℕ) };

    /// How often it has failed, up to `u64::MAX`.
    ghost faults: { Self → ℕ };

    /// Takes the front of `piece`, and says how many bytes.
    fn write(&mut self, piece: &[u8]) -> Result<usize, Failed>
        ensures ok { IfOk result (TakesSome (taken self.old) (taken self.new) piece.now) }
        ensures err { OnErr result (Takes (taken self.old) (taken self.new) []) }
        ensures count { CountsFault result (faults self.old) (faults self.new) };
}
