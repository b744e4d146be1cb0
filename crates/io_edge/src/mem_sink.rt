ghost use Rattle.std.specs.Prelude.{◌≡◌, ◌+◌, ◌-◌, ◌⊎◌, ◌↔◌, Some, IfOk, IsErr, OnErr, Contains, [], length, min, vec_len, vec_capacity};
ghost use Rattle.io_edge.specs.Faults.{CountsFault, one_more};
ghost use Rattle.io_edge.specs.Taken.{Takes, TakesSome};

use crate::copying::append_reserved;
use crate::failed::raised;
use crate::{Failed, Sink};
use std::marker::Model;

/// A sink in memory that takes bytes in pieces, with calls that fail as planned.
#[derive(Debug, Drop)]
pub struct MemSink {
    bytes: Vec<u8>,
    piece: usize,
    fails: Vec<u64>,
    calls: u64,
    faults: u64,
}

impl Model for MemSink {
    ghost use Rattle.std.specs.Prelude.{◌-◌, vec_len, vec_capacity};
    ghost use Rattle.io_edge.specs.MemOutput.{MemOutput};

    ghost Value = { MemOutput };

    ghost view = { λ s. record {
      taken = s.bytes.items;
      room = vec_capacity s.bytes - vec_len s.bytes;
      piece = s.piece;
      fails = s.fails.items;
      calls = s.calls;
      faults = s.faults;
    } };
}

impl MemSink {
    /// Its room is what the caller reserved; what `bytes` holds counts as taken. Calls are counted
    /// from 0, those that fail among them.
    pub fn new(bytes: Vec<u8>, piece: usize, fails: Vec<u64>) -> MemSink
        ensures { result ≡ record {
          taken = bytes.items;
          room = vec_capacity bytes - vec_len bytes;
          piece = piece;
          fails = fails.items;
          calls = 0;
          faults = 0;
        } }
    {
        MemSink {
            bytes,
            piece,
            fails,
            calls: 0,
            faults: 0,
        }
    }

    /// What it has taken.
    pub fn bytes(&self) -> &[u8]
        ensures { result.now ≡ self.now.taken }
    {
        &self.bytes
    }
}

impl Sink for MemSink {
    ghost use Rattle.std.specs.Prelude.{Some};

    ghost taken = { λ s. Some s.taken };

    ghost faults = { λ s. s.faults };

    fn write(&mut self, piece: &[u8]) -> Result<usize, Failed>
        ensures ok { IfOk result (TakesSome (Some self.old.taken) (Some self.new.taken) piece.now) }
        ensures err { OnErr result (Takes (Some self.old.taken) (Some self.new.taken) []) }
        ensures count { CountsFault result self.old.faults self.new.faults }

        // It fails at the planned calls, and where it has room for no byte.
        ensures planned { IsErr result ↔ (Contains self.old.fails self.old.calls
            ⊎ (min self.old.piece self.old.room ≡ 0)) }
        ensures most { IfOk result (λ n.
            n ≡ min (min self.old.piece self.old.room) (length piece.now)) }
        ensures reserved { self.new.room + length self.new.taken
            ≡ self.old.room + length self.old.taken }
        ensures same { self.new ≡ record self.old {
          taken = self.new.taken;
          room = self.new.room;
          calls = one_more self.old.calls;
          faults = self.new.faults;
        } }
    {
        let call = self.calls;
        self.calls = raised(call);
        let room = self.piece.min(self.bytes.capacity() - self.bytes.len());
        if room == 0 || self.fails.contains(&call) {
            self.faults = raised(self.faults);
            return Err(Failed);
        }
        let n = room.min(piece.len());
        append_reserved(&mut self.bytes, &piece[..n]);
        Ok(n)
    }
}
