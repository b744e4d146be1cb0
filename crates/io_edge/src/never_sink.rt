ghost use Rattle.std.specs.Prelude.{◌≡◌, ◌-◌, ◌<◌, ◌≤◌, ◌++◌, None, Some, Ok, IfOk, IfNone, IfSome, OnErr, MatchOption, [], length, vec_len, vec_capacity};
ghost use Rattle.io_edge.specs.Faults.{CountsFault};
ghost use Rattle.io_edge.specs.Taken.{Takes, TakesSome};

use crate::copying::append_reserved;
use crate::{Failed, Sink};
use std::marker::Model;

/// A sink in memory that takes every piece whole, and keeps what fits.
#[derive(Debug, Drop)]
pub struct NeverSink {
    bytes: Vec<u8>,
    has_lost: bool,
}

impl Model for NeverSink {
    ghost use Rattle.std.specs.Prelude.{◌-◌, if◌then◌else◌, None, Some, vec_len, vec_capacity};
    ghost use Rattle.io_edge.specs.NeverOutput.{NeverOutput};

    ghost Value = { NeverOutput };

    ghost view = { λ s. record {
      taken = if s.has_lost then None else Some s.bytes.items;
      room = vec_capacity s.bytes - vec_len s.bytes;
    } };
}

impl NeverSink {
    /// Its room is what the caller reserved; what `bytes` holds counts as taken.
    pub fn new(bytes: Vec<u8>) -> NeverSink
        ensures { result ≡ record {
          taken = Some bytes.items;
          room = vec_capacity bytes - vec_len bytes;
        } }
    {
        NeverSink {
            bytes,
            has_lost: false,
        }
    }

    /// What it has taken, or None once a piece didn't fit.
    pub fn bytes(&self) -> Option<&[u8]>
        ensures { MatchOption result (self.now.taken ≡ None)
            (λ bytes. self.now.taken ≡ Some bytes.now) }
    {
        if self.has_lost {
            return None;
        }
        Some(&self.bytes)
    }
}

impl Sink for NeverSink {
    ghost taken = { λ s. s.taken };

    ghost faults = { λ _. 0 };

    fn write(&mut self, piece: &[u8]) -> Result<usize, Failed>
        ensures ok { IfOk result (TakesSome self.old.taken self.new.taken piece.now) }
        ensures err { OnErr result (Takes self.old.taken self.new.taken []) }
        ensures count { CountsFault result 0 0 }

        ensures whole { result ≡ Ok (length piece.now) }
        ensures fits { length piece.now ≤ self.old.room → IfSome self.old.taken (λ bytes.
            self.new ≡ record {
              taken = Some (bytes ++ piece.now);
              room = self.old.room - length piece.now;
            }) }
        ensures lost { self.old.room < length piece.now →
            self.new ≡ record self.old { taken = None } }
        ensures rest { IfNone self.old.taken (self.new ≡ self.old) }
    {
        if self.bytes.capacity() - self.bytes.len() < piece.len() {
            self.has_lost = true;
        }
        if !self.has_lost {
            append_reserved(&mut self.bytes, piece);
        }
        Ok(piece.len())
    }
}
