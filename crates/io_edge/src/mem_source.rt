ghost use Rattle.std.specs.Prelude.{◌≡◌, ◌≤◌, ◌↔◌, Some, IfOk, IsErr, OnErr, Contains, length, min};
ghost use Rattle.std.specs.Io.KnownBytes.{Keeps};
ghost use Rattle.io_edge.specs.Faults.{CountsFault, one_more};
ghost use Rattle.io_edge.specs.Left.{Gives};

use crate::copying::copy_front;
use crate::failed::raised;
use crate::{Failed, Source};
use std::marker::Model;

/// Bytes in memory, given in pieces, with calls that fail as planned.
#[derive(Debug, Drop)]
pub struct MemSource {
    bytes: Vec<u8>,
    at: usize,
    piece: usize,
    fails: Vec<u64>,
    calls: u64,
    faults: u64,
}

impl Model for MemSource {
    ghost use Rattle.std.specs.Prelude.{◌≤◌, drop, vec_len};
    ghost use Rattle.io_edge.specs.MemInput.{MemInput};

    ghost Value = { MemInput };

    ghost view = { λ s. record {
      left = drop s.at s.bytes.items;
      piece = s.piece;
      fails = s.fails.items;
      calls = s.calls;
      faults = s.faults;
    } };

    ghost invariant = { λ s. (s.at ≤ vec_len s.bytes) × (1 ≤ s.piece) };
}

impl MemSource {
    /// Calls are counted from 0, those that fail among them.
    pub fn new(bytes: Vec<u8>, piece: usize, fails: Vec<u64>) -> MemSource
        requires { 1 ≤ piece }
        ensures { result ≡ record {
          left = bytes.items;
          piece = piece;
          fails = fails.items;
          calls = 0;
          faults = 0;
        } }
    {
        MemSource {
            bytes,
            at: 0,
            piece,
            fails,
            calls: 0,
            faults: 0,
        }
    }
}

impl Source for MemSource {
    ghost use Rattle.std.specs.Prelude.{Some};

    ghost left = { λ s. Some s.left };

    ghost faults = { λ s. s.faults };

    fn read(&mut self, into: &mut [u8]) -> Result<usize, Failed>
        ensures ok { IfOk result (Gives (Some self.old.left) (Some self.new.left) into.new) }
        ensures err { OnErr result (Keeps (Some self.old.left) (Some self.new.left)) }
        ensures count { CountsFault result self.old.faults self.new.faults }

        ensures planned { IsErr result ↔ Contains self.old.fails self.old.calls }
        ensures most { IfOk result (λ n.
            n ≡ min (min self.old.piece (length into.old)) (length self.old.left)) }
        ensures same { self.new ≡ record self.old {
          left = self.new.left;
          calls = one_more self.old.calls;
          faults = self.new.faults;
        } }
    {
        let call = self.calls;
        self.calls = raised(call);
        if self.fails.contains(&call) {
            self.faults = raised(self.faults);
            return Err(Failed);
        }
        let rest = &self.bytes[self.at..];
        let n = copy_front(&rest[..self.piece.min(rest.len())], into);
        self.at += n;
        Ok(n)
    }
}
