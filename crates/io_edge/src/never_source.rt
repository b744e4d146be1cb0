ghost use Rattle.std.specs.Prelude.{◌≡◌, Ok, IfOk, OnErr, length, min};
ghost use Rattle.std.specs.Io.KnownBytes.{Keeps};
ghost use Rattle.io_edge.specs.Faults.{CountsFault};
ghost use Rattle.io_edge.specs.Left.{Gives};

use crate::copying::copy_front;
use crate::{Failed, Source};
use std::marker::Model;

/// Bytes in memory, whose reads never fail.
#[derive(Debug, Drop)]
pub struct NeverSource {
    bytes: Vec<u8>,
    at: usize,
}

impl Model for NeverSource {
    ghost use Rattle.std.specs.Prelude.{ℕ, ◌≤◌, List, drop, vec_len};

    ghost Value = { List ℕ };

    ghost view = { λ s. drop s.at s.bytes.items };

    ghost invariant = { λ s. s.at ≤ vec_len s.bytes };
}

impl NeverSource {
    /// Gives these bytes from their start.
    pub fn new(bytes: Vec<u8>) -> NeverSource
        ensures { result ≡ bytes.items }
    {
        NeverSource { bytes, at: 0 }
    }
}

impl Source for NeverSource {
    ghost use Rattle.std.specs.Prelude.{Some};

    ghost left = { λ s. Some s };

    ghost faults = { λ _. 0 };

    fn read(&mut self, into: &mut [u8]) -> Result<usize, Failed>
        ensures ok { IfOk result (Gives (Some self.old) (Some self.new) into.new) }
        ensures err { OnErr result (Keeps (Some self.old) (Some self.new)) }
        ensures count { CountsFault result 0 0 }

        ensures all { result ≡ Ok (min (length self.old) (length into.old)) }
    {
        let n = copy_front(&self.bytes[self.at..], into);
        self.at += n;
        Ok(n)
    }
}
