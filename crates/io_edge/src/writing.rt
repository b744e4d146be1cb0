ghost use Rattle.std.specs.Prelude.{OnOk, OnErr};
ghost use Rattle.io_edge.specs.Faults.{CountsFault};
ghost use Rattle.io_edge.specs.Taken.{Takes, TakesFront};

use crate::{Failed, Sink};
use thiserror::Error;

/// A write failed.
#[derive(Clone, Copy, Debug, PartialEq, Eq, Error)]
#[error("a write failed")]
pub struct WriteFault;

impl From<Failed> for WriteFault {
    fn from(_e: Failed) -> WriteFault {
        WriteFault
    }
}

/// Writes all the bytes, in as many calls as the sink needs.
pub fn write_all<K: Sink>(sink: &mut K, bytes: &[u8]) -> Result<(), WriteFault>
    ensures ok { OnOk result (Takes (K.taken sink.old) (K.taken sink.new) bytes.now) }
    ensures err { OnErr result (TakesFront (K.taken sink.old) (K.taken sink.new) bytes.now) }
    ensures count { CountsFault result (K.faults sink.old) (K.faults sink.new) }
{
    let mut rest = bytes;
    while !rest.is_empty() {
        let n = sink.write(rest)?;
        rest = rest.split_at(n).1;
    }
    Ok(())
}
