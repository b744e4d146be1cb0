ghost use Rattle.std.specs.Prelude.{◌≡◌, ◌+◌, ◌≤◌, OnOk, IfOk, IsErrOf, vec_len};
ghost use Rattle.std.specs.Io.KnownBytes.{IsAtEnd};
ghost use Rattle.io_edge.specs.declared.reading.ReadAllFault.TheVariants as faults;
ghost use Rattle.io_edge.specs.ReadAll.{CountsReadFault};
ghost use Rattle.io_edge.specs.Left.{GivesAll, LosesNext, LosesUpTo};

use crate::{Failed, Source};
use std::alloc::{AllocError, Global};
use thiserror::Error;

/// Why a source was not read to its end.
#[derive(Clone, Copy, Debug, PartialEq, Eq, Error)]
pub enum ReadAllFault {
    #[error("a read failed")]
    ReadFault,
    #[error("more bytes than the limit")]
    TooLong,
    #[error("out of memory")]
    Memory,
}

impl From<Failed> for ReadAllFault {
    ghost from_gives = { λ _ e. e ≡ faults.ReadFault };

    fn from(_e: Failed) -> ReadAllFault {
        ReadAllFault::ReadFault
    }
}

impl From<AllocError> for ReadAllFault {
    ghost from_gives = { λ _ e. e ≡ faults.Memory };

    fn from(_e: AllocError) -> ReadAllFault {
        ReadAllFault::Memory
    }
}

const PIECE: usize = 4096;

/// Reads a source to its end, and takes no byte past the one that follows the limit.
pub fn read_all<S: Source>(
    alloc: Global,
    source: &mut S,
    limit: usize,
) -> Result<Vec<u8>, ReadAllFault>
    ensures ok { IfOk result (λ bytes.
        GivesAll (S.left source.old) (S.left source.new) bytes.items) }
    ensures end { OnOk result (IsAtEnd (S.left source.new)) }
    ensures within { IfOk result (λ bytes. vec_len bytes ≤ limit) }
    ensures too_long { IsErrOf result ReadAllFault.TooLong →
        LosesNext (S.left source.old) (S.left source.new) (limit + 1) }
    ensures read_fault { IsErrOf result ReadAllFault.ReadFault →
        LosesUpTo (S.left source.old) (S.left source.new) limit }
    ensures memory { IsErrOf result ReadAllFault.Memory →
        LosesUpTo (S.left source.old) (S.left source.new) limit }
    ensures count { CountsReadFault result (S.faults source.old) (S.faults source.new) }
{
    let mut bytes = Vec::new(alloc);
    let mut buffer = [0; PIECE];
    loop {
        let room = limit - bytes.len();
        let most = PIECE.min(room.saturating_add(1));
        let n = source.read(&mut buffer[..most])?;
        if n == 0 {
            return Ok(bytes);
        }
        if room < n {
            return Err(ReadAllFault::TooLong);
        }
        bytes.extend_from_slice(&buffer[..n])?;
    }
}
