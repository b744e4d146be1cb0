ghost use Rattle.std.specs.Prelude.{◌≡◌};
ghost use Rattle.std.specs.Process.{exit_status};
ghost use Rattle.io_edge.specs.Faults.{Rose};
ghost use Rattle.io_edge.specs.Taken.{Takes, TakesFront};
ghost use Rattle.schism_program.specs.Status.{status_number, status_line};

use crate::status::{Status, status_text};
use io_edge::{Sink, write_all};
use std::process::ExitCode;

/// Says how the program ended, and gives the exit status of its process, which a failed write doesn't change.
pub fn report<K: Sink>(status: &Status, errors: &mut K) -> ExitCode
    ensures number { exit_status result ≡ status_number status.now }
    ensures silent { status.now ≡ Status.Done → errors.new ≡ errors.old }
    ensures line { ¬ Rose (K.faults errors.old) (K.faults errors.new) →
        Takes (K.taken errors.old) (K.taken errors.new) (status_line status.now) }
    ensures front { TakesFront (K.taken errors.old) (K.taken errors.new) (status_line status.now) }
{
    if *status != Status::Done {
        let mut line = status_text(status);
        line.push('\n');
        let _ = write_all(errors, line.as_bytes());
    }
    ExitCode::from(status.number())
}
