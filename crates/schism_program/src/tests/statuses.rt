//! The number and the text of each status, and what is said of it on standard error.

use super::comparing::holds;
use crate::ending::report;
use crate::status::{Status, status_text};
use io_edge::NeverSink;
use script_text::Cause;
use std::alloc::{AllocError, Global};
use std::process::{Abort, ExitCode};
use std::test::Fail;

/// A status, its number, and what is said of it.
type Row = (Status, u8, &'static str);

const NAMED: [Row; 10] = [
    (Status::Done, 0, ""),
    (refused!(2, Cause::BadHeap), 1, "refused at line 2: BadHeap"),
    (refused!(7, Cause::NoEnd), 1, "refused at line 7: NoEnd"),
    (
        refused!(4_294_967_295, Cause::TooManyWords),
        1,
        "refused at line 4294967295: TooManyWords",
    ),
    (Status::Usage, 2, "usage"),
    (Status::ReadFault, 3, "read fault"),
    (Status::WriteFault, 4, "write fault"),
    (Status::Memory, 5, "memory"),
    (Status::TooLong, 6, "too long"),
    (illegal!(4), 7, "not legal at line 4"),
];

/// The status has this number and this text.
fn names(rt: &impl Abort, status: &Status, number: u8, text: &str) {
    holds(rt, status.number() == number, &text);
    holds(rt, status_text(status).as_str() == text, &text);
}

#[test]
fn names_each_status(rt: HostRuntime) {
    for (status, number, text) in &NAMED {
        names(&rt, status, *number, text);
    }
}

const REPORTED: [Row; 3] = [
    (Status::Done, 0, ""),
    (
        refused!(2, Cause::BadHeap),
        1,
        "refused at line 2: BadHeap\n",
    ),
    (Status::Memory, 5, "memory\n"),
];

/// The status is reported by this line and this number.
fn reports(
    rt: &impl Abort,
    alloc: Global,
    status: &Status,
    number: u8,
    line: &str,
) -> Result<(), AllocError> {
    let mut errors = NeverSink::new(Vec::with_capacity(alloc, 64)?);
    let code = report(status, &mut errors);
    holds(rt, code == ExitCode::from(number), &line);
    holds(rt, errors.bytes() == Some(line.as_bytes()), &line);
    Ok(())
}

#[test]
fn reports_a_status_by_a_line_and_a_number(rt: HostRuntime) -> Result<(), Fail> {
    for (status, number, line) in &REPORTED {
        reports(&rt, rt.alloc(), status, *number, line)?;
    }
    Ok(())
}
