//! Tables of cases, each row of which is run and compared.

use super::comparing::tells;
use super::several_seats::text_of;
use super::told;
use crate::status::Status;
use std::alloc::{AllocError, Global};
use std::process::Abort;
use std::sync::Wait;
use std::test::Fail;
use std::thread::Threads;

/// Words in a line, a text, and what is written of it. Lines of the texts stand with "; " between them.
pub(super) type Written = (&'static str, &'static str, &'static str);

/// Words in a line, a text, and the status that comes of it, where nothing is written. Lines of the text stand with "; " between them.
pub(super) type Unwritten = (&'static str, &'static str, Status);

/// Compares what comes of the words in the line and the text, and what is written.
pub(super) fn comes(
    rt: &(impl Abort + Threads + Wait + Sync),
    alloc: Global,
    line: &str,
    text: &str,
    end: Status,
    written: &str,
) -> Result<(), AllocError> {
    let told = told(rt, alloc, line, text.as_bytes())?;
    tells(rt, &told, end, written.as_bytes(), &text);
    Ok(())
}

/// Each text is done, and this is written.
pub(super) fn writes_each(
    rt: &(impl Abort + Threads + Wait + Sync),
    alloc: Global,
    rows: &[Written],
) -> Result<(), Fail> {
    for &(line, text, wanted) in rows {
        let (text, wanted) = (text_of(alloc, text)?, text_of(alloc, wanted)?);
        comes(rt, alloc, line, &text, Status::Done, &wanted)?;
    }
    Ok(())
}

/// Each text ends so, and nothing is written.
pub(super) fn writes_nothing(
    rt: &(impl Abort + Threads + Wait + Sync),
    alloc: Global,
    rows: &[Unwritten],
) -> Result<(), Fail> {
    for &(line, text, end) in rows {
        let text = text_of(alloc, text)?;
        comes(rt, alloc, line, &text, end, "")?;
    }
    Ok(())
}
