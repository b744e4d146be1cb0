//! A history that is cut off.

use super::super::comparing::same;
use super::{RESERVE, fault_of};
use script_text::{Cause, LineFault};

/// What is wrong with the first line that is missing or no line.
fn first_bad(line: u32, other: Cause) -> LineFault {
    match line {
        1 => Cause::NoHeader.at(1),
        2 => Cause::BadHeap.at(2),
        _ => other.at(line),
    }
}

/// The fault of the bytes before a cut in this line, which is whole where digits alone follow a digit.
fn cut_fault(kept: &[u8], rest: &[u8], line: u32) -> LineFault {
    let is_digit = |b: &u8| b'0' <= *b && *b <= b'9';
    let rest_of_line = rest.split(|b| *b == b'\n').next();
    match (kept.last(), rest_of_line) {
        (None | Some(b'\n'), _) => first_bad(line, Cause::NoEnd),
        (Some(last), Some(more))
            if more.is_empty() || is_digit(last) && more.iter().all(is_digit) => {
            first_bad(line.saturating_add(1), Cause::NoEnd)
        }
        _ => first_bad(line, Cause::BadEntry),
    }
}

#[test]
fn cut_anywhere(rt: HostRuntime) {
    let mut line = 1u32;
    for at in 0..RESERVE.len() - 1 {
        let (kept, rest) = RESERVE.split_at(at);
        if kept.last() == Some(&b'\n') {
            line = line.saturating_add(1);
        }
        let found = fault_of(rt.alloc(), kept);
        same(&rt, &found, &Some(cut_fault(kept, rest, line)), &at);
    }
    // The last line feed may be missing.
    let found = fault_of(rt.alloc(), &RESERVE[..RESERVE.len() - 1]);
    same(&rt, &found, &None, &"the last line feed");
}
