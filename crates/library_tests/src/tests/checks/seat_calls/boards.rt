//! Boards of several sizes: what the one seat of a table is answered by the trait.

use super::playing;
use crate::tests::boards::{BOARDS, answers, heap_of};
use crate::tests::opening::lone_seat;
use std::test::Fail;

#[test]
fn seat_answers_on_each_board(rt: HostRuntime) -> Result<(), Fail> {
    let alloc = rt.alloc();
    for (fields, fragments, _) in BOARDS {
        let heap = heap_of(fields).ok_or("the limits")?;
        let (mut seat, _) = lone_seat(alloc, heap)?;
        for (command, reply) in answers(alloc, fields, fragments)? {
            let at = format!(in alloc; "{fields} {command:?}")?;
            playing::answers(&rt, &mut seat, command, reply, &at)?;
        }
    }
    Ok(())
}
