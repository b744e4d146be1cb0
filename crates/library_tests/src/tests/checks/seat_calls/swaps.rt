//! Compare and swap by the trait: what two seats of one table are answered.

use super::playing::answers;
use crate::tests::opening::two_seats;
use crate::tests::swaps;
use core_machine::Log;
use heap_model::Heap;
use std::test::Fail;

#[test]
fn two_seats_answer_as_due(rt: HostRuntime) -> Result<(), Fail> {
    let alloc = rt.alloc();
    let heap = Heap::make(1, 0, 2, 32).ok_or("the limits")?;
    let (mut first, mut second, _) = two_seats::<Log, Log>(alloc, heap)?;
    for (number, command, reply) in swaps::answers() {
        let seat = if number == 0 { &mut first } else { &mut second };
        let at = format!(in alloc; "{number} {command:?}")?;
        answers(&rt, seat, command, reply, &at)?;
    }
    Ok(())
}
