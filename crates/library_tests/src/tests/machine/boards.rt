//! Boards of several sizes on a machine: how it opens, what its seat is answered, and that a cycle frees the board.

use super::calls::{call, is_answered, log, turn, word};
use crate::tests::boards::{BOARDS, answers, heap_of};
use crate::tests::comparing::same;
use core_machine::{Address, Machine};
use heap_model::{Account, Command, Entry, Turn};
use std::alloc::Global;
use std::fmt::Display;
use std::process::Abort;
use std::test::Fail;

/// More turns than a cycle takes on one group.
const MANY: u32 = 400;

/// The machine of a heap of one group and one seat, whose board has so many fields.
fn machine_with(alloc: Global, fields: u8) -> Result<Machine, Fail> {
    let heap = heap_of(fields).ok_or("the limits")?;
    Ok(Machine::make(alloc, heap)?)
}

/// The board has so many fragments, and its group this control word.
fn opens(
    rt: &impl Abort,
    alloc: Global,
    machine: &Machine,
    fragments: u8,
    control: u64,
    at: &impl Display,
) -> Result<(), Fail> {
    let used = Account::new(alloc, machine.heap())?.used();
    same(rt, &used, &u64::from(fragments), at);
    same(rt, &(machine.free() + usize::from(fragments)), &16, at);
    let (_, word) = word(machine, Address::Control(0))?;
    same(rt, &word, &control, at);
    Ok(())
}

#[test]
fn answers_on_each_board(rt: HostRuntime) -> Result<(), Fail> {
    let alloc = rt.alloc();
    for (fields, fragments, control) in BOARDS {
        let mut machine = machine_with(alloc, fields)?;
        opens(&rt, alloc, &machine, fragments, control, &fields)?;
        for (command, reply) in answers(alloc, fields, fragments)? {
            is_answered(&rt, &mut machine, 0, command, reply, fields)?;
        }
    }
    Ok(())
}

/// The turn that ends a cycle, where nobody is waited for.
fn end_of_cycle(machine: &mut Machine) -> Result<Turn, Fail> {
    for _ in 0..MANY {
        let turn = turn(machine)?;
        if turn != Turn::Stepped {
            return Ok(turn);
        }
    }
    Err("no end".into())
}

/// Once the seat has left, a cycle frees the board, which has so many fragments.
fn frees(
    rt: &impl Abort,
    machine: &mut Machine,
    fragments: u8,
    at: &impl Display,
) -> Result<(), Fail> {
    call(machine, 0, &Command::Leave)?;
    let ended = Turn::Ended { cycle: 0, kept: 0 };
    same(rt, &end_of_cycle(machine)?, &ended, at);
    let frees = Entry::Frees(u32::from(fragments));
    same(rt, &log(machine, 1)?.contains(&frees), &true, at);
    same(rt, &machine.free(), &16, at);
    Ok(())
}

#[test]
fn frees_each_board(rt: HostRuntime) -> Result<(), Fail> {
    for (fields, fragments, _) in BOARDS {
        let mut machine = machine_with(rt.alloc(), fields)?;
        frees(&rt, &mut machine, fragments, &fields)?;
    }
    Ok(())
}
