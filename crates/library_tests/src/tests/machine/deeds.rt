//! What a party does in a trial, and what comes of it but for its entries.

use super::calls::{begin, call, due, inner, log, seen, step, turn};
use super::reading::{command_of, inner_of, number};
use super::texts::{due_text, step_text, turn_text};
use core_machine::{Machine, MakingStep, Step};
use heap_model::Entry;
use std::alloc::{AllocError, Global};
use std::test::Fail;

/// The number in decimal digits.
pub(super) fn decimal(alloc: Global, number: u64) -> Result<String, AllocError> {
    format!(in alloc; "{number}")
}

/// What the party does, and what comes of it but for its entries.
pub(super) fn done(
    alloc: Global,
    machine: &mut Machine,
    party: u8,
    words: &str,
) -> Result<String, Fail> {
    match words {
        "due" => due_told(alloc, machine, party),
        "step" => last_of(alloc, machine, party, 1),
        "stores" => stored(alloc, machine, party),
        "turn" => turn_told(alloc, machine),
        "seen" => seen_told(alloc, machine, party),
        words => done_with(alloc, machine, party, words),
    }
}

/// What the party does that has more words, and what comes of it but for its entries.
fn done_with(alloc: Global, machine: &mut Machine, party: u8, words: &str) -> Result<String, Fail> {
    match words.split_once(' ') {
        Some(("steps", count)) => last_of(alloc, machine, party, number(count)?),
        Some(("inner", call)) => inner_told(alloc, machine, party, call),
        Some(("begin", command)) => begin_told(alloc, machine, party, command),
        _ => call_told(alloc, machine, party, words),
    }
}

fn due_told(alloc: Global, machine: &Machine, party: u8) -> Result<String, Fail> {
    let step = due(machine, party)?;
    Ok(due_text(alloc, &step)?)
}

fn turn_told(alloc: Global, machine: &mut Machine) -> Result<String, Fail> {
    let turn = turn(machine)?;
    Ok(turn_text(alloc, &turn)?)
}

fn seen_told(alloc: Global, machine: &Machine, party: u8) -> Result<String, Fail> {
    let phase = seen(machine, party)?;
    Ok(decimal(alloc, phase)?)
}

/// Whether the inner call was made.
fn inner_told(alloc: Global, machine: &mut Machine, seat: u8, words: &str) -> Result<String, Fail> {
    let call = inner_of(words).ok_or("no inner call")?;
    answer(alloc, inner(machine, seat, call)?)
}

/// Whether the command was begun.
fn begin_told(alloc: Global, machine: &mut Machine, seat: u8, words: &str) -> Result<String, Fail> {
    let command = command_of(alloc, words)?;
    answer(alloc, begin(machine, seat, &command)?)
}

fn answer(alloc: Global, answer: bool) -> Result<String, Fail> {
    Ok(String::from_str(alloc, if answer { "true" } else { "false" })?)
}

/// A whole call, of which nothing is told but its entries; the last of them tells it and its reply.
fn call_told(alloc: Global, machine: &mut Machine, seat: u8, words: &str) -> Result<String, Fail> {
    let command = command_of(alloc, words)?;
    let said = Entry::Said {
        seat,
        command,
        reply: call(machine, seat, &command)?,
    };
    if log(machine, seat)?.last() != Some(&said) {
        return Err("the last entry is another".into());
    }
    Ok(String::new(alloc))
}

/// The last of the next steps, and the word that it found.
fn last_of(alloc: Global, machine: &mut Machine, party: u8, count: u8) -> Result<String, Fail> {
    let mut text = String::new(alloc);
    for _ in 0..count {
        let (step, found) = step(machine, party)?;
        text = step_text(alloc, &step, found)?;
    }
    Ok(text)
}

/// The fragment whose four words are stored by the next steps, and the words.
fn stored(alloc: Global, machine: &mut Machine, party: u8) -> Result<String, Fail> {
    let mut text = String::new(alloc);
    for wanted in 0..4 {
        let (step, found) = step(machine, party)?;
        let Step::Making(
            MakingStep::NewbornStore {
                fragment,
                part,
                word,
            },
        ) = step
        else {
            return Err("no store".into());
        };
        if part != wanted || found != 0 {
            return Err("another part, or not where 0 was".into());
        }
        if part == 0 {
            push_fragment(alloc, &mut text, fragment)?;
        }
        push_word(alloc, &mut text, word)?;
    }
    Ok(text)
}

fn push_fragment(alloc: Global, text: &mut String, fragment: u16) -> Result<(), Fail> {
    let digits = format!(in alloc; "{fragment}:")?;
    Ok(text.push_str(&digits)?)
}

fn push_word(alloc: Global, text: &mut String, word: u64) -> Result<(), Fail> {
    let digits = format!(in alloc; " {word:x}")?;
    Ok(text.push_str(&digits)?)
}
