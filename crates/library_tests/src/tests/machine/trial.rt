//! What is done on a machine and what is found there, as texts.

use super::calls::{log, machine_of, word};
use super::deeds::{decimal, done};
use super::reading::{address_of, number, stretch};
use crate::tests::comparing::same;
use core_machine::{Address, Machine};
use heap_model::Entry;
use reply_text::render_entry;
use std::alloc::Global;
use std::process::Abort;
use std::str;
use std::test::Fail;

/// Each line of a trial is "DEED => FOUND". A deed is one of these:
///
/// - `SEAT COMMAND`, a whole call, and `SEAT begin COMMAND`, where nothing more is done;
/// - `PARTY step`, its due step; the collector is the party `c`; `PARTY steps N`, so many of them, of which the last is told;
/// - `PARTY due`, its due step, which isn't made;
/// - `SEAT inner CALL`, whether this inner call of a collect may be made, which is made then: `look`, `answer`, `behind SEAT` or
///   `cycle N`; and `SEAT seen`, the phase that the seat loaded last;
/// - `SEAT stores`, four due steps that store a fragment's words in their order, each where 0 was found: the fragment and
///   the words;
/// - `c turn`, a turn of the collector;
/// - `free`, how many fragments nobody has, and `phase`, the phase that the machine tells;
/// - a word, what it is and where it stands in the table: `phase word`, `answer SEAT`, `budget`, `spot`,
///   `control GROUP`, `word FRAGMENT PART` and `spine OFFSET HALF`.
///
/// Of what a party did the entries are found too that it added. Words and bits stand in hexadecimal digits. A line without a finding
/// stands for a stretch of several lines.
pub(super) fn tries(
    rt: &(impl Abort + AllocGlobal),
    sizes: (u16, u16, u8),
    lines: &[&str],
) -> Result<(), Fail> {
    let alloc = rt.alloc();
    let (groups, spine, seats) = sizes;
    let mut machine = machine_of(alloc, groups, spine, seats)?;
    tries_on(rt, &mut machine, lines)
}

/// Does what the lines say, one after the other.
fn tries_on(
    rt: &(impl Abort + AllocGlobal),
    machine: &mut Machine,
    lines: &[&str],
) -> Result<(), Fail> {
    for line in lines {
        match stretch(line) {
            Some(stretch) => finds_all(rt, machine, stretch)?,
            None => finds(rt, rt.alloc(), machine, line)?,
        }
    }
    Ok(())
}

/// Does what the lines of a stretch say, one after the other.
fn finds_all(
    rt: &(impl Abort + AllocGlobal),
    machine: &mut Machine,
    lines: &[&str],
) -> Result<(), Fail> {
    for line in lines {
        finds(rt, rt.alloc(), machine, line)?;
    }
    Ok(())
}

/// Does what the line says, and compares what comes of it with its finding.
fn finds(
    rt: &(impl Abort + AllocGlobal),
    alloc: Global,
    machine: &mut Machine,
    line: &str,
) -> Result<(), Fail> {
    let (deed, wanted) = line.split_once(" => ").ok_or("a deed has a finding")?;
    let found = found(alloc, machine, deed)?;
    same(rt, &found.as_str(), &wanted, &line);
    Ok(())
}

/// What comes of the deed.
fn found(alloc: Global, machine: &mut Machine, deed: &str) -> Result<String, Fail> {
    if let Some(number) = number_of(machine, deed) {
        return Ok(decimal(alloc, number)?);
    }
    if let Some(address) = address_of(deed) {
        return word_text(alloc, machine, address);
    }
    let (party, words) = deed.split_once(' ').ok_or("a party does something")?;
    if party == "c" {
        return told(alloc, machine, machine.heap().seats, words);
    }
    told(alloc, machine, number(party)?, words)
}

/// The number that the deed asks for, if it asks for one.
fn number_of(machine: &Machine, deed: &str) -> Option<u64> {
    match deed {
        "free" => Some(machine.free() as u64),
        "phase" => Some(machine.phase()),
        _ => None,
    }
}

/// The word at this address, and where it stands.
fn word_text(alloc: Global, machine: &Machine, address: Address) -> Result<String, Fail> {
    let (index, word) = word(machine, address)?;
    Ok(format!(in alloc; "{word:x} at {index}")?)
}

/// What comes of what the party does, and the entries that it adds.
fn told(alloc: Global, machine: &mut Machine, party: u8, words: &str) -> Result<String, Fail> {
    let before = log(machine, party)?.len();
    let mut text = done(alloc, machine, party, words)?;
    push_entries(alloc, &mut text, log(machine, party)?, before)?;
    Ok(text)
}

/// Appends the entries behind so many, each behind a semicolon where it isn't the first text.
fn push_entries(
    alloc: Global,
    text: &mut String,
    entries: &[Entry],
    before: usize,
) -> Result<(), Fail> {
    for entry in entries.iter().skip(before) {
        if !text.is_empty() {
            text.push_str("; ")?;
        }
        push_entry(alloc, text, entry)?;
    }
    Ok(())
}

fn push_entry(alloc: Global, text: &mut String, entry: &Entry) -> Result<(), Fail> {
    let line = render_entry(alloc, entry)?;
    text.push_str(str::from_utf8(&line).ok().ok_or("no text")?)?;
    Ok(())
}
