//! How the lines of a trial are read.

use core_machine::Address;
use heap_model::{CollectReply, Command, Inner};
use script_text::{Form, Line, read_script};
use std::alloc::Global;
use std::test::Fail;

/// The lines of a stretch: how the phases up to that of marking begin and are answered by the only seat, in the first cycle and in the second,
/// and by both of two seats those up to black births.
pub(super) fn stretch(line: &str) -> Option<&'static [&'static str]> {
    match line {
        "three phases" => Some(&[
            "c steps 2 => advance 1 found 0; c phase 1",
            "0 poll => 0 answers 1; 0 poll = 1",
            "c steps 2 => advance 2 found 1; c phase 2",
            "0 poll => 0 answers 2; 0 poll = 2",
            "c steps 2 => advance 3 found 2; c phase 3",
            "0 poll => 0 answers 3; 0 poll = 3",
        ]),
        "three phases more" => Some(&[
            "0 poll => 0 answers 7; 0 poll = 7",
            "c steps 2 => advance 8 found 7; c phase 8",
            "0 poll => 0 answers 8; 0 poll = 8",
            "c steps 2 => advance 9 found 8; c phase 9",
            "0 poll => 0 answers 9; 0 poll = 9",
            "c steps 2 => advance 10 found 9; c phase 10",
            "0 poll => 0 answers 10; 0 poll = 10",
        ]),
        "two phases of a pair" => Some(&[
            "c steps 3 => advance 1 found 0; c phase 1",
            "0 poll => 0 answers 1; 0 poll = 1",
            "1 poll => 1 answers 1; 1 poll = 1",
            "c steps 3 => advance 2 found 1; c phase 2",
            "0 poll => 0 answers 2; 0 poll = 2",
            "1 poll => 1 answers 2; 1 poll = 2",
        ]),
        _ => None,
    }
}

/// The command that these words are in a script, where no seat leaves.
pub(super) fn command_of(alloc: Global, words: &str) -> Result<Command, Fail> {
    if words == "leave" {
        return Ok(Command::Leave);
    }
    let text = format!(in alloc; "schism 1\nheap 1 0 1\n0 {words}\n")?;
    let script = read_script(alloc, text.as_bytes(), Form::Play)?;
    match script.lines.as_slice().first() {
        Some(Line::Seat { command, .. }) => Ok(*command),
        _ => Err("no command".into()),
    }
}

/// The inner call of a collect that these words name.
pub(super) fn inner_of(words: &str) -> Option<Inner> {
    match words {
        "look" => return Some(Inner::Look),
        "answer" => return Some(Inner::Answer),
        _ => (),
    }
    let (kind, number) = words.split_once(' ')?;
    match kind {
        "behind" => Some(Inner::Behind {
            seat: number.parse().ok()?,
        }),
        "cycle" => Some(Inner::Note(CollectReply::Cycle(number.parse().ok()?))),
        _ => None,
    }
}

/// The word of the table that these words name.
pub(super) fn address_of(words: &str) -> Option<Address> {
    match words {
        "phase word" => return Some(Address::Phase),
        "budget" => return Some(Address::Budget),
        "spot" => return Some(Address::Spot),
        _ => (),
    }
    let (kind, place) = words.split_once(' ')?;
    let (first, second) = place.split_once(' ').unwrap_or((place, "0"));
    numbered(kind, first.parse().ok()?, second.parse().ok()?)
}

/// The address of this kind with these numbers, of which some kinds have only the first.
fn numbered(kind: &str, first: u16, second: u8) -> Option<Address> {
    match kind {
        "answer" => u8::try_from(first).ok().map(Address::Answer),
        "control" => Some(Address::Control(first)),
        "word" => Some(Address::Word {
            fragment: first,
            part: second,
        }),
        "spine" => Some(Address::Spine {
            half: second,
            offset: first.into(),
        }),
        _ => None,
    }
}

/// The number of a party or of steps.
pub(super) fn number(word: &str) -> Result<u8, Fail> {
    Ok(word.parse::<u8>().ok().ok_or("a small number")?)
}
