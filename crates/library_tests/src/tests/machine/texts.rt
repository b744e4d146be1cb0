//! The texts of steps and of turns.

use core_machine::{
    AccessStep, CopyingStep, HandshakeStep, MakingStep, SpineStep, Step, TurningStep,
};
use heap_model::Turn;
use std::alloc::{AllocError, Global};

/// A text with places for numbers, `#` for decimal digits and `%` for hexadecimal ones, and the numbers that stand there in their order; those behind the last place are 0.
type Filled = (&'static str, [u64; 4]);

/// A step and the word that it found. Bits and words stand in hexadecimal digits.
pub(super) fn step_text(alloc: Global, step: &Step, found: u64) -> Result<String, AllocError> {
    let mut text = due_text(alloc, step)?;
    push_filled(alloc, &mut text, (" found %", [found, 0, 0, 0]))?;
    Ok(text)
}

/// A step.
pub(super) fn due_text(alloc: Global, step: &Step) -> Result<String, AllocError> {
    filled(alloc, due_words(step))
}

/// What a turn of the collector came to.
pub(super) fn turn_text(alloc: Global, turn: &Turn) -> Result<String, AllocError> {
    filled(alloc, turn_words(turn))
}

fn filled(alloc: Global, words: Filled) -> Result<String, AllocError> {
    let mut text = String::new(alloc);
    push_filled(alloc, &mut text, words)?;
    Ok(text)
}

/// Appends the text with its numbers.
fn push_filled(
    alloc: Global,
    text: &mut String,
    (words, numbers): Filled,
) -> Result<(), AllocError> {
    let mut rest = numbers.iter();
    for letter in words.chars() {
        match letter {
            '#' => push_decimal(alloc, text, rest.next())?,
            '%' => push_hexadecimal(alloc, text, rest.next())?,
            letter => text.push(letter)?,
        }
    }
    Ok(())
}

fn push_decimal(alloc: Global, text: &mut String, number: Option<&u64>) -> Result<(), AllocError> {
    let Some(number) = number else {
        return text.push('?');
    };
    let digits = format!(in alloc; "{number}")?;
    text.push_str(&digits)
}

fn push_hexadecimal(
    alloc: Global,
    text: &mut String,
    number: Option<&u64>,
) -> Result<(), AllocError> {
    let Some(number) = number else {
        return text.push('?');
    };
    let digits = format!(in alloc; "{number:x}")?;
    text.push_str(&digits)
}

fn due_words(step: &Step) -> Filled {
    match *step {
        Step::PollLoad => ("load the phase", [0, 0, 0, 0]),
        Step::Making(step) => making_words(step),
        Step::Access(step) => access_words(step),
        Step::Spine(step) => spine_words(step),
        Step::Handshake(step) => handshake_words(step),
        Step::Copying(step) => copying_words(step),
        Step::Turning(step) => turning_words(step),
    }
}

fn making_words(step: MakingStep) -> Filled {
    match step {
        MakingStep::Claim { group } => ("claim #", [group.into(), 0, 0, 0]),
        MakingStep::GiveBack { group, bits } => (
            "give back # %",
            [group.into(), bits.into(), 0, 0],
        ),
        MakingStep::NewbornStore {
            fragment,
            part,
            word,
        } => ("store #.# %", [fragment.into(), part.into(), word, 0]),
        MakingStep::Birth { group, bits, black } => {
            let words = if black {
                "birth # % black"
            } else {
                "birth # % white"
            };
            (words, [group.into(), bits.into(), 0, 0])
        }
        MakingStep::LastBirth { group, bits, black } => {
            let words = if black {
                "last birth # % black"
            } else {
                "last birth # % white"
            };
            (words, [group.into(), bits.into(), 0, 0])
        }
    }
}

fn access_words(step: AccessStep) -> Filled {
    match step {
        AccessStep::WalkLoad { fragment } => ("walk #", [fragment.into(), 0, 0, 0]),
        AccessStep::NameLoad { head } => ("name #", [head.into(), 0, 0, 0]),
        AccessStep::GetLoad { fragment, part } => ("get #.#", [fragment.into(), part.into(), 0, 0]),
        AccessStep::OldLoad { fragment, part } => ("old #.#", [fragment.into(), part.into(), 0, 0]),
        AccessStep::Shade { fragment } => ("shade #", [fragment.into(), 0, 0, 0]),
        AccessStep::Swap {
            fragment,
            part,
            word,
        } => ("swap #.# %", [fragment.into(), part.into(), word, 0]),
        AccessStep::CompareSwap {
            old,
            new,
            fragment,
            part,
        } => ("compare #.# % %", [fragment.into(), part.into(), old, new]),
    }
}

fn spine_words(step: SpineStep) -> Filled {
    match step {
        SpineStep::BudgetAdd { words } => ("grant #", [words.into(), 0, 0, 0]),
        SpineStep::BudgetTakeBack { words } => ("take back #", [words.into(), 0, 0, 0]),
        SpineStep::SpotClaim { words } => ("place #", [words.into(), 0, 0, 0]),
        SpineStep::SpineStore {
            half,
            offset,
            fragment,
        } => (
            "list #.# #",
            [half.into(), offset.into(), fragment.into(), 0],
        ),
        SpineStep::AddressLoad { sentinel } => ("locate #", [sentinel.into(), 0, 0, 0]),
        SpineStep::WordLoad { half, offset } => ("index #.#", [half.into(), offset.into(), 0, 0]),
    }
}

fn handshake_words(step: HandshakeStep) -> Filled {
    match step {
        HandshakeStep::AnswerStore { seat, phase } => ("answer # #", [seat.into(), phase, 0, 0]),
        HandshakeStep::LeaveStore { seat } => ("leave #", [seat.into(), 0, 0, 0]),
    }
}

fn copying_words(step: CopyingStep) -> Filled {
    match step {
        CopyingStep::FlipStore { half } => ("flip #", [half.into(), 0, 0, 0]),
        CopyingStep::CopyClaim { words } => ("copy #", [words.into(), 0, 0, 0]),
        CopyingStep::CopyLoad { half, offset } => ("read #.#", [half.into(), offset.into(), 0, 0]),
        CopyingStep::CopyStore { half, offset, word } => {
            ("write #.# %", [half.into(), offset.into(), word, 0])
        }
        CopyingStep::SwingStore { sentinel, spot } => ("swing # %", [sentinel.into(), spot, 0, 0]),
        CopyingStep::BudgetReturn { words } => ("return #", [words.into(), 0, 0, 0]),
    }
}

fn turning_words(step: TurningStep) -> Filled {
    match step {
        TurningStep::LookLoad { seat } => ("look #", [seat.into(), 0, 0, 0]),
        TurningStep::AdvanceStore { phase } => ("advance #", [phase, 0, 0, 0]),
        TurningStep::GroupLoad { group } => ("group #", [group.into(), 0, 0, 0]),
        TurningStep::ScanLoad { fragment, part } => (
            "scan #.#",
            [fragment.into(), part.into(), 0, 0],
        ),
        TurningStep::MarkShade { fragment } => ("mark #", [fragment.into(), 0, 0, 0]),
        TurningStep::Blacken { fragment } => ("blacken #", [fragment.into(), 0, 0, 0]),
        TurningStep::MetaLoad { fragment } => ("meta #", [fragment.into(), 0, 0, 0]),
        TurningStep::Free { group, bits } => ("free # %", [group.into(), bits.into(), 0, 0]),
        TurningStep::Clear { group } => ("clear #", [group.into(), 0, 0, 0]),
        TurningStep::EndAdvance { phase, kept } => ("end # kept #", [phase, kept.into(), 0, 0]),
    }
}

fn turn_words(turn: &Turn) -> Filled {
    match *turn {
        Turn::Stepped => ("stepped", [0, 0, 0, 0]),
        Turn::Waits {
            seat,
            answered,
            phase,
        } => ("waits for # at # of #", [seat.into(), answered, phase, 0]),
        Turn::Ended { cycle, kept } => ("ended # kept #", [cycle, kept.into(), 0, 0]),
    }
}
