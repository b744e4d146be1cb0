ghost use Rattle.std.specs.Prelude.{◌≡◌, [], ◌∷◌, ◌++◌, decimal, OnOk};
ghost use Rattle.script_text.specs.Text.{words_with_spaces};
ghost use Rattle.script_text.specs.Words.{board_words, command_words, heap_words, turn_words};

use crate::preamble::Preamble;
use heap_model::{Command, Memory, TurnCommand};
use itoa::Buffer;

/// Appends a space and the word.
pub fn push_word(text: &mut Vec<u8>, word: &[u8]) -> Result<(), Memory>
    ensures { OnOk result (text.new.items ≡ text.old.items ++ 32 ∷ word.now) }
{
    text.push(b' ')?;
    text.extend_from_slice(word)?;
    Ok(())
}

/// Appends the number in decimal digits.
pub fn push_digits(text: &mut Vec<u8>, number: u64) -> Result<(), Memory>
    ensures { OnOk result (text.new.items ≡ text.old.items ++ decimal number) }
{
    text.extend_from_slice(Buffer::new().format(number).as_bytes())?;
    Ok(())
}

/// Appends a space and the number in decimal digits.
pub fn push_number(text: &mut Vec<u8>, number: u64) -> Result<(), Memory>
    ensures { OnOk result (text.new.items ≡ text.old.items ++ 32 ∷ decimal number) }
{
    text.push(b' ')?;
    push_digits(text, number)
}

/// Appends a space and the word, and a space and the number.
pub fn push_named(text: &mut Vec<u8>, word: &[u8], number: u64) -> Result<(), Memory>
    ensures { OnOk result
        (text.new.items ≡ text.old.items ++ words_with_spaces (word.now ∷ decimal number ∷ [])) }
{
    push_word(text, word)?;
    push_number(text, number)
}

/// Appends the words of a command as it stands in a script, each after a space.
pub fn push_command(text: &mut Vec<u8>, command: &Command) -> Result<(), Memory>
    ensures { OnOk result (text.new.items ≡ text.old.items ++ words_with_spaces (command_words command.now)) }
{
    match *command {
        Command::New { d, fields } => {
            push_word(text, b"new")?;
            push_number(text, d.into())?;
            push_number(text, fields.into())
        }
        Command::Array { d, cells } => {
            push_word(text, b"array")?;
            push_number(text, d.into())?;
            push_number(text, cells.into())
        }
        Command::Get { d, r, i } => {
            push_word(text, b"get")?;
            push_number(text, d.into())?;
            push_number(text, r.into())?;
            push_number(text, i.into())
        }
        Command::Set { r, i, v } => {
            push_word(text, b"set")?;
            push_number(text, r.into())?;
            push_number(text, i.into())?;
            push_number(text, v.into())
        }
        Command::Cas { r, i, a, v } => {
            push_word(text, b"cas")?;
            push_number(text, r.into())?;
            push_number(text, i.into())?;
            push_number(text, a.into())?;
            push_number(text, v.into())
        }
        Command::Num { d, n } => {
            push_word(text, b"num")?;
            push_number(text, d.into())?;
            push_number(text, n.into())
        }
        Command::Nil { d } => {
            push_word(text, b"nil")?;
            push_number(text, d.into())
        }
        Command::Copy { d, r } => {
            push_word(text, b"copy")?;
            push_number(text, d.into())?;
            push_number(text, r.into())
        }
        Command::Same { a, b } => {
            push_word(text, b"same")?;
            push_number(text, a.into())?;
            push_number(text, b.into())
        }
        Command::Len { r } => {
            push_word(text, b"len")?;
            push_number(text, r.into())
        }
        Command::Poll => push_word(text, b"poll"),
        Command::Collect => push_word(text, b"collect"),
        Command::Leave => push_word(text, b"leave"),
    }
}

/// Appends the words of a command of the collector, each after a space.
pub fn push_turns(text: &mut Vec<u8>, command: &TurnCommand) -> Result<(), Memory>
    ensures { OnOk result (text.new.items ≡ text.old.items ++ words_with_spaces (turn_words command.now)) }
{
    match *command {
        TurnCommand::Turns(n) => {
            push_word(text, b"turns")?;
            push_number(text, n.into())
        }
        TurnCommand::Cycle => push_word(text, b"cycle"),
    }
}

/// Appends the words of a heap line but for the first, each after a space.
pub fn push_heap(text: &mut Vec<u8>, preamble: &Preamble) -> Result<(), Memory>
    ensures { OnOk result (text.new.items ≡ text.old.items ++ words_with_spaces (heap_words preamble.now)) }
{
    let heap = preamble.heap;
    push_number(text, heap.groups.into())?;
    push_number(text, heap.spine.into())?;
    push_number(text, heap.seats.into())?;
    push_board(text, preamble.version, heap.board)
}

/// Appends the number of the board's fields, where the version has one.
fn push_board(text: &mut Vec<u8>, version: u8, board: u8) -> Result<(), Memory>
    ensures { OnOk result (text.new.items ≡ text.old.items ++ words_with_spaces (board_words version board)) }
{
    if version == 2 {
        push_number(text, board.into())
    } else {
        Ok(())
    }
}
