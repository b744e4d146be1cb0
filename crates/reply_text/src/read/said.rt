ghost use Rattle.std.specs.Prelude.{◌≡◌, ℕ, ◌∷◌, ◌++◌, None, Some, codes, IfOk, MatchResult};
ghost use Rattle.heap_model.specs.Command.{IsCommand};
ghost use Rattle.heap_model.specs.declared.entry.Entry.TheVariants as entries;
ghost use Rattle.script_text.specs.Words.{command_words};
ghost use Rattle.reply_text.specs.read.Tokens.{ReadsAs};
ghost use Rattle.reply_text.specs.read.Commands.{command_at};
ghost use Rattle.reply_text.specs.write.Entries.{reply_words};
ghost use Rattle.reply_text.specs.read.EntryWords.{said_at};
ghost use Rattle.reply_text.specs.Replies.{IsReply};
ghost use Rattle.reply_text.specs.Written.{IsSpelled};

use crate::read::answers::read_reply;
use crate::read::misspelled::Misspelled;
use crate::read::tokens::literal;
use heap_model::{Command, Reply};
use script_text::{CommandSet, Parts, operands, read_name};

/// The command that begins with this word, in a history of this version.
fn read_command(word: &[u8], words: &mut Parts<'_>, version: u8) -> Result<Command, Misspelled>
    ensures found { IfOk result
        (λ command. word.now ∷ words.old ≡ command_words command ++ words.new) }
    ensures range { IfOk result IsCommand }
    ensures spelled { IfOk result (IsSpelled version) }
    ensures gives { ReadsAs result (command_at version word.now words.old) words.new }
{
    if word == b"leave".as_slice() {
        return Ok(Command::Leave);
    }
    let Some(name) = read_name(word) else {
        return Err(Misspelled);
    };
    if !CommandSet::of_version(version).has(name) {
        return Err(Misspelled);
    }
    match operands(name, words) {
        Ok(command) => Ok(command),
        Err(_) => Err(Misspelled),
    }
}

/// The command that begins with this word, and its reply.
pub fn read_said(
    word: &[u8],
    words: &mut Parts<'_>,
    version: u8,
) -> Result<(Command, Reply), Misspelled>
    ensures found { IfOk result
        (λ said. word.now ∷ words.old ≡ command_words said.0 ++ codes "=" ∷ (reply_words said.1 ++ words.new)) }
    ensures range { IfOk result
        (λ said. IsCommand said.0 × IsReply said.0 said.1 × IsSpelled version said.0) }
    ensures gives { (seat : ℕ) → MatchResult result
        (λ said. said_at version seat word.now words.old ≡ Some (entries.Said seat said.0 said.1, words.new))
        (λ _. said_at version seat word.now words.old ≡ None) }
{
    let command = read_command(word, words, version)?;
    literal(words, b"=")?;
    let reply = read_reply(words, &command)?;
    Ok((command, reply))
}
