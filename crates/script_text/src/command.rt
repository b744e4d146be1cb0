ghost use Rattle.std.specs.Prelude.{◌≡◌, ◌≢◌, true, [], ◌∷◌, ◌++◌, Some, IfOk, OnOk, IfErr};
ghost use Rattle.script_text.specs.declared.cause.Cause.TheVariants.{TooManyWords};
ghost use Rattle.script_text.specs.declared.command_set.CommandSet.{CommandSet as ASet};
ghost use Rattle.script_text.specs.Commands.{has_command};
ghost use Rattle.script_text.specs.LineFaults.{command_fault, seat_command_fault};
ghost use Rattle.script_text.specs.Grammar.{IsScripted};
ghost use Rattle.script_text.specs.Names.{name_text};
ghost use Rattle.script_text.specs.Operands.{commands, operands_fault};
ghost use Rattle.script_text.specs.Words.{command_words};

use crate::cause::Cause;
use crate::command_set::CommandSet;
use crate::name::{Name, read_name};
use crate::operand::{index, operand, register, target};
use crate::parts::Parts;
use heap_model::Command;
use heap_model::limits::{MOST_CELLS, MOST_FIELDS, NUMBER_LIMIT};

/// The command of this name, with the next words as its operands.
#[tactic(auto, using(crate::proofs::OperandCauses::after_operand_early))]
pub fn operands(name: Name, words: &mut Parts<'_>) -> Result<Command, Cause>
    ensures found { IfOk result (λ c. name_text name ∷ words.old ≡ command_words c ++ words.new) }
    // It is one that each text with a command of this name may have.
    ensures range { (has : ASet) → has_command has (name_text name) ≡ true →
        IfOk result (IsScripted has) }
    ensures rest { OnOk result
        (command_fault commands (name_text name ∷ words.old) ≡ operands_fault [] words.new) }
    ensures fault { IfErr result
        (λ cause. command_fault commands (name_text name ∷ words.old) ≡ Some cause) }
    // Words after the last operand are no fault here.
    ensures early { IfErr result (λ cause. cause ≢ TooManyWords) }
{
    match name {
        Name::New => {
            let d = target(words)?;
            let fields = operand(words, 1, MOST_FIELDS.into())? as u16;
            Ok(Command::New { d, fields })
        }
        Name::Array => {
            let d = target(words)?;
            let cells = operand(words, 1, MOST_CELLS.into())? as u16;
            Ok(Command::Array { d, cells })
        }
        Name::Get => {
            let d = target(words)?;
            let r = register(words)?;
            let i = index(words)?;
            Ok(Command::Get { d, r, i })
        }
        Name::Set => {
            let r = register(words)?;
            let i = index(words)?;
            let v = register(words)?;
            Ok(Command::Set { r, i, v })
        }
        Name::Cas => {
            let r = register(words)?;
            let i = index(words)?;
            let expected = register(words)?;
            let v = register(words)?;
            Ok(Command::Cas {
                r,
                i,
                a: expected,
                v,
            })
        }
        Name::Num => {
            let d = target(words)?;
            let n = operand(words, 0, NUMBER_LIMIT - 1)?;
            Ok(Command::Num { d, n })
        }
        Name::Nil => Ok(Command::Nil { d: target(words)? }),
        Name::Copy => {
            let d = target(words)?;
            let r = register(words)?;
            Ok(Command::Copy { d, r })
        }
        Name::Same => {
            let a = register(words)?;
            let b = register(words)?;
            Ok(Command::Same { a, b })
        }
        Name::Len => Ok(Command::Len {
            r: register(words)?,
        }),
        Name::Poll => Ok(Command::Poll),
        Name::Collect => Ok(Command::Collect),
    }
}

/// The command of a seat that the next words are, in a text that has these; no fault is looked for after them.
pub fn read_command(words: &mut Parts<'_>, has: CommandSet) -> Result<Command, Cause>
    ensures found { IfOk result (λ c. words.old ≡ command_words c ++ words.new) }
    ensures range { IfOk result (IsScripted has) }
    ensures rest { OnOk result (seat_command_fault has words.old ≡ operands_fault [] words.new) }
    ensures fault { IfErr result (λ cause. seat_command_fault has words.old ≡ Some cause) }
{
    let Some(word) = words.next() else {
        return Err(Cause::NoCommand);
    };
    let Some(name) = read_name(word) else {
        return Err(Cause::NoCommand);
    };
    if !has.has(name) {
        return Err(Cause::NoCommand);
    }
    operands(name, words)
}
