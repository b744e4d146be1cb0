ghost use Rattle.std.specs.Prelude.{◌≡◌, [], ◌++◌, Some, IfOk, OnOk, IfErr};
ghost use Rattle.script_text.specs.LineFaults.{command_fault};
ghost use Rattle.script_text.specs.Grammar.{IsTurnCommand};
ghost use Rattle.script_text.specs.Operands.{turn_commands, operands_fault};
ghost use Rattle.script_text.specs.Words.{turn_words};

use crate::cause::Cause;
use crate::operand::operand;
use crate::parts::Parts;
use heap_model::TurnCommand;
use heap_model::limits::MOST_TURNS;

/// The command of the collector that the next words are; no fault is looked for after them.
pub fn read_turns(words: &mut Parts<'_>) -> Result<TurnCommand, Cause>
    ensures found { IfOk result (λ c. words.old ≡ turn_words c ++ words.new) }
    ensures range { IfOk result IsTurnCommand }
    ensures rest { OnOk result (command_fault turn_commands words.old ≡ operands_fault [] words.new) }
    ensures fault { IfErr result (λ cause. command_fault turn_commands words.old ≡ Some cause) }
{
    let Some(word) = words.next() else {
        return Err(Cause::NoCommand);
    };
    match word {
        b"turns" => Ok(TurnCommand::Turns(operand(words, 0, MOST_TURNS)?)),
        b"cycle" => Ok(TurnCommand::Cycle),
        _ => Err(Cause::NoCommand),
    }
}
