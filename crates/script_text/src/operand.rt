ghost use Rattle.std.specs.Prelude.{◌≡◌, ◌≤◌, ◌∷◌, decimal, Ok, Err, IfOk, MatchResult};
ghost use Rattle.heap_model.specs.Limits.{last_register, last_index};
ghost use Rattle.script_text.specs.Operands.{after_operand, target_range, register_range, index_range};

use crate::cause::Cause;
use crate::number::read_short;
use crate::parts::Parts;
use heap_model::limits::{LAST_INDEX, LAST_REGISTER};

/// The next word as a number in the range, both ends among it.
pub fn operand(words: &mut Parts<'_>, least: u32, most: u32) -> Result<u32, Cause>
    ensures range { IfOk result (λ n. (least ≤ n) × (n ≤ most)) }
    ensures found { IfOk result (λ n. words.old ≡ decimal n ∷ words.new) }
    ensures gives { MatchResult result
        (λ _. after_operand (least, most) words.old ≡ Ok words.new)
        (λ cause. after_operand (least, most) words.old ≡ Err cause) }
{
    let Some(word) = words.next() else {
        return Err(Cause::BadNumber);
    };
    let Some(number) = read_short(word) else {
        return Err(Cause::BadNumber);
    };
    if u64::from(least) <= number && number <= u64::from(most) {
        Ok(number as u32)
    } else {
        Err(Cause::OutOfRange)
    }
}

/// A register that is written.
pub fn target(words: &mut Parts<'_>) -> Result<u8, Cause>
    ensures range { IfOk result (λ d. (1 ≤ d) × (d ≤ last_register)) }
    ensures found { IfOk result (λ d. words.old ≡ decimal d ∷ words.new) }
    ensures gives { MatchResult result
        (λ _. after_operand target_range words.old ≡ Ok words.new)
        (λ cause. after_operand target_range words.old ≡ Err cause) }
{
    Ok(operand(words, 1, LAST_REGISTER.into())? as u8)
}

/// A register that is read.
pub fn register(words: &mut Parts<'_>) -> Result<u8, Cause>
    ensures range { IfOk result (λ r. r ≤ last_register) }
    ensures found { IfOk result (λ r. words.old ≡ decimal r ∷ words.new) }
    ensures gives { MatchResult result
        (λ _. after_operand register_range words.old ≡ Ok words.new)
        (λ cause. after_operand register_range words.old ≡ Err cause) }
{
    Ok(operand(words, 0, LAST_REGISTER.into())? as u8)
}

/// The index of a field or a cell.
pub fn index(words: &mut Parts<'_>) -> Result<u32, Cause>
    ensures range { IfOk result (λ i. i ≤ last_index) }
    ensures found { IfOk result (λ i. words.old ≡ decimal i ∷ words.new) }
    ensures gives { MatchResult result
        (λ _. after_operand index_range words.old ≡ Ok words.new)
        (λ cause. after_operand index_range words.old ≡ Err cause) }
{
    operand(words, 0, LAST_INDEX)
}
