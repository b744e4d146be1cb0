ghost use Rattle.std.specs.Prelude.{◌≡◌, ◌≤◌, ℕ, decimal, IfNone, IfSome};

use script_text::read_number;

/// The number that the word is, in the range with both ends.
pub fn number_in(word: &str, least: u32, most: u32) -> Option<u32>
    ensures some { IfSome result (λ n. (word.now ≡ decimal n) × (least ≤ n) × (n ≤ most)) }
    ensures none { IfNone result ((n : ℕ) → word.now ≡ decimal n → least ≤ n → n ≤ most → ⊥) }
{
    let Some(number) = read_number(word.as_bytes()) else {
        return None;
    };
    if u64::from(least) <= number && number <= u64::from(most) {
        Some(number as u32)
    } else {
        None
    }
}
