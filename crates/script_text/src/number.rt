ghost use Rattle.std.specs.Prelude.{◌≡◌, ◌^◌, ◌↔◌, decimal, IfSome, IsTrue};
ghost use Rattle.script_text.specs.Numbers.{BeginsNumber, number_below, number_of};

use std::str;

/// One more than the greatest number of ten digits.
pub const TEN_DIGITS: u64 = 10_000_000_000;

/// Whether no plus stands first, and no zero before other digits.
fn begins_number(word: &[u8]) -> bool
    ensures { IsTrue result ↔ BeginsNumber word.now }
{
    match word {
        [] => false,
        [first] => *first != b'+',
        [first, ..] => *first != b'+' && *first != b'0',
    }
}

/// The number that the word is, in decimal digits with no zero before others.
pub fn read_number(word: &[u8]) -> Option<u64>
    ensures { result ≡ number_below (2 ^ 64) word.now }
{
    // (most numbers have one digit, whose word is text without a look at it)
    if let [digit @ b'0'..=b'9'] = word {
        return Some(u64::from(*digit - b'0'));
    }
    if !begins_number(word) {
        return None;
    }
    let Ok(text) = str::from_utf8(word) else {
        return None;
    };
    text.parse::<u64>().ok()
}

/// The same of a number of at most ten digits.
pub fn read_short(word: &[u8]) -> Option<u64>
    ensures value { result ≡ number_of word.now }
    ensures spelled { IfSome result (λ n. word.now ≡ decimal n) }
{
    let Some(number) = read_number(word) else {
        return None;
    };
    if number < TEN_DIGITS {
        Some(number)
    } else {
        None
    }
}
