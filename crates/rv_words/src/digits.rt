//! The value of an option.
ghost use Rattle.std.specs.Prelude.{◌≡◌, ◌≤◌, IfSome};
ghost use Rattle.rv_words.specs.Reading.{number_from, value};
ghost use Rattle.rv_words.specs.Words.{greatest};

use crate::choices::Choice;

/// An option's value: 1 to 10 decimal digits, whose number is in the option's range.
pub fn value(option: Choice, digits: &[u8]) -> Option<u32>
    ensures same { result ≡ value option digits.now }
    ensures within { IfSome result (λ n. n ≤ greatest option) }
{
    if digits.is_empty() || digits.len() > 10 {
        return None;
    }
    match number(digits) {
        Some(number) if number <= greatest(option) => Some(number),
        _ => None,
    }
}

fn greatest(option: Choice) -> u32
    ensures { result ≡ greatest option }
{
    match option {
        Choice::Threads | Choice::Race => 0,
        Choice::Workers => 8,
        Choice::Judge => 2,
        Choice::Steps => 64,
        Choice::Gen => u32::MAX,
    }
}

/// The number that decimal digits write, where it is a `u32`.
fn number(digits: &[u8]) -> Option<u32>
    ensures { result ≡ number_from 0 digits.now }
{
    let mut number = 0u32;
    'digits: for digit in digits {
        match with_digit(number, *digit) {
            Some(more) => number = more,
            None => return None,
        }
    }
    Some(number)
}

/// The number with one digit more.
fn with_digit(number: u32, digit: u8) -> Option<u32>
    ensures { result ≡ Rattle.rv_words.specs.Reading.with_digit number digit }
{
    if digit < b'0' || b'9' < digit {
        return None;
    }
    let more = u64::from(number) * 10 + u64::from(digit - b'0');
    if more > u64::from(u32::MAX) {
        return None;
    }
    Some(more as u32)
}
