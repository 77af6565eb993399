//! Numbers written in decimal digits.

ghost use Rattle.std.specs.Prelude.{◌≡◌, ◌<◌, ◌^◌};
ghost use Rattle.std.specs.Option.{SomeIff};
ghost use Rattle.text_tokens.specs.Tokens.{number_of, with_digit};

/// The number with one more digit. None exactly where it is above 2^128 - 1.
fn with_digit(value: u128, digit: u8) -> Option<u128>
    ensures { SomeIff result (with_digit value digit < 2 ^ 128) (with_digit value digit) }
{
    let units = digit.saturating_sub(b'0') as u128;
    match value.checked_mul(10) {
        Some(tens) => tens.checked_add(units),
        None => None,
    }
}

/// The number that the digits write. None exactly where it is above 2^128 - 1.
pub fn number_value(digits: &[u8]) -> Option<u128>
    ensures { SomeIff result (number_of digits.now < 2 ^ 128) (number_of digits.now) }
{
    let mut value = 0;
    for digit in digits {
        match with_digit(value, *digit) {
            Some(longer) => value = longer,
            None => return None,
        }
    }
    Some(value)
}
