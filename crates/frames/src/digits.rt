//! Digits, and the numbers that they say, most significant digit first.
ghost use Rattle.std.specs.Prelude.{◌≡◌, ◌^◌, ◌<◌, ◌≤◌, length};
ghost use Rattle.frames.specs.Digits.{digit_of, is_digit, value, number, digit_for, digits};

/// The value of a digit: none of another character.
// Not by `to_digit` or `from_str_radix`: these take small letters too.
pub fn digit(byte: u8) -> Option<u8>
    ensures { result ≡ digit_of byte }
{
    match byte as char {
        '0'..='9' => Some(byte - b'0'),
        'A'..='F' => Some(byte - b'A' + 10),
        _ => None,
    }
}

pub(crate) fn is_digit(byte: u8) -> bool
    ensures { result ≡ is_digit byte }
{
    digit(byte).is_some()
}

// The value of a digit, and 0 of another character.
fn digit_value(byte: u8) -> u8
    ensures value { result ≡ value byte }
    ensures small { result < 16 }
{
    digit(byte).unwrap_or(0)
}

/// The number that digits say.
#[tactic(auto, using(crate::proofs::Numbers::digit_more, crate::proofs::Numbers::part_lt))]
pub(crate) fn number(digits: &[u8]) -> u32
    requires { length digits.now ≤ 8 }
    ensures said { result ≡ number digits.now }
    ensures fits { result < 16 ^ length digits.now }
{
    let mut number = 0;
    for &digit in digits {
        number = number * 16 + digit_value(digit) as u32;
    }
    number
}

// The character of a digit. Not by `{:X}`, since the line goes into a lent buffer, and a formatter wants a writer.
fn digit_char(value: u8) -> u8
    requires { value < 16 }
    ensures { result ≡ digit_for value }
{
    if value < 10 {
        b'0' + value
    } else {
        b'A' + (value - 10)
    }
}

/// Writes a number by as many digits as the field has room for.
#[tactic(auto, using(crate::proofs::Buffers::digit_put, crate::proofs::Buffers::rest_fits))]
pub(crate) fn put_digits(field: &mut [u8], number: u32)
    requires { number < 16 ^ length field.old }
    ensures { field.new ≡ digits (length field.old) number }
{
    // The last digit first, and then all turned round: no proof knows what is written through `iter_mut().rev()`.
    let mut rest = number;
    for digit in field.iter_mut() {
        *digit = digit_char((rest % 16) as u8);
        rest /= 16;
    }
    field.reverse();
}
