// Numbers.

ghost use Rattle.std.specs.Prelude.{◌≡◌, ◌*◌, ◌+◌, ◌<◌, ◌≤◌, ◌^◌, IsTrue, MatchOption, slice_index, length, drop};
ghost use Rattle.std.specs.Char.{is_ascii_digit, is_ascii_hexdigit, digit_value};
ghost use Rattle.std.specs.List.{list_all};
ghost use Rattle.zir_lex.specs.Classes.{number_of};
ghost use Rattle.zir_lex.specs.Fronts.{Reads, ReadsNumber, begins_hexadecimal};

use crate::classes::{decimal_len, hexadecimal_len, is_word_byte};
use crate::front::{Front, FrontError};
use crate::token::Lexeme;

/// The greatest number that a text may write.
const GREATEST: u64 = 1 << 63;

/// What a decimal or hexadecimal digit counts.
fn digit_value(digit: u8) -> u64
    requires { IsTrue (is_ascii_hexdigit digit) }
    ensures value { result ≡ digit_value digit }
    ensures below { result < 16 }
{
    let value = match digit {
        b'0'..=b'9' => digit - b'0',
        b'a'..=b'f' => digit - b'a' + 10,
        _ => digit - b'A' + 10,
    };
    value as u64
}

/// The number with one digit more, unless it is above 2^63.
fn appended(base: u64, value: u64, digit: u64) -> Option<u64>
    requires base { base ≤ 16 }
    requires value { value ≤ 2 ^ 63 }
    requires digit { digit < 16 }
    ensures { MatchOption result
        (2 ^ 63 < value * base + digit)
        (λ next. (next ≡ value * base + digit) × (next ≤ 2 ^ 63)) }
{
    let next = value as u128 * base as u128 + digit as u128;
    if next > GREATEST as u128 {
        return None;
    }
    Some(next as u64)
}

/// The number that the digits spell, unless it is above 2^63.
fn value_of(base: u64, digits: &[u8]) -> Option<u64>
    requires base { (0 < base) × (base ≤ 16) }
    requires digits { IsTrue (list_all is_ascii_hexdigit digits.now) }
    ensures { MatchOption result
        (2 ^ 63 < number_of base digits.now)
        (λ value. (value ≡ number_of base digits.now) × (value ≤ 2 ^ 63)) }
{
    let mut value: u64 = 0;
    for digit in digits {
        value = appended(base, value, digit_value(*digit))?;
    }
    Some(value)
}

/// Whether a text begins with `0x` and a hexadecimal digit.
fn is_hexadecimal(text: &[u8]) -> bool
    ensures { result ≡ begins_hexadecimal text.now }
{
    text.len() > 2 && text[0] == b'0' && text[1] == b'x' && text[2].is_ascii_hexdigit()
}

/// The number of these digits, where the spelling takes `len` bytes of the text.
fn number_within(text: &[u8], len: usize, base: u64, digits: &[u8]) -> Result<Front, FrontError>
    requires len { len ≤ length text.now }
    requires base { (0 < base) × (base ≤ 16) }
    requires digits { IsTrue (list_all is_ascii_hexdigit digits.now) }
    ensures { ReadsNumber result (number_of base digits.now) len (drop len text.now) }
{
    if len < text.len() && is_word_byte(text[len]) {
        return Err(FrontError::BadNumber);
    }
    match value_of(base, digits) {
        Some(value) => Ok(Front {
            lexeme: Some(Lexeme::Int(value)),
            len,
        }),
        None => Err(FrontError::BadNumber),
    }
}

/// The number at the front of a text that begins with a digit.
pub fn read_number(text: &[u8]) -> Result<Front, FrontError>
    requires some { 0 < length text.now }
    requires digit { IsTrue (is_ascii_digit (slice_index text.now 0)) }
    ensures { Reads result text.now }
{
    if is_hexadecimal(text) {
        let behind = &text[2..];
        let len = hexadecimal_len(behind);
        number_within(text, len + 2, 16, &behind[..len])
    } else {
        let len = decimal_len(text);
        number_within(text, len, 10, &text[..len])
    }
}
