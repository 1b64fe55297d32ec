ghost use Rattle.std.specs.Prelude.{◌≡◌, ◌≤◌, true, length};
ghost use Rattle.std.specs.Char.{is_ascii_digit};
ghost use Rattle.std.specs.List.{list_all};
ghost use Rattle.std.specs.Str.Parse.{digits_value};
ghost use Rattle.audit_text.specs.Number.{number_in_text};

// The most decimal digits of a number.
const NUMBER_DIGITS: usize = 20;

/// Parses the number below 2^64 that 1 to 20 decimal digits denote.
pub fn number_in_text(text: &[u8]) -> Option<u64>
    ensures { result ≡ number_in_text text.now }
{
    if text.is_empty() || text.len() > NUMBER_DIGITS || !is_decimal(text) {
        return None;
    }
    let value = value_of(text);
    if value > u128::from(u64::MAX) {
        return None;
    }
    Some(value as u64)
}

pub(crate) fn is_decimal(text: &[u8]) -> bool
    ensures { result ≡ list_all is_ascii_digit text.now }
{
    text.iter().all(|byte| byte.is_ascii_digit())
}

// The value of decimal digits.
pub(crate) fn value_of(digits: &[u8]) -> u128
    requires few { length digits.now ≤ NUMBER_DIGITS }
    requires decimal { list_all is_ascii_digit digits.now ≡ true }
    ensures { result ≡ digits_value 10 digits.now }
{
    let mut value = 0;
    for digit in digits {
        value = 10 * value + u128::from(digit - b'0');
    }
    value
}
