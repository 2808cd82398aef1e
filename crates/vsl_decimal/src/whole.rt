//! Whole numbers.

ghost use Rattle.std.specs.Prelude.{◌≡◌, ◌-◌, ◌^◌, ◌≤◌};
ghost use Rattle.vsl_decimal.specs.Whole.{whole_number};

/// Reads a whole number in a range, as 200 for `200` and `0200`: decimal digits, leading zeros too, and nothing else.
///
/// Source: this project's choice.
pub fn whole_number(text: &[u8], low: u32, high: u32) -> Option<u32>
    ensures { result ≡ whole_number low high text.now }
{
    match wide_number(text, u64::from(low), u64::from(high)) {
        Some(value) => Some(value as u32),
        None => None,
    }
}

/// Reads a whole number in a range of 64 bits, as `whole_number` does one in a range of 32. The bound leaves room for the
/// digit that passes it.
///
/// Source: this project's choice.
pub fn wide_number(text: &[u8], low: u64, high: u64) -> Option<u64>
    requires room { high ≤ 2 ^ 64 - 10 }
    ensures { result ≡ whole_number low high text.now }
{
    if text.is_empty() {
        return None;
    }
    let tenth = high / 10;
    let mut value: u64 = 0;
    for digit in text {
        if !digit.is_ascii_digit() {
            return None;
        }
        if value > tenth {
            return None;
        }
        value = 10 * value + u64::from(*digit - b'0');
    }
    if value < low {
        return None;
    }
    if value > high { None } else { Some(value) }
}
