//! Numbers of 64 bits in decimal digits.

ghost use Rattle.std.specs.Prelude.{◌≡◌, option_map};
ghost use Rattle.txn_script.specs.Ahead.{words_ahead, number_with, number_before};
ghost use Rattle.txn_script.specs.LineReading.{left, number_at, digit_behind};

use crate::words::Words;

/// The number of 64 bits that the first word spells, without a sign or a leading zero, and the words behind it.
pub fn number_at(bytes: &[u8]) -> Option<(u64, Words)>
    ensures { option_map (λ read. (read.0, left read.1)) result ≡ number_at (words_ahead bytes.now) }
{
    let (first, rest) = bytes.split_first()?;
    if *first == b'0' {
        return ended(0, rest);
    }
    let value = digit_behind(0, *first)?;
    number_with(value, rest)
}

/// The value with the digits of the first word behind it, and the words behind that.
fn number_with(first: u64, bytes: &[u8]) -> Option<(u64, Words)>
    ensures { option_map (λ read. (read.0, left read.1)) result ≡ number_with first (words_ahead bytes.now) }
{
    let mut value = first;
    for i in 0..bytes.len() {
        let Some(longer) = digit_behind(value, bytes[i]) else {
            return ended(value, &bytes[i..]);
        };
        value = longer;
    }
    ended(value, &[])
}

/// The number, where it ends before these bytes.
fn ended(value: u64, bytes: &[u8]) -> Option<(u64, Words)>
    ensures { option_map (λ read. (read.0, left read.1)) result ≡ number_before value bytes.now }
{
    let words = Words::behind(bytes)?;
    Some((value, words))
}

/// The value with one more digit behind it.
fn digit_behind(value: u64, byte: u8) -> Option<u64>
    ensures { result ≡ digit_behind value byte }
{
    if !byte.is_ascii_digit() {
        return None;
    }
    let digit = (byte - b'0') as u64;
    // Most numbers are short; these need no further test.
    if value < 100_000_000 {
        Some(value * 10 + digit)
    } else {
        value.checked_mul(10)?.checked_add(digit)
    }
}
