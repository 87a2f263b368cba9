//! Values of records, and the numbers that they are made of.

use plain_data::Cells;

/// The value of a number: its words count up from it.
pub fn cells(number: u64) -> Cells {
    let mut words = [number; 32];
    for i in 0..32 {
        words[i] = number.wrapping_add(i as u64);
    }
    Cells::new(words)
}

/// A value, or none.
pub fn value(number: Option<u64>) -> Option<Cells> {
    match number {
        None => None,
        Some(number) => Some(cells(number)),
    }
}

/// The number of a value, and the greatest one where the value is of no number. `None` is no value.
pub fn number_of(value: &Option<Cells>) -> Option<u64> {
    let Some(value) = value else {
        return None;
    };
    let number = value.word(0);
    if *value == cells(number) {
        Some(number)
    } else {
        Some(u64::MAX)
    }
}

/// The value of which each word is this one.
pub fn filled(word: u64) -> Cells {
    Cells::new([word; 32])
}

/// The word that each one of a value is, and the greatest one where they differ. `None` is no value.
pub fn word_of(value: Option<Cells>) -> Option<u64> {
    let Some(value) = value else {
        return None;
    };
    let word = value.word(0);
    if value == filled(word) {
        Some(word)
    } else {
        Some(u64::MAX)
    }
}
