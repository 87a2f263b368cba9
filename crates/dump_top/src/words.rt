//! The words: how many dumps, and the words of the run.

ghost use Rattle.std.specs.Prelude.{◌≡◌, ℕ, ◌≤◌, true, false, [], map, drop, decimal, string_bytes, All, Any, IfOk, IfErr, IfSome, IfNone};
ghost use Rattle.std.specs.Str.{bytes_eq};
ghost use Rattle.dump_top.specs.Words.{AreTaken, AsksFor, IsBarred, IsOption, NoneBelow, RefusesHere};

use itoa::Buffer;
use program_io::{Mode, Refusal, read_words};
use std::alloc::Global;

/// The words of a run with dumps. What asks for help, for a generated input or for a check is refused here, so nothing points to it.
const USAGE: &str = "Usage: cicada_dump [DUMPS [--workers N] [--tries N] [--clock CLOCK]]";

/// What is said of a first word that is no number of dumps.
const NO_NUMBER: &str = "error: the first word is the number of dumps, from 0 to 64";

/// What is said of words that ask for something else than a run of an input that is read.
const NO_RUN: &str = "error: dumps go with an input that is read, not with --gen or --check";

/// How many dumps are asked for, where the words are taken.
pub(crate) fn read_dump_words(alloc: Global, words: &[String]) -> Result<u32, Refusal>
    ensures taken { IfOk result (λ dumps. AreTaken (map string_bytes words.now) dumps) }
    ensures refused { IfErr result (λ refusal. RefusesHere refusal (map string_bytes words.now)) }
{
    let Some(dumps) = first_number(words) else {
        return Err(refusal(alloc, NO_NUMBER));
    };
    let others = behind_first(words);
    if names_barred(others) {
        return Err(refusal(alloc, NO_RUN));
    }
    let settings = match read_words(alloc, others) {
        Ok(settings) => settings,
        Err(Refusal::Usage(text)) => return Err(refusal(alloc, first_part(&text))),
        Err(Refusal::NoMemory) => return Err(Refusal::NoMemory),
    };
    match settings.mode {
        Mode::Run => Ok(dumps),
        Mode::Generate(_) | Mode::Check => Err(refusal(alloc, NO_RUN)),
    }
}

/// What the command of a run says first. Behind it it names options that are refused here.
fn first_part(text: &str) -> &str {
    match text.split_once("\n\n") {
        Some((said, _)) => said,
        None => text,
    }
}

/// A refusal that says this, where there is memory for it.
fn refusal(alloc: Global, said: &str) -> Refusal {
    match format!(in alloc; "{said}\n\n{USAGE}\n") {
        Ok(text) => Refusal::Usage(text),
        Err(_) => Refusal::NoMemory,
    }
}

/// The words behind the first one.
pub(crate) fn behind_first(words: &[String]) -> &[String]
    ensures { result.now ≡ drop 1 words.now }
{
    if words.is_empty() { words } else { &words[1..] }
}

/// How many dumps the first word asks for, or nothing where it is no number of dumps.
fn first_number(words: &[String]) -> Option<u32>
    ensures asks { IfSome result (λ dumps. AsksFor (map string_bytes words.now) dumps) }
    ensures few { IfSome result (λ dumps. dumps ≤ 64) }
    ensures refused { IfNone result ((dumps : ℕ) → AsksFor (map string_bytes words.now) dumps → ⊥) }
{
    let Some(word) = words.first() else {
        return Some(0);
    };
    number_of(word.as_bytes())
}

/// The number from 0 to 64 that these bytes spell in decimal, without leading zeros.
fn number_of(bytes: &[u8]) -> Option<u32>
    ensures some { IfSome result (λ dumps. (dumps ≤ 64) × (bytes.now ≡ decimal dumps)) }
    ensures none { IfNone result (NoneBelow bytes.now 65) }
{
    for number in 0..65u32 {
        if is_decimal(bytes, number) {
            return Some(number);
        }
    }
    None
}

/// Whether these bytes spell a number in decimal, without leading zeros.
fn is_decimal(bytes: &[u8], number: u32) -> bool
    ensures { result ≡ bytes_eq bytes.now (decimal number) }
{
    let mut digits = Buffer::new();
    bytes == digits.format(number).as_bytes()
}

/// Whether one of the words asks for a generated input or for a check.
fn names_barred(words: &[String]) -> bool
    ensures no { result ≡ false → All (λ word. IsBarred word → ⊥) (map string_bytes words.now) }
    ensures yes { result ≡ true → Any IsBarred (map string_bytes words.now) }
{
    for word in words {
        if is_barred(word.as_bytes()) {
            return true;
        }
    }
    false
}

/// Whether a word asks for a generated input or for a check.
fn is_barred(word: &[u8]) -> bool
    ensures no { result ≡ false → IsBarred word.now → ⊥ }
    ensures yes { result ≡ true → IsBarred word.now }
{
    is_option(word, b"--gen") || is_option(word, b"--check")
}

/// Whether a word is this option, without or with a value behind a `=`.
fn is_option(word: &[u8], name: &[u8]) -> bool
    ensures no { result ≡ false → IsOption name.now word.now → ⊥ }
    ensures yes { result ≡ true → IsOption name.now word.now }
{
    let Some(rest) = word.strip_prefix(name) else {
        return false;
    };
    begins_value(rest)
}

/// Whether nothing stands behind an option's name, or a `=`.
fn begins_value(rest: &[u8]) -> bool
    ensures no { result ≡ false → IsOption [] rest.now → ⊥ }
    ensures yes { result ≡ true → IsOption [] rest.now }
{
    match rest {
        [] => true,
        [first, ..] => *first == b'=',
    }
}
