//! Lines of an input text, one after another.

ghost use Rattle.std.specs.Prelude.{◌≡◌, ◌&&◌, nat_le, option_map};
ghost use Rattle.std.specs.Str.{bytes_eq};
ghost use Rattle.txn_script.specs.Line.{head_line, text, has_numbers};
ghost use Rattle.txn_script.specs.LineReading.{left, seen, head_of, named_of, line_of};

use crate::keyword::{Keyword, Mark, Version};
use crate::numbers::Numbers;
use crate::words::Words;

/// One line, without its numbers; a table is given by its name.
#[derive(Drop)]
pub enum Line<'a> {
    Head(Version),
    Mark(Mark),
    Named { keyword: Keyword, name: &'a [u8] },
}

/// The version that a first line tells, without its line feed.
pub fn head(line: &[u8]) -> Option<Version>
    ensures { result ≡ head_of line.now }
{
    if is_head(Version::One, line) {
        Some(Version::One)
    } else if is_head(Version::Two, line) {
        Some(Version::Two)
    } else {
        None
    }
}

/// Whether a line is the head of a text of this version.
fn is_head(version: Version, line: &[u8]) -> bool
    ensures { result ≡ bytes_eq line.now (text (head_line version)) }
{
    match version {
        Version::One => line == b"cicada 1".as_slice(),
        Version::Two => line == b"cicada 2".as_slice(),
    }
}

impl<'a> Line<'a> {
    /// The line that a text without its line feed spells, behind the head of a text of this version; its numbers are put into
    /// those handed in.
    pub fn read(version: Version, text: &'a [u8], numbers: &mut Numbers) -> Option<Line<'a>>
        ensures { option_map (λ line. seen line numbers.new) result ≡ line_of version text.now }
    {
        if let Some((keyword, rest)) = Keyword::before(text) {
            return named(version, keyword, Words::new(rest), numbers);
        }
        if let Some(mark) = Mark::read(text) {
            return Some(Line::Mark(mark));
        }
        if is_head(version, text) {
            Some(Line::Head(version))
        } else {
            None
        }
    }
}

/// A line of a keyword, a name and as many numbers as that keyword has.
#[tactic(auto, unfolding(crate::specs::LineReading::named_of))]
fn named<'a>(
    version: Version,
    keyword: Keyword,
    words: Words<'a>,
    numbers: &mut Numbers,
) -> Option<Line<'a>>
    ensures { option_map (λ line. seen line numbers.new) result ≡ named_of version keyword (left words.entry) }
{
    let (name, words) = words.name()?;
    numbers.read(words)?;
    if has_numbers(version, keyword, numbers) {
        Some(Line::Named { keyword, name })
    } else {
        None
    }
}

fn has_numbers(version: Version, keyword: Keyword, numbers: &Numbers) -> bool
    ensures { result ≡ has_numbers version keyword numbers.now }
{
    let count = numbers.len();
    match (version, keyword) {
        (Version::One, Keyword::Table) => count == 0,
        (Version::One, Keyword::Index | Keyword::Find) => false,
        (Version::One, Keyword::Get | Keyword::Del) => count == 1,
        (Version::One, Keyword::Scan) => count == 3,
        (Version::One, _) => count == 2,
        (Version::Two, Keyword::Table) => count == 1 && is_digit(numbers.get(0)),
        (Version::Two, Keyword::Index | Keyword::Del) => count == 1,
        (Version::Two, Keyword::Row | Keyword::Put | Keyword::Ins) => 2 <= count && count <= 7,
        (Version::Two, Keyword::Get) => count == 2,
        (Version::Two, Keyword::Add | Keyword::Sub | Keyword::Scan) => count == 3,
        (Version::Two, Keyword::Find) => count == 4,
    }
}

fn is_digit(number: u64) -> bool
    ensures { result ≡ (nat_le 1 number && nat_le number 6) }
{
    1 <= number && number <= 6
}
