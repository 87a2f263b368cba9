//! The two parts of a text to be checked.

ghost use Rattle.std.specs.Prelude.{◌≡◌, ◌≤◌, ◌==◌, length, codes, option_map, position};
ghost use Rattle.std.specs.Str.{bytes_eq};
ghost use Rattle.report_check.specs.Reading.{cut};
ghost use Rattle.program_io.specs.Parts.{input_length, input_part, report_part};

/// The input of a text to be checked, which ends behind the first line `done`, and the report behind it.
pub fn parts_of(bytes: &[u8]) -> (&[u8], &[u8])
    ensures input { result.0.now ≡ input_part bytes.now }
    ensures report { result.1.now ≡ report_part bytes.now }
{
    bytes.split_at(length_of_input(bytes))
}

/// How many bytes of the text are its input.
fn length_of_input(bytes: &[u8]) -> usize
    ensures is { result ≡ input_length bytes.now }
    ensures within { result ≤ length bytes.now }
{
    let mut length: usize = 0;
    let mut rest = bytes;
    while let Some((line, behind)) = cut_line(rest) {
        length += line.len() + 1;
        if is_last(line) {
            return length;
        }
        rest = behind;
    }
    bytes.len()
}

/// Whether it is the line that ends an input.
fn is_last(line: &[u8]) -> bool
    ensures { result ≡ bytes_eq line.now (codes "done") }
{
    line == b"done".as_slice()
}

/// The first line, without its line feed, and what is behind it.
fn cut_line(bytes: &[u8]) -> Option<(&[u8], &[u8])>
    ensures { option_map (λ parts. (parts.0.now, parts.1.now)) result ≡ cut 10 bytes.now }
{
    let at = first_line_feed(bytes)?;
    let (line, _) = bytes.split_at(at);
    let (_, behind) = bytes.split_at(at + 1);
    Some((line, behind))
}

fn first_line_feed(bytes: &[u8]) -> Option<usize>
    ensures { result ≡ position (λ byte. byte == 10) bytes.now }
{
    bytes.iter().position(|byte| *byte == b'\n')
}
