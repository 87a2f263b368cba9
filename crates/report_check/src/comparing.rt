//! The first line on which two texts are apart.

ghost use Rattle.std.specs.Prelude.{◌≡◌, ◌≢◌, ◌+◌, ◌<◌, suc, ◌++◌, ◌∷◌, length, MatchOption};
ghost use Rattle.report_check.specs.Lines.{whole_lines, agreed, BothBegin};

use crate::bytes::cut;

/// The number of the first line on which two texts that differ are apart, counted from 1: one more than the whole lines on which
/// they agree from the start.
pub fn line_apart(report: &[u8], text: &[u8]) -> u64
    requires { report.now ≢ text.now }
    ensures { result ≡ agreed (whole_lines report.now) (whole_lines text.now) + 1 }
{
    let mut agreed: u64 = 0;
    let mut rest = report;
    let mut other = text;
    while let Some((behind, other_behind)) = behind_line(rest, other) {
        agreed += 1;
        rest = behind;
        other = other_behind;
    }
    agreed + 1
}

/// What is behind the first whole line of two texts, where they have the same.
fn behind_line<'a>(rest: &'a [u8], other: &'a [u8]) -> Option<(&'a [u8], &'a [u8])>
    ensures { MatchOption result
        (agreed (whole_lines rest.now) (whole_lines other.now) ≡ 0)
        (λ behind. BothBegin rest.now other.now behind.0.now behind.1.now) }
{
    let (line, behind) = cut(rest, b'\n')?;
    let (expected, other_behind) = cut(other, b'\n')?;
    if line == expected {
        Some((behind, other_behind))
    } else {
        None
    }
}
