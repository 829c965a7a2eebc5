ghost use Rattle.std.specs.Prelude.{◌≡◌, ◌<◌, ◌≤◌, ◌∷◌, length, take, drop, OnSome, IfNone};
ghost use Rattle.ot_lines.specs.Pieces.{pieces};
ghost use Rattle.ot_theory.specs.Lines.{TakesLine, lines_at, line_count};

use ot_lines::{is_skipped, piece_len, trimmed};

/// A line that isn't passed over, trimmed.
#[derive(Clone, Copy)]
pub struct Line<'a> {
    /// Counted from 1.
    pub number: u64,
    pub text: &'a [u8],
}

/// The next line of a text that isn't passed over, from the place `at` on, behind `number` other
/// lines; None where there is no further one. Both numbers go behind the lines that were looked at.
/// Lines end at a line feed, are trimmed, and are passed over where they are empty or begin with `#`.
pub fn next_line<'a>(text: &'a [u8], at: &mut usize, number: &mut u64) -> Option<Line<'a>>
    requires place { at.old ≤ length text.now }
    requires numbered { number.old ≤ at.old }
    ensures line { TakesLine result
        (lines_at text.now at.old number.old)
        (lines_at text.now at.new number.new) }
    ensures count { line_count text.now at.old number.old ≡ line_count text.now at.new number.new }
    ensures place { at.new ≤ length text.now }
    ensures numbered { number.new ≤ at.new }
    ensures further { OnSome result (at.old < at.new) }
    ensures end { IfNone result (at.new ≡ length text.now) }
{
    while *at < text.len() {
        let rest = &text[*at..];
        let len = first_len(rest);
        let line = trimmed(&rest[..len]);
        *at += len;
        *number += 1;
        if !is_skipped(line) {
            return Some(Line {
                number: *number,
                text: line,
            });
        }
    }
    None
}

/// How long the first piece is.
fn first_len(rest: &[u8]) -> usize
    requires { 0 < length rest.now }
    ensures some { 0 < result }
    ensures within { result ≤ length rest.now }
    ensures cut { pieces rest.now ≡ take result rest.now ∷ pieces (drop result rest.now) }
{
    match piece_len(rest, 0) {
        Some(len) => len,
        None => rest.len(),
    }
}
