ghost use Rattle.std.specs.Prelude.{◌≡◌, ◌≤◌, ◌<◌, ◌+◌, ◌⊎◌, ◌==◌, not, length, take, drop, MatchOption, IsTrue};
ghost use Rattle.std.specs.List.{prefix_len};
ghost use Rattle.ot_lines.specs.Pieces.{IsOpenTo, EndsAt, OneCut, text_of, is_skipped};
ghost use Rattle.ot_lines.specs.Pieces.{is_blank, without_last, trim_front, trim_back, IsBare};

use std::simd::prelude::*;

/// How many bytes are searched for a newline at once.
const LANES: usize = 16;

/// How long the first piece is, its newline counted, where the newline is among the bytes. None of
/// the first `searched` is a newline.
pub fn piece_len(bytes: &[u8], searched: usize) -> Option<usize>
    requires within { searched ≤ length bytes.now }
    requires open { IsOpenTo searched bytes.now }
    ensures { MatchOption result
        (IsOpenTo (length bytes.now) bytes.now)
        (λ len. EndsAt len bytes.now) }
{
    let mut at = searched;
    'runs: while bytes.len() - at >= LANES {
        let open = open_lanes(bytes, at);
        if open < LANES {
            return Some(at + open + 1);
        }
        at += LANES;
    }
    piece_len_by_one(bytes, at)
}

/// How long the first piece is, its newline counted, where the newline is among the first 16 bytes.
/// Fewer bytes than 16 aren't searched.
/// Once a line: each reader of lines is to have it inline.
#[inline(always)]
pub fn near_len(bytes: &[u8]) -> Option<usize>
    ensures { MatchOption result
        ((length bytes.now < 16) ⊎ IsOpenTo 16 bytes.now)
        (λ len. EndsAt len bytes.now) }
{
    if bytes.len() < LANES {
        return None;
    }
    let open = open_lanes(bytes, 0);
    if open < LANES { Some(open + 1) } else { None }
}

/// How many of 16 bytes stand before the first newline among them.
#[inline(always)]
fn open_lanes(bytes: &[u8], at: usize) -> usize
    requires { at + LANES ≤ length bytes.now }
    ensures { result ≡ prefix_len (λ b. not (b == 10)) (take LANES (drop at bytes.now)) }
{
    let newlines = u8x16::from_slice(&bytes[at..])
        .simd_eq(u8x16::splat(b'\n'))
        .to_bitmask();
    if newlines == 0 {
        LANES
    } else {
        newlines.trailing_zeros() as usize
    }
}

/// How long the first piece is, searched byte by byte.
fn piece_len_by_one(bytes: &[u8], searched: usize) -> Option<usize>
    requires within { searched ≤ length bytes.now }
    requires open { IsOpenTo searched bytes.now }
    ensures { MatchOption result
        (IsOpenTo (length bytes.now) bytes.now)
        (λ len. EndsAt len bytes.now) }
{
    let mut at = searched;
    while at < bytes.len() {
        if bytes[at] == b'\n' {
            return Some(at + 1);
        }
        at += 1;
    }
    None
}

/// The piece without its last byte, where it is this one.
pub fn without_last(piece: &[u8], byte: u8) -> &[u8]
    ensures text { result.now ≡ without_last byte piece.now }
    ensures within { length result.now ≤ length piece.now }
{
    let len = piece.len();
    if len > 0 && piece[len - 1] == byte {
        &piece[..len - 1]
    } else {
        piece
    }
}

/// The text of a piece, by the article format: without its newline, then without one CR at its end,
/// then without blanks at both ends.
/// Most lines have nothing to trim but their newline.
#[inline(always)]
pub fn trimmed(piece: &[u8]) -> &[u8]
    ensures { result.now ≡ text_of piece.now }
{
    match piece {
        [line @ .., b'\n'] if is_bare(line) => line,
        _ => trimmed_at_ends(piece),
    }
}

/// Whether both ends of a line are bytes above a space, so that nothing of it is trimmed.
#[inline(always)]
fn is_bare(line: &[u8]) -> bool
    ensures { IsTrue result → IsBare line.now }
{
    matches!(line, [first, ..] if *first > b' ') && matches!(line, [.., last] if *last > b' ')
}

/// The text of a piece, whatever stands at its ends.
fn trimmed_at_ends(piece: &[u8]) -> &[u8]
    ensures { result.now ≡ text_of piece.now }
{
    let line = without_last(piece, b'\n');
    let line = without_last(line, b'\r');
    trimmed_back(trimmed_front(line))
}

/// Whether a line with this text is passed over, by the article format: it is empty or a comment,
/// which begins with `#`.
pub fn is_skipped(text: &[u8]) -> bool
    ensures { result ≡ is_skipped text.now }
{
    matches!(text, [] | [b'#', ..])
}

/// Whether the line that a piece holds is passed over, by the article format. Where the piece begins with a byte
/// above `#`, its text does too, and isn't cut out to be asked.
pub fn is_passed_over(piece: &[u8]) -> bool
    ensures { result ≡ is_skipped (text_of piece.now) }
{
    match piece {
        [first, ..] if *first > b'#' => false,
        _ => is_skipped(trimmed(piece)),
    }
}

/// Whether a byte is a space or a tab.
pub fn is_blank(byte: u8) -> bool
    ensures { result ≡ is_blank byte }
{
    byte == b' ' || byte == b'\t'
}

/// The line without blanks at its front.
pub fn trimmed_front(line: &[u8]) -> &[u8]
    ensures { result.now ≡ trim_front line.now }
{
    let mut text = line;
    'front: while let [b' ' | b'\t', rest @ ..] = text {
        text = rest;
    }
    text
}

/// The line without blanks at its end.
pub fn trimmed_back(line: &[u8]) -> &[u8]
    ensures { result.now ≡ trim_back line.now }
{
    let mut len = line.len();
    'back: while len > 0 && is_blank(line[len - 1]) {
        len -= 1;
    }
    &line[..len]
}

/// A law: the pieces of a text are its bytes, cut after each newline and nowhere else.
pub fn one_cut()
    ensures { OneCut }
{}
