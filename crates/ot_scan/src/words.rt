ghost use Rattle.std.specs.Prelude.{◌≡◌, ◌<◌, ◌≤◌, ℕ, pos, neg_ℤ, length, MatchOption, IsSomeAnd, Some, None};
ghost use Rattle.ot_scan.specs.Words.{word, word_answer, number, number_word, positive, IsCapped, ReadsDigits};

use ot_logic::{Cmd, Name};

/// What a line says.
#[derive(Clone, Copy, PartialEq, Eq)]
pub enum Word<'a> {
    Number(i64),
    /// A quoted text that spells a name, with its quotes.
    Name(&'a [u8]),
    Command(Cmd),
}

/// Why a text is no word.
#[derive(Clone, Copy, PartialEq, Eq)]
pub enum WordFault {
    /// None of the command words.
    UnknownCommand,
    /// It begins with a quote and spells no name.
    BadName,
    /// It begins with a minus or a digit, and is neither `0` nor, perhaps behind a minus, digits that
    /// don't begin with `0`.
    BadNumber,
    /// It writes a number that an `i64` doesn't hold.
    NumberRange,
}

/// The word of a line's text, by the article format: a number, a name or a command. No memory is
/// taken.
/// Once a line: each reader of an article is to have it inline.
#[inline(always)]
pub fn command(text: &[u8]) -> Result<Word<'_>, WordFault>
    requires { 0 < length text.now }
    ensures { word_answer result ≡ word text.now }
{
    match text {
        // Most words are commands, and each begins with a letter.
        [first, ..] if *first > b'9' => match Cmd::find(text) {
            Some(found) => Ok(Word::Command(found)),
            None => Err(WordFault::UnknownCommand),
        },
        [b'-' | b'0'..=b'9', ..] => number(text),
        [b'"', ..] => {
            if Name::is_name(text) {
                Ok(Word::Name(text))
            } else {
                Err(WordFault::BadName)
            }
        }
        _ => Err(WordFault::UnknownCommand),
    }
}

/// The number that a text writes.
#[inline(always)]
fn number(text: &[u8]) -> Result<Word<'_>, WordFault>
    ensures { word_answer result ≡ number_word (number text.now) }
{
    match text {
        [b'-', digits @ ..] => match positive(digits) {
            Some(magnitude) => negative(magnitude),
            None => Err(WordFault::BadNumber),
        },
        [b'0'] => Ok(Word::Number(0)),
        _ => match positive(text) {
            Some(magnitude) => unsigned(magnitude),
            None => Err(WordFault::BadNumber),
        },
    }
}

/// The number of this size, which an `i64` may not hold.
fn unsigned(magnitude: u64) -> Result<Word<'static>, WordFault>
    ensures { (n : ℕ) → IsCapped n magnitude → word_answer result ≡ number_word (Some (pos n)) }
{
    if magnitude <= i64::MAX as u64 {
        Ok(Word::Number(magnitude as i64))
    } else {
        Err(WordFault::NumberRange)
    }
}

/// The negative number of this size.
fn negative(magnitude: u64) -> Result<Word<'static>, WordFault>
    ensures { (n : ℕ) → IsCapped n magnitude → word_answer result ≡ number_word (Some (neg_ℤ (pos n))) }
{
    if magnitude < 1 << 63 {
        Ok(Word::Number(-(magnitude as i64)))
    } else if magnitude == 1 << 63 {
        Ok(Word::Number(i64::MIN))
    } else {
        Err(WordFault::NumberRange)
    }
}

/// The value of digits that don't begin with 0, or the last `u64` where it is greater.
fn positive(digits: &[u8]) -> Option<u64>
    ensures { MatchOption result
        (positive digits.now ≡ None)
        (λ value. IsSomeAnd (positive digits.now) (λ n. IsCapped n value)) }
{
    match digits {
        [b'1'..=b'9', ..] if digits.len() <= EXACT => exact_value(digits),
        [b'1'..=b'9', ..] => capped_value(digits),
        _ => None,
    }
}

/// How many digits a `u64` holds, whatever they are.
const EXACT: usize = 19;

/// The value of the digits, where there is nothing else.
#[inline(always)]
fn exact_value(digits: &[u8]) -> Option<u64>
    requires { length digits.now ≤ EXACT }
    ensures { ReadsDigits result digits.now }
{
    let mut value: u64 = 0;
    for byte in digits {
        if !byte.is_ascii_digit() {
            return None;
        }
        value = value * 10 + u64::from(*byte - b'0');
    }
    Some(value)
}

/// The same, or the last `u64` where the value is greater.
fn capped_value(digits: &[u8]) -> Option<u64>
    ensures { ReadsDigits result digits.now }
{
    let mut value: u64 = 0;
    for byte in digits {
        if !byte.is_ascii_digit() {
            return None;
        }
        value = value
            .saturating_mul(10)
            .saturating_add(u64::from(*byte - b'0'));
    }
    Some(value)
}
