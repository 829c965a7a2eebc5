//! Parts and operator words in a text.
ghost use Rattle.std.specs.Prelude.{◌≡◌, ◌≤◌, length, take, drop};
ghost use Rattle.ot_forms.specs.Reading.{Got, part_at, part_on, signs_at, signs_on};
ghost use Rattle.ot_parse.specs.Gives.{IsReadAs};

use crate::halt::Halt;
use crate::words::{is_inner, is_letter, is_sign};

/// A part, and the bytes behind it.
pub(crate) fn part(text: &[u8]) -> Result<(&[u8], &[u8]), Halt<'_>>
    ensures { IsReadAs (λ x. x.0.now) (λ x. x.1.now) result (part_at text.now) }
{
    match text {
        [] => Err(Halt::Syntax(text)),
        [first, after @ ..] => {
            if is_letter(*first) {
                let len = 1 + inner_len(after);
                Ok((&text[..len], &text[len..]))
            } else {
                Err(Halt::Syntax(text))
            }
        }
    }
}

/// How many bytes of the front of a text are inner bytes of a part.
fn inner_len(text: &[u8]) -> usize
    ensures within { result ≤ length text.now }
    ensures read { part_on text.now ≡ Got (take result text.now) (drop result text.now) }
{
    let mut len = 0;
    while len < text.len() && is_inner(text[len]) {
        len += 1;
    }
    len
}

/// An operator word or `=`, and the bytes behind it.
pub(crate) fn signs(text: &[u8]) -> Result<(&[u8], &[u8]), Halt<'_>>
    ensures { IsReadAs (λ x. x.0.now) (λ x. x.1.now) result (signs_at text.now) }
{
    match text {
        [] => Err(Halt::Syntax(text)),
        [first, after @ ..] => {
            if is_sign(*first) {
                let len = 1 + sign_len(after);
                Ok((&text[..len], &text[len..]))
            } else {
                Err(Halt::Syntax(text))
            }
        }
    }
}

/// How many bytes of the front of a text are those of operator words.
fn sign_len(text: &[u8]) -> usize
    ensures within { result ≤ length text.now }
    ensures read { signs_on text.now ≡ Got (take result text.now) (drop result text.now) }
{
    let mut len = 0;
    while len < text.len() && is_sign(text[len]) {
        len += 1;
    }
    len
}
