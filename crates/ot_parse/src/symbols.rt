//! The words of symbols in a text.
ghost use Rattle.std.specs.Prelude.{◌≡◌, ℕ, List, map, IfOk};
ghost use Rattle.std.specs.Option.{option_map};
ghost use Rattle.ot_forms.specs.Reading.{operator_at, constant_at, quoted_at, bare_symbol_at};
ghost use Rattle.ot_forms.specs.Reading.{is_spelled as spelled_test, sign_word_at, operators};
ghost use Rattle.ot_forms.specs.Reading.{narrowed as narrowed_by, ended, ended_at};
ghost use Rattle.ot_parse.specs.Gives.{IsReadAs};
ghost use Rattle.ot_parse.specs.Symbols.{symbol_of, behind_byte};

use crate::halt::Halt;
use crate::notation::{Notation, WordKind};
use crate::spelling::{bare, literal, spelled};
use crate::words::is_sign;
use ot_logic::Name;
use std::alloc::{AllocError, Global};

/// The type operator whose word stands at the front, and the bytes behind it.
pub(crate) fn operator_word<'a>(
    alloc: Global,
    notation: &Notation,
    text: &'a [u8],
) -> Result<(Name, &'a [u8]), Halt<'a>>
    ensures { IsReadAs (λ x. x.0) (λ x. x.1.now) result (operator_at notation.now text.now) }
{
    match text {
        [] => Err(Halt::Syntax(text)),
        [byte, after @ ..] => {
            if *byte == b'"' {
                quoted_symbol(alloc, notation, WordKind::TyOp, after)
            } else {
                bare_symbol(alloc, notation, WordKind::TyOp, text)
            }
        }
    }
}

/// A symbol's spelling behind its opening quote, where it is its word.
fn quoted_symbol<'a>(
    alloc: Global,
    notation: &Notation,
    kind: WordKind,
    text: &'a [u8],
) -> Result<(Name, &'a [u8]), Halt<'a>>
    ensures { IsReadAs (λ x. x.0) (λ x. x.1.now) result
        (quoted_at (λ n. spelled_test notation.now (symbol_of (kind, n))) text.now) }
{
    let (name, end) = spelled(alloc, text)?;
    if !notation.is_spelled(kind, &name) {
        return Err(Halt::Syntax(end));
    }
    let rest = literal(end, b"\"")?;
    Ok((name, rest))
}

/// The symbol whose bare word stands at the front.
fn bare_symbol<'a>(
    alloc: Global,
    notation: &Notation,
    kind: WordKind,
    text: &'a [u8],
) -> Result<(Name, &'a [u8]), Halt<'a>>
    ensures { IsReadAs (λ x. x.0) (λ x. x.1.now) result
        (bare_symbol_at notation.now (λ n. symbol_of (kind, n)) text.now) }
{
    let (name, rest) = bare(alloc, text)?;
    if notation.is_hidden(kind, &name) {
        return Err(Halt::Syntax(rest));
    }
    let symbol = notation.settle(alloc, kind, name)?;
    Ok((symbol, rest))
}

/// The constant whose word stands at the front, and the bytes behind it.
pub(crate) fn constant_word<'a>(
    alloc: Global,
    notation: &Notation,
    text: &'a [u8],
) -> Result<(Name, &'a [u8]), Halt<'a>>
    ensures { IsReadAs (λ x. x.0) (λ x. x.1.now) result (constant_at notation.now text.now) }
{
    match text {
        [] => Err(Halt::Syntax(text)),
        [byte, after @ ..] => {
            if *byte == b'"' {
                return quoted_symbol(alloc, notation, WordKind::Con, after);
            }
            if is_sign(*byte) {
                return sign_word(alloc, notation, text);
            }
            bare_symbol(alloc, notation, WordKind::Con, text)
        }
    }
}

/// The hidden constant whose operator word stands at the front.
fn sign_word<'a>(
    alloc: Global,
    notation: &Notation,
    text: &'a [u8],
) -> Result<(Name, &'a [u8]), Halt<'a>>
    ensures { IsReadAs (λ x. x.0) (λ x. x.1.now) result (sign_word_at (operators notation.now) text.now) }
{
    let mut candidates = notation.operators(alloc)?;
    let mut rest = text;
    'bytes: loop {
        match rest {
            [] => return ended_word(alloc, candidates.as_slice(), rest),
            [byte, after @ ..] => {
                let narrower = narrowed(alloc, *byte, candidates.as_slice())?;
                if narrower.is_empty() {
                    return ended_word(alloc, candidates.as_slice(), rest);
                }
                candidates = narrower;
                rest = after;
            }
        }
    }
}

/// Those whose words go on with this byte, behind it.
fn narrowed<'a>(
    alloc: Global,
    byte: u8,
    candidates: &[(&'a [u8], &'a Name)],
) -> Result<Vec<(&'a [u8], &'a Name)>, AllocError>
    ensures { IfOk result (λ v. map (λ c. (c.0.now, c.1.now)) v.items
        ≡ narrowed_by byte (map (λ c. (c.0.now, c.1.now)) candidates.now)) }
{
    let mut narrower = Vec::new(alloc);
    for candidate in candidates {
        if let Some(rest) = behind(byte, candidate.0) {
            narrower.push((rest, candidate.1))?;
        }
    }
    Ok(narrower)
}

/// What stands behind this byte.
pub(crate) fn behind(byte: u8, text: &[u8]) -> Option<&[u8]>
    ensures { option_map (λ r. r.now) result ≡ behind_byte byte text.now }
{
    match text {
        [] => None,
        [first, rest @ ..] => { if byte == *first { Some(rest) } else { None } }
    }
}

/// The one whose word has ended.
fn ended_word<'a>(
    alloc: Global,
    candidates: &[(&[u8], &Name)],
    text: &'a [u8],
) -> Result<(Name, &'a [u8]), Halt<'a>>
    ensures { IsReadAs (λ x. x.0) (λ x. x.1.now) result
        (ended_at (ended (map (λ c. (c.0.now, c.1.now)) candidates.now)) text.now) }
{
    for candidate in candidates {
        if candidate.0.is_empty() {
            return Ok((candidate.1.copy(alloc)?, text));
        }
    }
    Err(Halt::Syntax(text))
}
