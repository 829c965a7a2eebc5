//! Names in a text: bare words and spellings.
ghost use Rattle.std.specs.Prelude.{◌≡◌, ◌<◌, ℕ, [], ◌∷◌, List, length, true, false, not, IfOk, OnOk, codes};
ghost use Rattle.ot_logic.specs.Names.{Name as NameValue};
ghost use Rattle.ot_forms.specs.Words.{is_bare as bare_test};
ghost use Rattle.ot_forms.specs.Reading.{before, literal_at, is_special as special_test, bare_at};
ghost use Rattle.ot_forms.specs.Reading.{bare_on, spelled_at, escaped_at, quoted_at, variable_at};
ghost use Rattle.ot_parse.specs.Gives.{IsReadAs, name_at, piece_reading, glued};
ghost use Rattle.ot_parse.specs.Pieces.{IsShorter};

use crate::halt::Halt;
use crate::names::is_bare;
use crate::words::{is_inner, is_letter};
use ot_logic::Name;
use std::alloc::{AllocError, Global};

/// The next piece of a name.
#[derive(Clone, Copy)]
pub(crate) enum Piece<'a> {
    /// A byte of a component, and what follows it.
    Byte(u8, &'a [u8]),
    /// A dot, and what follows it.
    Dot(&'a [u8]),
    /// The name ends here.
    End,
    /// No name goes on here.
    Stop(&'a [u8]),
}

/// A name in the making: the components that are done, and the last one.
#[derive(Drop)]
pub(crate) struct Parts {
    done: Vec<Vec<u8>>,
    last: Vec<u8>,
}

impl Parts {
    fn new(alloc: Global) -> Parts
        ensures { (n : NameValue) → glued result n ≡ n }
    {
        Parts {
            done: Vec::new(alloc),
            last: Vec::new(alloc),
        }
    }

    /// One byte more.
    fn push(&mut self, byte: u8) -> Result<(), AllocError>
        ensures { OnOk result ((n : NameValue) → glued self.new n ≡ glued self.old (before byte n)) }
    {
        self.last.push(byte)?;
        Ok(())
    }

    /// A new component.
    fn end(&mut self, alloc: Global) -> Result<(), AllocError>
        ensures { OnOk result ((n : NameValue) → glued self.new n ≡ glued self.old ([] ∷ n)) }
    {
        let last = std::mem::replace(&mut self.last, Vec::new(alloc));
        self.done.push(last)?;
        Ok(())
    }

    /// The name.
    fn finish(self) -> Result<Name, AllocError>
        ensures { IfOk result (λ name. name ≡ glued self ([] ∷ [])) }
    {
        let Parts { mut done, last } = self;
        done.push(last)?;
        Ok(Name::from_components(done))
    }
}

/// The bytes behind the wanted ones.
pub(crate) fn literal<'a>(text: &'a [u8], wanted: &[u8]) -> Result<&'a [u8], Halt<'a>>
    ensures { IsReadAs (λ _. tt) (λ r. r.now) result (literal_at wanted.now text.now) }
{
    match wanted {
        [] => Ok(text),
        [first, more @ ..] => match text {
            [] => Err(Halt::Syntax(text)),
            [byte, after @ ..] => {
                if *byte == *first {
                    literal(after, more)
                } else {
                    Err(Halt::Syntax(text))
                }
            }
        },
    }
}

/// A name, without quotes or behind its opening quote, and the bytes behind it, from a closing quote on.
fn read_name<'a>(
    alloc: Global,
    is_quoted: bool,
    text: &'a [u8],
) -> Result<(Name, &'a [u8]), Halt<'a>>
    ensures { IsReadAs (λ x. x.0) (λ x. x.1.now) result (name_at is_quoted false text.now) }
{
    let mut parts = Parts::new(alloc);
    let mut is_inside = false;
    let mut rest = text;
    'pieces: loop {
        match next_piece(is_quoted, is_inside, rest) {
            Piece::Byte(byte, after) => {
                parts.push(byte)?;
                is_inside = true;
                rest = after;
            }
            Piece::Dot(after) => {
                parts.end(alloc)?;
                is_inside = false;
                rest = after;
            }
            Piece::End => return Ok((parts.finish()?, rest)),
            Piece::Stop(stop) => return Err(Halt::Syntax(stop)),
        }
    }
}

/// The next piece of a name, behind a byte of a part or not.
fn next_piece<'a>(is_quoted: bool, is_inside: bool, text: &'a [u8]) -> Piece<'a>
    ensures read { name_at is_quoted is_inside text.now ≡ piece_reading is_quoted text.now result }
    ensures shorter { IsShorter result text.now }
{
    if is_quoted {
        quoted_piece(text)
    } else if is_inside {
        inner_piece(text)
    } else {
        first_piece(text)
    }
}

/// The first byte of a part.
fn first_piece<'a>(text: &'a [u8]) -> Piece<'a>
    ensures read { bare_at text.now ≡ piece_reading false text.now result }
    ensures shorter { IsShorter result text.now }
{
    match text {
        [] => Piece::Stop(text),
        [byte, after @ ..] => {
            if is_letter(*byte) {
                Piece::Byte(*byte, after)
            } else {
                Piece::Stop(text)
            }
        }
    }
}

/// A further byte of a part, a dot, or the end.
fn inner_piece<'a>(text: &'a [u8]) -> Piece<'a>
    ensures read { bare_on text.now ≡ piece_reading false text.now result }
    ensures shorter { IsShorter result text.now }
{
    match text {
        [] => Piece::End,
        [byte, after @ ..] => {
            if is_inner(*byte) {
                Piece::Byte(*byte, after)
            } else if *byte == b'.' {
                Piece::Dot(after)
            } else {
                Piece::End
            }
        }
    }
}

/// A byte of a spelling, which a backslash may stand before; a dot, or the end.
fn quoted_piece<'a>(text: &'a [u8]) -> Piece<'a>
    ensures read { spelled_at text.now ≡ piece_reading true text.now result }
    ensures shorter { IsShorter result text.now }
{
    match text {
        [] => Piece::Stop(text),
        [byte, after @ ..] => {
            if *byte == b'"' {
                Piece::End
            } else if *byte == b'\\' {
                escaped_piece(after)
            } else if *byte == b'.' {
                Piece::Dot(after)
            } else {
                Piece::Byte(*byte, after)
            }
        }
    }
}

/// A byte behind a backslash.
fn escaped_piece<'a>(text: &'a [u8]) -> Piece<'a>
    ensures read { escaped_at text.now ≡ piece_reading true text.now result }
    ensures shorter { IsShorter result text.now }
{
    match text {
        [] => Piece::Stop(text),
        [byte, after @ ..] => {
            if is_special(*byte) {
                Piece::Byte(*byte, after)
            } else {
                Piece::Stop(text)
            }
        }
    }
}

/// A quote, a backslash or a dot.
fn is_special(byte: u8) -> bool
    ensures { result ≡ special_test byte }
{
    byte == b'"' || byte == b'\\' || byte == b'.'
}

/// The name of a bare word, and the bytes behind it.
pub(crate) fn bare(alloc: Global, text: &[u8]) -> Result<(Name, &[u8]), Halt<'_>>
    ensures { IsReadAs (λ x. x.0) (λ x. x.1.now) result (bare_at text.now) }
{
    read_name(alloc, false, text)
}

/// The name that is spelled, and the bytes from its closing quote on. The opening quote stands before the text.
pub(crate) fn spelled(alloc: Global, text: &[u8]) -> Result<(Name, &[u8]), Halt<'_>>
    ensures { IsReadAs (λ x. x.0) (λ x. x.1.now) result (spelled_at text.now) }
{
    read_name(alloc, true, text)
}

/// The name whose word stands at the front as a variable's, and the bytes behind it.
pub(crate) fn variable_word(alloc: Global, text: &[u8]) -> Result<(Name, &[u8]), Halt<'_>>
    ensures { IsReadAs (λ x. x.0) (λ x. x.1.now) result (variable_at text.now) }
{
    match text {
        [] => Err(Halt::Syntax(text)),
        [byte, after @ ..] => {
            if *byte == b'"' {
                quoted_variable(alloc, after)
            } else {
                bare(alloc, text)
            }
        }
    }
}

/// A variable's spelling behind its opening quote.
fn quoted_variable(alloc: Global, text: &[u8]) -> Result<(Name, &[u8]), Halt<'_>>
    ensures { IsReadAs (λ x. x.0) (λ x. x.1.now) result (quoted_at (λ n. not (bare_test n)) text.now) }
{
    let (name, end) = spelled(alloc, text)?;
    if is_bare(&name) {
        return Err(Halt::Syntax(end));
    }
    let rest = literal(end, b"\"")?;
    Ok((name, rest))
}
