ghost use Rattle.std.specs.Prelude.{◌≡◌, Some, IfOk, IfSome};
ghost use Rattle.ot_logic.specs.Reading.{name_read};
ghost use Rattle.ot_theory.specs.Interpretations.{split_interpret, parts_value, after_blanks};
ghost use Rattle.ot_theory.specs.Interpretations.{after_word, kind_front, whole, IsQuotedName};
ghost use Rattle.ot_theory.specs.Quoting.{front_value, kind_value};

use crate::quoted::quoted_front;
use ot_lines::trimmed_front;
use ot_logic::{Memory, Name, NameFault};
use std::alloc::Global;

/// The kind of a symbol.
#[derive(Clone, Copy, PartialEq, Eq)]
pub enum SymbolWord {
    Con,
    TyOp,
}

/// The kind and the two quoted names of an `interpret:` value, by the theory file format: `const` or
/// `type`, a quoted name, `as` and a quoted name, with one blank or more between. A quoted name has at
/// most 65,535 bytes, its quotes counted. `None` comes exactly for a value of another form. No memory
/// is taken.
pub fn split_interpret(value: &[u8]) -> Option<(SymbolWord, &[u8], &[u8])>
    ensures parts { parts_value result ≡ split_interpret value.now }
    ensures names { IfSome result (λ p. IsQuotedName p.1.now × IsQuotedName p.2.now) }
{
    split(value)
}

/// The name that a quoted text spells, as each of the two texts does that `split_interpret` gives. The text has its
/// quotes and at most 65,535 bytes. It fails only where memory runs out.
pub fn quoted_name(alloc: Global, quoted: &[u8]) -> Result<Name, Memory>
    requires { IsQuotedName quoted.now }
    ensures { IfOk result (λ name. name_read quoted.now ≡ Some name) }
{
    match Name::read(alloc, quoted) {
        Ok(name) => Ok(name),
        Err(NameFault::Memory(memory)) => Err(memory),
        Err(NameFault::Unterminated | NameFault::Trailing) => unreachable!(),
    }
}

fn split(value: &[u8]) -> Option<(SymbolWord, &[u8], &[u8])>
    ensures { parts_value result ≡ split_interpret value.now }
{
    let (kind, rest) = kind_front(value)?;
    let (from, rest) = quoted_front(after_blanks(rest)?)?;
    let rest = after_word(after_blanks(rest)?, b"as")?;
    let (to, rest) = quoted_front(after_blanks(rest)?)?;
    whole(kind, from, to, rest)
}

fn whole<'a>(
    kind: SymbolWord,
    from: &'a [u8],
    to: &'a [u8],
    rest: &[u8],
) -> Option<(SymbolWord, &'a [u8], &'a [u8])>
    ensures { parts_value result ≡ whole kind from.now to.now rest.now }
{
    match rest {
        [] => Some((kind, from, to)),
        _ => None,
    }
}

fn kind_front(value: &[u8]) -> Option<(SymbolWord, &[u8])>
    ensures { kind_value result ≡ kind_front value.now }
{
    match after_word(value, b"const") {
        Some(rest) => Some((SymbolWord::Con, rest)),
        None => match after_word(value, b"type") {
            Some(rest) => Some((SymbolWord::TyOp, rest)),
            None => None,
        },
    }
}

/// What follows a word.
fn after_word<'a>(text: &'a [u8], word: &[u8]) -> Option<&'a [u8]>
    ensures { front_value result ≡ after_word word.now text.now }
{
    text.strip_prefix(word)
}

/// What follows one blank or more.
fn after_blanks(text: &[u8]) -> Option<&[u8]>
    ensures { front_value result ≡ after_blanks text.now }
{
    match text {
        [b' ' | b'\t', rest @ ..] => Some(trimmed_front(rest)),
        _ => None,
    }
}
