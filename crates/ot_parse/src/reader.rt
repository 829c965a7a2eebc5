//! Sequents and terms that are read from readable text.
ghost use Rattle.std.specs.Prelude.{◌≡◌, ◌≤◌, map, length, IfOk, IfErr};
ghost use Rattle.ot_forms.specs.Refusals.{ReadsAs, ReadsAsTerm};
ghost use Rattle.ot_logic.specs.PlainTrees.{term_of_tree};
ghost use Rattle.ot_parse.specs.Plain.{sequent_of};
ghost use Rattle.ot_parse.specs.Refused.{IsRefusal, IsTermRefusal};
ghost use Rattle.ot_forms.specs.Meaning.{meanings};
ghost use Rattle.ot_forms.specs.Reading.{mapped, first_hyp_at};
ghost use Rattle.ot_parse.specs.Gives.{IsReadAs};
ghost use Rattle.ot_parse.specs.Values.{meant_of};
ghost use Rattle.ot_parse.specs.ReadLines.{kept_of, others, once, one_more, IsKept, terms, meant_at};
ghost use Rattle.ot_parse.specs.ReadLines.{hyps_meant, sequent_meant, IsSequent, IsWholeText};
ghost use Rattle.ot_parse.specs.ReadLines.{IsWholeLine, IsAt, IsHaltedAt, separator_at};

use crate::halt::Halt;
use crate::notation::Notation;
use crate::readable::Readable;
use crate::refusal::ReadRefusal;
use crate::spelling::literal;
use crate::symbols::behind;
use crate::terms::{place_of, read_part};
use crate::trees::same_term;
use crate::values::{Meant, whole};
use ot_forms::TextFault;
use ot_logic::{Memory, Tm};
use std::alloc::Global;

/// The sequent that a line stands for under this notation: its hypotheses, each once, and its conclusion.
///
/// A line is refused at a column, from 1. `Syntax`: it isn't of the forms, and stops being the front of a line of
/// them with the byte there, or ends one byte before. `TooManyOpen`: the byte there opens the 8,193rd parenthesis or
/// brace. The other faults come only in a line of the forms: of the refused parts the one that ends first counts, of
/// two that end at one byte the inner one, and for one part the first of `Unbound`, `UnknownOperator`, `BadTypes`,
/// `TooDeep`; the column is that of the part's first byte.
pub fn read_sequent(
    alloc: Global,
    notation: &Notation,
    line: &[u8],
) -> Result<Readable, ReadRefusal>
    ensures ok { IfOk result (λ r. ReadsAs notation.now line.now (sequent_of r)) }
    ensures refused { IfErr result (IsRefusal notation.now line.now) }
{
    notation.sound();
    match read_line(alloc, notation, line) {
        Ok(read) => read,
        Err(halt) => Err(halted_at(line, halt)),
    }
}

/// The term, of any type, that a text stands for under this notation. It is refused as a line is.
pub fn read_term(alloc: Global, notation: &Notation, text: &[u8]) -> Result<Tm, ReadRefusal>
    ensures ok { IfOk result (λ t. ReadsAsTerm notation.now text.now (term_of_tree t)) }
    ensures refused { IfErr result (IsTermRefusal notation.now text.now) }
{
    notation.sound();
    match read_whole(alloc, notation, text.len(), false, text) {
        Ok(Meant::Value(value)) => Ok(value.into_term()),
        Ok(Meant::Wrong(place, fault)) => Err(wrong_at(place, fault)),
        Err(halt) => Err(halted_at(text, halt)),
    }
}

/// Terms, or the place of the first refused part, from 0, with the fault.
#[derive(Drop)]
enum Hyps {
    Terms(Vec<Tm>),
    Wrong(u64, TextFault),
}

/// A whole term with the bytes behind it.
fn read_one<'a>(
    alloc: Global,
    notation: &Notation,
    total: usize,
    wanted: bool,
    text: &'a [u8],
) -> Result<(Meant, &'a [u8]), Halt<'a>>
    requires { length text.now ≤ total }
    ensures read { IsReadAs (λ x. meant_of x.0) (λ x. x.1.now) result (meant_at notation.now total wanted text.now) }
    ensures shorter { IfOk result (λ x. length x.1.now ≤ length text.now) }
{
    notation.sound();
    let (part, rest) = read_part(alloc, notation, total, text)?;
    Ok((whole(wanted, place_of(total, text), part), rest))
}

/// A whole term and nothing behind it.
fn read_whole<'a>(
    alloc: Global,
    notation: &Notation,
    total: usize,
    wanted: bool,
    text: &'a [u8],
) -> Result<Meant, Halt<'a>>
    requires { length text.now ≤ total }
    ensures { IsWholeText (meant_at notation.now total wanted text.now) result }
{
    let (term, rest) = read_one(alloc, notation, total, wanted, text)?;
    if rest.is_empty() {
        Ok(term)
    } else {
        Err(Halt::Syntax(rest))
    }
}

/// The sequent of a line, or the refusal of a part.
fn read_line<'a>(
    alloc: Global,
    notation: &Notation,
    line: &'a [u8],
) -> Result<Result<Readable, ReadRefusal>, Halt<'a>>
    ensures { IsWholeLine notation.now line.now result }
{
    notation.sound();
    let (hyps, rest) = read_hyps(alloc, notation, line)?;
    let concl = read_whole(alloc, notation, line.len(), true, rest)?;
    Ok(sequent(hyps, concl))
}

/// The sequent of these hypotheses and this conclusion, or the refusal of the first part that is refused.
fn sequent(hyps: Hyps, concl: Meant) -> Result<Readable, ReadRefusal>
    ensures { IsSequent (sequent_meant (kept_of hyps) (meant_of concl)) result }
{
    match (hyps, concl) {
        (Hyps::Wrong(place, fault), _) => Err(wrong_at(place, fault)),
        (Hyps::Terms(_), Meant::Wrong(place, fault)) => Err(wrong_at(place, fault)),
        (Hyps::Terms(hyps), Meant::Value(concl)) => Ok(Readable {
            hyps,
            concl: concl.into_term(),
        }),
    }
}

/// The hypotheses of a line and the turnstile.
fn read_hyps<'a>(
    alloc: Global,
    notation: &Notation,
    line: &'a [u8],
) -> Result<(Hyps, &'a [u8]), Halt<'a>>
    ensures read { IsReadAs (λ x. kept_of x.0) (λ x. x.1.now) result (hyps_meant notation.now line.now) }
    ensures shorter { IfOk result (λ x. length x.1.now ≤ length line.now) }
{
    match line.split_first() {
        None => Err(Halt::Syntax(line)),
        Some((byte, _)) => {
            if *byte == b'|' {
                let rest = literal(line, b"|- ")?;
                Ok((Hyps::Terms(Vec::new(alloc)), rest))
            } else {
                read_some_hyps(alloc, notation, line)
            }
        }
    }
}

/// One hypothesis or more, and the turnstile.
fn read_some_hyps<'a>(
    alloc: Global,
    notation: &Notation,
    line: &'a [u8],
) -> Result<(Hyps, &'a [u8]), Halt<'a>>
    ensures read { IsReadAs (λ x. kept_of x.0) (λ x. x.1.now) result
        (mapped (λ hs. once (meanings notation.now 0 hs)) (first_hyp_at (terms notation.now) line.now)) }
    ensures shorter { IfOk result (λ x. length x.1.now ≤ length line.now) }
{
    notation.sound();
    let mut hyps = Hyps::Terms(Vec::new(alloc));
    let mut rest = line;
    'hyps: loop {
        let (term, end) = read_one(alloc, notation, line.len(), true, rest)?;
        let (is_further, next) = separator(end)?;
        let more = with_term(hyps, term)?;
        if !is_further {
            return Ok((more, next));
        }
        hyps = more;
        rest = next;
    }
}

/// Behind a hypothesis stands a comma, so that a further one follows, or the turnstile.
fn separator(text: &[u8]) -> Result<(bool, &[u8]), Halt<'_>>
    ensures { IsReadAs (λ x. x.0) (λ x. x.1.now) result (separator_at text.now) }
{
    match behind(b',', text) {
        Some(after) => Ok((true, literal(after, b" ")?)),
        None => Ok((false, literal(text, b" |- ")?)),
    }
}

/// A term more, behind those that aren't equal to it.
fn with_term(hyps: Hyps, term: Meant) -> Result<Hyps, Memory>
    ensures { IsKept (one_more (kept_of hyps) (meant_of term)) result }
{
    match (hyps, term) {
        (Hyps::Wrong(place, fault), _) => Ok(Hyps::Wrong(place, fault)),
        (Hyps::Terms(_), Meant::Wrong(place, fault)) => Ok(Hyps::Wrong(place, fault)),
        (Hyps::Terms(terms), Meant::Value(value)) => {
            let term = value.into_term();
            let mut kept = without(terms, &term);
            kept.push(term)?;
            Ok(Hyps::Terms(kept))
        }
    }
}

/// The terms without those that are equal to this one.
fn without(terms: Vec<Tm>, term: &Tm) -> Vec<Tm>
    ensures { map term_of_tree result.items ≡ others (term_of_tree term.now) (map term_of_tree terms.items) }
{
    let mut kept = terms;
    kept.retain(|other| !same_term(other, term));
    kept
}

/// The refusal of a part that begins at this place, from 0. No text is so long that its column is no number.
fn wrong_at(place: u64, fault: TextFault) -> ReadRefusal
    ensures { IsAt place fault result }
{
    match Memory::next(place) {
        Ok(column) => ReadRefusal::At { column, fault },
        Err(memory) => ReadRefusal::Memory(memory),
    }
}

/// The refusal where reading stops.
fn halted_at(line: &[u8], halt: Halt<'_>) -> ReadRefusal
    ensures { IsHaltedAt line.now halt.entry result }
{
    match halt {
        Halt::Syntax(rest) => wrong_at(place_of(line.len(), rest), TextFault::Syntax),
        Halt::TooManyOpen(rest) => wrong_at(place_of(line.len(), rest), TextFault::TooManyOpen),
        Halt::Memory(memory) => ReadRefusal::Memory(memory),
    }
}
