//! Types in a text, with what is open around them kept in a list.
ghost use Rattle.std.specs.Prelude.{◌≡◌, ◌≤◌, length, ◌==◌, ◌||◌, ℕ, suc, false, IfNone};
ghost use Rattle.std.specs.Prelude.{IfSome, List, ◌++◌, ◌∷◌, [], IfOk, map};
ghost use Rattle.ot_logic.specs.Names.{Name as NameValue};
ghost use Rattle.ot_logic.specs.Trees.{Ty as TypeTree, TyVar, TyOp, NoTys};
ghost use Rattle.ot_logic.specs.Naming.{names};
ghost use Rattle.ot_logic.specs.Hol.{fun_ty};
ghost use Rattle.ot_forms.specs.Reading.{Got, mapped, variable_at, operator_at, behind_word_at, further_at, type_at};
ghost use Rattle.ot_parse.specs.Gives.{IsReadAs};
ghost use Rattle.ot_logic.specs.PlainTrees.{type_of_tree};
ghost use Rattle.ot_parse.specs.Frames.{Domain, Range, Argument, frame_of, frames_of, closed, word_first, is_spaced};
ghost use Rattle.ot_parse.specs.Frames.{IsFrontOf, IsLeafOf, IsTypeFront, IsInsideOf, IsBackOf, ClosesType};
ghost use Rattle.ot_parse.specs.Frames.{IsOn, IsNext, OpensWithin, EndsWithin, BeginsWithin};

use crate::halt::Halt;
use crate::notation::Notation;
use crate::spelling::{literal, variable_word};
use crate::symbols::operator_word;
use crate::trees::is_arrow;
use ot_logic::{Name, Ty};
use std::alloc::{AllocError, Global};

/// What is open around a type that is read next.
#[derive(Drop)]
pub(crate) enum Open {
    /// The type is the domain of a function type.
    Domain,
    /// It is the range, behind this domain.
    Range(Ty),
    /// It is an argument of this operator, behind these.
    Argument(Name, Vec<Ty>),
}

/// What the front of a text is.
#[derive(Drop)]
pub(crate) enum Front<'a> {
    /// A type without parentheses, with the bytes behind it.
    Leaf(Ty, &'a [u8]),
    /// A parenthesis with what is open behind it.
    Inside(Open, &'a [u8]),
}

/// What comes of a type that has ended.
#[derive(Drop)]
pub(crate) enum Back<'a> {
    /// A whole type, with the bytes behind it.
    Whole(Ty, &'a [u8]),
    /// A further type is to be read.
    Further(Open, &'a [u8]),
}

/// The type at the front of the text, with room for so many open parentheses, and the bytes behind it.
pub(crate) fn read_type<'a>(
    alloc: Global,
    notation: &Notation,
    room: usize,
    text: &'a [u8],
) -> Result<(Ty, &'a [u8]), Halt<'a>>
    ensures { IsReadAs (λ x. type_of_tree x.0) (λ x. x.1.now) result (type_at notation.now room text.now) }
{
    notation.sound();
    let mut frames = Vec::new(alloc);
    let mut rest = text;
    'types: loop {
        match next_of(alloc, notation, room, &mut frames, rest)? {
            Next::Ended(ty, behind) => return Ok((ty, behind)),
            Next::Begins(behind) => rest = behind,
        }
    }
}

/// Where reading goes on.
#[derive(Drop)]
pub(crate) enum Next<'a> {
    /// A type begins here.
    Begins(&'a [u8]),
    /// The whole type has ended.
    Ended(Ty, &'a [u8]),
}

/// Reads on up to the next type that begins inside what is open.
fn next_of<'a>(
    alloc: Global,
    notation: &Notation,
    room: usize,
    frames: &mut Vec<Open>,
    text: &'a [u8],
) -> Result<Next<'a>, Halt<'a>>
    requires { length frames.old.items ≤ room }
    ensures read { (start : List ℕ) → IsOn notation.now room start frames.old.items text.now
        → IsNext notation.now room start frames.new.items result }
    ensures shorter { IfOk result (BeginsWithin (length text.now)) }
{
    notation.sound();
    match front_of(alloc, notation, room - frames.len(), text)? {
        Front::Inside(inside, after) => {
            frames.push(inside)?;
            Ok(Next::Begins(after))
        }
        Front::Leaf(ty, after) => match close(alloc, notation, frames, ty, after)? {
            Back::Whole(ty, behind) => Ok(Next::Ended(ty, behind)),
            Back::Further(inside, behind) => {
                frames.push(inside)?;
                Ok(Next::Begins(behind))
            }
        },
    }
}

/// The front of a type, with room for so many open parentheses.
fn front_of<'a>(
    alloc: Global,
    notation: &Notation,
    room: usize,
    text: &'a [u8],
) -> Result<Front<'a>, Halt<'a>>
    ensures read { IsFrontOf notation.now room text.now result }
    ensures shorter { IfOk result (OpensWithin (length text.now)) }
{
    match text.split_first() {
        None => Err(Halt::Syntax(text)),
        Some((byte, after)) => {
            if *byte == b'\'' {
                return variable_front(alloc, after);
            }
            if *byte != b'(' {
                return operator_front(alloc, notation, text);
            }
            if room == 0 {
                return Err(Halt::TooManyOpen(text));
            }
            inside(alloc, notation, after)
        }
    }
}

/// A type variable behind its quote.
fn variable_front(alloc: Global, text: &[u8]) -> Result<Front<'_>, Halt<'_>>
    ensures { IsLeafOf (mapped TyVar (variable_at text.now)) result }
{
    let (name, rest) = variable_word(alloc, text)?;
    Ok(Front::Leaf(Ty::Var(name), rest))
}

/// An operator without arguments.
fn operator_front<'a>(
    alloc: Global,
    notation: &Notation,
    text: &'a [u8],
) -> Result<Front<'a>, Halt<'a>>
    ensures { IsLeafOf (mapped (λ n. TyOp n NoTys) (operator_at notation.now text.now)) result }
{
    let (name, rest) = operator_word(alloc, notation, text)?;
    Ok(Front::Leaf(Ty::Op(name, Vec::new(alloc)), rest))
}

/// What a parenthesis opens.
fn inside<'a>(alloc: Global, notation: &Notation, text: &'a [u8]) -> Result<Front<'a>, Halt<'a>>
    ensures read { (m : ℕ) → IsTypeFront notation.now m text.now result }
    ensures shorter { IfOk result (OpensWithin (suc (length text.now))) }
{
    match text.split_first() {
        None => Err(Halt::Syntax(text)),
        Some((byte, _)) => {
            if opens_domain(*byte) {
                Ok(Front::Inside(Open::Domain, text))
            } else {
                inside_word(alloc, notation, text)
            }
        }
    }
}

/// Whether this byte begins a type variable or opens a parenthesis.
fn opens_domain(byte: u8) -> bool
    ensures { result ≡ ((byte == 39) || (byte == 40)) }
{
    byte == b'\'' || byte == b'('
}

/// What a parenthesis opens with an operator's word behind it.
fn inside_word<'a>(
    alloc: Global,
    notation: &Notation,
    text: &'a [u8],
) -> Result<Front<'a>, Halt<'a>>
    ensures read { (m : ℕ) → IsInsideOf (closed (word_first notation.now (type_at notation.now m) text.now))
        notation.now m result }
    ensures shorter { IfOk result (OpensWithin (suc (length text.now))) }
{
    notation.sound();
    let (name, end) = operator_word(alloc, notation, text)?;
    let rest = literal(end, b" ")?;
    behind_word(alloc, notation, name, rest)
}

/// What a parenthesis opens, behind its operator's word and a space: the first argument, or an arrow.
fn behind_word<'a>(
    alloc: Global,
    _notation: &Notation,
    name: Name,
    text: &'a [u8],
) -> Result<Front<'a>, Halt<'a>>
    ensures read { (m : ℕ) → IsInsideOf (closed (behind_word_at _notation.now (type_at _notation.now m) name text.now))
        _notation.now m result }
    ensures shorter { IfOk result (OpensWithin (suc (length text.now))) }
{
    match text.split_first() {
        None => Err(Halt::Syntax(text)),
        Some((byte, _)) => {
            if *byte != b'-' {
                return Ok(Front::Inside(Open::Argument(name, Vec::new(alloc)), text));
            }
            let rest = literal(text, b"-> ")?;
            let domain = Ty::Op(name, Vec::new(alloc));
            Ok(Front::Inside(Open::Range(domain), rest))
        }
    }
}

/// Closes what ends with the type, up to a further type that is to be read.
fn close<'a>(
    alloc: Global,
    notation: &Notation,
    frames: &mut Vec<Open>,
    ty: Ty,
    text: &'a [u8],
) -> Result<Back<'a>, Halt<'a>>
    ensures read { ClosesType notation.now (frames_of frames.old.items) (frames_of frames.new.items)
        (Got (type_of_tree ty) text.now) result }
    ensures shorter { IfOk result (EndsWithin (length text.now)) }
{
    let mut ty = ty;
    let mut rest = text;
    'frames: loop {
        match frames.pop() {
            None => return Ok(Back::Whole(ty, rest)),
            Some(inside) => match back_of(alloc, notation, inside, ty, rest)? {
                Back::Further(inside, behind) => return Ok(Back::Further(inside, behind)),
                Back::Whole(whole, behind) => {
                    ty = whole;
                    rest = behind;
                }
            },
        }
    }
}

/// The function type.
pub(crate) fn function_type(alloc: Global, domain: Ty, range: Ty) -> Result<Ty, AllocError>
    ensures { IfOk result (λ t. type_of_tree t ≡ fun_ty names (type_of_tree domain) (type_of_tree range)) }
{
    let mut args = Vec::new(alloc);
    args.push(domain)?;
    args.push(range)?;
    Ok(Ty::Op(Name::of_text(alloc, b"->")?, args))
}

/// What comes of a type that has ended inside this.
fn back_of<'a>(
    alloc: Global,
    notation: &Notation,
    inside: Open,
    ty: Ty,
    text: &'a [u8],
) -> Result<Back<'a>, Halt<'a>>
    ensures read { (m : ℕ) → IsBackOf notation.now m (frame_of inside) (type_of_tree ty) text.now result }
    ensures shorter { IfOk result (EndsWithin (length text.now)) }
{
    match inside {
        Open::Domain => back_of_domain(notation, ty, text),
        Open::Range(domain) => back_of_range(alloc, notation, domain, ty, text),
        Open::Argument(name, args) => back_of_argument(notation, name, args, ty, text),
    }
}

/// Behind a domain stand the arrow and the range.
fn back_of_domain<'a>(_notation: &Notation, ty: Ty, text: &'a [u8]) -> Result<Back<'a>, Halt<'a>>
    ensures read { (m : ℕ) → IsBackOf _notation.now m Domain (type_of_tree ty) text.now result }
    ensures shorter { IfOk result (EndsWithin (length text.now)) }
{
    let space = literal(text, b" ")?;
    let rest = literal(space, b"-> ")?;
    Ok(Back::Further(Open::Range(ty), rest))
}

/// Behind a range the function type ends.
fn back_of_range<'a>(
    alloc: Global,
    _notation: &Notation,
    domain: Ty,
    ty: Ty,
    text: &'a [u8],
) -> Result<Back<'a>, Halt<'a>>
    ensures read { (m : ℕ) → IsBackOf _notation.now m (Range (type_of_tree domain)) (type_of_tree ty) text.now result }
    ensures shorter { IfOk result (EndsWithin (length text.now)) }
{
    let rest = literal(text, b")")?;
    let whole = function_type(alloc, domain, ty)?;
    Ok(Back::Whole(whole, rest))
}

/// Behind an argument stands a further one, or the type ends.
fn back_of_argument<'a>(
    notation: &Notation,
    name: Name,
    args: Vec<Ty>,
    ty: Ty,
    text: &'a [u8],
) -> Result<Back<'a>, Halt<'a>>
    ensures read { (m : ℕ) → IsBackOf notation.now m (Argument name (map type_of_tree args.items)) (type_of_tree ty)
        text.now result }
    ensures shorter { IfOk result (EndsWithin (length text.now)) }
{
    let mut args = args;
    args.push(ty)?;
    behind_arguments(notation, name, args, text)
}

/// Behind all the arguments that were read stands a further one, or the type ends.
fn behind_arguments<'a>(
    notation: &Notation,
    name: Name,
    args: Vec<Ty>,
    text: &'a [u8],
) -> Result<Back<'a>, Halt<'a>>
    ensures read { (m : ℕ) (ts : List (TypeTree NameValue)) (t : TypeTree NameValue) → map type_of_tree args.items ≡ ts
        ++ t ∷ [] → IsBackOf notation.now m (Argument name ts) t text.now result }
    ensures shorter { IfOk result (EndsWithin (length text.now)) }
{
    notation.sound();
    match next_argument(text) {
        Some(after) => Ok(Back::Further(Open::Argument(name, args), after)),
        None => end_arguments(notation, name, args, text),
    }
}

/// What follows the space before a further argument, where there is one.
fn next_argument(text: &[u8]) -> Option<&[u8]>
    ensures none { IfNone result (is_spaced text.now ≡ false) }
    ensures some { IfSome result (λ after. text.now ≡ 32 ∷ after.now) }
{
    match text {
        [] => None,
        [byte, after @ ..] => { if *byte == b' ' { Some(after) } else { None } }
    }
}

/// The type ends behind its arguments, which make no function type.
fn end_arguments<'a>(
    _notation: &Notation,
    name: Name,
    args: Vec<Ty>,
    text: &'a [u8],
) -> Result<Back<'a>, Halt<'a>>
    ensures read { (m : ℕ) (ts : List (TypeTree NameValue)) (t : TypeTree NameValue) → map type_of_tree args.items ≡ ts
        ++ t ∷ [] → further_at _notation.now (type_at _notation.now m) 0 text.now ≡ Got NoTys text.now
        → IsBackOf _notation.now m (Argument name ts) t text.now result }
    ensures shorter { IfOk result (EndsWithin (length text.now)) }
{
    if is_arrow(&name, &args) {
        return Err(Halt::Syntax(text));
    }
    let rest = literal(text, b")")?;
    Ok(Back::Whole(Ty::Op(name, args), rest))
}
