//! Terms in a text, with what is open around them kept in a list.
ghost use Rattle.std.specs.Prelude.{◌≡◌, ◌≤◌, ◌<◌, ◌+◌, ◌-◌, ◌==◌, ◌||◌, ℕ, suc, true};
ghost use Rattle.std.specs.Prelude.{List, [], ◌∷◌, length, IfOk, IfNone, IfSome};
ghost use Rattle.ot_logic.specs.Names.{Name as NameValue};
ghost use Rattle.ot_logic.specs.Trees.{Symbol};
ghost use Rattle.ot_forms.specs.Forms.{FreeAs, ConAs};
ghost use Rattle.ot_forms.specs.Meaning.{Around};
ghost use Rattle.ot_forms.specs.Refusals.{open_limit};
ghost use Rattle.ot_forms.specs.Reading.{Got, mapped, part_at, first_part, is_single as single_test};
ghost use Rattle.ot_parse.specs.Gives.{IsReadAs};
ghost use Rattle.ot_logic.specs.PlainTrees.{type_of_tree};
ghost use Rattle.ot_parse.specs.Meant.{place_at, raw, bound_of, is_relation as relation_test};
ghost use Rattle.ot_parse.specs.Meant.{sides_of as sides_meaning};
ghost use Rattle.ot_parse.specs.Values.{IsMeant, IsProposition, IsMade, meant_of};
ghost use Rattle.ot_parse.specs.TermFrames.{First, Right, Argument, Body, inner_of, around, closed};
ghost use Rattle.ot_parse.specs.TermFrames.{begun, operated, behind, after, binder_at};
ghost use Rattle.ot_parse.specs.TermFrames.{closed_free_at, closed_variable_at, closed_constant_at};
ghost use Rattle.ot_parse.specs.TermFrames.{closed_term, binding_reading, named_reading, is_free_at};
ghost use Rattle.ot_parse.specs.TermCode.{frame_of, reversed, frames_of, IsKept, AreKept, IsLeaf};
ghost use Rattle.ot_parse.specs.TermCode.{IsTermFront, IsFront, IsBack, ClosesTerm, IsOn, HasEnded, IsNext};
ghost use Rattle.ot_parse.specs.TermCode.{OpensWithin, EndsWithin, BeginsWithin};

use crate::halt::Halt;
use crate::measured::MeasuredType;
use crate::notation::Notation;
use crate::parts::{part, signs};
use crate::spelling::{bare, literal, variable_word};
use crate::symbols::constant_word;
use crate::types::read_type;
use crate::values::{
    Meant, abstraction, application, bound_value, constant_value, equation, free_value, operation,
    whole,
};
use crate::words::{is_same, is_sign};
use ot_forms::TextFault;
use ot_logic::{Memory, Name, Ty};
use std::alloc::Global;

/// How many parentheses and braces may be open.
pub(crate) const OPEN_LIMIT: usize = 8192;

/// What is open around a term, with places from the start of the text.
#[derive(Drop)]
pub(crate) enum Open<'a> {
    /// The term is the first one: the places of the parenthesis and of the term.
    First(u64, u64),
    /// It is the right side of this operator: the places of the parenthesis and of the term, and the left side.
    Right(u64, u64, &'a [u8], Meant),
    /// It is an argument of this function: the places of the parenthesis and of the term.
    Argument(u64, u64, Meant),
    /// It is the body of an abstraction: its place, and the variable's name and type.
    Body(u64, &'a [u8], MeasuredType),
}

/// What the front of a text is.
#[derive(Drop)]
pub(crate) enum Front<'a> {
    /// A term without a term inside, with the bytes behind it.
    Leaf(Meant, &'a [u8]),
    /// A parenthesis with what is open behind it.
    Inside(Open<'a>, &'a [u8]),
    /// A parenthesis, and the first term behind it.
    Head(Open<'a>, Meant, &'a [u8]),
}

/// What comes of a term that has ended.
#[derive(Drop)]
pub(crate) enum Back<'a> {
    /// A whole term, with the bytes behind it.
    Whole(Meant, &'a [u8]),
    /// A further term is to be read.
    Further(Open<'a>, &'a [u8]),
}

/// What the term at the front of the text means before it is whole, and the bytes behind it; in a text of so many
/// bytes.
pub(crate) fn read_part<'a>(
    alloc: Global,
    notation: &Notation,
    total: usize,
    text: &'a [u8],
) -> Result<(Meant, &'a [u8]), Halt<'a>>
    requires { length text.now ≤ total }
    ensures read { IsReadAs (λ x. meant_of x.0) (λ x. x.1.now) result
        (begun total notation.now open_limit [] text.now) }
    ensures kept { IfOk result (λ x. IsMeant [] x.0) }
{
    let mut frames = Vec::new(alloc);
    let mut rest = text;
    'terms: loop {
        match next_of(alloc, notation, total, &mut frames, rest)? {
            Next::Ended(part, behind) => return Ok((part, behind)),
            Next::Begins(behind) => rest = behind,
        }
    }
}

/// Where reading goes on.
#[derive(Drop)]
enum Next<'a> {
    /// A term begins here.
    Begins(&'a [u8]),
    /// The whole term has ended.
    Ended(Meant, &'a [u8]),
}

/// Reads on up to the next term that begins inside what is open.
fn next_of<'a>(
    alloc: Global,
    notation: &Notation,
    total: usize,
    frames: &mut Vec<Open<'a>>,
    text: &'a [u8],
) -> Result<Next<'a>, Halt<'a>>
    requires open { length frames.old.items ≤ open_limit }
    requires within { length text.now ≤ total }
    ensures read { (start : List ℕ) → IsOn total notation.now start frames.old.items text.now
        → IsNext total notation.now start frames.new.items result }
    ensures shorter { IfOk result (BeginsWithin (length text.now)) }
{
    notation.sound();
    let room = OPEN_LIMIT - frames.len();
    match front_of(alloc, notation, total, frames.as_slice(), room, text)? {
        Front::Inside(inside, after) => {
            frames.push(inside)?;
            Ok(Next::Begins(after))
        }
        Front::Leaf(part, after) => ended(alloc, notation, total, frames, part, after),
        Front::Head(inside, part, after) => {
            frames.push(inside)?;
            ended(alloc, notation, total, frames, part, after)
        }
    }
}

/// Reads on behind a term that has ended inside what is open.
fn ended<'a>(
    alloc: Global,
    notation: &Notation,
    total: usize,
    frames: &mut Vec<Open<'a>>,
    part: Meant,
    text: &'a [u8],
) -> Result<Next<'a>, Halt<'a>>
    ensures read { (start : List ℕ) → HasEnded total notation.now start frames.old.items part text.now
        → IsNext total notation.now start frames.new.items result }
    ensures shorter { IfOk result (BeginsWithin (length text.now)) }
{
    match close(alloc, notation, total, frames, part, text)? {
        Back::Whole(part, behind) => Ok(Next::Ended(part, behind)),
        Back::Further(inside, behind) => {
            frames.push(inside)?;
            Ok(Next::Begins(behind))
        }
    }
}

/// The place of what begins these bytes, in a text of so many.
pub(crate) fn place_of(total: usize, text: &[u8]) -> u64
    ensures { result ≡ place_at total text.now }
{
    total.saturating_sub(text.len()) as u64
}

/// The front of a term inside what is open, with room for so many more parentheses and braces.
fn front_of<'a>(
    alloc: Global,
    notation: &Notation,
    total: usize,
    frames: &[Open<'a>],
    room: usize,
    text: &'a [u8],
) -> Result<Front<'a>, Halt<'a>>
    ensures read { length text.now ≤ total → IsFront total notation.now room (around (frames_of frames.now)) text.now
        result }
    ensures shorter { IfOk result (OpensWithin (length text.now)) }
{
    match text.split_first() {
        None => Err(Halt::Syntax(text)),
        Some((byte, after)) => {
            if *byte == b'(' {
                if room == 0 {
                    return Err(Halt::TooManyOpen(text));
                }
                let at = place_of(total, text);
                return inside(alloc, notation, total, frames, room - 1, at, after);
            }
            if *byte == b'{' {
                if room == 0 {
                    return Err(Halt::TooManyOpen(text));
                }
                return constant_front(alloc, notation, room - 1, after);
            }
            place_front(total, frames, text)
        }
    }
}

/// A bound place.
fn place_front<'a>(total: usize, frames: &[Open<'a>], text: &'a [u8]) -> Result<Front<'a>, Halt<'a>>
    ensures { let l = around (frames_of frames.now) in IsLeaf l
        (mapped (bound_of l (place_at total text.now)) (part_at text.now)) result }
{
    let (name, rest) = part(text)?;
    let bound = bound_part(frames, place_of(total, text), name)?;
    Ok(Front::Leaf(bound, rest))
}

/// The term of the innermost abstraction with this name, at this place.
fn bound_part(frames: &[Open<'_>], at: u64, name: &[u8]) -> Result<Meant, Memory>
    ensures { let l = around (frames_of frames.now) in IsMade l (bound_of l at name.now) result }
{
    let mut number = 0;
    let mut left = frames.len();
    'frames: while left > 0 {
        left -= 1;
        match variable_of(&frames[left]) {
            None => continue 'frames,
            Some((variable, ty)) => {
                if is_same(variable, name) {
                    return Ok(Meant::Value(bound_value(number, ty)?));
                }
                number += 1;
            }
        }
    }
    Ok(Meant::Wrong(at, TextFault::Unbound))
}

/// The variable of an abstraction, where that is open.
fn variable_of<'a>(inside: &'a Open<'_>) -> Option<(&'a [u8], &'a MeasuredType)>
    ensures none { IfNone result ((l : Around) → inner_of (frame_of inside.now) l ≡ l) }
    ensures some { IfSome result (λ v. (l : Around) → inner_of (frame_of inside.now) l
        ≡ (v.0.now, type_of_tree v.1.now) ∷ l) }
{
    match inside {
        Open::First(_, _) => None,
        Open::Right(_, _, _, _) => None,
        Open::Argument(_, _, _) => None,
        Open::Body(_, variable, ty) => Some((*variable, ty)),
    }
}

/// A constant behind its opening brace, with room for so many open parentheses.
fn constant_front<'a>(
    alloc: Global,
    notation: &Notation,
    room: usize,
    text: &'a [u8],
) -> Result<Front<'a>, Halt<'a>>
    ensures { (k : ℕ) (l : Around)
        → IsLeaf l (mapped (raw notation.now l k) (closed_constant_at notation.now room text.now)) result }
{
    let (name, ty, rest) = constant(alloc, notation, room, text)?;
    let value = constant_value(alloc, name, ty)?;
    Ok(Front::Leaf(Meant::Value(value), rest))
}

/// A constant's name and type.
fn constant<'a>(
    alloc: Global,
    notation: &Notation,
    room: usize,
    text: &'a [u8],
) -> Result<(Name, Ty, &'a [u8]), Halt<'a>>
    ensures { IsReadAs (λ x. ConAs x.0 (type_of_tree x.1)) (λ x. x.2.now) result
        (closed_constant_at notation.now room text.now) }
{
    let (name, end) = constant_word(alloc, notation, text)?;
    let rest = literal(end, b" : ")?;
    let (ty, behind) = read_type(alloc, notation, room, rest)?;
    let after = literal(behind, b"}")?;
    Ok((name, ty, after))
}

/// What a parenthesis at this place opens, with room for so many inside.
fn inside<'a>(
    alloc: Global,
    notation: &Notation,
    total: usize,
    frames: &[Open<'a>],
    room: usize,
    at: u64,
    text: &'a [u8],
) -> Result<Front<'a>, Halt<'a>>
    ensures read { length text.now < total → at ≡ total - suc (length text.now)
        → IsTermFront total notation.now room (around (frames_of frames.now))
        (mapped (raw notation.now (around (frames_of frames.now)) at) (closed_term notation.now room text.now))
        result }
    ensures shorter { IfOk result (OpensWithin (suc (length text.now))) }
{
    notation.sound();
    match text.split_first() {
        None => Err(Halt::Syntax(text)),
        Some((byte, after)) => {
            if *byte == b'\\' {
                return binding_front(alloc, notation, total, room, after);
            }
            if *byte == b'"' {
                return variable_front(alloc, notation, room, text);
            }
            if opens_term(*byte) {
                return Ok(Front::Inside(Open::First(at, place_of(total, text)), text));
            }
            named(alloc, notation, total, frames, room, at, text)
        }
    }
}

/// Whether this byte opens a parenthesis or a constant's brace.
fn opens_term(byte: u8) -> bool
    ensures { result ≡ ((byte == 40) || (byte == 123)) }
{
    byte == b'(' || byte == b'{'
}

/// An abstraction behind its backslash.
fn binding_front<'a>(
    alloc: Global,
    notation: &Notation,
    total: usize,
    room: usize,
    text: &'a [u8],
) -> Result<Front<'a>, Halt<'a>>
    ensures read { (k : ℕ) (l : Around) → suc (length text.now) < total → k ≡ total - suc (suc (length text.now))
        → IsTermFront total notation.now room l
        (mapped (raw notation.now l k) (binding_reading notation.now room text.now)) result }
    ensures shorter { IfOk result (OpensWithin (suc (length text.now))) }
{
    notation.sound();
    let (name, ty, body) = binder(alloc, notation, room, text)?;
    let place = place_of(total, body);
    Ok(Front::Inside(Open::Body(place, name, ty), body))
}

/// The variable of an abstraction.
fn binder<'a>(
    alloc: Global,
    notation: &Notation,
    room: usize,
    text: &'a [u8],
) -> Result<(&'a [u8], MeasuredType, &'a [u8]), Halt<'a>>
    ensures { IsReadAs (λ x. (x.0.now, type_of_tree x.1)) (λ x. x.2.now) result (binder_at notation.now room text.now) }
{
    let (name, end) = part(text)?;
    let rest = literal(end, b" : ")?;
    let (ty, behind) = read_type(alloc, notation, room, rest)?;
    let body = literal(behind, b" . ")?;
    Ok((name, MeasuredType::new(alloc, ty)?, body))
}

/// A free variable whose name is quoted.
fn variable_front<'a>(
    alloc: Global,
    notation: &Notation,
    room: usize,
    text: &'a [u8],
) -> Result<Front<'a>, Halt<'a>>
    ensures { (k : ℕ) (l : Around)
        → IsLeaf l (mapped (raw notation.now l k) (closed_variable_at notation.now room text.now)) result }
{
    let (name, ty, rest) = quoted_variable(alloc, notation, room, text)?;
    let value = free_value(alloc, name, ty)?;
    Ok(Front::Leaf(Meant::Value(value), rest))
}

fn quoted_variable<'a>(
    alloc: Global,
    notation: &Notation,
    room: usize,
    text: &'a [u8],
) -> Result<(Name, Ty, &'a [u8]), Halt<'a>>
    ensures { IsReadAs (λ x. FreeAs x.0 (type_of_tree x.1)) (λ x. x.2.now) result
        (closed_variable_at notation.now room text.now) }
{
    let (name, end) = variable_word(alloc, text)?;
    let rest = literal(end, b" ")?;
    free(alloc, notation, room, name, rest)
}

/// The type of a free variable, and its end.
fn free<'a>(
    alloc: Global,
    notation: &Notation,
    room: usize,
    name: Name,
    text: &'a [u8],
) -> Result<(Name, Ty, &'a [u8]), Halt<'a>>
    ensures { IsReadAs (λ x. FreeAs x.0 (type_of_tree x.1)) (λ x. x.2.now) result
        (closed_free_at notation.now room name text.now) }
{
    let rest = literal(text, b": ")?;
    let (ty, behind) = read_type(alloc, notation, room, rest)?;
    let after = literal(behind, b")")?;
    Ok((name, ty, after))
}

/// A free variable, or a bound place as the first term.
fn named<'a>(
    alloc: Global,
    notation: &Notation,
    total: usize,
    frames: &[Open<'a>],
    room: usize,
    at: u64,
    text: &'a [u8],
) -> Result<Front<'a>, Halt<'a>>
    ensures read { length text.now < total → at ≡ total - suc (length text.now)
        → IsTermFront total notation.now room (around (frames_of frames.now))
        (mapped (raw notation.now (around (frames_of frames.now)) at) (named_reading notation.now room text.now))
        result }
    ensures shorter { IfOk result (OpensWithin (suc (length text.now))) }
{
    notation.sound();
    let (name, end) = bare(alloc, text)?;
    let rest = literal(end, b" ")?;
    if is_free(&name, rest) {
        return free_front(alloc, notation, room, name, rest);
    }
    let place = place_of(total, text);
    let bound = bound_part(frames, place, first_of(&name))?;
    Ok(Front::Head(Open::First(at, place), bound, end))
}

/// Whether a bare word and a space before this text begin a free variable.
fn is_free(name: &Name, text: &[u8]) -> bool
    ensures { result ≡ is_free_at name.now text.now }
{
    match text.split_first() {
        None => true,
        Some((byte, _)) => *byte == b':' || !is_single(name),
    }
}

/// Whether a name has one component.
fn is_single(name: &Name) -> bool
    ensures { result ≡ single_test name.now }
{
    name.components().len() == 1
}

fn free_front<'a>(
    alloc: Global,
    notation: &Notation,
    room: usize,
    name: Name,
    text: &'a [u8],
) -> Result<Front<'a>, Halt<'a>>
    ensures { (k : ℕ) (l : Around)
        → IsLeaf l (mapped (raw notation.now l k) (closed_free_at notation.now room name text.now)) result }
{
    let (name, ty, rest) = free(alloc, notation, room, name, text)?;
    let value = free_value(alloc, name, ty)?;
    Ok(Front::Leaf(Meant::Value(value), rest))
}

/// The first component.
fn first_of(name: &Name) -> &[u8]
    ensures { result.now ≡ first_part name.now }
{
    let components = name.components();
    components[0].as_slice()
}

/// Closes what ends with the term, up to a further term that is to be read.
fn close<'a>(
    alloc: Global,
    notation: &Notation,
    total: usize,
    frames: &mut Vec<Open<'a>>,
    part: Meant,
    text: &'a [u8],
) -> Result<Back<'a>, Halt<'a>>
    ensures read { AreKept (reversed frames.old.items) → IsMeant (around (frames_of frames.old.items)) part
        → length text.now ≤ total → ClosesTerm total notation.now (reversed frames.old.items)
        (reversed frames.new.items) (Got (meant_of part) text.now) result }
    ensures shorter { IfOk result (EndsWithin (length text.now)) }
{
    let mut part = part;
    let mut rest = text;
    'open: loop {
        match frames.pop() {
            None => return Ok(Back::Whole(part, rest)),
            Some(inside) => match back_of(alloc, notation, total, inside, part, rest)? {
                Back::Further(inside, behind) => return Ok(Back::Further(inside, behind)),
                Back::Whole(whole, behind) => {
                    part = whole;
                    rest = behind;
                }
            },
        }
    }
}

/// What comes of a term that has ended inside this.
fn back_of<'a>(
    alloc: Global,
    notation: &Notation,
    total: usize,
    inside: Open<'a>,
    part: Meant,
    text: &'a [u8],
) -> Result<Back<'a>, Halt<'a>>
    ensures read { (m : ℕ) (l : Around) → IsKept l inside.entry → IsMeant (inner_of (frame_of inside.entry) l) part
        → length text.now ≤ total → IsBack total notation.now m l
        (after total notation.now m l (frame_of inside.entry) (meant_of part) text.now) result }
    ensures shorter { IfOk result (EndsWithin (length text.now)) }
{
    match inside {
        Open::First(at, place) => back_of_first(total, at, place, part, text),
        Open::Right(at, place, operator, left) => {
            back_of_right(alloc, notation, at, place, operator, left, part, text)
        }
        Open::Argument(at, place, function) => {
            back_of_argument(alloc, notation, total, at, place, function, part, text)
        }
        Open::Body(place, name, ty) => back_of_body(alloc, place, name, ty, part, text),
    }
}

/// Whether the sides of an operator are propositions.
fn is_relation(operator: &[u8]) -> bool
    ensures { result ≡ relation_test operator.now }
{
    !is_same(operator, b"=")
}

/// Behind a first term stands an operator or an argument.
fn back_of_first<'a>(
    total: usize,
    at: u64,
    place: u64,
    part: Meant,
    text: &'a [u8],
) -> Result<Back<'a>, Halt<'a>>
    ensures read { (h : List (Symbol NameValue)) (m : ℕ) (l : Around) → place ≡ at + 1 → IsMeant l part
        → length text.now ≤ total
        → IsBack total h m l (after total h m l (First at) (meant_of part) text.now) result }
    ensures shorter { IfOk result (EndsWithin (length text.now)) }
{
    let rest = literal(text, b" ")?;
    behind_first(total, at, place, part, rest)
}

/// Behind a first term and a space stands an operator or an argument.
fn behind_first<'a>(
    total: usize,
    at: u64,
    place: u64,
    part: Meant,
    text: &'a [u8],
) -> Result<Back<'a>, Halt<'a>>
    ensures read { (h : List (Symbol NameValue)) (m : ℕ) (l : Around) → place ≡ at + 1 → IsMeant l part
        → length text.now ≤ total
        → IsBack total h m l (closed (behind total h m l at (meant_of part) text.now)) result }
    ensures shorter { IfOk result (EndsWithin (suc (length text.now))) }
{
    match text.split_first() {
        None => Err(Halt::Syntax(text)),
        Some((byte, _)) => {
            if is_sign(*byte) {
                return operator(total, at, place, part, text);
            }
            let function = whole(false, place, part);
            let next = place_of(total, text);
            Ok(Back::Further(Open::Argument(at, next, function), text))
        }
    }
}

/// An operator behind its left side.
fn operator<'a>(
    total: usize,
    at: u64,
    place: u64,
    part: Meant,
    text: &'a [u8],
) -> Result<Back<'a>, Halt<'a>>
    ensures read { (h : List (Symbol NameValue)) (m : ℕ) (l : Around) → place ≡ at + 1 → IsMeant l part
        → length text.now ≤ total
        → IsBack total h m l (closed (operated total h m l at (meant_of part) text.now)) result }
    ensures shorter { IfOk result (EndsWithin (suc (length text.now))) }
{
    let (word, end) = signs(text)?;
    let rest = literal(end, b" ")?;
    let left = whole(is_relation(word), place, part);
    let next = place_of(total, rest);
    Ok(Back::Further(Open::Right(at, next, word, left), rest))
}

/// Behind the right side the operation ends.
fn back_of_right<'a>(
    alloc: Global,
    notation: &Notation,
    at: u64,
    place: u64,
    operator: &'a [u8],
    left: Meant,
    part: Meant,
    text: &'a [u8],
) -> Result<Back<'a>, Halt<'a>>
    ensures read { (n m : ℕ) (l : Around) → IsMeant l left × (relation_test operator.now ≡ true → IsProposition left)
        → IsMeant l part → length text.now ≤ n
        → IsBack n notation.now m l
        (after n notation.now m l (Right at place operator.now (meant_of left)) (meant_of part) text.now) result }
    ensures shorter { IfOk result (EndsWithin (length text.now)) }
{
    let rest = literal(text, b")")?;
    let right = whole(is_relation(operator), place, part);
    let sides = sides_of(alloc, notation, at, operator, left, right)?;
    Ok(Back::Whole(sides, rest))
}

/// What the sides of an operator stand for, in a part that begins at this place.
fn sides_of(
    alloc: Global,
    notation: &Notation,
    at: u64,
    operator: &[u8],
    left: Meant,
    right: Meant,
) -> Result<Meant, Memory>
    ensures { (l : Around) → IsMeant l left → IsMeant l right
        → (relation_test operator.now ≡ true → IsProposition left × IsProposition right)
        → IsMade l (sides_meaning notation.now l at operator.now (meant_of left) (meant_of right)) result }
{
    if is_same(operator, b"=") {
        equation(alloc, at, left, right)
    } else {
        operation(alloc, notation, at, operator, left, right)
    }
}

/// Behind an argument stands a further one, or the application ends.
fn back_of_argument<'a>(
    alloc: Global,
    notation: &Notation,
    total: usize,
    at: u64,
    place: u64,
    function: Meant,
    part: Meant,
    text: &'a [u8],
) -> Result<Back<'a>, Halt<'a>>
    ensures read { (m : ℕ) (l : Around) → IsMeant l function → IsMeant l part → length text.now ≤ total
        → IsBack total notation.now m l
        (after total notation.now m l (Argument at place (meant_of function)) (meant_of part) text.now) result }
    ensures shorter { IfOk result (EndsWithin (length text.now)) }
{
    notation.sound();
    let argument = whole(false, place, part);
    let applied = application(alloc, at, function, argument)?;
    match text.split_first() {
        None => Err(Halt::Syntax(text)),
        Some((byte, after)) => {
            if *byte == b' ' {
                let function = whole(false, at, applied);
                let place = place_of(total, after);
                return Ok(Back::Further(Open::Argument(at, place, function), after));
            }
            let rest = literal(text, b")")?;
            Ok(Back::Whole(applied, rest))
        }
    }
}

/// Behind its body the abstraction ends.
fn back_of_body<'a>(
    alloc: Global,
    place: u64,
    _name: &'a [u8],
    ty: MeasuredType,
    part: Meant,
    text: &'a [u8],
) -> Result<Back<'a>, Halt<'a>>
    ensures read { (n : ℕ) (h : List (Symbol NameValue)) (m : ℕ) (l : Around)
        → IsMeant ((_name.now, type_of_tree ty) ∷ l) part → length text.now ≤ n
        → IsBack n h m l (after n h m l (Body place _name.now (type_of_tree ty)) (meant_of part) text.now) result }
    ensures shorter { IfOk result (EndsWithin (length text.now)) }
{
    let rest = literal(text, b")")?;
    let body = whole(false, place, part);
    let abstraction = abstraction(alloc, ty, body)?;
    Ok(Back::Whole(abstraction, rest))
}
