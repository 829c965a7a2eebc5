//! Nameless terms in the making, with their types, and what is wrong with a part that has none.
ghost use Rattle.std.specs.Prelude.{◌≡◌, ℕ, List, ◌∷◌, Some, IfOk, Ok};
ghost use Rattle.ot_logic.specs.Naming.{names};
ghost use Rattle.ot_logic.specs.Names.{Name as NameValue};
ghost use Rattle.ot_logic.specs.Trees.{Ty as TypeTree, Free as FreeTree, Con as ConTree};
ghost use Rattle.ot_logic.specs.Trees.{Bound as BoundTree, App as AppTree, Abs as AbsTree};
ghost use Rattle.ot_logic.specs.Hol.{bool_ty, fun_ty, result_ty};
ghost use Rattle.ot_forms.specs.Meaning.{Around, fits as fits_test};
ghost use Rattle.ot_logic.specs.PlainTrees.{type_of_tree, term_of_tree};
ghost use Rattle.ot_parse.specs.Meant.{equal_of, infix_of, apply_of};
ghost use Rattle.ot_parse.specs.Meant.{abstracted as abstracted_value, relation_of, related_at};
ghost use Rattle.ot_parse.specs.Values.{IsValue, IsBoundTo, IsMeant, meant_of};
ghost use Rattle.ot_parse.specs.Values.{IsProposition, IsWholly, IsApplied, IsAppliedAs, IsMade, IsRelated};

use crate::measured::{MeasuredType, copy_type, one_deeper};
use crate::notation::{Notation, WordKind};
use crate::trees::is_bool;
use crate::types::function_type;
use ot_forms::TextFault;
use ot_logic::{DEPTH_LIMIT, Memory, Name, Tm, Ty};
use std::alloc::{AllocError, Global};

/// A nameless term with its type.
#[derive(Drop)]
pub(crate) struct Value {
    term: Tm,
    ty: MeasuredType,
    /// The depth of the term, or one past the nesting limit.
    depth: u64,
    /// Whether the types of all its parts are within the nesting limit.
    has_shallow_types: bool,
}

/// What a part of the text stands for, or the place of its first refused part, from 0, with the fault.
#[derive(Drop)]
pub(crate) enum Meant {
    Value(Value),
    Wrong(u64, TextFault),
}

impl Value {
    /// The term.
    pub(crate) fn into_term(self) -> Tm
        ensures { result ≡ self.term }
    {
        let Value {
            term,
            ty: _,
            depth: _,
            has_shallow_types: _,
        } = self;
        term
    }

    /// Whether the term is within the nesting limit.
    fn fits(&self) -> bool
        ensures { (l : Around) → IsValue l self.now → result ≡ fits_test l (term_of_tree self.now.term) }
    {
        self.depth <= DEPTH_LIMIT as u64 && self.has_shallow_types
    }
}

/// A free variable.
pub(crate) fn free_value(alloc: Global, name: Name, ty: Ty) -> Result<Value, AllocError>
    ensures kept { IfOk result (λ v. (l : Around) → IsValue l v) }
    ensures term { IfOk result (λ v. term_of_tree v.term ≡ FreeTree (record { name = name; ty = type_of_tree ty })) }
{
    let measured = MeasuredType::new(alloc, copy_type(alloc, &ty)?)?;
    let is_shallow = measured.is_shallow();
    Ok(Value {
        term: Tm::Free(name, ty),
        ty: measured,
        depth: 1,
        has_shallow_types: is_shallow,
    })
}

/// A constant.
pub(crate) fn constant_value(alloc: Global, name: Name, ty: Ty) -> Result<Value, AllocError>
    ensures kept { IfOk result (λ v. (l : Around) → IsValue l v) }
    ensures term { IfOk result (λ v. term_of_tree v.term ≡ ConTree name (type_of_tree ty)) }
{
    let measured = MeasuredType::new(alloc, copy_type(alloc, &ty)?)?;
    let is_shallow = measured.is_shallow();
    Ok(Value {
        term: Tm::Con(name, ty),
        ty: measured,
        depth: 1,
        has_shallow_types: is_shallow,
    })
}

/// A bound place of this type.
pub(crate) fn bound_value(place: u64, ty: &MeasuredType) -> Result<Value, AllocError>
    ensures kept { IfOk result (λ v. (l : Around) → IsBoundTo l place (type_of_tree ty.now) → IsValue l v) }
    ensures term { IfOk result (λ v. term_of_tree v.term ≡ BoundTree place) }
{
    Ok(Value {
        term: Tm::Bound(place),
        ty: ty.share()?,
        depth: 1,
        has_shallow_types: ty.is_shallow(),
    })
}

/// What a whole part stands for that begins at this place: a proposition, where one is wanted, within the nesting
/// limit.
pub(crate) fn whole(wanted: bool, at: u64, part: Meant) -> Meant
    ensures { (l : Around) → IsMeant l part → IsWholly l wanted at (meant_of part) result }
{
    match part {
        Meant::Wrong(place, fault) => Meant::Wrong(place, fault),
        Meant::Value(value) => whole_value(wanted, at, value),
    }
}

fn whole_value(wanted: bool, at: u64, value: Value) -> Meant
    ensures { (l : Around) → IsValue l value → IsWholly l wanted at (Ok (term_of_tree value.term)) result }
{
    if wanted && !is_bool(value.ty.as_type()) {
        return Meant::Wrong(at, TextFault::BadTypes);
    }
    if !value.fits() {
        return Meant::Wrong(at, TextFault::TooDeep);
    }
    Meant::Value(value)
}

/// An application, where it fits.
fn applied(alloc: Global, function: Value, argument: Value) -> Result<Option<Value>, Memory>
    ensures { (l : Around) → IsValue l function → IsValue l argument
        → IsApplied l (term_of_tree function.term) (term_of_tree argument.term) result }
{
    let depth = one_deeper(function.depth, argument.depth);
    let are_shallow = function.has_shallow_types && argument.has_shallow_types;
    match function.ty.into_result(alloc, argument.ty.as_type())? {
        None => Ok(None),
        Some(ty) => {
            let term = applied_term(alloc, function.term, argument.term)?;
            let is_shallow = ty.is_shallow();
            Ok(Some(Value {
                term,
                ty,
                depth,
                has_shallow_types: is_shallow && are_shallow,
            }))
        }
    }
}

/// An application of this type.
fn applied_as(alloc: Global, function: Value, argument: Value, ty: Ty) -> Result<Value, Memory>
    ensures { (l : Around) → IsValue l function → IsValue l argument
        → result_ty names (type_of_tree function.ty) (type_of_tree argument.ty) ≡ Some (type_of_tree ty)
        → IfOk result (IsAppliedAs l (term_of_tree function.term) (term_of_tree argument.term) (type_of_tree ty)) }
{
    let depth = one_deeper(function.depth, argument.depth);
    let are_shallow = function.has_shallow_types && argument.has_shallow_types;
    let term = applied_term(alloc, function.term, argument.term)?;
    let ty = MeasuredType::new(alloc, ty)?;
    let is_shallow = ty.is_shallow();
    Ok(Value {
        term,
        ty,
        depth,
        has_shallow_types: is_shallow && are_shallow,
    })
}

/// The first term applied to the second.
fn applied_term(alloc: Global, function: Tm, argument: Tm) -> Result<Tm, Memory>
    ensures { IfOk result (λ t. term_of_tree t ≡ AppTree (term_of_tree function) (term_of_tree argument)) }
{
    let function = Box::new(alloc, function)?;
    let argument = Box::new(alloc, argument)?;
    Ok(Tm::App(function, argument))
}

/// An application that begins at this place.
pub(crate) fn application(
    alloc: Global,
    at: u64,
    function: Meant,
    argument: Meant,
) -> Result<Meant, Memory>
    ensures { (l : Around) → IsMeant l function → IsMeant l argument
        → IsMade l (apply_of l at (meant_of function) (meant_of argument)) result }
{
    match (function, argument) {
        (Meant::Wrong(place, fault), _) => Ok(Meant::Wrong(place, fault)),
        (Meant::Value(_), Meant::Wrong(place, fault)) => Ok(Meant::Wrong(place, fault)),
        (Meant::Value(f), Meant::Value(x)) => match applied(alloc, f, x)? {
            Some(value) => Ok(Meant::Value(value)),
            None => Ok(Meant::Wrong(at, TextFault::BadTypes)),
        },
    }
}

/// A constant of this name for a relation between terms of this type.
fn relation(alloc: Global, name: Name, ty: &Ty) -> Result<Value, AllocError>
    ensures kept { IfOk result (λ v. (l : Around) → IsValue l v) }
    ensures term { IfOk result (λ v. term_of_tree v.term ≡ ConTree name (relation_of (type_of_tree ty.now))) }
{
    let whole = relation_type(alloc, ty)?;
    constant_value(alloc, name, whole)
}

/// Such a constant at two terms, where it fits.
fn related(
    alloc: Global,
    relation: Value,
    left: Value,
    right: Value,
) -> Result<Option<Value>, Memory>
    ensures { (l : Around) (n : NameValue) (t : TypeTree NameValue)
        → term_of_tree relation.term ≡ ConTree n (relation_of t) → IsValue l relation → IsValue l left
        → IsValue l right
        → IsRelated l (related_at n t (term_of_tree left.term) (term_of_tree right.term)) result }
{
    match applied(alloc, relation, left)? {
        None => Ok(None),
        Some(half) => applied(alloc, half, right),
    }
}

/// An equation that begins at this place.
pub(crate) fn equation(alloc: Global, at: u64, left: Meant, right: Meant) -> Result<Meant, Memory>
    ensures { (l : Around) → IsMeant l left → IsMeant l right
        → IsMade l (equal_of l at (meant_of left) (meant_of right)) result }
{
    match (left, right) {
        (Meant::Wrong(place, fault), _) => Ok(Meant::Wrong(place, fault)),
        (Meant::Value(_), Meant::Wrong(place, fault)) => Ok(Meant::Wrong(place, fault)),
        (Meant::Value(a), Meant::Value(b)) => equated(alloc, at, a, b),
    }
}

fn equated(alloc: Global, at: u64, left: Value, right: Value) -> Result<Meant, Memory>
    ensures { (l : Around) → IsValue l left → IsValue l right
        → IsMade l (equal_of l at (Ok (term_of_tree left.term)) (Ok (term_of_tree right.term))) result }
{
    let equality = equality(alloc, left.ty.as_type())?;
    match related(alloc, equality, left, right)? {
        Some(value) => Ok(Meant::Value(value)),
        None => Ok(Meant::Wrong(at, TextFault::BadTypes)),
    }
}

/// `=` between terms of this type.
fn equality(alloc: Global, ty: &Ty) -> Result<Value, AllocError>
    ensures kept { IfOk result (λ v. (l : Around) → IsValue l v) }
    ensures term { IfOk result (λ v. term_of_tree v.term ≡ ConTree names.equals (relation_of (type_of_tree ty.now))) }
{
    relation(alloc, Name::of_text(alloc, b"=")?, ty)
}

/// Two propositions at the sides of an operator word, in a part that begins at this place.
pub(crate) fn operation(
    alloc: Global,
    notation: &Notation,
    at: u64,
    operator: &[u8],
    left: Meant,
    right: Meant,
) -> Result<Meant, Memory>
    ensures { (l : Around) → IsMeant l left → IsMeant l right → IsProposition left → IsProposition right
        → IsMade l (infix_of notation.now l at operator.now (meant_of left) (meant_of right)) result }
{
    match (left, right) {
        (Meant::Wrong(place, fault), _) => Ok(Meant::Wrong(place, fault)),
        (Meant::Value(_), Meant::Wrong(place, fault)) => Ok(Meant::Wrong(place, fault)),
        (Meant::Value(a), Meant::Value(b)) => operated(alloc, notation, at, operator, a, b),
    }
}

fn operated(
    alloc: Global,
    notation: &Notation,
    at: u64,
    operator: &[u8],
    left: Value,
    right: Value,
) -> Result<Meant, Memory>
    ensures { (l : Around) → IsValue l left → IsValue l right → type_of_tree left.ty ≡ bool_ty names
        → type_of_tree right.ty ≡ bool_ty names
        → IsMade l (infix_of notation.now l at operator.now (Ok (term_of_tree left.term))
        (Ok (term_of_tree right.term))) result }
{
    match notation.with_base(WordKind::Con, operator) {
        None => Ok(Meant::Wrong(at, TextFault::UnknownOperator)),
        Some(name) => joined(alloc, name, left, right),
    }
}

/// A constant of this name at two propositions, which it takes.
fn joined(alloc: Global, name: &Name, left: Value, right: Value) -> Result<Meant, Memory>
    ensures { (l : Around) → IsValue l left → IsValue l right → type_of_tree left.ty ≡ bool_ty names
        → type_of_tree right.ty ≡ bool_ty names → IsMade l
        (Ok (related_at name.now (bool_ty names) (term_of_tree left.term) (term_of_tree right.term))) result }
{
    let half = half_joined(alloc, name, left)?;
    let ty = bool_type(alloc)?;
    let both = applied_as(alloc, half, right, ty)?;
    Ok(Meant::Value(both))
}

/// A connective of this name applied to its left side.
fn half_joined(alloc: Global, name: &Name, left: Value) -> Result<Value, Memory>
    ensures { (l : Around) → IsValue l left → type_of_tree left.ty ≡ bool_ty names
        → IfOk result (IsAppliedAs l (ConTree name.now (relation_of (bool_ty names))) (term_of_tree left.term)
        (fun_ty names (bool_ty names) (bool_ty names))) }
{
    let connective = connective(alloc, name)?;
    let ty = predicate_type(alloc)?;
    applied_as(alloc, connective, left, ty)
}

/// The type of a function from propositions to propositions.
fn predicate_type(alloc: Global) -> Result<Ty, AllocError>
    ensures { IfOk result (λ t. type_of_tree t ≡ fun_ty names (bool_ty names) (bool_ty names)) }
{
    let domain = bool_type(alloc)?;
    let range = bool_type(alloc)?;
    function_type(alloc, domain, range)
}

/// A constant of this name for a relation between propositions.
fn connective(alloc: Global, name: &Name) -> Result<Value, AllocError>
    ensures kept { IfOk result (λ v. (l : Around) → IsValue l v) }
    ensures term { IfOk result (λ v. term_of_tree v.term ≡ ConTree name.now (relation_of (bool_ty names))) }
{
    let ty = bool_type(alloc)?;
    relation(alloc, name.copy(alloc)?, &ty)
}

/// An abstraction over a variable of this type.
pub(crate) fn abstraction(alloc: Global, ty: MeasuredType, body: Meant) -> Result<Meant, Memory>
    ensures { (l : Around) (x : List ℕ) → IsMeant ((x, type_of_tree ty) ∷ l) body
        → IsMade l (abstracted_value (type_of_tree ty) (meant_of body)) result }
{
    match body {
        Meant::Wrong(place, fault) => Ok(Meant::Wrong(place, fault)),
        Meant::Value(value) => abstracted(alloc, ty, value),
    }
}

fn abstracted(alloc: Global, ty: MeasuredType, body: Value) -> Result<Meant, Memory>
    ensures { (l : Around) (x : List ℕ) → IsValue ((x, type_of_tree ty) ∷ l) body
        → IsMade l (Ok (AbsTree (type_of_tree ty) (term_of_tree body.term))) result }
{
    let whole = MeasuredType::function(alloc, &ty, body.ty)?;
    let term = abstracted_term(alloc, ty.into_type(alloc)?, body.term)?;
    let is_shallow = whole.is_shallow();
    Ok(Meant::Value(Value {
        term,
        ty: whole,
        depth: one_deeper(body.depth, body.depth),
        has_shallow_types: is_shallow && body.has_shallow_types,
    }))
}

/// The abstraction of a term over a variable of this type.
fn abstracted_term(alloc: Global, ty: Ty, body: Tm) -> Result<Tm, Memory>
    ensures { IfOk result (λ t. term_of_tree t ≡ AbsTree (type_of_tree ty) (term_of_tree body)) }
{
    let body = Box::new(alloc, body)?;
    Ok(Tm::Abs(ty, body))
}

/// The type of a relation between terms of this type.
fn relation_type(alloc: Global, ty: &Ty) -> Result<Ty, AllocError>
    ensures { IfOk result (λ t. type_of_tree t ≡ relation_of (type_of_tree ty.now)) }
{
    let half = function_type(alloc, copy_type(alloc, ty)?, bool_type(alloc)?)?;
    function_type(alloc, copy_type(alloc, ty)?, half)
}

/// The type of propositions.
fn bool_type(alloc: Global) -> Result<Ty, AllocError>
    ensures { IfOk result (λ t. type_of_tree t ≡ bool_ty names) }
{
    Ok(Ty::Op(Name::of_text(alloc, b"bool")?, Vec::new(alloc)))
}
