//! Terms that are matched.
ghost use Rattle.std.specs.Prelude.{◌≡◌, ◌↔◌, ◌<◌, List, length, map, Some, is_some, IfOk, OnOk, IfSome, IsTrue};
ghost use Rattle.std.specs.Map.{lookup};
ghost use Rattle.std.specs.Option.{option_map};
ghost use Rattle.ot_logic.specs.Names.{Name as NameValue};
ghost use Rattle.ot_logic.specs.Naming.{names};
ghost use Rattle.ot_logic.specs.Trees.{Variable, Free, Con, Bound};
ghost use Rattle.ot_logic.specs.Hol.{same_var};
ghost use Rattle.ot_logic.specs.NamedTerms.{nameless_in, place};
ghost use Rattle.ot_kernel.specs.State.{variable_at, named_at, term_at, type_at};
ghost use Rattle.ot_match.specs.Walk.{Maps, put_term, walk_term};
ghost use Rattle.ot_logic.specs.PlainTrees.{type_of_tree, term_of_tree};
ghost use Rattle.ot_match.specs.Found.{terms_of, maps_of, AreTermsIn, IsMatchIn};
ghost use Rattle.ot_view.specs.Nodes.{IsKey, AreKeysIn};
ghost use Rattle.ot_view.specs.Binders.{binders_at, AreKeys};
ghost use Rattle.ot_match.specs.Steps.{answered, any_bound, Meets};

use crate::find::Match;
use crate::names::{is_name, is_same_name};
use crate::types::match_type;
use ot_kernel::Kernel;
use ot_logic::{Memory, Name, Tm, Ty};
use ot_term::{TermId, TermNode, VarKey};
use ot_type::TypeId;
use ot_view::{
    Binders, abstraction, application, free_vars, same_term, same_type, same_variable, term_node,
    type_of,
};
use std::alloc::Global;

/// Whether one of the binders binds a variable.
fn is_bound(kernel: &Kernel, binders: &Binders<'_>, v: &VarKey) -> bool
    requires key { IsKey kernel.now v.now }
    requires binders { AreKeys kernel.now binders.now }
    ensures { result ≡ is_some (place names (binders_at kernel.now binders.now) (variable_at kernel.now v.now)) }
{
    match binders {
        Binders::Outermost => false,
        Binders::Inside(w, around) => { same_variable(kernel, v, w) || is_bound(kernel, around, v) }
    }
}

/// Whether a variable is bound at this place, the innermost binder's being 0.
fn is_place(kernel: &Kernel, binders: &Binders<'_>, v: &VarKey, number: u64) -> bool
    requires key { IsKey kernel.now v.now }
    requires binders { AreKeys kernel.now binders.now }
    ensures { IsTrue result
        ↔ (place names (binders_at kernel.now binders.now) (variable_at kernel.now v.now) ≡ Some number) }
{
    match binders {
        Binders::Outermost => false,
        Binders::Inside(w, around) => {
            if same_variable(kernel, v, w) {
                return number == 0;
            }
            number > 0 && is_place(kernel, around, v, number - 1)
        }
    }
}

/// Whether a binder around binds a free variable of a term.
fn meets_binder(
    alloc: Global,
    kernel: &Kernel,
    binders: &Binders<'_>,
    id: TermId,
) -> Result<bool, Memory>
    requires id { id < length kernel.now.terms }
    requires binders { AreKeys kernel.now binders.now }
    ensures { IfOk result (λ b. Meets b (binders_at kernel.now binders.now) (named_at kernel.now.terms id)) }
{
    match binders {
        Binders::Outermost => Ok(false),
        Binders::Inside(_, _) => {
            let vars = free_vars(alloc, kernel, id)?;
            Ok(is_any_bound(kernel, binders, &vars))
        }
    }
}

/// Whether one of the binders binds one of these variables.
fn is_any_bound(kernel: &Kernel, binders: &Binders<'_>, vars: &[VarKey]) -> bool
    requires vars { AreKeysIn kernel.now vars.now }
    requires binders { AreKeys kernel.now binders.now }
    ensures { result ≡ any_bound (binders_at kernel.now binders.now) (map (variable_at kernel.now) vars.now) }
{
    'each: for v in vars {
        if is_bound(kernel, binders, v) {
            return true;
        }
    }
    false
}

/// The term that a variable has.
fn held_term(
    kernel: &Kernel,
    vars: &[(Name, TypeId, TermId)],
    name: &Name,
    ty: TypeId,
) -> Option<TermId>
    requires ty { ty < length kernel.now.types }
    requires vars { AreTermsIn kernel.now vars.now }
    ensures held { option_map (term_at kernel.now) result
        ≡ lookup (same_var names (record { name = name.now; ty = type_at kernel.now ty }))
        (terms_of kernel.now vars.now) }
    ensures below { IfSome result (λ held. held < length kernel.now.terms) }
{
    'each: for var in vars {
        if is_same_name(name, &var.0) && same_type(kernel, ty, var.1) {
            return Some(var.2);
        }
    }
    None
}

/// Lets a variable become this term, if it has become no other one.
fn put_term(
    alloc: Global,
    kernel: &Kernel,
    name: &Name,
    ty: TypeId,
    id: TermId,
    vars: &mut Vec<(Name, TypeId, TermId)>,
) -> Result<bool, Memory>
    requires ty { ty < length kernel.now.types }
    requires id { id < length kernel.now.terms }
    requires vars { AreTermsIn kernel.now vars.old.items }
    ensures put { IfOk result (λ b. put_term names (record { name = name.now; ty = type_at kernel.now ty })
        (term_at kernel.now id) (terms_of kernel.now vars.old.items)
        ≡ answered b (terms_of kernel.now vars.new.items)) }
    ensures inside { OnOk result (AreTermsIn kernel.now vars.new.items) }
{
    match held_term(kernel, vars, name, ty) {
        Some(held) => Ok(same_term(kernel, id, held)),
        None => {
            let name = name.copy(alloc)?;
            vars.push((name, ty, id))?;
            Ok(true)
        }
    }
}

/// Matches a free variable: no binder around may bind a variable of the term, whose type the
/// variable's type becomes.
fn match_variable(
    alloc: Global,
    kernel: &Kernel,
    binders: &Binders<'_>,
    name: &Name,
    ty: &Ty,
    id: TermId,
    maps: &mut Match,
) -> Result<bool, Memory>
    requires id { id < length kernel.now.terms }
    requires binders { AreKeys kernel.now binders.now }
    requires maps { IsMatchIn kernel.now maps.old }
    ensures walk { IfOk result (λ b. walk_term names (Free (record { name = name.now; ty = type_of_tree ty.now }))
        (nameless_in names (binders_at kernel.now binders.now) (named_at kernel.now.terms id))
        (maps_of kernel.now maps.old)
        ≡ answered b (maps_of kernel.now maps.new)) }
    ensures inside { OnOk result (IsMatchIn kernel.now maps.new) }
{
    if meets_binder(alloc, kernel, binders, id)? {
        return Ok(false);
    }
    let found = type_of(kernel, id);
    if !match_type(alloc, kernel, ty, found, &mut maps.types)? {
        return Ok(false);
    }
    put_term(alloc, kernel, name, found, id, &mut maps.vars)
}

/// Matches a constant.
fn match_constant(
    alloc: Global,
    kernel: &Kernel,
    name: &Name,
    ty: &Ty,
    id: TermId,
    maps: &mut Match,
) -> Result<bool, Memory>
    requires id { id < length kernel.now.terms }
    requires maps { IsMatchIn kernel.now maps.old }
    ensures walk { IfOk result
        (λ b. (e : List (Variable NameValue)) → walk_term names (Con name.now (type_of_tree ty.now))
        (nameless_in names e (named_at kernel.now.terms id)) (maps_of kernel.now maps.old)
        ≡ answered b (maps_of kernel.now maps.new)) }
    ensures inside { OnOk result (IsMatchIn kernel.now maps.new) }
{
    match term_node(kernel, id) {
        TermNode::Const(found, found_type) => {
            if !is_name(kernel, name, *found) {
                return Ok(false);
            }
            match_type(alloc, kernel, ty, *found_type, &mut maps.types)
        }
        TermNode::Var(_) | TermNode::App(_, _) | TermNode::Abs(_, _) => Ok(false),
    }
}

/// Whether a term is the variable that is bound at this place.
fn is_bound_at(kernel: &Kernel, binders: &Binders<'_>, number: u64, id: TermId) -> bool
    requires id { id < length kernel.now.terms }
    requires binders { AreKeys kernel.now binders.now }
    ensures { (w : Maps names) → walk_term names (Bound number)
        (nameless_in names (binders_at kernel.now binders.now) (named_at kernel.now.terms id)) w
        ≡ answered result w }
{
    match term_node(kernel, id) {
        TermNode::Var(v) => is_place(kernel, binders, v, number),
        TermNode::Const(_, _) | TermNode::App(_, _) | TermNode::Abs(_, _) => false,
    }
}

/// Matches a term under binders. The recursion is as deep as the pattern.
#[cycle(terms)]
#[tactic(auto, using(ot_logic::proofs::PlainTrees::term_steps))]
pub(crate) fn match_term(
    alloc: Global,
    kernel: &Kernel,
    binders: &Binders<'_>,
    pattern: &Tm,
    id: TermId,
    maps: &mut Match,
) -> Result<bool, Memory>
    requires id { id < length kernel.now.terms }
    requires binders { AreKeys kernel.now binders.now }
    requires maps { IsMatchIn kernel.now maps.old }
    ensures walk { IfOk result (λ b. walk_term names (term_of_tree pattern.now)
        (nameless_in names (binders_at kernel.now binders.now) (named_at kernel.now.terms id))
        (maps_of kernel.now maps.old)
        ≡ answered b (maps_of kernel.now maps.new)) }
    ensures inside { OnOk result (IsMatchIn kernel.now maps.new) }
{
    match pattern {
        Tm::Free(name, ty) => match_variable(alloc, kernel, binders, name, ty, id, maps),
        Tm::Con(name, ty) => match_constant(alloc, kernel, name, ty, id, maps),
        Tm::Bound(number) => Ok(is_bound_at(kernel, binders, *number, id)),
        Tm::App(function, argument) => {
            let Some((f, x)) = application(kernel, id) else {
                return Ok(false);
            };
            if !match_term(alloc, kernel, binders, function, f, maps)? {
                return Ok(false);
            }
            match_term(alloc, kernel, binders, argument, x, maps)
        }
        Tm::Abs(ty, body) => {
            let Some((v, inner)) = abstraction(kernel, id) else {
                return Ok(false);
            };
            if !match_type(alloc, kernel, ty, v.ty, &mut maps.types)? {
                return Ok(false);
            }
            match_term(
                alloc,
                kernel,
                &Binders::Inside(&v, binders),
                body,
                inner,
                maps,
            )
        }
    }
}
