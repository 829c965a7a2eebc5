//! Definitions and their theorems.
ghost use Rattle.std.specs.Prelude.{◌≡◌, List, map, IfOk};
ghost use Rattle.std.specs.List.{All};
ghost use Rattle.ot_logic.specs.Names.{Name};
ghost use Rattle.ot_logic.specs.Naming.{names};
ghost use Rattle.ot_logic.specs.Trees.{Definition as StatedDefinition, ConDef};
ghost use Rattle.ot_logic.specs.Trees.{ListDef, TyDef, TyOp, Con, Bound, App, Abs};
ghost use Rattle.ot_logic.specs.Hol.{fun_ty, bool_ty, equation, tys_of_vars, constants_for, type_theorems};
ghost use Rattle.ot_logic.specs.Table.{Extends};
ghost use Rattle.ot_log_format.specs.Steps.{constant_step, constants_step, type_operator_step};
ghost use Rattle.ot_log_nodes.specs.Items.{HasName, HasType, HasTerm, IsType, IsTerm};
ghost use Rattle.ot_log_nodes.specs.Items.{name_at, type_at, types_at, term_at};
ghost use Rattle.ot_log_nodes.specs.Changing.{HasTerms, term_map};
ghost use Rattle.ot_log_nodes.specs.Typing.{AreTypings};
ghost use Rattle.ot_log_rules.specs.Statements.{sequent_at, HasStatement};
ghost use Rattle.ot_log_rules.specs.Definitions.{pairs_at, HasPairs, names_at, Defines};
ghost use Rattle.ot_log_rules.specs.Limits.{AreWellTyped};
ghost use Rattle.ot_log_rules.specs.Symbols.{IsSignature};

use crate::conditions::{may_be_constant, may_be_constants, may_be_type};
use crate::put::{first_pairs, put};
use crate::rules::without_hyps;
use crate::shapes::as_app;
use crate::signature::Signature;
use crate::statement::{Statement, StepFault, alone, both};
use crate::typing::typing_of;
use indexmap::IndexMap;
use ot_log_nodes::{NameId, Nodes, TermId, TypeId, Typings, VariableNode};
use ot_logic::Memory;

/// The theorem of a constant that is defined as a term: that it equals the term.
pub fn constant(
    nodes: &mut Nodes,
    typings: &mut Typings,
    signature: &Signature,
    name: NameId,
    term: TermId,
) -> Result<Vec<Statement>, StepFault>
    requires name { HasName nodes.old name }
    requires term { HasTerm nodes.old term }
    requires known { AreTypings nodes.old typings.old.known.entries }
    ensures defines { (dl : List (StatedDefinition Name)) → IsSignature nodes.old dl signature.now
        → Defines result (ConDef (name_at nodes.old name) (term_at nodes.old term))
        (constant_step names dl (name_at nodes.old name) (term_at nodes.old term)) nodes.new }
    ensures extends { Extends nodes.old nodes.new }
    ensures known { AreTypings nodes.new typings.new.known.entries }
{
    let typing = typing_of(nodes, typings, term)?;
    let Some(typed) = typing else {
        return Err(StepFault::BadStep);
    };
    let may = may_be_constant(signature, nodes, name, term, typed.ty)?;
    if !may {
        return Err(StepFault::BadStep);
    }
    let defined = nodes.constant(name, typed.ty)?;
    let concl = nodes.equation(typed.ty, defined, term)?;
    let theorem = without_hyps(nodes, concl);
    let theorems = alone(nodes.allocator(), theorem)?;
    Ok(theorems)
}

/// The theorem of constants for the variables of a theorem: its conclusion with the constants for the variables.
pub fn constants(
    nodes: &mut Nodes,
    signature: &Signature,
    pairs: &[(NameId, VariableNode)],
    premise: &Statement,
) -> Result<Vec<Statement>, StepFault>
    requires pairs { HasPairs nodes.old pairs.now }
    requires premise { HasStatement nodes.old premise.now }
    requires typed { AreWellTyped (sequent_at nodes.old premise.now) }
    ensures defines { (dl : List (StatedDefinition Name)) → IsSignature nodes.old dl signature.now
        → Defines result (ListDef (pairs_at nodes.old pairs.now) (sequent_at nodes.old premise.now))
        (constants_step names dl (pairs_at nodes.old pairs.now) (sequent_at nodes.old premise.now)) nodes.new }
    ensures extends { Extends nodes.old nodes.new }
{
    let may = may_be_constants(signature, nodes, pairs, premise)?;
    if !may {
        return Err(StepFault::BadStep);
    }
    let replaced = constants_of(nodes, pairs)?;
    nodes.primitives();
    let terms = first_pairs(nodes.allocator(), &replaced)?;
    let bare = without_hyps(nodes, premise.concl);
    let theorem = put(nodes, IndexMap::new(nodes.allocator()), terms, &bare)?;
    let theorems = alone(nodes.allocator(), theorem)?;
    Ok(theorems)
}

/// The constants that take the places of variables.
fn constants_of(
    nodes: &mut Nodes,
    pairs: &[(NameId, VariableNode)],
) -> Result<Vec<(VariableNode, TermId)>, Memory>
    requires { HasPairs nodes.old pairs.now }
    ensures has { IfOk result (λ v. HasTerms nodes.new v.items) }
    ensures ok { IfOk result (λ v. term_map nodes.new v.items ≡ constants_for names (pairs_at nodes.old pairs.now)) }
    ensures extends { Extends nodes.old nodes.new }
{
    let mut terms = Vec::new(nodes.allocator());
    for pair in pairs {
        let (name, variable) = *pair;
        let constant = nodes.constant(name, variable.ty)?;
        terms.push((variable, constant))?;
    }
    Ok(terms)
}

/// The theorems of a type operator: that `abs (rep a) = a`, and that `rep (abs r) = r` just where the predicate holds.
pub fn type_operator(
    nodes: &mut Nodes,
    typings: &mut Typings,
    signature: &Signature,
    name: NameId,
    abs: NameId,
    rep: NameId,
    vars: &[NameId],
    premise: &Statement,
) -> Result<Vec<Statement>, StepFault>
    requires name { HasName nodes.old name }
    requires abs { HasName nodes.old abs }
    requires rep { HasName nodes.old rep }
    requires vars { All (HasName nodes.old) vars.now }
    requires premise { HasStatement nodes.old premise.now }
    requires typed { AreWellTyped (sequent_at nodes.old premise.now) }
    requires known { AreTypings nodes.old typings.old.known.entries }
    ensures defines { (dl : List (StatedDefinition Name)) → IsSignature nodes.old dl signature.now
        → Defines result (TyDef (name_at nodes.old name) (name_at nodes.old abs) (name_at nodes.old rep)
        (names_at nodes.old vars.now) (sequent_at nodes.old premise.now))
        (type_operator_step names dl (name_at nodes.old name) (name_at nodes.old abs) (name_at nodes.old rep)
        (names_at nodes.old vars.now) (sequent_at nodes.old premise.now)) nodes.new }
    ensures extends { Extends nodes.old nodes.new }
    ensures known { AreTypings nodes.new typings.new.known.entries }
{
    let may = may_be_type(signature, nodes, name, abs, rep, vars, premise)?;
    if !may {
        return Err(StepFault::BadStep);
    }
    let Some(parts) = as_app(nodes, premise.concl) else {
        return Err(StepFault::BadStep);
    };
    let typing = typing_of(nodes, typings, parts.1)?;
    let Some(old) = typing else {
        return Err(StepFault::BadStep);
    };
    let made = type_theorems(nodes, name, abs, rep, vars, old.ty, parts.0)?;
    Ok(made)
}

/// The theorems of a type operator over these variables, by the type that it is taken from and the predicate.
fn type_theorems(
    nodes: &mut Nodes,
    name: NameId,
    abs: NameId,
    rep: NameId,
    vars: &[NameId],
    old: TypeId,
    predicate: TermId,
) -> Result<Vec<Statement>, Memory>
    requires name { HasName nodes.old name }
    requires abs { HasName nodes.old abs }
    requires rep { HasName nodes.old rep }
    requires vars { All (HasName nodes.old) vars.now }
    requires old { HasType nodes.old old }
    requires predicate { HasTerm nodes.old predicate }
    ensures has { IfOk result (λ v. All (HasStatement nodes.new) v.items) }
    ensures ok { IfOk result (λ v. map (sequent_at nodes.new) v.items
        ≡ type_theorems names (TyOp (name_at nodes.old name) (tys_of_vars names (names_at nodes.old vars.now)))
        (type_at nodes.old old) (name_at nodes.old abs) (name_at nodes.old rep) (term_at nodes.old predicate)) }
    ensures extends { Extends nodes.old nodes.new }
{
    let new = operator_over(nodes, name, vars)?;
    let to = constant_between(nodes, abs, old, new)?;
    let from = constant_between(nodes, rep, new, old)?;
    let first = there_and_back(nodes, new, to, from)?;
    let second = back_and_there(nodes, old, to, from, predicate)?;
    let there = without_hyps(nodes, first);
    let back = without_hyps(nodes, second);
    let theorems = both(nodes.allocator(), there, back)?;
    Ok(theorems)
}

/// The type of an operator over type variables.
fn operator_over(nodes: &mut Nodes, name: NameId, vars: &[NameId]) -> Result<TypeId, Memory>
    requires name { HasName nodes.old name }
    requires vars { All (HasName nodes.old) vars.now }
    ensures ok { IfOk result
        (λ id. IsType nodes.new id
        (TyOp (name_at nodes.old name) (tys_of_vars names (names_at nodes.old vars.now)))) }
    ensures extends { Extends nodes.old nodes.new }
{
    let args = type_vars(nodes, vars)?;
    nodes.type_op(name, &args)
}

/// Type variables.
fn type_vars(nodes: &mut Nodes, vars: &[NameId]) -> Result<Vec<TypeId>, Memory>
    requires { All (HasName nodes.old) vars.now }
    ensures has { IfOk result (λ v. All (HasType nodes.new) v.items) }
    ensures ok { IfOk result (λ v. types_at nodes.new v.items ≡ tys_of_vars names (names_at nodes.old vars.now)) }
    ensures extends { Extends nodes.old nodes.new }
{
    let mut args = Vec::new(nodes.allocator());
    for var in vars {
        let arg = nodes.type_var(*var)?;
        args.push(arg)?;
    }
    Ok(args)
}

/// The constant of a name that takes the one type to the other.
fn constant_between(
    nodes: &mut Nodes,
    name: NameId,
    from: TypeId,
    to: TypeId,
) -> Result<TermId, Memory>
    requires name { HasName nodes.old name }
    requires from { HasType nodes.old from }
    requires to { HasType nodes.old to }
    ensures ok { IfOk result
        (λ id. IsTerm nodes.new id
        (Con (name_at nodes.old name) (fun_ty names (type_at nodes.old from) (type_at nodes.old to)))) }
    ensures extends { Extends nodes.old nodes.new }
{
    let ty = nodes.fun(from, to)?;
    nodes.constant(name, ty)
}

/// (\a. abs (rep a)) = (\a. a)
fn there_and_back(
    nodes: &mut Nodes,
    new: TypeId,
    abs: TermId,
    rep: TermId,
) -> Result<TermId, Memory>
    requires new { HasType nodes.old new }
    requires abs { HasTerm nodes.old abs }
    requires rep { HasTerm nodes.old rep }
    ensures ok { IfOk result (λ id. IsTerm nodes.new id (let ty = type_at nodes.old new in
        equation names (fun_ty names ty ty)
        (Abs ty (App (term_at nodes.old abs) (App (term_at nodes.old rep) (Bound 0)))) (Abs ty (Bound 0)))) }
    ensures extends { Extends nodes.old nodes.new }
{
    let place = nodes.bound(0)?;
    let out = nodes.app(rep, place)?;
    let back = nodes.app(abs, out)?;
    let left = nodes.abs(new, back)?;
    let right = nodes.abs(new, place)?;
    let ty = nodes.fun(new, new)?;
    nodes.equation(ty, left, right)
}

/// (\r. rep (abs r) = r) = (\r. p r)
fn back_and_there(
    nodes: &mut Nodes,
    old: TypeId,
    abs: TermId,
    rep: TermId,
    predicate: TermId,
) -> Result<TermId, Memory>
    requires old { HasType nodes.old old }
    requires abs { HasTerm nodes.old abs }
    requires rep { HasTerm nodes.old rep }
    requires predicate { HasTerm nodes.old predicate }
    ensures ok { IfOk result (λ id. IsTerm nodes.new id (let u = type_at nodes.old old in
        equation names (fun_ty names u (bool_ty names))
        (Abs u (equation names u (App (term_at nodes.old rep) (App (term_at nodes.old abs) (Bound 0))) (Bound 0)))
        (Abs u (App (term_at nodes.old predicate) (Bound 0))))) }
    ensures extends { Extends nodes.old nodes.new }
{
    let left = taken_back(nodes, old, abs, rep)?;
    let place = nodes.bound(0)?;
    let holds = nodes.app(predicate, place)?;
    let right = nodes.abs(old, holds)?;
    let boolean = nodes.boolean()?;
    let ty = nodes.fun(old, boolean)?;
    nodes.equation(ty, left, right)
}

/// \r. rep (abs r) = r
fn taken_back(nodes: &mut Nodes, old: TypeId, abs: TermId, rep: TermId) -> Result<TermId, Memory>
    requires old { HasType nodes.old old }
    requires abs { HasTerm nodes.old abs }
    requires rep { HasTerm nodes.old rep }
    ensures ok { IfOk result (λ id. IsTerm nodes.new id (let u = type_at nodes.old old in
        Abs u (equation names u (App (term_at nodes.old rep) (App (term_at nodes.old abs) (Bound 0))) (Bound 0)))) }
    ensures extends { Extends nodes.old nodes.new }
{
    let place = nodes.bound(0)?;
    let inside = nodes.app(abs, place)?;
    let again = nodes.app(rep, inside)?;
    let same = nodes.equation(old, again, place)?;
    nodes.abs(old, same)
}
