//! What definitions are asked for: each is a test that the first condition which doesn't hold fails.
ghost use Rattle.std.specs.Prelude.{◌≡◌, ◌&&◌, ◌==◌, List, [], ◌∷◌, map, length, Some, IfOk, IfSome};
ghost use Rattle.std.specs.List.{All, list_all};
ghost use Rattle.std.specs.Option.{option_map};
ghost use Rattle.ot_logic.specs.Names.{Name};
ghost use Rattle.ot_logic.specs.Naming.{names};
ghost use Rattle.ot_logic.specs.Trees.{Definition as StatedDefinition, ConSymbol, Tm, Free};
ghost use Rattle.ot_logic.specs.Hol.{type_in, type_of, vars_tm, same_var, same_tm, as_equation, symbols_of};
ghost use Rattle.ot_laws.specs.Conditions.{are_distinct, is_closed, is_closed_but};
ghost use Rattle.ot_laws.specs.Conditions.{keeps_type_vars, are_names_of, given, given_by, only};
ghost use Rattle.ot_laws.specs.Conditions.{terms_given, checked_const, checked_list, checked_type};
ghost use Rattle.ot_log_format.specs.Steps.{all_defined, all_used};
ghost use Rattle.ot_log_nodes.specs.Items.{HasName, HasType, HasTerm, name_at, type_at, term_at};
ghost use Rattle.ot_log_nodes.specs.Changing.{variable_at, HasVariable};
ghost use Rattle.ot_log_rules.specs.Statements.{terms_at, sequent_at, HasStatement};
ghost use Rattle.ot_log_rules.specs.Definitions.{pairs_at, HasPairs, names_at};
ghost use Rattle.ot_log_rules.specs.Limits.{AreWellTyped};
ghost use Rattle.ot_log_rules.specs.Parts.{marks_tm, HasMark, IsOf};
ghost use Rattle.ot_log_rules.specs.Symbols.{passes, IsSignature, IsSymbolMark, symbol_of, are_fresh};
ghost use Rattle.ot_log_rules.specs.Conditions.{is_allowed, is_var_of, is_kept_var, listed, IsTypedTerm};
ghost use Rattle.ot_log_rules.specs.Conditions.{IsGivenTerm, given_term, given_terms, may_be_given};
ghost use Rattle.ot_log_rules.specs.declared.parts.Mark.TheVariants.{Constant};

use crate::parts::{Mark, Parts, marks_in, marks_of, marks_of_type};
use crate::sets::are_distinct;
use crate::shapes::{as_app, as_equation};
use crate::signature::Signature;
use crate::statement::Statement;
use indexmap::IndexSet;
use ot_log_nodes::{NameId, Nodes, TermId, TermNode, TypeId, VariableNode};
use ot_logic::Memory;
use std::alloc::Global;

/// Whether a constant may be defined as a term of this type.
pub(crate) fn may_be_constant(
    signature: &Signature,
    nodes: &Nodes,
    name: NameId,
    term: TermId,
    ty: TypeId,
) -> Result<bool, Memory>
    requires name { HasName nodes.now name }
    requires term { HasTerm nodes.now term }
    requires ty { HasType nodes.now ty }
    requires typed { type_in names [] (term_at nodes.now term) ≡ Some (type_at nodes.now ty) }
    ensures { IfOk result (λ b. (dl : List (StatedDefinition Name)) → IsSignature nodes.now dl signature.now
        → b ≡ passes (checked_const names (all_defined names dl) (all_used names dl) (name_at nodes.now name)
        (term_at nodes.now term))) }
{
    let premise = marks_in(nodes, term)?;
    let fresh = signature.may_define(nodes.allocator(), nodes, &premise, &[Mark::Constant(name)])?;
    let closed = is_closed_but(nodes, &[], &premise);
    let kept = keeps_type_vars(nodes, &premise, ty)?;
    Ok(fresh & (closed & kept))
}

/// Whether constants may be defined for the variables of these pairs, which the hypotheses of a theorem give their
/// terms.
pub(crate) fn may_be_constants(
    signature: &Signature,
    nodes: &Nodes,
    pairs: &[(NameId, VariableNode)],
    premise: &Statement,
) -> Result<bool, Memory>
    requires pairs { HasPairs nodes.now pairs.now }
    requires premise { HasStatement nodes.now premise.now }
    requires typed { AreWellTyped (sequent_at nodes.now premise.now) }
    ensures { IfOk result (λ b. (dl : List (StatedDefinition Name)) → IsSignature nodes.now dl signature.now
        → b ≡ passes (checked_list names (all_defined names dl) (all_used names dl)
        (map (λ p. p.0) (pairs_at nodes.now pairs.now)) (map (λ p. p.1) (pairs_at nodes.now pairs.now))
        (sequent_at nodes.now premise.now))) }
{
    let alloc = nodes.allocator();
    let constants = names_of(alloc, pairs)?;
    let vars = variables_of(alloc, pairs)?;
    let may = may_be_for(
        signature,
        nodes,
        constants.as_slice(),
        vars.as_slice(),
        premise,
    )?;
    Ok(may)
}

/// Whether constants of these names may be defined for the variables.
fn may_be_for(
    signature: &Signature,
    nodes: &Nodes,
    constants: &[NameId],
    vars: &[VariableNode],
    premise: &Statement,
) -> Result<bool, Memory>
    requires constants { All (HasName nodes.now) constants.now }
    requires vars { All (HasVariable nodes.now) vars.now }
    requires premise { HasStatement nodes.now premise.now }
    requires typed { AreWellTyped (sequent_at nodes.now premise.now) }
    ensures { IfOk result (λ b. (dl : List (StatedDefinition Name)) → IsSignature nodes.now dl signature.now
        → b ≡ passes (checked_list names (all_defined names dl) (all_used names dl) (names_at nodes.now constants.now)
        (map (variable_at nodes.now) vars.now) (sequent_at nodes.now premise.now))) }
{
    let paired = are_pairs(nodes, constants, vars, &premise.hyps)?;
    if !paired {
        return Ok(false);
    }
    let found = terms_given(nodes, vars, &premise.hyps)?;
    let Some(terms) = found else {
        return Ok(false);
    };
    let fresh = are_constants_fresh(signature, nodes, constants, premise)?;
    if !fresh {
        return Ok(false);
    }
    let fits = are_given(nodes, vars, terms.as_slice(), premise.concl)?;
    Ok(fits)
}

/// The names of pairs.
fn names_of(alloc: Global, pairs: &[(NameId, VariableNode)]) -> Result<Vec<NameId>, Memory>
    ensures { IfOk result (λ v. v.items ≡ map (λ p. p.0) pairs.now) }
{
    Ok(pairs.iter().map(|pair| pair.0).collect(alloc)?)
}

/// The variables of pairs.
fn variables_of(
    alloc: Global,
    pairs: &[(NameId, VariableNode)],
) -> Result<Vec<VariableNode>, Memory>
    ensures { IfOk result (λ v. v.items ≡ map (λ p. p.1) pairs.now) }
{
    Ok(pairs.iter().map(|pair| pair.1).collect(alloc)?)
}

/// Whether a type operator over these variables may be defined, with the constants `abs` and `rep`, from the theorem
/// `|- p t`.
pub(crate) fn may_be_type(
    signature: &Signature,
    nodes: &Nodes,
    name: NameId,
    abs: NameId,
    rep: NameId,
    vars: &[NameId],
    premise: &Statement,
) -> Result<bool, Memory>
    requires name { HasName nodes.now name }
    requires abs { HasName nodes.now abs }
    requires rep { HasName nodes.now rep }
    requires vars { All (HasName nodes.now) vars.now }
    requires premise { HasStatement nodes.now premise.now }
    ensures { IfOk result (λ b. (dl : List (StatedDefinition Name)) → IsSignature nodes.now dl signature.now
        → b ≡ passes (checked_type names (all_defined names dl) (all_used names dl) (name_at nodes.now name)
        (name_at nodes.now abs) (name_at nodes.now rep) (names_at nodes.now vars.now)
        (sequent_at nodes.now premise.now))) }
{
    if !premise.hyps.as_slice().is_empty() {
        return Ok(false);
    }
    let Some(application) = as_app(nodes, premise.concl) else {
        return Ok(false);
    };
    let occurring = marks_in(nodes, application.0)?;
    let listed = are_vars_listed(nodes, &occurring, vars)?;
    if !listed {
        return Ok(false);
    }
    let symbols = [
        Mark::Operator(name),
        Mark::Constant(abs),
        Mark::Constant(rep),
    ];
    let fresh = are_symbols_fresh(signature, nodes, &symbols, premise)?;
    let closed = is_closed_but(nodes, &[], &occurring);
    Ok(fresh & closed)
}

/// A term that a hypothesis gives a variable, and its type.
#[derive(Clone, Copy)]
pub(crate) struct Given {
    term: TermId,
    ty: TypeId,
}

/// Whether no variable is free but these, by what occurs.
fn is_closed_but(nodes: &Nodes, vars: &[VariableNode], parts: &Parts) -> bool
    requires { All (HasVariable nodes.now) vars.now }
    ensures { (t : Tm Name) → IsOf nodes.now (marks_tm t) parts.now → result
        ≡ is_closed_but names (map (variable_at nodes.now) vars.now) t }
{
    nodes.primitives();
    are_allowed(vars, parts.marks.as_slice())
}

/// Whether no mark is another variable than these.
fn are_allowed(vars: &[VariableNode], marks: &[Mark]) -> bool
    ensures { result ≡ list_all (is_allowed vars.now) marks.now }
{
    marks.iter().all(|mark| is_allowed(vars, mark))
}

/// Whether a mark is no other variable than these.
fn is_allowed(vars: &[VariableNode], mark: &Mark) -> bool
    ensures { result ≡ is_allowed vars.now mark.now }
{
    match mark {
        Mark::Variable(variable) => vars.contains(variable),
        _ => true,
    }
}

/// Whether each type variable that occurs in a term of this type occurs in the type.
fn keeps_type_vars(nodes: &Nodes, parts: &Parts, ty: TypeId) -> Result<bool, Memory>
    requires { HasType nodes.now ty }
    ensures { IfOk result (λ b. (t : Tm Name) → IsOf nodes.now (marks_tm t) parts.now → type_of names t
        ≡ type_at nodes.now ty → b ≡ keeps_type_vars names t) }
{
    nodes.primitives();
    let own = marks_of_type(nodes, ty)?;
    Ok(are_kept_vars(&own.marks, parts.marks.as_slice()))
}

/// Whether each mark is no type variable, or is among these.
fn are_kept_vars(own: &IndexSet<Mark>, marks: &[Mark]) -> bool
    ensures { result ≡ list_all (is_kept_var own.now.keys) marks.now }
{
    marks.iter().all(|mark| is_kept_var(own, mark))
}

/// Whether a mark is no type variable, or is among these.
fn is_kept_var(own: &IndexSet<Mark>, mark: &Mark) -> bool
    ensures { result ≡ is_kept_var own.now.keys mark.now }
{
    match mark {
        Mark::TypeVar(_) => own.contains(mark),
        _ => true,
    }
}

/// Whether no name stands twice, and each type variable that occurs is of one of them.
fn are_vars_listed(nodes: &Nodes, parts: &Parts, vars: &[NameId]) -> Result<bool, Memory>
    requires { All (HasName nodes.now) vars.now }
    ensures { IfOk result (λ b. (t : Tm Name) → IsOf nodes.now (marks_tm t) parts.now
        → b ≡ (are_distinct names.same (names_at nodes.now vars.now)
        && are_names_of names (vars_tm names t) (names_at nodes.now vars.now))) }
{
    nodes.primitives();
    let distinct = are_distinct(nodes.allocator(), vars)?;
    let listed = are_vars_of(vars, parts.marks.as_slice());
    Ok(distinct & listed)
}

/// Whether each mark is no type variable, or one of these names.
fn are_vars_of(vars: &[NameId], marks: &[Mark]) -> bool
    ensures { result ≡ list_all (is_var_of vars.now) marks.now }
{
    marks.iter().all(|mark| is_var_of(vars, mark))
}

/// Whether a mark is no type variable, or one of these names.
fn is_var_of(vars: &[NameId], mark: &Mark) -> bool
    ensures { result ≡ is_var_of vars.now mark.now }
{
    match mark {
        Mark::TypeVar(name) => vars.contains(name),
        _ => true,
    }
}

/// Whether no name and no variable stands twice, and there are as many hypotheses as variables.
fn are_pairs(
    nodes: &Nodes,
    constants: &[NameId],
    vars: &[VariableNode],
    hyps: &[TermId],
) -> Result<bool, Memory>
    requires constants { All (HasName nodes.now) constants.now }
    requires vars { All (HasVariable nodes.now) vars.now }
    ensures { IfOk result
        (λ b. b ≡ (are_distinct names.same (names_at nodes.now constants.now)
        && are_distinct (same_var names) (map (variable_at nodes.now) vars.now)
        && (length hyps.now == length vars.now))) }
{
    nodes.primitives();
    let alloc = nodes.allocator();
    let names_differ = are_distinct(alloc, constants)?;
    let vars_differ = are_distinct(alloc, vars)?;
    let as_many = hyps.len() == vars.len();
    Ok(names_differ & vars_differ & as_many)
}

/// Whether the constants of these names may be defined from a premise.
fn are_constants_fresh(
    signature: &Signature,
    nodes: &Nodes,
    constants: &[NameId],
    premise: &Statement,
) -> Result<bool, Memory>
    requires constants { All (HasName nodes.now) constants.now }
    requires premise { HasStatement nodes.now premise.now }
    ensures { IfOk result (λ b. (dl : List (StatedDefinition Name)) → IsSignature nodes.now dl signature.now
        → b ≡ are_fresh (all_defined names dl) (all_used names dl)
        (symbols_of names (sequent_at nodes.now premise.now)) (map ConSymbol (names_at nodes.now constants.now))) }
{
    let symbols = constant_marks(nodes.allocator(), constants)?;
    let fresh = are_symbols_fresh(signature, nodes, symbols.as_slice(), premise)?;
    Ok(fresh)
}

/// Whether the symbols of these marks may be defined from a premise.
fn are_symbols_fresh(
    signature: &Signature,
    nodes: &Nodes,
    symbols: &[Mark],
    premise: &Statement,
) -> Result<bool, Memory>
    requires symbols { All (IsSymbolMark nodes.now) symbols.now }
    requires premise { HasStatement nodes.now premise.now }
    ensures { IfOk result (λ b. (dl : List (StatedDefinition Name)) → IsSignature nodes.now dl signature.now
        → b ≡ are_fresh (all_defined names dl) (all_used names dl)
        (symbols_of names (sequent_at nodes.now premise.now)) (map (symbol_of nodes.now) symbols.now)) }
{
    let parts = marks_of(nodes, premise)?;
    let fresh = signature.may_define(nodes.allocator(), nodes, &parts, symbols)?;
    Ok(fresh)
}

/// The marks of constants.
fn constant_marks(alloc: Global, constants: &[NameId]) -> Result<Vec<Mark>, Memory>
    ensures { IfOk result (λ v. v.items ≡ map (λ n. Constant n) constants.now) }
{
    Ok(
        constants
            .iter()
            .map(|name| Mark::Constant(*name))
            .collect(alloc)?,
    )
}

/// The terms of the variables, in their order, where exactly one hypothesis gives each its term.
fn terms_given(
    nodes: &Nodes,
    vars: &[VariableNode],
    hyps: &[TermId],
) -> Result<Option<Vec<Given>>, Memory>
    requires vars { All (HasVariable nodes.now) vars.now }
    requires hyps { All (IsTypedTerm nodes.now) hyps.now }
    ensures given { IfOk result (λ found. option_map (λ gs. given_terms nodes.now gs.items) found
        ≡ terms_given names (terms_at nodes.now hyps.now) (map (variable_at nodes.now) vars.now)) }
    ensures typed { IfOk result (λ found. IfSome found (λ gs. All (IsGivenTerm nodes.now) gs.items)) }
{
    let mut given = Vec::new(nodes.allocator());
    for variable in vars {
        let Some(term) = only_given(nodes, hyps, variable) else {
            return Ok(None);
        };
        given.push(term)?;
    }
    Ok(Some(given))
}

/// The term of a variable that exactly one hypothesis gives one.
fn only_given(nodes: &Nodes, hyps: &[TermId], variable: &VariableNode) -> Option<Given>
    requires variable { HasVariable nodes.now variable.now }
    requires hyps { All (IsTypedTerm nodes.now) hyps.now }
    ensures given { option_map (given_term nodes.now) result
        ≡ only (given names (terms_at nodes.now hyps.now) (variable_at nodes.now variable.now)) }
    ensures typed { IfSome result (IsGivenTerm nodes.now) }
{
    let mut found = None;
    for hyp in hyps {
        if let Some(term) = given_by(nodes, *hyp, variable) {
            if found.is_some() {
                return None;
            }
            found = Some(term);
        }
    }
    found
}

/// The term that a hypothesis gives the variable.
fn given_by(nodes: &Nodes, hyp: TermId, variable: &VariableNode) -> Option<Given>
    requires variable { HasVariable nodes.now variable.now }
    requires hyp { IsTypedTerm nodes.now hyp }
    ensures given { given_by names (variable_at nodes.now variable.now) (as_equation names (term_at nodes.now hyp))
        ≡ listed (option_map (given_term nodes.now) result) }
    ensures typed { IfSome result (IsGivenTerm nodes.now) }
{
    let Some(equation) = as_equation(nodes, hyp) else {
        return None;
    };
    if is_variable(nodes, equation.left, variable) {
        Some(Given {
            term: equation.right,
            ty: equation.ty,
        })
    } else {
        None
    }
}

/// Whether the term is the variable.
fn is_variable(nodes: &Nodes, id: TermId, variable: &VariableNode) -> bool
    requires id { HasTerm nodes.now id }
    requires variable { HasVariable nodes.now variable.now }
    ensures { result ≡ same_tm names (term_at nodes.now id) (Free (variable_at nodes.now variable.now)) }
{
    match nodes.term_node(id) {
        TermNode::Free(other) => other == *variable,
        _ => false,
    }
}

/// Whether the terms that variables are given may define constants, and nothing else is free in the conclusion.
fn are_given(
    nodes: &Nodes,
    vars: &[VariableNode],
    given: &[Given],
    concl: TermId,
) -> Result<bool, Memory>
    requires vars { All (HasVariable nodes.now) vars.now }
    requires given { All (IsGivenTerm nodes.now) given.now }
    requires concl { HasTerm nodes.now concl }
    ensures { IfOk result
        (λ b. b ≡ (list_all (may_be_given names) (given_terms nodes.now given.now)
        && is_closed_but names (map (variable_at nodes.now) vars.now) (term_at nodes.now concl))) }
{
    for item in given {
        let fits = may_be_given(nodes, *item)?;
        if !fits {
            return Ok(false);
        }
    }
    let parts = marks_in(nodes, concl)?;
    Ok(is_closed_but(nodes, vars, &parts))
}

/// Whether the term is closed, and has no type variable that its type lacks.
fn may_be_given(nodes: &Nodes, given: Given) -> Result<bool, Memory>
    requires { IsGivenTerm nodes.now given }
    ensures { IfOk result (λ b. b ≡ may_be_given names (given_term nodes.now given)) }
{
    let parts = marks_in(nodes, given.term)?;
    let kept = keeps_type_vars(nodes, &parts, given.ty)?;
    let closed = is_closed_but(nodes, &[], &parts);
    Ok(closed & kept)
}
