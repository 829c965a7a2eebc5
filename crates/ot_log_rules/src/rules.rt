//! The cases of a derivation, without substitution: the sequent that each gives.
ghost use Rattle.std.specs.Prelude.{◌≡◌, ◌≢◌, [], None, MatchOption, IfOk};
ghost use Rattle.ot_logic.specs.Names.{Name};
ghost use Rattle.ot_logic.specs.Naming.{names};
ghost use Rattle.ot_logic.specs.Trees.{Ty, Tm, App, Abs};
ghost use Rattle.ot_logic.specs.Hol.{equation, opened};
ghost use Rattle.ot_logic.specs.Table.{Extends};
ghost use Rattle.ot_log_format.specs.Steps.{refl_step, assume_step, eq_mp_step};
ghost use Rattle.ot_log_format.specs.Steps.{app_thm_step, deduct_antisym_step, beta_step};
ghost use Rattle.ot_log_nodes.specs.Items.{HasType, HasTerm, IsTerm, type_at, term_at};
ghost use Rattle.ot_log_nodes.specs.Typing.{AreTypings};
ghost use Rattle.ot_log_rules.specs.Statements.{sequent_at, HasStatement, Gives};
ghost use Rattle.ot_log_rules.specs.Shapes.{HasSides, IsAbs};

use crate::shapes::{Sides, as_app, as_equation};
use crate::statement::{Statement, StepFault, minus, union};
use crate::typing::{is_proposition, typing_of};
use ot_log_nodes::{Change, Done, Nodes, TermId, TermNode, TypeId, Typings};
use ot_logic::Memory;

/// `t = t`, of a term that is well typed.
pub fn refl(nodes: &mut Nodes, typings: &mut Typings, t: TermId) -> Result<Statement, StepFault>
    requires t { HasTerm nodes.old t }
    requires known { AreTypings nodes.old typings.old.known.entries }
    ensures gives { Gives result (refl_step names (term_at nodes.old t)) nodes.new }
    ensures extends { Extends nodes.old nodes.new }
    ensures known { AreTypings nodes.new typings.new.known.entries }
{
    let typing = typing_of(nodes, typings, t)?;
    let Some(typed) = typing else {
        return Err(StepFault::BadStep);
    };
    let concl = nodes.equation(typed.ty, t, t)?;
    Ok(without_hyps(nodes, concl))
}

/// `{p} |- p`, of a proposition.
pub fn assume(nodes: &mut Nodes, typings: &mut Typings, p: TermId) -> Result<Statement, StepFault>
    requires p { HasTerm nodes.old p }
    requires known { AreTypings nodes.old typings.old.known.entries }
    ensures gives { Gives result (assume_step names (term_at nodes.old p)) nodes.new }
    ensures extends { Extends nodes.old nodes.new }
    ensures known { AreTypings nodes.new typings.new.known.entries }
{
    let passes = is_proposition(nodes, typings, p)?;
    if !passes {
        return Err(StepFault::BadStep);
    }
    let mut hyps = Vec::new(nodes.allocator());
    hyps.push(p)?;
    Ok(Statement { hyps, concl: p })
}

/// From `G |- p = q` and `H |- p`, `q` under both.
pub fn eq_mp(nodes: &Nodes, a: &Statement, b: &Statement) -> Result<Statement, StepFault>
    requires a { HasStatement nodes.now a.now }
    requires b { HasStatement nodes.now b.now }
    ensures gives { Gives result (eq_mp_step names (sequent_at nodes.now a.now) (sequent_at nodes.now b.now)) nodes.now }
{
    nodes.primitives();
    let Some(equation) = as_equation(nodes, a.concl) else {
        return Err(StepFault::BadStep);
    };
    if equation.left != b.concl {
        return Err(StepFault::BadStep);
    }
    let hyps = union(nodes.allocator(), &a.hyps, &b.hyps)?;
    Ok(Statement {
        hyps,
        concl: equation.right,
    })
}

/// From `G |- f = g` and `H |- x = y`, `f x = g y` under both.
pub fn app_thm(nodes: &mut Nodes, a: &Statement, b: &Statement) -> Result<Statement, StepFault>
    requires a { HasStatement nodes.old a.now }
    requires b { HasStatement nodes.old b.now }
    ensures gives { Gives result (app_thm_step names (sequent_at nodes.old a.now) (sequent_at nodes.old b.now)) nodes.new }
    ensures extends { Extends nodes.old nodes.new }
{
    nodes.primitives();
    let Some(functions) = as_equation(nodes, a.concl) else {
        return Err(StepFault::BadStep);
    };
    let Some(arguments) = as_equation(nodes, b.concl) else {
        return Err(StepFault::BadStep);
    };
    let Some(function) = nodes.as_fun(functions.ty) else {
        return Err(StepFault::BadStep);
    };
    if function.0 != arguments.ty {
        return Err(StepFault::BadStep);
    }
    let hyps = union(nodes.allocator(), &a.hyps, &b.hyps)?;
    let concl = equation_of_applications(nodes, function.1, functions, arguments)?;
    Ok(Statement { hyps, concl })
}

/// From `G |- p` and `H |- q`, `p = q` under `G` without `q` and `H` without `p`.
pub fn deduct_antisym(
    nodes: &mut Nodes,
    a: &Statement,
    b: &Statement,
) -> Result<Statement, StepFault>
    requires a { HasStatement nodes.old a.now }
    requires b { HasStatement nodes.old b.now }
    ensures gives { Gives result (deduct_antisym_step names (sequent_at nodes.old a.now) (sequent_at nodes.old b.now))
        nodes.new }
    ensures extends { Extends nodes.old nodes.new }
{
    nodes.primitives();
    let alloc = nodes.allocator();
    let left = minus(alloc, b.concl, &a.hyps)?;
    let right = minus(alloc, a.concl, &b.hyps)?;
    let hyps = union(alloc, &left, &right)?;
    let boolean = nodes.boolean()?;
    let concl = nodes.equation(boolean, a.concl, b.concl)?;
    Ok(Statement { hyps, concl })
}

/// `(\v. t) u = t` with `u` for `v`, of a term that is well typed.
pub fn beta_conv(
    nodes: &mut Nodes,
    typings: &mut Typings,
    t: TermId,
) -> Result<Statement, StepFault>
    requires t { HasTerm nodes.old t }
    requires known { AreTypings nodes.old typings.old.known.entries }
    ensures gives { Gives result (beta_step names (term_at nodes.old t)) nodes.new }
    ensures extends { Extends nodes.old nodes.new }
    ensures known { AreTypings nodes.new typings.new.known.entries }
{
    let Some(redex) = as_app(nodes, t) else {
        return Err(StepFault::BadStep);
    };
    let Some(function) = as_abs(nodes, redex.0) else {
        return Err(StepFault::BadStep);
    };
    let typing = typing_of(nodes, typings, t)?; // of the whole redex
    let Some(typed) = typing else {
        return Err(StepFault::BadStep);
    };
    let result = opened(nodes, function.1, redex.1)?;
    let concl = nodes.equation(typed.ty, t, result)?;
    Ok(without_hyps(nodes, concl))
}

/// The type and the body of an abstraction.
fn as_abs(nodes: &Nodes, id: TermId) -> Option<(TypeId, TermId)>
    requires { HasTerm nodes.now id }
    ensures { MatchOption result ((a : Ty Name) (b : Tm Name) → term_at nodes.now id ≢ Abs a b)
        (λ p. IsAbs nodes.now id p.0 p.1) }
{
    match nodes.term_node(id) {
        TermNode::Abs(ty, body) => Some((ty, body)),
        _ => None,
    }
}

/// The body of an abstraction with a term in its place.
fn opened(nodes: &mut Nodes, body: TermId, argument: TermId) -> Result<TermId, Memory>
    requires body { HasTerm nodes.old body }
    requires argument { HasTerm nodes.old argument }
    ensures ok { IfOk result
        (λ r. IsTerm nodes.new r (opened names (term_at nodes.old body) (term_at nodes.old argument))) }
    ensures extends { Extends nodes.old nodes.new }
{
    let change = Change::Open(argument);
    let mut done = Done::new(nodes.allocator());
    nodes.change(&change, &mut done, body)
}

/// The equation of two functions, each applied to a side of another equation.
fn equation_of_applications(
    nodes: &mut Nodes,
    ty: TypeId,
    functions: Sides,
    arguments: Sides,
) -> Result<TermId, Memory>
    requires ty { HasType nodes.old ty }
    requires functions { HasSides nodes.old functions }
    requires arguments { HasSides nodes.old arguments }
    ensures ok { IfOk result (λ r. IsTerm nodes.new r (equation names (type_at nodes.old ty)
        (App (term_at nodes.old functions.left) (term_at nodes.old arguments.left))
        (App (term_at nodes.old functions.right) (term_at nodes.old arguments.right)))) }
    ensures extends { Extends nodes.old nodes.new }
{
    let left = nodes.app(functions.left, arguments.left)?;
    let right = nodes.app(functions.right, arguments.right)?;
    nodes.equation(ty, left, right)
}

/// The sequent of a conclusion without hypotheses.
pub(crate) fn without_hyps(nodes: &Nodes, concl: TermId) -> Statement
    requires { HasTerm nodes.now concl }
    ensures has { HasStatement nodes.now result }
    ensures hyps { result.hyps.items ≡ [] }
    ensures concl { result.concl ≡ concl }
{
    Statement {
        hyps: Vec::new(nodes.allocator()),
        concl,
    }
}
