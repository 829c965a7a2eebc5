//! The equation of two abstractions.
ghost use Rattle.std.specs.Prelude.{◌≡◌, not, IfOk, OnOk};
ghost use Rattle.std.specs.List.{All};
ghost use Rattle.ot_logic.specs.Naming.{names};
ghost use Rattle.ot_logic.specs.Trees.{Abs};
ghost use Rattle.ot_logic.specs.Hol.{fun_ty, close, equation, is_free, is_free_in_some};
ghost use Rattle.ot_logic.specs.Table.{Extends};
ghost use Rattle.ot_log_format.specs.Steps.{abs_thm_step};
ghost use Rattle.ot_log_nodes.specs.Items.{HasTerm, IsTerm, type_at, term_at};
ghost use Rattle.ot_log_nodes.specs.Changing.{Closing, variable_at, HasVariable, IsDone};
ghost use Rattle.ot_log_rules.specs.Statements.{terms_at, sequent_at, HasStatement, Gives};
ghost use Rattle.ot_log_rules.specs.Shapes.{HasSides};

use crate::shapes::{Sides, as_equation};
use crate::statement::{Statement, StepFault};
use ot_log_nodes::{Change, Done, Nodes, TermId, VariableNode};
use ot_logic::Memory;

/// From `G |- t = u`, with `v` free in no member of `G`, the equation of the abstractions over `v`.
pub fn abs_thm(nodes: &mut Nodes, v: VariableNode, a: &Statement) -> Result<Statement, StepFault>
    requires v { HasVariable nodes.old v }
    requires a { HasStatement nodes.old a.now }
    ensures gives { Gives result (abs_thm_step names (variable_at nodes.old v) (sequent_at nodes.old a.now)) nodes.new }
    ensures extends { Extends nodes.old nodes.new }
{
    let mut done = Done::new(nodes.allocator());
    over_variable(nodes, &mut done, v, a)
}

/// The same, by what is remembered of the terms in which the variable was closed.
fn over_variable(
    nodes: &mut Nodes,
    done: &mut Done,
    v: VariableNode,
    a: &Statement,
) -> Result<Statement, StepFault>
    requires v { HasVariable nodes.old v }
    requires a { HasStatement nodes.old a.now }
    requires done { IsDone nodes.old (Closing (variable_at nodes.old v)) done.old }
    ensures gives { Gives result (abs_thm_step names (variable_at nodes.old v) (sequent_at nodes.old a.now)) nodes.new }
    ensures extends { Extends nodes.old nodes.new }
{
    let Some(equation) = as_equation(nodes, a.concl) else {
        return Err(StepFault::BadStep);
    };
    let free = is_free_in_some(nodes, done, &v, &a.hyps)?;
    if free {
        return Err(StepFault::BadStep);
    }
    let hyps = Vec::from_slice(nodes.allocator(), &a.hyps)?;
    let concl = equation_of_abstractions(nodes, done, &v, equation)?;
    Ok(Statement { hyps, concl })
}

/// A term with a variable as the place of an abstraction around.
fn closed(
    nodes: &mut Nodes,
    done: &mut Done,
    v: &VariableNode,
    id: TermId,
) -> Result<TermId, Memory>
    requires id { HasTerm nodes.old id }
    requires v { HasVariable nodes.old v.now }
    requires done { IsDone nodes.old (Closing (variable_at nodes.old v.now)) done.old }
    ensures ok { IfOk result
        (λ r. IsTerm nodes.new r (close names (variable_at nodes.old v.now) (term_at nodes.old id))) }
    ensures extends { Extends nodes.old nodes.new }
    ensures done { OnOk result (IsDone nodes.new (Closing (variable_at nodes.new v.now)) done.new) }
    ensures v { OnOk result (HasVariable nodes.new v.now) }
{
    let change = Change::Close(*v);
    nodes.change(&change, done, id)
}

/// Whether a variable is free in one of the terms: a term without it stays as it is when the variable is closed.
fn is_free_in_some(
    nodes: &mut Nodes,
    done: &mut Done,
    v: &VariableNode,
    ids: &[TermId],
) -> Result<bool, Memory>
    requires ids { All (HasTerm nodes.old) ids.now }
    requires v { HasVariable nodes.old v.now }
    requires done { IsDone nodes.old (Closing (variable_at nodes.old v.now)) done.old }
    ensures ok { IfOk result
        (λ b. b ≡ is_free_in_some names (variable_at nodes.old v.now) (terms_at nodes.old ids.now)) }
    ensures extends { Extends nodes.old nodes.new }
    ensures done { OnOk result (IsDone nodes.new (Closing (variable_at nodes.new v.now)) done.new) }
    ensures v { OnOk result (HasVariable nodes.new v.now) }
{
    for id in ids {
        let free = is_free(nodes, done, v, *id)?;
        if free {
            return Ok(true);
        }
    }
    Ok(false)
}

/// Whether a variable is free in a term.
fn is_free(nodes: &mut Nodes, done: &mut Done, v: &VariableNode, id: TermId) -> Result<bool, Memory>
    requires id { HasTerm nodes.old id }
    requires v { HasVariable nodes.old v.now }
    requires done { IsDone nodes.old (Closing (variable_at nodes.old v.now)) done.old }
    ensures ok { IfOk result (λ b. b ≡ is_free names (variable_at nodes.old v.now) (term_at nodes.old id)) }
    ensures extends { Extends nodes.old nodes.new }
    ensures done { OnOk result (IsDone nodes.new (Closing (variable_at nodes.new v.now)) done.new) }
    ensures v { OnOk result (HasVariable nodes.new v.now) }
{
    let closed = closed(nodes, done, v, id)?;
    nodes.primitives();
    Ok(closed != id)
}

/// The equation of the abstractions over a variable.
fn equation_of_abstractions(
    nodes: &mut Nodes,
    done: &mut Done,
    v: &VariableNode,
    sides: Sides,
) -> Result<TermId, Memory>
    requires v { HasVariable nodes.old v.now }
    requires sides { HasSides nodes.old sides }
    requires done { IsDone nodes.old (Closing (variable_at nodes.old v.now)) done.old }
    ensures ok { IfOk result (λ r. IsTerm nodes.new r (let w = variable_at nodes.old v.now in
        equation names (fun_ty names w.ty (type_at nodes.old sides.ty))
        (Abs w.ty (close names w (term_at nodes.old sides.left)))
        (Abs w.ty (close names w (term_at nodes.old sides.right))))) }
    ensures extends { Extends nodes.old nodes.new }
{
    let left = abstracted(nodes, done, v, sides.left)?;
    let right = abstracted(nodes, done, v, sides.right)?;
    let ty = nodes.fun(v.ty, sides.ty)?;
    nodes.equation(ty, left, right)
}

/// The abstraction of a term over a variable.
fn abstracted(
    nodes: &mut Nodes,
    done: &mut Done,
    v: &VariableNode,
    id: TermId,
) -> Result<TermId, Memory>
    requires id { HasTerm nodes.old id }
    requires v { HasVariable nodes.old v.now }
    requires done { IsDone nodes.old (Closing (variable_at nodes.old v.now)) done.old }
    ensures ok { IfOk result (λ r. IsTerm nodes.new r (let w = variable_at nodes.old v.now in
        Abs w.ty (close names w (term_at nodes.old id)))) }
    ensures extends { Extends nodes.old nodes.new }
    ensures done { OnOk result (IsDone nodes.new (Closing (variable_at nodes.new v.now)) done.new) }
    ensures v { OnOk result (HasVariable nodes.new v.now) }
{
    let body = closed(nodes, done, v, id)?;
    nodes.abs(v.ty, body)
}
