//! The sequents of the words that stand for several records.
ghost use Rattle.std.specs.Prelude.{◌≡◌, ◌&&◌, not, Ok, IfOk};
ghost use Rattle.ot_logic.specs.Names.{Name};
ghost use Rattle.ot_logic.specs.Naming.{names};
ghost use Rattle.ot_logic.specs.Trees.{Sequent};
ghost use Rattle.ot_logic.specs.Hol.{is_in};
ghost use Rattle.ot_logic.specs.Rules.{proved_hyp, sym_rule, trans_rule};
ghost use Rattle.ot_logic.specs.Table.{Extends};
ghost use Rattle.ot_log_nodes.specs.Items.{IsTerm};
ghost use Rattle.ot_log_rules.specs.Statements.{sequent_at, HasStatement};
ghost use Rattle.ot_log_rules.specs.Shapes.{HasSides};
ghost use Rattle.ot_log_page.specs.Derived.{Derives, IsStatementOf, outer_equation};

use ot_log_nodes::{Nodes, TermId};
use ot_log_rules::{Sides, Statement, StepFault, as_equation, minus, union};
use ot_logic::Memory;

/// From `G |- t = u`, `u = t`, where the word isn't refused.
pub fn sym(nodes: &mut Nodes, a: &Statement) -> Result<Statement, StepFault>
    requires a { HasStatement nodes.old a.now }
    ensures made { (r : Sequent Name) → sym_rule names (sequent_at nodes.old a.now) ≡ Ok r
        → Derives result nodes.new r }
    ensures extends { Extends nodes.old nodes.new }
{
    let Some(e) = as_equation(nodes, a.concl) else {
        return Err(StepFault::BadStep);
    };
    let hyps = Vec::from_slice(nodes.allocator(), &a.hyps)?;
    let concl = nodes.equation(e.ty, e.right, e.left)?;
    Ok(Statement { hyps, concl })
}

/// From two theorems that are equations with a side in common, the equation of the other sides, where the word isn't
/// refused.
pub fn trans(nodes: &mut Nodes, lower: &Statement, top: &Statement) -> Result<Statement, StepFault>
    requires lower { HasStatement nodes.old lower.now }
    requires top { HasStatement nodes.old top.now }
    ensures made { (r : Sequent Name) → trans_rule names (sequent_at nodes.old lower.now)
        (sequent_at nodes.old top.now) ≡ Ok r
        → Derives result nodes.new r }
    ensures extends { Extends nodes.old nodes.new }
{
    nodes.primitives();
    let Some(e) = as_equation(nodes, lower.concl) else {
        return Err(StepFault::BadStep);
    };
    let Some(f) = as_equation(nodes, top.concl) else {
        return Err(StepFault::BadStep);
    };
    let hyps = union(nodes.allocator(), &lower.hyps, &top.hyps)?;
    let concl = outer_sides(nodes, e, f)?;
    Ok(Statement { hyps, concl })
}

/// The equation of the sides that two equations don't share.
fn outer_sides(nodes: &mut Nodes, lower: Sides, top: Sides) -> Result<TermId, Memory>
    requires lower { HasSides nodes.old lower }
    requires top { HasSides nodes.old top }
    ensures ok { IfOk result (λ r. IsTerm nodes.new r (outer_equation nodes.old lower top)) }
    ensures extends { Extends nodes.old nodes.new }
{
    if lower.right == top.left {
        nodes.equation(lower.ty, lower.left, top.right)
    } else {
        nodes.equation(lower.ty, top.left, lower.right)
    }
}

/// Whether the lower theorem is the lemma for the top one: its conclusion is a hypothesis there, and not the other
/// way round.
pub fn is_lower_lemma(nodes: &Nodes, lower: &Statement, top: &Statement) -> bool
    requires lower { HasStatement nodes.now lower.now }
    requires top { HasStatement nodes.now top.now }
    ensures { let a = sequent_at nodes.now lower.now in let b = sequent_at nodes.now top.now in
        result ≡ (not (is_in names b.concl a.hyps) && is_in names a.concl b.hyps) }
{
    nodes.primitives();
    !lower.hyps.contains(&top.concl) & top.hyps.contains(&lower.concl)
}

/// From a lemma and another theorem, that theorem under the lemma's hypotheses in place of its conclusion.
pub fn prove_hyp(nodes: &Nodes, lemma: &Statement, other: &Statement) -> Result<Statement, Memory>
    requires lemma { HasStatement nodes.now lemma.now }
    requires other { HasStatement nodes.now other.now }
    ensures made { IfOk result (IsStatementOf nodes.now
        (proved_hyp names (sequent_at nodes.now lemma.now) (sequent_at nodes.now other.now))) }
{
    nodes.primitives();
    let alloc = nodes.allocator();
    let left = minus(alloc, lemma.concl, &other.hyps)?;
    let hyps = union(alloc, &lemma.hyps, &left)?;
    Ok(Statement {
        hyps,
        concl: other.concl,
    })
}
