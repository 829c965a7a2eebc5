//! The rows of the commands for theorems.
ghost use Rattle.ot_logic.specs.declared.command.Cmd.TheVariants as words;
ghost use Rattle.ot_machine.specs.Meaning.{IsOf};
ghost use Rattle.ot_machine.specs.Answers.{TakesRow};
ghost use Rattle.ot_machine.specs.Contexts.{context_of, IsContextOf};
ghost use Rattle.ot_machine.specs.Step.{on_article, on_stack};
ghost use Rattle.ot_machine.specs.Rows.{making, thm_row};
ghost use Rattle.ot_machine.specs.Discharge.{axiom_row};

use crate::context::Context;
use crate::fault::Fault;
use crate::machine::Machine;
use crate::object::Object;
use crate::session::Session;
use ot_logic::Cmd;
use std::alloc::Global;

/// `refl` makes the theorem that a term equals itself.
pub fn refl(session: &mut Session, machine: &mut Machine) -> Result<(), Fault>
    requires { IsOf session.old machine.old }
    ensures { TakesRow result (on_stack (making words.Refl)) session.old machine.old session.new machine.new }
{
    let term = session.term_on(machine, 0)?;
    let answer = session.kernel.refl(term);
    session.conclude_one(machine, Cmd::Refl, answer)
}

/// `assume` makes the theorem that a proposition follows from itself.
pub fn assume(session: &mut Session, machine: &mut Machine) -> Result<(), Fault>
    requires { IsOf session.old machine.old }
    ensures { TakesRow result (on_stack (making words.Assume)) session.old machine.old session.new machine.new }
{
    let term = session.term_on(machine, 0)?;
    let answer = session.kernel.assume(term);
    session.conclude_one(machine, Cmd::Assume, answer)
}

/// `eqMp` makes the right side of an equation from its left side.
pub fn eq_mp(session: &mut Session, machine: &mut Machine) -> Result<(), Fault>
    requires { IsOf session.old machine.old }
    ensures { TakesRow result (on_stack (making words.EqMp)) session.old machine.old session.new machine.new }
{
    let top = session.theorem_on(machine, 0)?;
    let lower = session.theorem_on(machine, 1)?;
    let answer = session.kernel.eq_mp(lower, top);
    session.conclude_two(machine, Cmd::EqMp, answer)
}

/// `absThm` makes the equation of the abstractions of a variable from both sides of an equation.
pub fn abs_thm(session: &mut Session, machine: &mut Machine) -> Result<(), Fault>
    requires { IsOf session.old machine.old }
    ensures { TakesRow result (on_stack (making words.AbsThm)) session.old machine.old session.new machine.new }
{
    let premise = session.theorem_on(machine, 0)?;
    let variable = session.variable_on(machine, 1)?;
    let answer = session.kernel.abs_thm(variable, premise);
    session.conclude_two(machine, Cmd::AbsThm, answer)
}

/// `appThm` applies an equation of functions to one of arguments.
pub fn app_thm(session: &mut Session, machine: &mut Machine) -> Result<(), Fault>
    requires { IsOf session.old machine.old }
    ensures { TakesRow result (on_stack (making words.AppThm)) session.old machine.old session.new machine.new }
{
    let top = session.theorem_on(machine, 0)?;
    let lower = session.theorem_on(machine, 1)?;
    let answer = session.kernel.app_thm(lower, top);
    session.conclude_two(machine, Cmd::AppThm, answer)
}

/// `deductAntisym` makes two propositions equal that follow from each other.
pub fn deduct_antisym(session: &mut Session, machine: &mut Machine) -> Result<(), Fault>
    requires { IsOf session.old machine.old }
    ensures { TakesRow result (on_stack (making words.DeductAntisym)) session.old machine.old session.new
        machine.new }
{
    let top = session.theorem_on(machine, 0)?;
    let lower = session.theorem_on(machine, 1)?;
    let answer = session.kernel.deduct_antisym(lower, top);
    session.conclude_two(machine, Cmd::DeductAntisym, answer)
}

/// `betaConv` makes the theorem that a beta redex equals what it reduces to.
pub fn beta_conv(session: &mut Session, machine: &mut Machine) -> Result<(), Fault>
    requires { IsOf session.old machine.old }
    ensures { TakesRow result (on_stack (making words.BetaConv)) session.old machine.old session.new machine.new }
{
    let term = session.term_on(machine, 0)?;
    let answer = session.kernel.beta_conv(term);
    session.conclude_one(machine, Cmd::BetaConv, answer)
}

/// `sym` turns an equation round.
pub fn sym(session: &mut Session, machine: &mut Machine) -> Result<(), Fault>
    requires { IsOf session.old machine.old }
    ensures { TakesRow result (on_stack (making words.Sym)) session.old machine.old session.new machine.new }
{
    let premise = session.theorem_on(machine, 0)?;
    let answer = session.kernel.sym(premise);
    session.conclude_one(machine, Cmd::Sym, answer)
}

/// `trans` joins two equations.
pub fn trans(session: &mut Session, machine: &mut Machine) -> Result<(), Fault>
    requires { IsOf session.old machine.old }
    ensures { TakesRow result (on_stack (making words.Trans)) session.old machine.old session.new machine.new }
{
    let top = session.theorem_on(machine, 0)?;
    let lower = session.theorem_on(machine, 1)?;
    let answer = session.kernel.trans(lower, top);
    session.conclude_two(machine, Cmd::Trans, answer)
}

/// `proveHyp` takes what a theorem proves out of the hypotheses of another.
pub fn prove_hyp(session: &mut Session, machine: &mut Machine) -> Result<(), Fault>
    requires { IsOf session.old machine.old }
    ensures { TakesRow result (on_stack (making words.ProveHyp)) session.old machine.old session.new machine.new }
{
    let top = session.theorem_on(machine, 0)?;
    let lower = session.theorem_on(machine, 1)?;
    let answer = session.kernel.prove_hyp(lower, top);
    session.conclude_two(machine, Cmd::ProveHyp, answer)
}

/// `subst` puts the maps of a list into a theorem.
pub fn subst(alloc: Global, session: &mut Session, machine: &mut Machine) -> Result<(), Fault>
    requires { IsOf session.old machine.old }
    ensures { TakesRow result (on_stack (making words.Subst)) session.old machine.old session.new machine.new }
{
    let premise = session.theorem_on(machine, 0)?;
    let list = session.list_on(machine, 1)?;
    let maps = session.maps_of(alloc, machine, list)?;
    let answer = session.kernel.subst(&maps, premise);
    session.conclude_two(machine, Cmd::Subst, answer)
}

/// `axiom` takes a sequent as a theorem of the context, else as an assumption of the run.
pub fn axiom(
    alloc: Global,
    session: &mut Session,
    machine: &mut Machine,
    context: &Context<'_>,
) -> Result<(), Fault>
    requires of { IsOf session.old machine.old }
    requires context { IsContextOf session.old context.now }
    ensures { TakesRow result (axiom_row (context_of session.old context.now)) session.old machine.old session.new
        machine.new }
{
    let concl = session.term_on(machine, 0)?;
    let (list, list_step) = session.list_entry(machine, 1)?;
    let hyps = session.each_of(alloc, machine, list)?;
    let given = session.axiom(machine, context, &hyps, list_step, concl)?;
    session.replace(machine, 2, Object::Theorem(given.th), Some(given.step));
    Ok(())
}

/// `thm` exports a theorem, which has to be the stated sequent.
pub fn thm(alloc: Global, session: &mut Session, machine: &mut Machine) -> Result<(), Fault>
    requires { IsOf session.old machine.old }
    ensures { TakesRow result (on_article thm_row) session.old machine.old session.new machine.new }
{
    let (concl, term) = session.term_entry(machine, 0)?;
    let (hyps, list) = session.terms_on(alloc, machine, 1)?;
    let (theorem, step) = session.theorem_entry(machine, 2)?;
    if !session.kernel.same(theorem, &hyps, concl) {
        return Err(Fault::ExportMismatch);
    }
    session.export(machine, theorem, step, list, term)?;
    session.drop_top(machine, 3);
    Ok(())
}
