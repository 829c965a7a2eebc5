//! The rows of the commands for types and terms.
ghost use Rattle.ot_logic.specs.declared.command.Cmd.TheVariants as words;
ghost use Rattle.ot_machine.specs.Meaning.{IsOf};
ghost use Rattle.ot_machine.specs.Answers.{TakesRow};
ghost use Rattle.ot_machine.specs.Contexts.{context_of, IsContextOf};
ghost use Rattle.ot_machine.specs.Step.{on_stack};
ghost use Rattle.ot_machine.specs.Rows.{making, type_op_row, const_row};

use crate::context::Context;
use crate::fault::Fault;
use crate::machine::Machine;
use crate::object::Object;
use crate::session::Session;
use ot_logic::Cmd;
use ot_term::VarKey;
use std::alloc::Global;

/// `typeOp` makes a type operator of a name, as the context reads it.
pub fn type_op(
    session: &mut Session,
    machine: &mut Machine,
    context: &Context<'_>,
) -> Result<(), Fault>
    requires of { IsOf session.old machine.old }
    requires context { IsContextOf session.old context.now }
    ensures { TakesRow result (on_stack (type_op_row (context_of session.old context.now))) session.old machine.old
        session.new machine.new }
{
    let name = session.name_on(machine, 0)?;
    let named = session.type_op_named(context, name);
    session.make_symbol(machine, Cmd::TypeOp, named, Object::TypeOp(named))?;
    Ok(())
}

/// `opType` makes a type of an operator and its arguments.
pub fn op_type(alloc: Global, session: &mut Session, machine: &mut Machine) -> Result<(), Fault>
    requires { IsOf session.old machine.old }
    ensures { TakesRow result (on_stack (making words.OpType)) session.old machine.old session.new machine.new }
{
    let args = session.types_on(alloc, machine, 0)?;
    let name = session.type_op_on(machine, 1)?;
    let ty = session.kernel.type_op(name, &args)?;
    session.make_two(machine, Cmd::OpType, Object::Type(ty))?;
    Ok(())
}

/// `varType` makes a type variable of a name.
pub fn var_type(session: &mut Session, machine: &mut Machine) -> Result<(), Fault>
    requires { IsOf session.old machine.old }
    ensures { TakesRow result (on_stack (making words.VarType)) session.old machine.old session.new machine.new }
{
    let name = session.name_on(machine, 0)?;
    let ty = session.kernel.type_var(name)?;
    session.make_one(machine, Cmd::VarType, Object::Type(ty))?;
    Ok(())
}

/// `var` makes a variable of a name and a type.
pub fn var(session: &mut Session, machine: &mut Machine) -> Result<(), Fault>
    requires { IsOf session.old machine.old }
    ensures { TakesRow result (on_stack (making words.Var)) session.old machine.old session.new machine.new }
{
    let ty = session.type_on(machine, 0)?;
    let name = session.name_on(machine, 1)?;
    session.make_two(machine, Cmd::Var, Object::Var(VarKey { name, ty }))?;
    Ok(())
}

/// `varTerm` makes a term of a variable.
pub fn var_term(session: &mut Session, machine: &mut Machine) -> Result<(), Fault>
    requires { IsOf session.old machine.old }
    ensures { TakesRow result (on_stack (making words.VarTerm)) session.old machine.old session.new machine.new }
{
    let variable = session.variable_on(machine, 0)?;
    let term = session.kernel.var(variable)?;
    session.make_one(machine, Cmd::VarTerm, Object::Term(term))?;
    Ok(())
}

/// `const` makes a constant of a name, as the context reads it.
pub fn constant(
    session: &mut Session,
    machine: &mut Machine,
    context: &Context<'_>,
) -> Result<(), Fault>
    requires of { IsOf session.old machine.old }
    requires context { IsContextOf session.old context.now }
    ensures { TakesRow result (on_stack (const_row (context_of session.old context.now))) session.old machine.old
        session.new machine.new }
{
    let name = session.name_on(machine, 0)?;
    let named = session.constant_named(context, name);
    session.make_symbol(machine, Cmd::Const, named, Object::Const(named))?;
    Ok(())
}

/// `constTerm` makes a term of a constant and a type.
pub fn const_term(session: &mut Session, machine: &mut Machine) -> Result<(), Fault>
    requires { IsOf session.old machine.old }
    ensures { TakesRow result (on_stack (making words.ConstTerm)) session.old machine.old session.new machine.new }
{
    let ty = session.type_on(machine, 0)?;
    let name = session.constant_on(machine, 1)?;
    let term = session.kernel.constant(name, ty)?;
    session.make_two(machine, Cmd::ConstTerm, Object::Term(term))?;
    Ok(())
}

/// `appTerm` applies a function to an argument.
pub fn app_term(session: &mut Session, machine: &mut Machine) -> Result<(), Fault>
    requires { IsOf session.old machine.old }
    ensures { TakesRow result (on_stack (making words.AppTerm)) session.old machine.old session.new machine.new }
{
    let argument = session.term_on(machine, 0)?;
    let function = session.term_on(machine, 1)?;
    let term = session.kernel.app(function, argument)?;
    session.make_two(machine, Cmd::AppTerm, Object::Term(term))?;
    Ok(())
}

/// `absTerm` makes the abstraction of a variable from a term.
pub fn abs_term(session: &mut Session, machine: &mut Machine) -> Result<(), Fault>
    requires { IsOf session.old machine.old }
    ensures { TakesRow result (on_stack (making words.AbsTerm)) session.old machine.old session.new machine.new }
{
    let body = session.term_on(machine, 0)?;
    let variable = session.variable_on(machine, 1)?;
    let term = session.kernel.abs(variable, body)?;
    session.make_two(machine, Cmd::AbsTerm, Object::Term(term))?;
    Ok(())
}
