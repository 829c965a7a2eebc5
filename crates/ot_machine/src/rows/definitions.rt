//! The rows of the commands that add a definition, of symbols as the context reads their names.
ghost use Rattle.ot_machine.specs.Meaning.{version_of, IsOf};
ghost use Rattle.ot_machine.specs.Answers.{TakesRow};
ghost use Rattle.ot_machine.specs.Contexts.{context_of, IsContextOf};
ghost use Rattle.ot_machine.specs.Rows.{define_const_row, define_const_list_row};
ghost use Rattle.ot_machine.specs.Step.{define_type_row};

use crate::context::Context;
use crate::definition_lists::variables_of;
use crate::fault::Fault;
use crate::machine::{Machine, Version};
use crate::object::{Entry, Object};
use crate::session::Session;
use ot_logic::Cmd;
use std::alloc::Global;

/// `defineConst` defines a constant as a term.
pub fn define_const(
    session: &mut Session,
    machine: &mut Machine,
    context: &Context<'_>,
) -> Result<(), Fault>
    requires of { IsOf session.old machine.old }
    requires context { IsContextOf session.old context.now }
    ensures { TakesRow result (define_const_row (context_of session.old context.now)) session.old machine.old
        session.new machine.new }
{
    let (term, term_step) = session.term_entry(machine, 0)?;
    let name = session.name_on(machine, 1)?;
    let named = session.constant_named(context, name);
    let defined = session.constant_definition(machine, named, term, term_step)?;
    session.exchange(
        machine,
        &[
            Entry {
                object: Object::Const(named),
                step: Some(defined.symbol),
            },
            Entry {
                object: Object::Theorem(defined.theorem),
                step: Some(defined.step),
            },
        ],
    );
    Ok(())
}

/// `defineConstList` defines constants for the variables of a theorem.
pub fn define_const_list(
    alloc: Global,
    session: &mut Session,
    machine: &mut Machine,
    context: &Context<'_>,
) -> Result<(), Fault>
    requires of { IsOf session.old machine.old }
    requires context { IsContextOf session.old context.now }
    ensures { TakesRow result (define_const_list_row (context_of session.old context.now)) session.old machine.old
        session.new machine.new }
{
    let (premise, premise_step) = session.theorem_entry(machine, 0)?;
    let (list, list_step) = session.list_entry(machine, 1)?;
    let pairs = session.pairs_of(alloc, machine, list)?;
    let names = session.constants_named(alloc, context, &pairs)?;
    let variables = variables_of(alloc, &pairs)?;
    // The list of the constants is made first, so that nothing is refused after the definition.
    let constants = session.constants(machine, &names)?;
    let step = session.symbol_list_step(Cmd::Const, &names)?;
    let (theorem, theorem_step) = session.list_definition(
        machine,
        context,
        &names,
        &variables,
        list_step,
        premise,
        premise_step,
    )?;
    session.exchange(
        machine,
        &[
            Entry {
                object: Object::List(constants),
                step: Some(step),
            },
            Entry {
                object: Object::Theorem(theorem),
                step: Some(theorem_step),
            },
        ],
    );
    Ok(())
}

/// `defineTypeOp` defines a type operator by a theorem on the elements of a type. Its theorems are those of the article's
/// version.
pub fn define_type(
    alloc: Global,
    session: &mut Session,
    machine: &mut Machine,
    context: &Context<'_>,
    version: Version,
) -> Result<(), Fault>
    requires of { IsOf session.old machine.old }
    requires context { IsContextOf session.old context.now }
    ensures { TakesRow result (define_type_row (version_of version) (context_of session.old context.now)) session.old
        machine.old session.new machine.new }
{
    let (premise, premise_step) = session.theorem_entry(machine, 0)?;
    let (variables, list_step) = session.names_on(alloc, machine, 1)?;
    let rep = session.name_on(machine, 2)?;
    let abs = session.name_on(machine, 3)?;
    let name = session.name_on(machine, 4)?;
    let rep = session.constant_named(context, rep);
    let abs = session.constant_named(context, abs);
    let name = session.type_op_named(context, name);
    let defined = session.type_definition(
        machine,
        version,
        name,
        abs,
        rep,
        &variables,
        list_step,
        premise,
        premise_step,
    )?;
    session.exchange(
        machine,
        &[
            Entry {
                object: Object::TypeOp(name),
                step: Some(defined.op),
            },
            Entry {
                object: Object::Const(abs),
                step: Some(defined.abs),
            },
            Entry {
                object: Object::Const(rep),
                step: Some(defined.rep),
            },
            Entry {
                object: Object::Theorem(defined.abs_rep),
                step: Some(defined.abs_rep_step),
            },
            Entry {
                object: Object::Theorem(defined.rep_abs),
                step: Some(defined.rep_abs_step),
            },
        ],
    );
    Ok(())
}
