//! The rows of the commands for numbers, lists and the dictionary.
ghost use Rattle.std.specs.Prelude.{◌<◌, length, Ok};
ghost use Rattle.ot_logic.specs.declared.command.Cmd.TheVariants as words;
ghost use Rattle.ot_kernel.specs.State.{name_at};
ghost use Rattle.ot_trace.specs.Origins.{Named};
ghost use Rattle.ot_machine.specs.Objects.{name as a_name};
ghost use Rattle.ot_machine.specs.Places.{pushed};
ghost use Rattle.ot_machine.specs.Meaning.{IsOf};
ghost use Rattle.ot_machine.specs.Answers.{TakesRow};
ghost use Rattle.ot_machine.specs.Step.{on_article, on_stack};
ghost use Rattle.ot_machine.specs.Rows.{making, nil_row, hd_tl_row, pop_row};
ghost use Rattle.ot_machine.specs.Rows.{version_row, def_row, ref_row, remove_row};

use crate::fault::Fault;
use crate::machine::Machine;
use crate::object::{Entry, List, Object};
use crate::session::Session;
use ot_logic::{Cmd, NameId};

/// A quoted text pushes a name.
pub fn name(session: &mut Session, machine: &mut Machine, id: NameId) -> Result<(), Fault>
    requires of { IsOf session.old machine.old }
    requires inside { id < length session.old.kernel.names }
    ensures { TakesRow result
        (on_stack (λ stack.
        Ok (pushed (record {
          object = a_name (name_at session.old.kernel id);
          origin = Named
              (name_at session.old.kernel id);
        }) stack))) session.old machine.old session.new machine.new }
{
    let step = session.name_step(id)?;
    session.push(machine, Object::Name(id), Some(step))?;
    Ok(())
}

/// `nil` pushes the empty list.
pub fn nil(session: &mut Session, machine: &mut Machine) -> Result<(), Fault>
    requires { IsOf session.old machine.old }
    ensures { TakesRow result (on_stack nil_row) session.old machine.old session.new machine.new }
{
    let step = session.made_of(Cmd::Nil, &[])?;
    session.push(machine, Object::List(List::Nil), Some(step))?;
    Ok(())
}

/// `cons` makes a list of a head and a tail.
#[inline(always)]
pub fn cons(session: &mut Session, machine: &mut Machine) -> Result<(), Fault>
    requires { IsOf session.old machine.old }
    ensures { TakesRow result (on_stack (making words.Cons)) session.old machine.old session.new machine.new }
{
    let tail = session.list_on(machine, 0)?;
    let head = session.object_at(machine, 1)?;
    let list = session.cons(machine, head, tail)?;
    session.make_two(machine, Cmd::Cons, Object::List(list))?;
    Ok(())
}

/// `hdTl` takes a list apart into its head and, on top, its tail.
pub fn hd_tl(session: &mut Session, machine: &mut Machine) -> Result<(), Fault>
    requires { IsOf session.old machine.old }
    ensures { TakesRow result (on_stack hd_tl_row) session.old machine.old session.new machine.new }
{
    let (list, step) = session.list_entry(machine, 0)?;
    let Some((head, tail)) = session.first(machine, list) else {
        return Err(Fault::EmptyList);
    };
    let first = session.operand_of(step, 0);
    let rest = session.operand_of(step, 1);
    // The stack grows before it changes.
    session.push(machine, Object::List(tail), Some(rest))?;
    session.exchange(
        machine,
        &[
            Entry {
                object: head,
                step: Some(first),
            },
            Entry {
                object: Object::List(tail),
                step: Some(rest),
            },
        ],
    );
    Ok(())
}

/// `pop` and `pragma` drop any object.
pub fn pop(session: &mut Session, machine: &mut Machine) -> Result<(), Fault>
    requires { IsOf session.old machine.old }
    ensures { TakesRow result (on_stack pop_row) session.old machine.old session.new machine.new }
{
    session.object_at(machine, 0)?;
    session.drop_top(machine, 1);
    Ok(())
}

/// `version` pops the number 6.
pub fn version(session: &mut Session, machine: &mut Machine) -> Result<(), Fault>
    requires { IsOf session.old machine.old }
    ensures { TakesRow result (on_stack version_row) session.old machine.old session.new machine.new }
{
    let number = session.number_on(machine, 0)?;
    if number != 6 {
        return Err(Fault::VersionUnsupported(number));
    }
    session.drop_top(machine, 1);
    Ok(())
}

/// `def` stores the object below the key, which stays.
#[inline(always)]
pub fn def(session: &mut Session, machine: &mut Machine) -> Result<(), Fault>
    requires { IsOf session.old machine.old }
    ensures { TakesRow result (on_article def_row) session.old machine.old session.new machine.new }
{
    let key = session.number_on(machine, 0)?;
    let entry = session.entry_at(machine, 1)?;
    session.store(machine, key, entry.object, entry.step)?;
    session.drop_top(machine, 1);
    Ok(())
}

/// `ref` gives the object under a key.
#[inline(always)]
pub fn refer(session: &mut Session, machine: &mut Machine) -> Result<(), Fault>
    requires { IsOf session.old machine.old }
    ensures { TakesRow result (on_article ref_row) session.old machine.old session.new machine.new }
{
    let key = session.number_on(machine, 0)?;
    let entry = session.stored(machine, key)?;
    session.replace(machine, 1, entry.object, entry.step);
    Ok(())
}

/// `remove` gives the object under a key, which goes.
pub fn remove(session: &mut Session, machine: &mut Machine) -> Result<(), Fault>
    requires { IsOf session.old machine.old }
    ensures { TakesRow result (on_article remove_row) session.old machine.old session.new machine.new }
{
    let key = session.number_on(machine, 0)?;
    let entry = session.stored(machine, key)?;
    session.replace(machine, 1, entry.object, entry.step);
    session.forget(machine, key);
    Ok(())
}
