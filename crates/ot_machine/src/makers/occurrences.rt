//! Whether variables are free in terms. What is shared is asked once for each variable.
ghost use Rattle.std.specs.Prelude.{◌<◌, ◌+◌, ◌*◌, length, IfOk, OnOk};
ghost use Rattle.std.specs.Bool.{Decides};
ghost use Rattle.ot_logic.specs.Naming.{names};
ghost use Rattle.ot_logic.specs.NamedTerms.{IsFreeIn};
ghost use Rattle.ot_kernel.specs.State.{variable_at, named_at};
ghost use Rattle.ot_view.specs.Nodes.{IsKey};
ghost use Rattle.ot_machine.specs.Occurrences.{AreOccurrences};

use indexmap::IndexMap;
use ot_kernel::Kernel;
use ot_logic::Memory;
use ot_term::{TermId, TermNode, VarKey};
use ot_view::{same_variable, term_node};

/// A variable that is looked for in a term.
#[derive(PartialEq, Eq, Hash, Drop)]
pub(crate) struct Occurrence {
    pub term: TermId,
    pub variable: VarKey,
}

/// Whether a variable is free in a term.
#[cycle(is_free)]
pub(crate) fn is_free(
    kernel: &Kernel,
    variable: &VarKey,
    term: TermId,
    known: &mut IndexMap<Occurrence, bool>,
) -> Result<bool, Memory>
    requires key { IsKey kernel.now variable.now }
    requires term { term < length kernel.now.terms }
    requires known { AreOccurrences kernel.now known.old.entries }
    ensures free { IfOk result
        (λ b. Decides b (IsFreeIn names (variable_at kernel.now variable.now) (named_at kernel.now.terms term))) }
    ensures known { OnOk result (AreOccurrences kernel.now known.new.entries) }
{
    let occurrence = Occurrence {
        term,
        variable: *variable,
    };
    if let Some(free) = known.get(&occurrence) {
        return Ok(*free);
    }
    let free = is_free_below(kernel, variable, term, known)?;
    known.insert(occurrence, free)?;
    Ok(free)
}

/// The same, by the term's node.
#[cycle(is_free)]
fn is_free_below(
    kernel: &Kernel,
    variable: &VarKey,
    term: TermId,
    known: &mut IndexMap<Occurrence, bool>,
) -> Result<bool, Memory>
    requires key { IsKey kernel.now variable.now }
    requires term { term < length kernel.now.terms }
    requires known { AreOccurrences kernel.now known.old.entries }
    ensures free { IfOk result
        (λ b. Decides b (IsFreeIn names (variable_at kernel.now variable.now) (named_at kernel.now.terms term))) }
    ensures known { OnOk result (AreOccurrences kernel.now known.new.entries) }
{
    match *term_node(kernel, term) {
        TermNode::Var(v) => Ok(same_variable(kernel, &v, variable)),
        TermNode::Const(_, _) => Ok(false),
        TermNode::App(f, x) => {
            let in_function = is_free(kernel, variable, f, known)?;
            if in_function {
                return Ok(true);
            }
            Ok(is_free(kernel, variable, x, known)?)
        }
        TermNode::Abs(v, body) => {
            if same_variable(kernel, &v, variable) {
                return Ok(false);
            }
            Ok(is_free(kernel, variable, body, known)?)
        }
    }
}
