//! What the `interpret:` statements of a block rename.
ghost use Rattle.std.specs.Prelude.{◌≡◌, ◌<◌, ℕ, Some, false, length, IfOk, OnOk};
ghost use Rattle.ot_logic.specs.Naming.{numbers};
ghost use Rattle.ot_logic.specs.Reading.{name_read};
ghost use Rattle.ot_interp.specs.Interpretation.{map_interpretation, IsWithin};
ghost use Rattle.ot_kernel.specs.State.{name_at};
ghost use Rattle.ot_machine.specs.Meaning.{run_of, IsRun, Grows};
ghost use Rattle.ot_theory.specs.Interpretations.{IsQuotedName};
ghost use Rattle.ot_theory.specs.Answers.{tag_of, tags_of};
ghost use Rattle.ot_link.specs.Renaming.{renaming_of, renaming_at, interpretation_of};
ghost use Rattle.ot_link.specs.Adding.{AreRight, is_held_by, with_pair, added, IsNew};
ghost use Rattle.ot_link.specs.Lawful.{BlocksAreNaming};

use ot_interp::{Interp, after_law};
use ot_logic::{Memory, NameId};
use ot_machine::{Session, lines_law};
use ot_theory::{Key, SymbolWord, Tag, key_of, one_interpretation, quoted_name, split_interpret};
use std::alloc::Global;

/// The interpretation that the statements of a block write.
pub(crate) fn interpretation_of(
    alloc: Global,
    session: &mut Session,
    statements: &[Tag<'_>],
) -> Result<Interp, Memory>
    requires session { IsRun session.old }
    requires right { AreRight (tags_of statements.now) }
    ensures names { IfOk result (λ i. map_interpretation (name_at session.new.kernel) i
        ≡ interpretation_of (tags_of statements.now)) }
    ensures within { IfOk result (IsWithin (length session.new.kernel.names)) }
    ensures grown { Grows session.old session.new }
    ensures session { IsRun session.new }
    ensures run { run_of session.new ≡ run_of session.old }
{
    let mut interp = Interp::new(alloc);
    'each: for statement in statements {
        add_statement(alloc, session, &mut interp, statement)?;
    }
    Ok(interp)
}

/// A law: what a line can say is read as what a line can say in a block, too, where it is so in the context of the
/// block's file.
pub(crate) fn naming_law()
    ensures { BlocksAreNaming }
{
    after_law();
    one_interpretation();
    lines_law();
}

/// Adds what a statement renames, which isn't renamed yet.
fn add_statement(
    alloc: Global,
    session: &mut Session,
    interp: &mut Interp,
    statement: &Tag<'_>,
) -> Result<(), Memory>
    requires session { IsRun session.old }
    requires within { IsWithin (length session.old.kernel.names) interp.old }
    requires new { IsNew (renaming_at (tag_of statement.now))
        (map_interpretation (name_at session.old.kernel) interp.old) }
    ensures added { OnOk result (map_interpretation (name_at session.new.kernel) interp.new
        ≡ added (renaming_at (tag_of statement.now)) (map_interpretation (name_at session.old.kernel) interp.old)) }
    ensures within { OnOk result (IsWithin (length session.new.kernel.names) interp.new) }
    ensures grown { Grows session.old session.new }
    ensures session { IsRun session.new }
    ensures run { run_of session.new ≡ run_of session.old }
{
    match key_of(statement.key) {
        Key::Interpret => add_renaming(alloc, session, interp, statement.value),
        Key::Import | Key::Article | Key::Package | Key::Other => Ok(()),
    }
}

/// Adds what an `interpret:` value renames, which isn't renamed yet.
fn add_renaming(
    alloc: Global,
    session: &mut Session,
    interp: &mut Interp,
    value: &[u8],
) -> Result<(), Memory>
    requires session { IsRun session.old }
    requires within { IsWithin (length session.old.kernel.names) interp.old }
    requires new { IsNew (renaming_of value.now) (map_interpretation (name_at session.old.kernel) interp.old) }
    ensures added { OnOk result (map_interpretation (name_at session.new.kernel) interp.new
        ≡ added (renaming_of value.now) (map_interpretation (name_at session.old.kernel) interp.old)) }
    ensures within { OnOk result (IsWithin (length session.new.kernel.names) interp.new) }
    ensures grown { Grows session.old session.new }
    ensures session { IsRun session.new }
    ensures run { run_of session.new ≡ run_of session.old }
{
    match split_interpret(value) {
        Some((kind, from, to)) => {
            let from = number_of(alloc, session, from)?;
            let to = number_of(alloc, session, to)?;
            session.kernel().sound();
            add(interp, kind, from, to)
        }
        None => Ok(()),
    }
}

/// The number of a name that is written in quotes.
fn number_of(alloc: Global, session: &mut Session, quoted: &[u8]) -> Result<NameId, Memory>
    requires session { IsRun session.old }
    requires quoted { IsQuotedName quoted.now }
    ensures name { IfOk result (λ id. name_read quoted.now ≡ Some (name_at session.new.kernel id)) }
    ensures within { IfOk result (λ id. id < length session.new.kernel.names) }
    ensures grown { Grows session.old session.new }
    ensures session { IsRun session.new }
    ensures run { run_of session.new ≡ run_of session.old }
{
    let name = quoted_name(alloc, quoted)?;
    session.intern(name)
}

/// Adds a pair of this kind.
fn add(interp: &mut Interp, kind: SymbolWord, from: NameId, to: NameId) -> Result<(), Memory>
    requires { is_held_by numbers kind interp.old from ≡ false }
    ensures added { OnOk result (interp.new ≡ with_pair kind from to interp.old) }
    ensures within { (size : ℕ) → from < size → to < size → IsWithin size interp.old → IsWithin size interp.new }
{
    match kind {
        SymbolWord::Con => interp.add_constant(from, to),
        SymbolWord::TyOp => interp.add_type_op(from, to),
    }
}
