//! The records of definitions, each with its theorems.
ghost use Rattle.std.specs.Prelude.{◌≡◌, ◌++◌, [], ◌∷◌, Ok, IfOk, length, map};
ghost use Rattle.std.specs.List.{All, flat_map};
ghost use Rattle.ot_logic.specs.Table.{Extends};
ghost use Rattle.ot_logic.specs.Naming.{names};
ghost use Rattle.ot_logic.specs.Hol.{IsWellTyped};
ghost use Rattle.ot_logic.specs.declared.command.Cmd.TheVariants as words;
ghost use Rattle.ot_log_nodes.specs.Items.{HasName, HasTerm, name_at, term_at};
ghost use Rattle.ot_log_nodes.specs.Typing.{AreTypings};
ghost use Rattle.ot_log_rules.specs.Statements.{sequent_at, HasStatement};
ghost use Rattle.ot_log_rules.specs.Definitions.{HasPairs, names_at, pairs_at};
ghost use Rattle.ot_log_rules.specs.Limits.{AreWellTyped};
ghost use Rattle.ot_log_page.specs.declared.operand.Operand.TheVariants as operand;
ghost use Rattle.ot_machine.specs.Objects.{list, name, term, theorem, Objects};
ghost use Rattle.ot_machine.specs.Places.{as_each, as_name};
ghost use Rattle.ot_machine.specs.DefinitionLists.{pairs_of};
ghost use Rattle.ot_log_words.specs.Recording.{AcceptsDefinition, Defined};
ghost use Rattle.ot_log_words.specs.Listing.{constant_operands};

use ot_log_format::RecordWord;
use ot_log_nodes::{NameId, Nodes, TermId, Typings, VariableNode};
use ot_log_page::{Operand, Sheet};
use ot_log_rules::{Signature, Statement, StepFault, constant, constants, type_operator};
use ot_logic::Memory;
use std::alloc::Global;

/// A constant for a term.
pub fn write_constant(
    sheet: &mut Sheet,
    nodes: &mut Nodes,
    typings: &mut Typings,
    n: NameId,
    t: TermId,
) -> Result<Vec<Statement>, StepFault>
    requires n { HasName nodes.old n }
    requires t { HasTerm nodes.old t }
    requires known { AreTypings nodes.old typings.old.known.entries }
    ensures defined { IfOk result (λ v. Defined nodes.old nodes.new sheet.old sheet.new words.DefineConst
        (name (name_at nodes.old n) ∷ term (term_at nodes.old t) ∷ []) [] v.items) }
    ensures accepts { IsWellTyped names (term_at nodes.old t)
        → AcceptsDefinition result words.DefineConst (name (name_at nodes.old n) ∷ term (term_at nodes.old t) ∷ []) }
    ensures extends { Extends nodes.old nodes.new }
    ensures known { AreTypings nodes.new typings.new.known.entries }
{
    let operands = [Operand::Name(n), Operand::Term(t)];
    sheet.write(nodes, RecordWord::Constant, &operands)?;
    let signature = Signature::new(nodes.allocator());
    let theorems = constant(nodes, typings, &signature, n, t)?;
    Ok(theorems)
}

/// Constants for the variables of the theorem `premise` with the number `i`.
pub fn write_constants(
    sheet: &mut Sheet,
    nodes: &mut Nodes,
    pairs: &[(NameId, VariableNode)],
    premise: &Statement,
    i: usize,
) -> Result<Vec<Statement>, StepFault>
    requires pairs { HasPairs nodes.old pairs.now }
    requires premise { HasStatement nodes.old premise.now }
    requires typed { AreWellTyped (sequent_at nodes.old premise.now) }
    ensures defined { (os : Objects) → pairs_of os ≡ Ok (pairs_at nodes.old pairs.now)
        → IfOk result (λ v. Defined nodes.old nodes.new sheet.old sheet.new words.DefineConstList
        (list os ∷ theorem (sequent_at nodes.old premise.now) ∷ []) (i ∷ []) v.items) }
    ensures accepts { (os : Objects) → pairs_of os ≡ Ok (pairs_at nodes.old pairs.now)
        → AcceptsDefinition result words.DefineConstList (list os ∷ theorem (sequent_at nodes.old premise.now) ∷ []) }
    ensures extends { Extends nodes.old nodes.new }
{
    let operands = constants_operands(nodes.allocator(), pairs, i)?;
    sheet.write(nodes, RecordWord::Constants, &operands)?;
    let signature = Signature::new(nodes.allocator());
    let theorems = constants(nodes, &signature, pairs, premise)?;
    Ok(theorems)
}

fn constants_operands(
    alloc: Global,
    pairs: &[(NameId, VariableNode)],
    i: usize,
) -> Result<Vec<Operand>, Memory>
    ensures { IfOk result (λ v. v.items
        ≡ operand.Count (length pairs.now) ∷ (flat_map constant_operands pairs.now ++ operand.Sequent i ∷ [])) }
{
    let mut operands = Vec::new(alloc);
    operands.push(Operand::Count(pairs.len()))?;
    for pair in pairs {
        operands.push(Operand::Name(pair.0))?;
        operands.push(Operand::Name(pair.1.name))?;
        operands.push(Operand::Type(pair.1.ty))?;
    }
    operands.push(Operand::Sequent(i))?;
    Ok(operands)
}

/// A type operator over variables, from the theorem `premise` with the number `i`.
pub fn write_type_operator(
    sheet: &mut Sheet,
    nodes: &mut Nodes,
    typings: &mut Typings,
    n: NameId,
    abs: NameId,
    rep: NameId,
    vars: &[NameId],
    premise: &Statement,
    i: usize,
) -> Result<Vec<Statement>, StepFault>
    requires n { HasName nodes.old n }
    requires abs { HasName nodes.old abs }
    requires rep { HasName nodes.old rep }
    requires vars { All (HasName nodes.old) vars.now }
    requires premise { HasStatement nodes.old premise.now }
    requires typed { AreWellTyped (sequent_at nodes.old premise.now) }
    requires known { AreTypings nodes.old typings.old.known.entries }
    ensures defined { (os : Objects) → as_each as_name os ≡ Ok (names_at nodes.old vars.now)
        → IfOk result (λ v. Defined nodes.old nodes.new sheet.old sheet.new words.DefineTypeOp
        (name (name_at nodes.old n) ∷ name (name_at nodes.old abs) ∷ name (name_at nodes.old rep) ∷ list os
        ∷ theorem (sequent_at nodes.old premise.now) ∷ []) (i ∷ []) v.items) }
    ensures accepts { (os : Objects) → as_each as_name os ≡ Ok (names_at nodes.old vars.now)
        → AcceptsDefinition result words.DefineTypeOp
        (name (name_at nodes.old n) ∷ name (name_at nodes.old abs) ∷ name (name_at nodes.old rep) ∷ list os
        ∷ theorem (sequent_at nodes.old premise.now) ∷ []) }
    ensures extends { Extends nodes.old nodes.new }
    ensures known { AreTypings nodes.new typings.new.known.entries }
{
    let operands = type_operator_operands(nodes.allocator(), n, abs, rep, vars, i)?;
    sheet.write(nodes, RecordWord::TypeOperator, &operands)?;
    let signature = Signature::new(nodes.allocator());
    let theorems = type_operator(nodes, typings, &signature, n, abs, rep, vars, premise)?;
    Ok(theorems)
}

fn type_operator_operands(
    alloc: Global,
    n: NameId,
    abs: NameId,
    rep: NameId,
    vars: &[NameId],
    i: usize,
) -> Result<Vec<Operand>, Memory>
    ensures { IfOk result (λ v. v.items ≡ operand.Name n ∷ operand.Name abs ∷ operand.Name rep
        ∷ operand.Count (length vars.now) ∷ (map operand.Name vars.now ++ operand.Sequent i ∷ [])) }
{
    let mut operands = Vec::new(alloc);
    operands.push(Operand::Name(n))?;
    operands.push(Operand::Name(abs))?;
    operands.push(Operand::Name(rep))?;
    operands.push(Operand::Count(vars.len()))?;
    for var in vars {
        operands.push(Operand::Name(*var))?;
    }
    operands.push(Operand::Sequent(i))?;
    Ok(operands)
}
