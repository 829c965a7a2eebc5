//! The records of the words that make theorems and take lists.
ghost use Rattle.std.specs.Prelude.{◌≡◌, ◌++◌, [], ◌∷◌, Ok, IfOk, OnOk, length, map};
ghost use Rattle.std.specs.List.{All, flat_map};
ghost use Rattle.ot_logic.specs.Table.{Extends};
ghost use Rattle.ot_logic.specs.declared.command.Cmd.TheVariants as words;
ghost use Rattle.ot_log_nodes.specs.Items.{HasTerm, term_at};
ghost use Rattle.ot_log_nodes.specs.Changing.{HasTypes, HasTerms, type_map, term_map};
ghost use Rattle.ot_log_nodes.specs.Typing.{AreTypings};
ghost use Rattle.ot_log_rules.specs.Statements.{terms_at, sequent_at, HasStatement};
ghost use Rattle.ot_log_page.specs.declared.operand.Operand.TheVariants as operand;
ghost use Rattle.ot_machine.specs.Objects.{list, term, theorem, Objects};
ghost use Rattle.ot_machine.specs.Places.{as_each, as_term};
ghost use Rattle.ot_machine.specs.Substitutions.{maps_of};
ghost use Rattle.ot_log_words.specs.Recording.{Accepts, Records};
ghost use Rattle.ot_log_words.specs.Listing.{type_operands, term_operands};

use crate::words::Made;
use ot_log_format::RecordWord;
use ot_log_nodes::{NameId, Nodes, TermId, TypeId, Typings, VariableNode};
use ot_log_order::sorted_by_text;
use ot_log_page::{Operand, Sheet};
use ot_log_rules::{Statement, StepFault, assumption, subst};
use ot_logic::Memory;
use std::alloc::Global;

/// An assumption: its hypotheses stand in the order of their texts, each once.
pub fn write_axiom(
    alloc: Global,
    sheet: &mut Sheet,
    nodes: &mut Nodes,
    typings: &mut Typings,
    hyps: &[TermId],
    concl: TermId,
) -> Result<Made, StepFault>
    requires hyps { All (HasTerm nodes.old) hyps.now }
    requires concl { HasTerm nodes.old concl }
    requires known { AreTypings nodes.old typings.old.known.entries }
    ensures records { (os : Objects) → as_each as_term os ≡ Ok (terms_at nodes.old hyps.now)
        → IfOk result
        (Records nodes.old nodes.new sheet.old sheet.new words.Axiom (list os ∷ term (term_at nodes.old concl) ∷ [])
        []) }
    ensures accepts { (os : Objects) → as_each as_term os ≡ Ok (terms_at nodes.old hyps.now)
        → Accepts result words.Axiom (list os ∷ term (term_at nodes.old concl) ∷ []) }
    ensures extends { Extends nodes.old nodes.new }
    ensures known { AreTypings nodes.new typings.new.known.entries }
{
    let sorted = sorted_by_text(nodes, hyps)?;
    let operands = assumption_operands(alloc, &sorted, concl)?;
    let number = sheet.write_sequent(nodes, RecordWord::Assumption, &operands)?;
    let statement = assumption(nodes, typings, hyps, concl)?;
    Ok(Made { statement, number })
}

fn assumption_operands(
    alloc: Global,
    hyps: &[TermId],
    concl: TermId,
) -> Result<Vec<Operand>, Memory>
    ensures { IfOk result (λ v. v.items ≡ operand.Term concl ∷ operand.Count (length hyps.now)
        ∷ map operand.Term hyps.now) }
{
    let mut operands = Vec::new(alloc);
    operands.push(Operand::Term(concl))?;
    operands.push(Operand::Count(hyps.len()))?;
    for hyp in hyps {
        operands.push(Operand::Term(*hyp))?;
    }
    Ok(operands)
}

/// Types for names and terms for variables, put into the theorem with the number `i`.
pub fn write_subst(
    alloc: Global,
    sheet: &mut Sheet,
    nodes: &mut Nodes,
    typings: &mut Typings,
    types: &[(NameId, TypeId)],
    terms: &[(VariableNode, TermId)],
    a: &Statement,
    i: usize,
) -> Result<Made, StepFault>
    requires types { HasTypes nodes.old types.now }
    requires terms { HasTerms nodes.old terms.now }
    requires a { HasStatement nodes.old a.now }
    requires known { AreTypings nodes.old typings.old.known.entries }
    ensures records { (os : Objects) → maps_of os ≡ Ok (type_map nodes.old types.now, term_map nodes.old terms.now)
        → IfOk result (Records nodes.old nodes.new sheet.old sheet.new words.Subst
        (list os ∷ theorem (sequent_at nodes.old a.now) ∷ []) (i ∷ [])) }
    ensures accepts { (os : Objects) → maps_of os ≡ Ok (type_map nodes.old types.now, term_map nodes.old terms.now)
        → Accepts result words.Subst (list os ∷ theorem (sequent_at nodes.old a.now) ∷ []) }
    ensures extends { Extends nodes.old nodes.new }
    ensures known { AreTypings nodes.new typings.new.known.entries }
{
    let operands = subst_operands(alloc, types, terms, i)?;
    let number = sheet.write_sequent(nodes, RecordWord::Subst, &operands)?;
    let statement = subst(nodes, typings, types, terms, a)?;
    Ok(Made { statement, number })
}

fn subst_operands(
    alloc: Global,
    types: &[(NameId, TypeId)],
    terms: &[(VariableNode, TermId)],
    i: usize,
) -> Result<Vec<Operand>, Memory>
    ensures { IfOk result (λ v. v.items ≡ operand.Sequent i ∷ operand.Count (length types.now)
        ∷ (flat_map type_operands types.now ++ operand.Count (length terms.now) ∷ flat_map term_operands terms.now)) }
{
    let mut operands = Vec::new(alloc);
    operands.push(Operand::Sequent(i))?;
    operands.push(Operand::Count(types.len()))?;
    push_types(&mut operands, types)?;
    operands.push(Operand::Count(terms.len()))?;
    push_terms(&mut operands, terms)?;
    Ok(operands)
}

fn push_types(operands: &mut Vec<Operand>, pairs: &[(NameId, TypeId)]) -> Result<(), Memory>
    ensures { OnOk result (operands.new.items ≡ operands.old.items ++ flat_map type_operands pairs.now) }
{
    for pair in pairs {
        operands.push(Operand::Name(pair.0))?;
        operands.push(Operand::Type(pair.1))?;
    }
    Ok(())
}

fn push_terms(operands: &mut Vec<Operand>, pairs: &[(VariableNode, TermId)]) -> Result<(), Memory>
    ensures { OnOk result (operands.new.items ≡ operands.old.items ++ flat_map term_operands pairs.now) }
{
    for pair in pairs {
        operands.push(Operand::Name(pair.0.name))?;
        operands.push(Operand::Type(pair.0.ty))?;
        operands.push(Operand::Term(pair.1))?;
    }
    Ok(())
}
