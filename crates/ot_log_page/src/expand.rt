//! The records of the words that stand for several.
ghost use Rattle.std.specs.Prelude.{[], ◌∷◌, IfOk};
ghost use Rattle.ot_logic.specs.Table.{Extends};
ghost use Rattle.ot_log_nodes.specs.Items.{HasType, HasTerm, IsTerm, type_at, term_at};
ghost use Rattle.ot_log_rules.specs.Shapes.{HasSides};
ghost use Rattle.ot_log_records.specs.Expansions.{of_term, of_two, equals_at, sym_entries};
ghost use Rattle.ot_log_records.specs.Expansions.{trans_entries, prove_hyp_entries};
ghost use Rattle.ot_log_page.specs.Sheets.{Adds};

use crate::operand::Operand;
use crate::sheet::Sheet;
use ot_log_format::RecordWord;
use ot_log_nodes::{NameId, Nodes, TermId, TypeId};
use ot_log_rules::Sides;
use ot_logic::Memory;

/// A record that names a term alone. The answer is the number of its sequent.
pub fn write_of_term(
    sheet: &mut Sheet,
    nodes: &Nodes,
    word: RecordWord,
    term: TermId,
) -> Result<usize, Memory>
    requires term { HasTerm nodes.now term }
    ensures adds { IfOk result
        (Adds nodes.now nodes.now sheet.old sheet.new (λ x. of_term word (term_at nodes.now term) ∷ [])) }
{
    sheet.write_sequent(nodes, word, &[Operand::Term(term)])
}

/// A record that names two theorems. The answer is the number of its sequent.
pub fn write_of_two(
    sheet: &mut Sheet,
    nodes: &Nodes,
    word: RecordWord,
    first: usize,
    second: usize,
) -> Result<usize, Memory>
    ensures adds { IfOk result (Adds nodes.now nodes.now sheet.old sheet.new (λ x. of_two word first second ∷ [])) }
{
    sheet.write_sequent(
        nodes,
        word,
        &[Operand::Sequent(first), Operand::Sequent(second)],
    )
}

/// The constant `=` at a type.
fn equals_at(nodes: &mut Nodes, ty: TypeId) -> Result<TermId, Memory>
    requires { HasType nodes.old ty }
    ensures ok { IfOk result (λ id. IsTerm nodes.new id (equals_at (type_at nodes.old ty))) }
    ensures extends { Extends nodes.old nodes.new }
{
    nodes.primitives();
    let boolean = nodes.boolean()?;
    let predicate = nodes.fun(ty, boolean)?;
    let relation = nodes.fun(ty, predicate)?;
    nodes.constant(NameId::EQUALS, relation)
}

/// The records of `sym` for a theorem with these sides. The answer is the number of the last one's sequent.
pub fn write_sym(
    sheet: &mut Sheet,
    nodes: &mut Nodes,
    sides: Sides,
    theorem: usize,
) -> Result<usize, Memory>
    requires sides { HasSides nodes.old sides }
    ensures adds { IfOk result (Adds nodes.old nodes.new sheet.old sheet.new
        (λ x. sym_entries x.sequents (type_at nodes.old sides.ty) (term_at nodes.old sides.left) theorem)) }
    ensures extends { Extends nodes.old nodes.new }
{
    let equals = equals_at(nodes, sides.ty)?;
    let same = write_of_term(sheet, nodes, RecordWord::Refl, equals)?;
    let half = write_of_two(sheet, nodes, RecordWord::AppThm, same, theorem)?;
    let left = write_of_term(sheet, nodes, RecordWord::Refl, sides.left)?;
    let both = write_of_two(sheet, nodes, RecordWord::AppThm, half, left)?;
    let number = write_of_two(sheet, nodes, RecordWord::EqMp, both, left)?;
    Ok(number)
}

/// The records of `trans` for a first theorem with these sides, and a second. The answer is the number of the last
/// one's sequent.
pub fn write_trans(
    sheet: &mut Sheet,
    nodes: &mut Nodes,
    sides: Sides,
    first: usize,
    second: usize,
) -> Result<usize, Memory>
    requires sides { HasSides nodes.old sides }
    ensures adds { IfOk result (Adds nodes.old nodes.new sheet.old sheet.new
        (λ x. trans_entries x.sequents (type_at nodes.old sides.ty) (term_at nodes.old sides.left) first second)) }
    ensures extends { Extends nodes.old nodes.new }
{
    let equals = equals_at(nodes, sides.ty)?;
    let half = nodes.app(equals, sides.left)?;
    let same = write_of_term(sheet, nodes, RecordWord::Refl, half)?;
    let both = write_of_two(sheet, nodes, RecordWord::AppThm, same, second)?;
    let number = write_of_two(sheet, nodes, RecordWord::EqMp, both, first)?;
    Ok(number)
}

/// The records of `proveHyp` for a lemma and another theorem. The answer is the number of the last one's sequent.
pub fn write_prove_hyp(
    sheet: &mut Sheet,
    nodes: &Nodes,
    lemma: usize,
    other: usize,
) -> Result<usize, Memory>
    ensures adds { IfOk result
        (Adds nodes.now nodes.now sheet.old sheet.new (λ x. prove_hyp_entries x.sequents lemma other)) }
{
    let equal = write_of_two(sheet, nodes, RecordWord::DeductAntisym, lemma, other)?;
    let number = write_of_two(sheet, nodes, RecordWord::EqMp, equal, lemma)?;
    Ok(number)
}
