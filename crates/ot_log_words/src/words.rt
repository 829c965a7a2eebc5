//! The records of the words that make theorems, each with its sequent.
ghost use Rattle.std.specs.Prelude.{◌≡◌, [], ◌∷◌, Some, Ok, IfOk};
ghost use Rattle.ot_logic.specs.Naming.{names};
ghost use Rattle.ot_logic.specs.Hol.{IsWellTyped};
ghost use Rattle.ot_logic.specs.Table.{Extends};
ghost use Rattle.ot_logic.specs.declared.command.Cmd.TheVariants as words;
ghost use Rattle.ot_log_nodes.specs.Items.{HasTerm, term_at};
ghost use Rattle.ot_log_nodes.specs.Changing.{HasVariable, HasTypes, HasTerms, variable_at, type_map, term_map};
ghost use Rattle.ot_log_nodes.specs.Typing.{AreTypings};
ghost use Rattle.ot_log_rules.specs.Statements.{terms_at, sequent_at, HasStatement};
ghost use Rattle.ot_log_rules.specs.Shapes.{HasSides};
ghost use Rattle.ot_log_page.specs.Sheets.{Adds};
ghost use Rattle.ot_log_records.specs.Expansions.{trans_of};
ghost use Rattle.ot_machine.specs.Objects.{list, variable, term, theorem};
ghost use Rattle.ot_machine.specs.Makers.{maker};
ghost use Rattle.ot_machine.specs.Values.{applied};
ghost use Rattle.ot_log_words.specs.Recording.{Accepts, HasResult, IsNotRefused, Records, sides_at};

use ot_log_format::RecordWord;
use ot_log_nodes::{Nodes, TermId, Typings, VariableNode};
use ot_log_page::{
    Operand, Sheet, is_lower_lemma, prove_hyp, sym, trans, write_of_term, write_of_two,
    write_prove_hyp, write_sym, write_trans,
};
use ot_log_rules::{
    Sides, Statement, StepFault, abs_thm, app_thm, as_equation, assume, beta_conv, deduct_antisym,
    eq_mp, refl,
};
use ot_logic::{Cmd, Memory};

/// A theorem that was written: its sequent, with its number in the log.
#[derive(Drop)]
pub struct Made {
    pub statement: Statement,
    pub number: usize,
}

fn write_refl(
    sheet: &mut Sheet,
    nodes: &mut Nodes,
    typings: &mut Typings,
    t: TermId,
) -> Result<Made, StepFault>
    requires t { HasTerm nodes.old t }
    requires known { AreTypings nodes.old typings.old.known.entries }
    ensures records { IfOk result (Records nodes.old nodes.new sheet.old sheet.new words.Refl
        (term (term_at nodes.old t) ∷ []) []) }
    ensures accepts { IsWellTyped names (term_at nodes.old t) → Accepts result words.Refl (term (term_at nodes.old t) ∷ []) }
    ensures extends { Extends nodes.old nodes.new }
    ensures known { AreTypings nodes.new typings.new.known.entries }
{
    let number = write_of_term(sheet, nodes, RecordWord::Refl, t)?;
    let statement = refl(nodes, typings, t)?;
    Ok(Made { statement, number })
}

fn write_assume(
    sheet: &mut Sheet,
    nodes: &mut Nodes,
    typings: &mut Typings,
    p: TermId,
) -> Result<Made, StepFault>
    requires p { HasTerm nodes.old p }
    requires known { AreTypings nodes.old typings.old.known.entries }
    ensures records { IfOk result (Records nodes.old nodes.new sheet.old sheet.new words.Assume
        (term (term_at nodes.old p) ∷ []) []) }
    ensures accepts { Accepts result words.Assume (term (term_at nodes.old p) ∷ []) }
    ensures extends { Extends nodes.old nodes.new }
    ensures known { AreTypings nodes.new typings.new.known.entries }
{
    let number = write_of_term(sheet, nodes, RecordWord::Assume, p)?;
    let statement = assume(nodes, typings, p)?;
    Ok(Made { statement, number })
}

fn write_beta_conv(
    sheet: &mut Sheet,
    nodes: &mut Nodes,
    typings: &mut Typings,
    t: TermId,
) -> Result<Made, StepFault>
    requires t { HasTerm nodes.old t }
    requires known { AreTypings nodes.old typings.old.known.entries }
    ensures records { IfOk result (Records nodes.old nodes.new sheet.old sheet.new words.BetaConv
        (term (term_at nodes.old t) ∷ []) []) }
    ensures accepts { IsWellTyped names (term_at nodes.old t)
        → Accepts result words.BetaConv (term (term_at nodes.old t) ∷ []) }
    ensures extends { Extends nodes.old nodes.new }
    ensures known { AreTypings nodes.new typings.new.known.entries }
{
    let number = write_of_term(sheet, nodes, RecordWord::BetaConv, t)?;
    let statement = beta_conv(nodes, typings, t)?;
    Ok(Made { statement, number })
}

/// Of a theorem with the number `i`.
pub fn write_symmetric(
    sheet: &mut Sheet,
    nodes: &mut Nodes,
    a: &Statement,
    i: usize,
) -> Result<Made, StepFault>
    requires a { HasStatement nodes.old a.now }
    requires value { HasResult (applied (maker words.Sym) (theorem (sequent_at nodes.old a.now) ∷ [])) }
    ensures records { IfOk result (Records nodes.old nodes.new sheet.old sheet.new words.Sym
        (theorem (sequent_at nodes.old a.now) ∷ []) (i ∷ [])) }
    ensures accepts { IsNotRefused result }
    ensures extends { Extends nodes.old nodes.new }
{
    let Some(sides) = as_equation(nodes, a.concl) else {
        unreachable!();
    };
    let number = write_sym(sheet, nodes, sides, i)?;
    let statement = sym(nodes, a)?;
    Ok(Made { statement, number })
}

fn write_eq_mp(
    sheet: &mut Sheet,
    nodes: &Nodes,
    a: &Statement,
    i: usize,
    b: &Statement,
    j: usize,
) -> Result<Made, StepFault>
    requires a { HasStatement nodes.now a.now }
    requires b { HasStatement nodes.now b.now }
    ensures records { IfOk result (Records nodes.now nodes.now sheet.old sheet.new words.EqMp
        (theorem (sequent_at nodes.now a.now) ∷ theorem (sequent_at nodes.now b.now) ∷ []) (i ∷ j ∷ [])) }
    ensures accepts { Accepts result words.EqMp (theorem (sequent_at nodes.now a.now) ∷ theorem (sequent_at nodes.now b.now)
        ∷ []) }
{
    let number = write_of_two(sheet, nodes, RecordWord::EqMp, i, j)?;
    let statement = eq_mp(nodes, a, b)?;
    Ok(Made { statement, number })
}

fn write_app_thm(
    sheet: &mut Sheet,
    nodes: &mut Nodes,
    a: &Statement,
    i: usize,
    b: &Statement,
    j: usize,
) -> Result<Made, StepFault>
    requires a { HasStatement nodes.old a.now }
    requires b { HasStatement nodes.old b.now }
    ensures records { IfOk result (Records nodes.old nodes.new sheet.old sheet.new words.AppThm
        (theorem (sequent_at nodes.old a.now) ∷ theorem (sequent_at nodes.old b.now) ∷ []) (i ∷ j ∷ [])) }
    ensures accepts { Accepts result words.AppThm
        (theorem (sequent_at nodes.old a.now) ∷ theorem (sequent_at nodes.old b.now) ∷ []) }
    ensures extends { Extends nodes.old nodes.new }
{
    let number = write_of_two(sheet, nodes, RecordWord::AppThm, i, j)?;
    let statement = app_thm(nodes, a, b)?;
    Ok(Made { statement, number })
}

fn write_deduct_antisym(
    sheet: &mut Sheet,
    nodes: &mut Nodes,
    a: &Statement,
    i: usize,
    b: &Statement,
    j: usize,
) -> Result<Made, StepFault>
    requires a { HasStatement nodes.old a.now }
    requires b { HasStatement nodes.old b.now }
    ensures records { IfOk result (Records nodes.old nodes.new sheet.old sheet.new words.DeductAntisym
        (theorem (sequent_at nodes.old a.now) ∷ theorem (sequent_at nodes.old b.now) ∷ []) (i ∷ j ∷ [])) }
    ensures accepts { IsNotRefused result }
    ensures extends { Extends nodes.old nodes.new }
{
    let number = write_of_two(sheet, nodes, RecordWord::DeductAntisym, i, j)?;
    let statement = deduct_antisym(nodes, a, b)?;
    Ok(Made { statement, number })
}

/// Of equations with a side in common: first comes the theorem whose right side is the other one's left side.
fn write_transitive(
    sheet: &mut Sheet,
    nodes: &mut Nodes,
    a: &Statement,
    i: usize,
    b: &Statement,
    j: usize,
) -> Result<Made, StepFault>
    requires a { HasStatement nodes.old a.now }
    requires b { HasStatement nodes.old b.now }
    requires value { HasResult (applied (maker words.Trans)
        (theorem (sequent_at nodes.old a.now) ∷ theorem (sequent_at nodes.old b.now) ∷ [])) }
    ensures records { IfOk result (Records nodes.old nodes.new sheet.old sheet.new words.Trans
        (theorem (sequent_at nodes.old a.now) ∷ theorem (sequent_at nodes.old b.now) ∷ []) (i ∷ j ∷ [])) }
    ensures accepts { IsNotRefused result }
    ensures extends { Extends nodes.old nodes.new }
{
    let Some(e) = as_equation(nodes, a.concl) else {
        unreachable!();
    };
    let Some(f) = as_equation(nodes, b.concl) else {
        unreachable!();
    };
    let number = write_chain(sheet, nodes, e, i, f, j)?;
    let statement = trans(nodes, a, b)?;
    Ok(Made { statement, number })
}

/// Of two equations, with these numbers.
fn write_chain(
    sheet: &mut Sheet,
    nodes: &mut Nodes,
    e: Sides,
    i: usize,
    f: Sides,
    j: usize,
) -> Result<usize, Memory>
    requires e { HasSides nodes.old e }
    requires f { HasSides nodes.old f }
    ensures adds { IfOk result (Adds nodes.old nodes.new sheet.old sheet.new
        (λ x. trans_of x.sequents (Some (sides_at nodes.old e)) (Some (sides_at nodes.old f)) i j)) }
    ensures extends { Extends nodes.old nodes.new }
{
    nodes.primitives();
    if e.right == f.left {
        write_trans(sheet, nodes, e, i, j)
    } else {
        write_trans(sheet, nodes, f, j, i)
    }
}

/// The lemma comes first: the upper theorem, or the lower one where that alone fits.
fn write_proved(
    sheet: &mut Sheet,
    nodes: &Nodes,
    a: &Statement,
    i: usize,
    b: &Statement,
    j: usize,
) -> Result<Made, StepFault>
    requires a { HasStatement nodes.now a.now }
    requires b { HasStatement nodes.now b.now }
    ensures records { IfOk result (Records nodes.now nodes.now sheet.old sheet.new words.ProveHyp
        (theorem (sequent_at nodes.now a.now) ∷ theorem (sequent_at nodes.now b.now) ∷ []) (i ∷ j ∷ [])) }
    ensures accepts { IsNotRefused result }
{
    if is_lower_lemma(nodes, a, b) {
        let number = write_prove_hyp(sheet, nodes, i, j)?;
        let statement = prove_hyp(nodes, a, b)?;
        Ok(Made { statement, number })
    } else {
        let number = write_prove_hyp(sheet, nodes, j, i)?;
        let statement = prove_hyp(nodes, b, a)?;
        Ok(Made { statement, number })
    }
}

pub fn write_abs_thm(
    sheet: &mut Sheet,
    nodes: &mut Nodes,
    v: VariableNode,
    a: &Statement,
    i: usize,
) -> Result<Made, StepFault>
    requires v { HasVariable nodes.old v }
    requires a { HasStatement nodes.old a.now }
    ensures records { IfOk result (Records nodes.old nodes.new sheet.old sheet.new words.AbsThm
        (variable (variable_at nodes.old v) ∷ theorem (sequent_at nodes.old a.now) ∷ []) (i ∷ [])) }
    ensures accepts { Accepts result words.AbsThm
        (variable (variable_at nodes.old v) ∷ theorem (sequent_at nodes.old a.now) ∷ []) }
    ensures extends { Extends nodes.old nodes.new }
{
    let operands = [
        Operand::Name(v.name),
        Operand::Type(v.ty),
        Operand::Sequent(i),
    ];
    let number = sheet.write_sequent(nodes, RecordWord::AbsThm, &operands)?;
    let statement = abs_thm(nodes, v, a)?;
    Ok(Made { statement, number })
}

/// By a word that takes a term.
pub fn write_of_one_term(
    sheet: &mut Sheet,
    nodes: &mut Nodes,
    typings: &mut Typings,
    word: Cmd,
    t: TermId,
) -> Result<Made, StepFault>
    requires t { HasTerm nodes.old t }
    requires known { AreTypings nodes.old typings.old.known.entries }
    ensures records { IfOk result (Records nodes.old nodes.new sheet.old sheet.new word
        (term (term_at nodes.old t) ∷ []) []) }
    ensures accepts { IsWellTyped names (term_at nodes.old t) → Accepts result word (term (term_at nodes.old t) ∷ []) }
    ensures extends { Extends nodes.old nodes.new }
    ensures known { AreTypings nodes.new typings.new.known.entries }
{
    match word {
        Cmd::Refl => write_refl(sheet, nodes, typings, t),
        Cmd::Assume => write_assume(sheet, nodes, typings, t),
        Cmd::BetaConv => write_beta_conv(sheet, nodes, typings, t),
        _ => Err(StepFault::BadStep),
    }
}

/// By a word that takes two theorems, with the numbers `i` and `j`.
pub fn write_of_theorems(
    sheet: &mut Sheet,
    nodes: &mut Nodes,
    word: Cmd,
    a: &Statement,
    i: usize,
    b: &Statement,
    j: usize,
) -> Result<Made, StepFault>
    requires a { HasStatement nodes.old a.now }
    requires b { HasStatement nodes.old b.now }
    requires value { HasResult (applied (maker word)
        (theorem (sequent_at nodes.old a.now) ∷ theorem (sequent_at nodes.old b.now) ∷ [])) }
    ensures records { IfOk result (Records nodes.old nodes.new sheet.old sheet.new word
        (theorem (sequent_at nodes.old a.now) ∷ theorem (sequent_at nodes.old b.now) ∷ []) (i ∷ j ∷ [])) }
    ensures accepts { IsNotRefused result }
    ensures extends { Extends nodes.old nodes.new }
{
    match word {
        Cmd::EqMp => write_eq_mp(sheet, nodes, a, i, b, j),
        Cmd::AppThm => write_app_thm(sheet, nodes, a, i, b, j),
        Cmd::DeductAntisym => write_deduct_antisym(sheet, nodes, a, i, b, j),
        Cmd::Trans => write_transitive(sheet, nodes, a, i, b, j),
        Cmd::ProveHyp => write_proved(sheet, nodes, a, i, b, j),
        _ => unreachable!(),
    }
}
