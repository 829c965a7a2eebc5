//! Type operators with the theorems that articles of version 5 have: with variables in the place
//! of binders.
ghost use Rattle.std.specs.Prelude.{◌≡◌, ◌<◌, true, map, length, ◌∷◌, IfOk, IfErr};
ghost use Rattle.std.specs.List.{All, list_all};
ghost use Rattle.ot_logic.specs.Trees.{TyOp, Free, App};
ghost use Rattle.ot_logic.specs.Hol.{fun_ty, bool_ty, HasType, IsClosed, equation, sequent_of as stated};
ghost use Rattle.ot_logic.specs.Hol.{tys_of_vars, type_theorems, theorems_at, is_shallow_sequent};
ghost use Rattle.ot_logic.specs.Naming.{names as name_alphabet, numbers};
ghost use Rattle.ot_logic.specs.Rules.{within_limit};
ghost use Rattle.ot_type.specs.TypeTable.{type_at};
ghost use Rattle.ot_term.specs.TermTable.{variable_of, IsGrownTo};
ghost use Rattle.ot_kernel.specs.State.{name_at, theorem_at, Keeps};
ghost use Rattle.ot_kernel.specs.Numbered.{tm_at, Derives, IsGrownBy};
ghost use Rattle.ot_kernel.specs.Proved.{bound_of_names, trip, TurnsBack, IsPremise, DerivesOpen};
ghost use Rattle.ot_kernel.specs.Answers.{IsSymbolIn};
ghost use Rattle.ot_kernel.specs.Opening.{var_r, open_theorems, open_theorems_at, beta_over};
ghost use Rattle.ot_kernel.specs.Opening.{beta_at, open_type_definition, DefinesOpenType};

use crate::defining::{beta_theorem, constant_between, new_type, round_trip};
use crate::equations::{apply, equate};
use crate::fault::RuleFault;
use crate::kernel::Kernel;
use crate::theorem::{Hypotheses, Theorem, ThmId};
use crate::type_operators::{listed, operator_theorems, parts};
use ot_logic::NameId;
use ot_term::{TermId, Terms, VarKey};
use ot_type::TypeId;
use std::alloc::Global;

/// The theorems of a type operator, and the two that follow for variables in the place of their
/// binders.
#[derive(Clone, Copy)]
pub struct Type5 {
    /// The first theorem: abs (rep a) is a.
    pub abs_th: ThmId,
    /// The second: p r holds just where rep (abs r) is r.
    pub rep_th: ThmId,
    /// abs (rep a) = a, for a variable `a`.
    pub abs_open: ThmId,
    /// p r = (rep (abs r) = r), for a variable `r`.
    pub rep_open: ThmId,
}

impl Kernel {
    /// As `define_type`, and with it the theorems that follow for a variable `a` of the new type
    /// and a variable `r` of the old one.
    ///
    /// The first refusal counts: `HypothesesPresent`, `NotApplication`, `BadTypeVars`, `Primitive`,
    /// `AlreadyDefined`, `SymbolInUse`, `NotClosed`, `Nesting`, which comes too where
    /// (\r. p r) r = p r would pass the limit.
    pub fn define_type_5(
        &mut self,
        name: NameId,
        abs: NameId,
        rep: NameId,
        vars: &[NameId],
        th: ThmId,
    ) -> Result<Type5, RuleFault>
        requires name { name < length self.old.names }
        requires abs { abs < length self.old.names }
        requires rep { rep < length self.old.names }
        requires vars { All (λ n. n < length self.old.names) vars.now }
        requires th { th < length self.old.theorems }
        ensures defines { DefinesOpenType result
            (open_type_definition name_alphabet var_r self.old.definitions (name_at self.old name)
            (name_at self.old abs) (name_at self.old rep) (map (name_at self.old) vars.now) (theorem_at self.old th))
            self.old self.new }
        ensures within { IfOk result (λ ids. (ids.abs_th < length self.new.theorems)
            × (ids.rep_th < length self.new.theorems) × (ids.abs_open < length self.new.theorems)
            × (ids.rep_open < length self.new.theorems)) }
        ensures symbols { IfErr result (IsSymbolIn (length self.new.names)) }
        ensures keeps { Keeps self.old self.new }
    {
        self.check_operator(name, abs, rep, vars, th)?;
        let count = self.theorems.len();
        let concl = self.concl(th);
        let theorems = operator_theorems(self.alloc, &mut self.terms, name, abs, rep, vars, concl)?;
        let open = operator_open(self.alloc, &mut self.terms, name, abs, rep, vars, concl)?;
        let further = listed(self.alloc, open)?;
        let numbers = self.accept_operator(name, abs, rep, vars, th, theorems, further)?;
        Ok(Type5 {
            abs_th: numbers.0,
            rep_th: numbers.1,
            abs_open: ThmId(count + 2),
            rep_open: ThmId(count + 3),
        })
    }
}

/// The open theorems of a type operator from a premise p t, over the tables, where its theorems are
/// within the limit.
fn operator_open(
    alloc: Global,
    terms: &mut Terms,
    op: NameId,
    abs: NameId,
    rep: NameId,
    vars: &[NameId],
    premise: TermId,
) -> Result<(Theorem, Theorem), RuleFault>
    requires inside { premise < length terms.old.terms }
    requires premise { IsPremise numbers (tm_at terms.old.terms premise) }
    requires limit { list_all (is_shallow_sequent numbers)
        (theorems_at numbers op abs rep vars.now (tm_at terms.old.terms premise)) ≡ true }
    ensures derives { DerivesOpen result (beta_at numbers 4 (tm_at terms.old.terms premise))
        (open_theorems_at numbers 3 4 op abs rep vars.now (tm_at terms.old.terms premise)) terms.new.terms }
    ensures grown { IsGrownTo (bound_of_names (4 ∷ op ∷ abs ∷ rep ∷ vars.now)) terms.old terms.new }
{
    let (p, u) = parts(terms, premise);
    open_theorems(alloc, terms, op, abs, rep, vars, p, u)
}

/// The open theorems of a type over type variables, where its theorems are within the limit.
fn open_theorems(
    alloc: Global,
    terms: &mut Terms,
    op: NameId,
    abs: NameId,
    rep: NameId,
    vars: &[NameId],
    p: TermId,
    u: TypeId,
) -> Result<(Theorem, Theorem), RuleFault>
    requires p { p < length terms.old.terms }
    requires u { u < length terms.old.types }
    requires typed { HasType numbers (tm_at terms.old.terms p) (fun_ty numbers (type_at terms.old.types u) (bool_ty numbers)) }
    requires closed { IsClosed numbers (tm_at terms.old.terms p) }
    requires limit { list_all (is_shallow_sequent numbers) (type_theorems numbers (TyOp op (tys_of_vars numbers vars.now))
        (type_at terms.old.types u) abs rep (tm_at terms.old.terms p)) ≡ true }
    ensures derives { DerivesOpen result
        (beta_over numbers (record { name = 4; ty = type_at terms.old.types u }) (tm_at terms.old.terms p))
        (open_theorems numbers 3 4 (TyOp op (tys_of_vars numbers vars.now)) (type_at terms.old.types u) abs rep
        (tm_at terms.old.terms p)) terms.new.terms }
    ensures grown { IsGrownTo (bound_of_names (4 ∷ op ∷ abs ∷ rep ∷ vars.now)) terms.old terms.new }
{
    let ty = new_type(alloc, terms, op, vars)?;
    let abs = constant_between(terms, abs, u, ty)?;
    let rep = constant_between(terms, rep, ty, u)?;
    let a = VarKey {
        name: NameId::A,
        ty,
    };
    let r = VarKey {
        name: NameId::R,
        ty: u,
    };
    // Once `p` is four levels deep, no term on the way to the two is deeper than its conclusion.
    let _deepest = beta_theorem(terms, &r, p)?;
    let first = open_abs_theorem(terms, &a, abs, rep)?;
    let second = open_rep_theorem(terms, &r, abs, rep, p)?;
    Ok((first, second))
}

/// |- abs (rep v) = v.
fn open_abs_theorem(
    terms: &mut Terms,
    v: &VarKey,
    abs: TermId,
    rep: TermId,
) -> Result<Theorem, RuleFault>
    requires ty { v.now.ty < length terms.old.types }
    requires abs { abs < length terms.old.terms }
    requires rep { rep < length terms.old.terms }
    requires typed { TurnsBack (type_at terms.old.types v.now.ty) (tm_at terms.old.terms rep) (tm_at terms.old.terms abs) }
    ensures derives { Derives result (within_limit numbers (stated numbers (equation numbers (type_at terms.old.types v.now.ty)
        (trip (tm_at terms.old.terms rep) (tm_at terms.old.terms abs) (variable_of terms.old.types v.now))
        (Free (variable_of terms.old.types v.now))))) terms.new.terms }
    ensures grown { IsGrownBy v.now.name terms.old terms.new }
{
    let (x, image) = round_trip(terms, v, rep, abs)?;
    let concl = equate(terms, image, x)?;
    Ok(Theorem {
        hyps: Hypotheses::none(),
        concl,
    })
}

/// |- p v = (rep (abs v) = v).
fn open_rep_theorem(
    terms: &mut Terms,
    v: &VarKey,
    abs: TermId,
    rep: TermId,
    p: TermId,
) -> Result<Theorem, RuleFault>
    requires ty { v.now.ty < length terms.old.types }
    requires abs { abs < length terms.old.terms }
    requires rep { rep < length terms.old.terms }
    requires p { p < length terms.old.terms }
    requires typed { TurnsBack (type_at terms.old.types v.now.ty) (tm_at terms.old.terms abs) (tm_at terms.old.terms rep) }
    requires predicate { HasType numbers (tm_at terms.old.terms p)
        (fun_ty numbers (type_at terms.old.types v.now.ty) (bool_ty numbers)) }
    ensures derives { Derives result (within_limit numbers
        (stated numbers (equation numbers (bool_ty numbers)
        (App (tm_at terms.old.terms p) (Free (variable_of terms.old.types v.now)))
        (equation numbers (type_at terms.old.types v.now.ty)
        (trip (tm_at terms.old.terms abs) (tm_at terms.old.terms rep) (variable_of terms.old.types v.now))
        (Free (variable_of terms.old.types v.now)))))) terms.new.terms }
    ensures grown { IsGrownBy v.now.name terms.old terms.new }
{
    let (x, image) = round_trip(terms, v, abs, rep)?;
    let same = equate(terms, image, x)?;
    let holds = apply(terms, p, x)?;
    let concl = equate(terms, holds, same)?;
    Ok(Theorem {
        hyps: Hypotheses::none(),
        concl,
    })
}
