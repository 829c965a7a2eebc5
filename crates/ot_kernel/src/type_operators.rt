//! Type operators: types that are taken from the elements of others.
ghost use Rattle.std.specs.Prelude.{◌≡◌, ◌<◌, ◌+◌, suc, ◌∷◌, ◌++◌, [], map, length, Ok, IfOk, IfErr, OnOk};
ghost use Rattle.std.specs.List.{All};
ghost use Rattle.ot_logic.specs.Trees.{TyDef};
ghost use Rattle.ot_logic.specs.Hol.{theorems, theorems_at, IsNext};
ghost use Rattle.ot_logic.specs.Naming.{names as name_alphabet, numbers};
ghost use Rattle.ot_laws.specs.Theorem.{IsTheorem};
ghost use Rattle.ot_term.specs.TermTable.{IsGrownTo};
ghost use Rattle.ot_laws.specs.Conditions.{checked_type};
ghost use Rattle.ot_kernel.specs.State.{name_at, theorem_at, Keeps};
ghost use Rattle.ot_kernel.specs.Spelled.{sequent_of, IsInside};
ghost use Rattle.ot_kernel.specs.Numbered.{tm_at};
ghost use Rattle.ot_kernel.specs.Accepting.{defining_more};
ghost use Rattle.ot_kernel.specs.Defining.{all_defined, all_used, type_definition};
ghost use Rattle.ot_kernel.specs.Proved.{bound_of_names, DerivesBoth, IsPremise, ArePartsOf};
ghost use Rattle.ot_kernel.specs.Answers.{RefusesBy, IsSymbolIn, DefinesType};
ghost use Rattle.ot_logic.specs.RanOut.{ran_out};

use crate::defining::type_theorems;
use crate::definition::Definition;
use crate::fault::RuleFault;
use crate::kernel::Kernel;
use crate::theorem::{Theorem, ThmId};
use ot_define::type_symbols;
use ot_logic::{Memory, NameId};
use ot_term::{TermId, TermNode, Terms};
use ot_type::TypeId;
use std::alloc::Global;

impl Kernel {
    /// The two theorems of a type operator over these type variables, which is taken from the elements of a type that
    /// fulfil p, by a theorem |- p t: `abs` and `rep` are the constants between the two types.
    ///
    /// The first refusal counts: `HypothesesPresent`, `NotApplication`, `BadTypeVars`, `Primitive`, `AlreadyDefined`,
    /// `SymbolInUse`, `NotClosed`, `Nesting`.
    pub fn define_type(
        &mut self,
        name: NameId,
        abs: NameId,
        rep: NameId,
        vars: &[NameId],
        th: ThmId,
    ) -> Result<(ThmId, ThmId), RuleFault>
        requires name { name < length self.old.names }
        requires abs { abs < length self.old.names }
        requires rep { rep < length self.old.names }
        requires vars { All (λ n. n < length self.old.names) vars.now }
        requires th { th < length self.old.theorems }
        ensures defines { DefinesType result
            (type_definition name_alphabet self.old.definitions (name_at self.old name) (name_at self.old abs)
            (name_at self.old rep) (map (name_at self.old) vars.now) (theorem_at self.old th)) self.old self.new }
        ensures within { IfOk result
            (λ ids. (ids.0 < length self.new.theorems) × (ids.1 < length self.new.theorems)) }
        ensures symbols { IfErr result (IsSymbolIn (length self.new.names)) }
        ensures keeps { Keeps self.old self.new }
    {
        self.check_operator(name, abs, rep, vars, th)?;
        let concl = self.concl(th);
        let theorems = operator_theorems(self.alloc, &mut self.terms, name, abs, rep, vars, concl)?;
        let further = Vec::new(self.alloc);
        self.accept_operator(name, abs, rep, vars, th, theorems, further)
    }

    /// Whether a type operator may be defined from a theorem.
    pub(crate) fn check_operator(
        &self,
        name: NameId,
        abs: NameId,
        rep: NameId,
        vars: &[NameId],
        th: ThmId,
    ) -> Result<(), RuleFault>
        requires name { name < length self.now.names }
        requires abs { abs < length self.now.names }
        requires rep { rep < length self.now.names }
        requires vars { All (λ n. n < length self.now.names) vars.now }
        requires th { th < length self.now.theorems }
        ensures passed { OnOk result (checked_type name_alphabet (all_defined name_alphabet self.now.definitions)
            (all_used name_alphabet self.now.definitions) (name_at self.now name) (name_at self.now abs)
            (name_at self.now rep) (map (name_at self.now) vars.now) (theorem_at self.now th) ≡ Ok tt) }
        ensures next { OnOk result
            (IsNext name_alphabet self.now.assumptions self.now.definitions
            (TyDef (name_at self.now name) (name_at self.now abs) (name_at self.now rep)
            (map (name_at self.now) vars.now) (theorem_at self.now th))) }
        ensures refused { IfErr result (λ e. RefusesBy (name_at self.now) e
            (type_definition name_alphabet self.now.definitions (name_at self.now name) (name_at self.now abs)
            (name_at self.now rep) (map (name_at self.now) vars.now) (theorem_at self.now th))) }
        ensures symbols { IfErr result (IsSymbolIn (length self.now.names)) }
    {
        let theorem = &self.theorems[th.0];
        Ok(
            self.signature.check_type(
                self.alloc,
                &self.terms,
                name,
                abs,
                rep,
                vars,
                &theorem.hyps,
                theorem.concl,
            )?,
        )
    }

    /// The numbers of the two theorems of a type operator that may be defined. Further theorems that
    /// follow from these take the places behind them.
    pub(crate) fn accept_operator(
        &mut self,
        name: NameId,
        abs: NameId,
        rep: NameId,
        vars: &[NameId],
        premise: ThmId,
        both: (Theorem, Theorem),
        mut further: Vec<Theorem>,
    ) -> Result<(ThmId, ThmId), RuleFault>
        requires name { name < length self.old.names }
        requires abs { abs < length self.old.names }
        requires rep { rep < length self.old.names }
        requires vars { All (λ n. n < length self.old.names) vars.now }
        requires premise { premise < length self.old.theorems }
        requires first { IsInside (length self.old.terms) both.0 }
        requires second { IsInside (length self.old.terms) both.1 }
        requires next { IsNext name_alphabet self.old.assumptions self.old.definitions
            (TyDef (name_at self.old name) (name_at self.old abs) (name_at self.old rep)
            (map (name_at self.old) vars.now) (theorem_at self.old premise)) }
        requires theorems { sequent_of self.old.terms both.0 ∷ sequent_of self.old.terms both.1 ∷ []
            ≡ theorems name_alphabet (TyDef (name_at self.old name) (name_at self.old abs) (name_at self.old rep)
            (map (name_at self.old) vars.now) (theorem_at self.old premise)) }
        requires further { All (IsInside (length self.old.terms)) further.items }
        requires follow { let d = TyDef (name_at self.old name) (name_at self.old abs) (name_at self.old rep)
            (map (name_at self.old) vars.now) (theorem_at self.old premise) in
            All (IsTheorem name_alphabet self.old.assumptions (self.old.definitions ++ d ∷ []))
            (theorems name_alphabet d)
            → All (IsTheorem name_alphabet self.old.assumptions (self.old.definitions ++ d ∷ []))
            (map (sequent_of self.old.terms) further.items) }
        ensures ok { IfOk result (λ ids. (ids.0 ≡ length self.old.theorems) × (ids.1 ≡ suc (length self.old.theorems))
            × (self.new ≡ defining_more self.old
            (TyDef (name_at self.old name) (name_at self.old abs) (name_at self.old rep)
            (map (name_at self.old) vars.now) (theorem_at self.old premise))
            (map (sequent_of self.old.terms) further.items))) }
        ensures count { OnOk result (length self.new.theorems ≡ length self.old.theorems + 2 + length further.items) }
        ensures err { IfErr result (λ e. (self.new ≡ self.old) × (e ≡ RuleFault.Memory ran_out)) }
    {
        let abs_th = ThmId(self.theorems.len());
        let rep_th = ThmId(self.theorems.len() + 1);
        let (first, second) = both;
        let used = self.symbols_with(premise, &[first.concl, second.concl])?;
        let definition = Definition::TyOp {
            name,
            abs,
            rep,
            vars: Vec::from_slice(self.alloc, vars)?,
            premise,
            abs_th,
            rep_th,
        };
        let mut theorems = listed(self.alloc, (first, second))?;
        theorems.append(&mut further)?;
        let defined = type_symbols(name, abs, rep);
        self.accept(theorems, definition, &defined, used.as_slice())?;
        Ok((abs_th, rep_th))
    }
}

/// Two theorems as a list.
pub(crate) fn listed(alloc: Global, both: (Theorem, Theorem)) -> Result<Vec<Theorem>, Memory>
    ensures { IfOk result (λ v. v.items ≡ both.0 ∷ both.1 ∷ []) }
{
    let (first, second) = both;
    let mut theorems = Vec::new(alloc);
    theorems.push(first)?;
    theorems.push(second)?;
    Ok(theorems)
}

/// The theorems of a type operator from a premise p t, over the tables.
pub(crate) fn operator_theorems(
    alloc: Global,
    terms: &mut Terms,
    op: NameId,
    abs: NameId,
    rep: NameId,
    vars: &[NameId],
    premise: TermId,
) -> Result<(Theorem, Theorem), RuleFault>
    requires inside { premise < length terms.old.terms }
    requires premise { IsPremise numbers (tm_at terms.old.terms premise) }
    ensures derives { DerivesBoth result (theorems_at numbers op abs rep vars.now (tm_at terms.old.terms premise))
        terms.new.terms }
    ensures grown { IsGrownTo (bound_of_names (4 ∷ op ∷ abs ∷ rep ∷ vars.now)) terms.old terms.new }
{
    let (p, u) = parts(terms, premise);
    type_theorems(alloc, terms, op, abs, rep, vars, p, u)
}

/// The predicate p of a premise p t, and the type of t.
pub(crate) fn parts(terms: &Terms, premise: TermId) -> (TermId, TypeId)
    requires inside { premise < length terms.now.terms }
    requires premise { IsPremise numbers (tm_at terms.now.terms premise) }
    ensures { ArePartsOf terms.now (tm_at terms.now.terms premise) result.0 result.1 }
{
    match *terms.node(premise) {
        TermNode::App(p, t) => (p, terms.type_of(t)),
        _ => unreachable!(),
    }
}
