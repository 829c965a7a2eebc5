ghost use Rattle.std.specs.Prelude.{◌≡◌, ◌<◌, ◌++◌, [], ◌∷◌, Some, map, slice_get, length, IfOk, IfErr};
ghost use Rattle.std.specs.List.{All};
ghost use Rattle.ot_logic.specs.Trees.{TyVar, Free, Con, NApp, NAbs};
ghost use Rattle.ot_logic.specs.Naming.{names, first_names};
ghost use Rattle.ot_logic.specs.Hol.{bool_ty, same_sequent};
ghost use Rattle.ot_logic.specs.Rules.{has_type, op_rule, app_rule, abs_rule, assume_rule};
ghost use Rattle.ot_laws.specs.Theorem.{IsTheorem};
ghost use Rattle.ot_kernel.specs.Spelled.{sequent_of, IsInside, IsSpelled};
ghost use Rattle.ot_kernel.specs.State.{State, name_at, type_at, types_at, variable_at, named_at, term_at};
ghost use Rattle.ot_kernel.specs.State.{terms_at, theorem_at, Keeps, SameBasis, SameTheorems, IsSoundState};
ghost use Rattle.ot_kernel.specs.Definitions.{definition_at, IsHeld};
ghost use Rattle.ot_kernel.specs.Answers.{MakesType, MakesTerm, MakesAbstraction, Concludes};
ghost use Rattle.ot_kernel.specs.Derived.{Follows, AddsTheorem};
ghost use Rattle.ot_logic.specs.RanOut.{ran_out};

use crate::definition::Definition;
use crate::fault::RuleFault;
use crate::places::Places;
use crate::theorem::{Hypotheses, Theorem, ThmId};
use ot_define::Signature;
use ot_logic::{Memory, Name, NameId, Names};
use ot_subst::Results;
use ot_term::{TermFault, TermId, Terms, VarKey};
use ot_type::{TableFault, TypeId};
use std::alloc::Global;
use std::marker::Model;

/// Names, types, terms and theorems by number, each theorem derivable in higher-order logic.
///
/// Each number that a call takes is one of this kernel. After each call, refused or not, every number stands for what
/// it stood for; a refused call leaves each theorem, assumption and definition as it was.
#[derive(Drop)]
pub struct Kernel {
    pub(crate) alloc: Global,
    pub(crate) names: Names,
    pub(crate) terms: Terms,
    pub(crate) theorems: Vec<Theorem>,
    // The numbers of the assumptions, in their order.
    pub(crate) assumptions: Vec<ThmId>,
    // For the key of a sequent, a place before which no assumption is that sequent.
    pub(crate) places: Places,
    pub(crate) definitions: Vec<Definition>,
    // Their symbols.
    pub(crate) signature: Signature,
    // For substitution and beta.
    pub(crate) results: Results,
}

impl Model for Kernel {
    ghost use Rattle.ot_kernel.specs.State.{State, coded_state};

    ghost Value = { State };

    ghost coded = { coded_state };

    ghost use Rattle.ot_kernel.specs.Spelled.{state_of, IsKernel};

    ghost view = { λ k. state_of k.names k.terms (record { theorems = k.theorems.items; assumptions = k.assumptions.items; definitions = k.definitions.items; signature = k.signature; places = k.places }) };

    ghost invariant = { λ k. IsKernel k.names k.terms (record { theorems = k.theorems.items; assumptions = k.assumptions.items; definitions = k.definitions.items; signature = k.signature; places = k.places }) };
}

impl Kernel {
    /// A kernel with the first names, and with no type, term, theorem, assumption or definition.
    pub fn new(alloc: Global) -> Result<Kernel, Memory>
        ensures { IfOk result
            (λ k. k ≡ record {
              names = first_names;
              types = [];
              terms = [];
              classes = [];
              theorems = [];
              assumptions =
                  [];
              definitions = [];
            }) }
    {
        Ok(Kernel {
            alloc,
            names: Names::new(alloc)?,
            terms: Terms::new(alloc),
            theorems: Vec::new(alloc),
            assumptions: Vec::new(alloc),
            places: Places::new(alloc),
            definitions: Vec::new(alloc),
            signature: Signature::new(alloc),
            results: Results::new(alloc),
        })
    }

    /// A law: each theorem is derivable from the assumptions under the definitions, which are
    /// accepted, and no two assumptions are the same sequent.
    pub fn sound(&self)
        ensures { IsSoundState self.now }
    {
        // What holds of each kernel.
        let _terms = &self.terms;
    }

    /// The names.
    pub fn names(&self) -> &Names
        ensures { result.now ≡ self.now.names }
    {
        &self.names
    }

    /// The terms and their types, over numbers of names.
    pub fn terms(&self) -> &Terms
        ensures { IsSpelled self.now result.now }
    {
        &self.terms
    }

    /// The number of a name.
    pub fn intern(&mut self, name: Name) -> Result<NameId, Memory>
        ensures ok { IfOk result (λ id. slice_get self.new.names id ≡ Some name) }
        ensures keeps { Keeps self.old self.new }
        ensures same { SameTheorems self.old self.new }
    {
        self.names.intern(name)
    }

    /// The type variable of a name.
    pub fn type_var(&mut self, name: NameId) -> Result<TypeId, Memory>
        requires { name < length self.old.names }
        ensures ok { IfOk result (λ id. slice_get self.new.types id ≡ Some (TyVar (name_at self.old name))) }
        ensures keeps { Keeps self.old self.new }
        ensures same { SameTheorems self.old self.new }
    {
        self.terms.type_var(name)
    }

    /// The type of an operator and its arguments. `Nesting` where it would be deeper than the limit.
    pub fn type_op(&mut self, name: NameId, args: &[TypeId]) -> Result<TypeId, TableFault>
        requires name { name < length self.old.names }
        requires args { All (λ i. i < length self.old.types) args.now }
        ensures made { MakesType result (op_rule names (name_at self.old name) (types_at self.old args.now))
            self.new }
        ensures keeps { Keeps self.old self.new }
        ensures same { SameTheorems self.old self.new }
    {
        self.terms.type_op(name, args)
    }

    /// A variable as a term.
    pub fn var(&mut self, v: VarKey) -> Result<TermId, Memory>
        requires name { v.name < length self.old.names }
        requires ty { v.ty < length self.old.types }
        ensures within { IfOk result (λ id. id < length self.new.terms) }
        ensures ok { IfOk result (λ id. term_at self.new id ≡ Free (variable_at self.old v)) }
        ensures keeps { Keeps self.old self.new }
        ensures same { SameTheorems self.old self.new }
    {
        self.terms.var(v)
    }

    /// A constant at a type.
    pub fn constant(&mut self, name: NameId, ty: TypeId) -> Result<TermId, Memory>
        requires name { name < length self.old.names }
        requires ty { ty < length self.old.types }
        ensures within { IfOk result (λ id. id < length self.new.terms) }
        ensures ok { IfOk result (λ id. term_at self.new id ≡ Con (name_at self.old name) (type_at self.old ty)) }
        ensures keeps { Keeps self.old self.new }
        ensures same { SameTheorems self.old self.new }
    {
        self.terms.constant(name, ty)
    }

    /// The application of a function to an argument, as a named tree.
    ///
    /// The first refusal counts: `NotFunction`, `ArgumentType`, `Nesting`.
    pub fn app(&mut self, f: TermId, x: TermId) -> Result<TermId, TermFault>
        requires f { f < length self.old.terms }
        requires x { x < length self.old.terms }
        ensures made { MakesTerm result (app_rule names (term_at self.old f) (term_at self.old x)) self.new }
        ensures named { IfOk result (λ id. slice_get self.new.terms id
            ≡ Some (NApp (named_at self.old.terms f) (named_at self.old.terms x))) }
        ensures keeps { Keeps self.old self.new }
        ensures same { SameTheorems self.old self.new }
    {
        self.terms.app(f, x)
    }

    /// The abstraction of a variable from a body, as a named tree. `Nesting` where it would pass
    /// the limit.
    pub fn abs(&mut self, v: VarKey, body: TermId) -> Result<TermId, TableFault>
        requires name { v.name < length self.old.names }
        requires ty { v.ty < length self.old.types }
        requires body { body < length self.old.terms }
        ensures made { MakesAbstraction result (abs_rule names (variable_at self.old v) (term_at self.old body))
            self.new }
        ensures named { IfOk result (λ id. slice_get self.new.terms id
            ≡ Some (NAbs (variable_at self.old v) (named_at self.old.terms body))) }
        ensures keeps { Keeps self.old self.new }
        ensures same { SameTheorems self.old self.new }
    {
        self.terms.abs(v, body)
    }

    /// The theorem that a term follows from itself. `NotBool` where it isn't of the type of propositions.
    pub fn assume(&mut self, t: TermId) -> Result<ThmId, RuleFault>
        requires { t < length self.old.terms }
        ensures concludes { Concludes result (assume_rule names (term_at self.old t)) self.old self.new }
        ensures keeps { Keeps self.old self.new }
        ensures same { SameBasis self.old self.new }
    {
        if !self.is_proposition(t)? {
            return Err(RuleFault::NotBool);
        }
        self.conclude(Theorem {
            hyps: Hypotheses::one(t),
            concl: t,
        })
    }

    /// Whether a term is of the type of propositions. Every number stands for what it stood for.
    pub fn is_proposition(&mut self, t: TermId) -> Result<bool, Memory>
        requires { t < length self.old.terms }
        ensures ok { IfOk result (λ b. b ≡ has_type names (term_at self.old t) (bool_ty names)) }
        ensures keeps { Keeps self.old self.new }
        ensures same { SameTheorems self.old self.new }
    {
        let boolean = self.boolean()?;
        Ok(self.has_type(t, boolean))
    }

    /// The type of propositions.
    pub(crate) fn boolean(&mut self) -> Result<TypeId, Memory>
        ensures within { IfOk result (λ id. id < length self.new.types) }
        ensures ok { IfOk result (λ id. type_at self.new id ≡ bool_ty names) }
        ensures keeps { Keeps self.old self.new }
        ensures same { SameTheorems self.old self.new }
    {
        self.terms.type_bool()
    }

    /// Whether a term is of a type.
    pub(crate) fn has_type(&self, t: TermId, ty: TypeId) -> bool
        requires t { t < length self.now.terms }
        requires ty { ty < length self.now.types }
        ensures { result ≡ has_type names (term_at self.now t) (type_at self.now ty) }
    {
        self.terms.type_of(t) == ty
    }

    /// The number of a theorem that follows, which takes the next place. `Memory` is the only refusal.
    pub(crate) fn conclude(&mut self, th: Theorem) -> Result<ThmId, RuleFault>
        requires inside { IsInside (length self.old.terms) th }
        requires follows { IsTheorem names self.old.assumptions self.old.definitions (sequent_of self.old.terms th) }
        ensures ok { IfOk result
            (λ id. (self.new ≡ record self.old { theorems = self.old.theorems ++ sequent_of self.old.terms th ∷ [] })
            × (id ≡ length self.old.theorems)) }
        ensures err { IfErr result (λ e. (self.new ≡ self.old) × (e ≡ RuleFault.Memory ran_out)) }
    {
        let id = ThmId(self.theorems.len());
        self.theorems.push(th)?;
        Ok(id)
    }

    /// The number of the theorem that a rule gives, which follows. A refusal stays.
    #[inline(always)]
    pub(crate) fn derived(
        &mut self,
        theorem: Result<Theorem, RuleFault>,
    ) -> Result<ThmId, RuleFault>
        requires { IfOk theorem (Follows self.old) }
        ensures { AddsTheorem result theorem self.old self.new }
    {
        self.conclude(theorem?)
    }

    /// The hypotheses of a theorem.
    pub fn hyps(&self, th: ThmId) -> &[TermId]
        requires { th < length self.now.theorems }
        ensures hyps { terms_at self.now result.now ≡ (theorem_at self.now th).hyps }
        ensures inside { All (λ i. i < length self.now.terms) result.now }
    {
        &self.theorems[th.0].hyps
    }

    /// The conclusion of a theorem.
    pub fn concl(&self, th: ThmId) -> TermId
        requires { th < length self.now.theorems }
        ensures concl { term_at self.now result ≡ (theorem_at self.now th).concl }
        ensures inside { result < length self.now.terms }
    {
        self.theorems[th.0].concl
    }

    /// Whether a theorem is this sequent: whether the set of its hypotheses and its conclusion are these, up to the
    /// names of binders.
    ///
    /// For long lists of hypotheses it asks for memory, and compares one by one where there is none.
    pub fn same(&self, th: ThmId, hyps: &[TermId], concl: TermId) -> bool
        requires th { th < length self.now.theorems }
        requires hyps { All (λ i. i < length self.now.terms) hyps.now }
        requires concl { concl < length self.now.terms }
        ensures { result ≡ same_sequent names (theorem_at self.now th)
            (record { hyps = terms_at self.now hyps.now; concl = term_at self.now concl }) }
    {
        self.theorems[th.0].states(self.alloc, &self.terms, hyps, concl)
    }

    /// The definitions, in the order in which they were accepted.
    pub fn definitions(&self) -> &[Definition]
        ensures definitions { map (definition_at self.now) result.now ≡ self.now.definitions }
        ensures held { All (IsHeld self.now) result.now }
    {
        &self.definitions
    }
}
