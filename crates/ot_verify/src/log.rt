//! What the records of a log made, by number.
ghost use Rattle.std.specs.Prelude.{◌≡◌, ◌<◌, ◌≤◌, ◌+◌, ◌++◌, ◌∷◌, [], List, length, slice_get, map, vec_len};
ghost use Rattle.std.specs.Prelude.{vec_capacity, Ok, Err, Some, None, IfOk, OnOk, OnErr, MatchResult};
ghost use Rattle.std.specs.List.{All};
ghost use Rattle.ot_logic.specs.Names.{Name as NameValue};
ghost use Rattle.ot_logic.specs.Naming.{names};
ghost use Rattle.ot_logic.specs.Trees.{Ty, TyVar, TyOp, Variable, Tm, Free, Con, Bound, App, Abs, Sequent};
ghost use Rattle.ot_log_format.specs.Steps.{refl_step, assume_step, eq_mp_step, abs_thm_step, app_thm_step};
ghost use Rattle.ot_log_format.specs.Steps.{deduct_antisym_step, beta_step, subst_step, assumption_step};
ghost use Rattle.ot_log_format.specs.Steps.{constant_step, constants_step, type_operator_step};
ghost use Rattle.ot_log_format.specs.State.{nothing_made, makes_type, makes_term, makes_sequent};
ghost use Rattle.ot_log_format.specs.State.{makes_assumption, makes_definition, makes_result};
ghost use Rattle.ot_log_format.specs.Sound.{IsProved};
ghost use Rattle.ot_log_nodes.specs.Items.{HasType, HasTerm, type_at, term_at};
ghost use Rattle.ot_log_rules.specs.Statements.{terms_at, sequent_at, HasStatement, Gives};
ghost use Rattle.ot_verify.specs.Logged.{IsNamed, IsVariable, IsTypePair, IsTermPair};
ghost use Rattle.ot_verify.specs.Logged.{IsConstantPair, MeetsNames, MadeBy};
ghost use Rattle.ot_log_format.specs.Records.{arguments};
ghost use Rattle.ot_verify.specs.Asking.{IsAt, AreEach};
ghost use Rattle.ot_log_text.specs.Summaries.{summary_text};
ghost use Rattle.ot_text.specs.Pages.{Appended};
ghost use Rattle.ot_verify.specs.Held.{of_step};
ghost use Rattle.ot_log_rules.specs.Definitions.{definition_at, HasDefinition};
ghost use Rattle.ot_logic.specs.RanOut.{ran_out};

use crate::finding::{
    are_names, constant_pairs_at, each_at, term_pairs_at, type_pairs_at, variable_at,
};
use crate::operand::{ConstantPair, NamedType, TermPair};
use ot_log_nodes::{DEPTH_LIMIT, NameId, Nodes, TermId, TypeId, Typings};
use ot_log_rules::{
    Accepted, Definition, Kept, Signature, Statement, StepFault, abs_thm, app_thm,
    are_statements_within, assume, assumption, beta_conv, constant, constants, copied,
    deduct_antisym, eq_mp, is_statement_within, refl, subst, type_operator,
};
use ot_log_text::{PrintFault, summary_text};
use ot_logic::{Memory, Name};
use std::alloc::{AllocError, AllocFailed, Global};
use std::marker::Model;

/// Why a record is refused.
#[derive(Clone, Copy)]
pub(crate) enum Refusal {
    BadStep,
    LogNesting,
    /// A number that isn't one of the log's.
    NoSuch,
    Memory(Memory),
}

impl From<Memory> for Refusal {
    ghost use Rattle.ot_verify.specs.declared.log.Refusal.TheVariants.{Memory as OutOfMemory};

    ghost from_gives = { λ _ f. f ≡ OutOfMemory ran_out };

    fn from(memory: Memory) -> Refusal {
        Refusal::Memory(memory)
    }
}

impl From<AllocError> for Refusal {
    ghost use Rattle.ot_verify.specs.declared.log.Refusal.TheVariants.{Memory as OutOfMemory};

    ghost from_gives = { λ _ f. f ≡ OutOfMemory ran_out };

    fn from(refused: AllocError) -> Refusal {
        Refusal::Memory(Memory::from(refused))
    }
}

impl<T: Drop> From<AllocFailed<T>> for Refusal {
    ghost use Rattle.ot_verify.specs.declared.log.Refusal.TheVariants.{Memory as OutOfMemory};

    ghost from_gives = { λ _ f. f ≡ OutOfMemory ran_out };

    fn from(refused: AllocFailed<T>) -> Refusal {
        Refusal::Memory(Memory::from(refused))
    }
}

/// What the records of a log made. All that was made is proved.
#[derive(Drop)]
pub(crate) struct Log {
    nodes: Nodes,
    typings: Typings,
    types: Vec<TypeId>,
    terms: Vec<TermId>,
    sequents: Vec<Statement>,
    assumptions: Kept,
    definitions: Vec<Accepted>,
    signature: Signature,
    results: Kept,
}

impl Model for Log {
    ghost use Rattle.ot_verify.specs.Logged.{LogView, coded_log};

    ghost Value = { LogView };

    ghost coded = { coded_log };

    ghost use Rattle.ot_verify.specs.Held.{view_of, IsWhole};

    ghost view = { λ l. view_of l.nodes (record {
      types = l.types.items;
      terms = l.terms.items;
      sequents = l.sequents.items;
      assumptions = l.assumptions.statements.items;
      definitions = l.definitions.items;
      results = l.results.statements.items;
    }) };

    ghost invariant = { λ l. IsWhole l.nodes (record {
      types = l.types.items;
      terms = l.terms.items;
      sequents = l.sequents.items;
      assumptions = l.assumptions.statements.items;
      definitions = l.definitions.items;
      results = l.results.statements.items;
    }) l.typings.known.entries l.signature l.assumptions l.results };
}

impl Log {
    ghost use Rattle.ot_verify.specs.Held.{Supports, AddsSequent, Establishes, AddsDefinition};

    /// A log before its first record.
    pub(crate) fn new(alloc: Global) -> Result<Log, Memory>
        ensures { IfOk result (λ l. l.state ≡ nothing_made) }
    {
        Ok(Log {
            nodes: Nodes::new(alloc)?,
            typings: Typings::new(alloc),
            types: Vec::new(alloc),
            terms: Vec::new(alloc),
            sequents: Vec::new(alloc),
            assumptions: Kept::new(alloc),
            definitions: Vec::new(alloc),
            signature: Signature::new(alloc),
            results: Kept::new(alloc),
        })
    }

    /// The number of a name.
    pub(crate) fn intern(&mut self, name: Name) -> Result<NameId, Memory>
        ensures ok { IfOk result (λ id. IsNamed self.new id name) }
        ensures meets { MeetsNames self.old self.new }
    {
        self.nodes.name(name)
    }

    /// The definitions are accepted, and each result is derivable from the assumptions under them.
    pub(crate) fn sound(&self)
        ensures { IsProved names self.now.state }
    {
        // What holds of each log.
        let _nodes = &self.nodes;
    }

    /// Appends the text of the assumptions, definitions and results. `TooLarge` exactly where it
    /// has more than `max` bytes. After a refusal `out` is as it was.
    pub(crate) fn text(
        &self,
        alloc: Global,
        max: usize,
        out: &mut Vec<u8>,
    ) -> Result<(), PrintFault>
        ensures ok { OnOk result (Appended
            (summary_text self.now.state.assumptions self.now.state.definitions self.now.state.results) max
            out.old.items out.new.items) }
        ensures too_large { result ≡ Err PrintFault.TooLarge
            → max < length
            (summary_text self.now.state.assumptions self.now.state.definitions self.now.state.results) }
        ensures err { OnErr result (out.new.items ≡ out.old.items) }
    {
        summary_text(
            alloc,
            &self.nodes,
            self.assumptions.statements(),
            &self.definitions,
            self.results.statements(),
            max,
            out,
        )
    }

    /// How many types were made.
    pub(crate) fn type_count(&self) -> usize
        ensures { result ≡ length self.now.state.types }
    {
        self.types.len()
    }

    /// How many terms were made.
    pub(crate) fn term_count(&self) -> usize
        ensures { result ≡ length self.now.state.terms }
    {
        self.terms.len()
    }

    /// How many sequents were made.
    pub(crate) fn sequent_count(&self) -> usize
        ensures { result ≡ length self.now.state.sequents }
    {
        self.sequents.len()
    }

    /// A type variable.
    pub(crate) fn type_var(&mut self, name: NameId) -> Result<(), Refusal>
        ensures { (n : NameValue) → IsNamed self.old name n
            → MadeBy result (makes_type names (TyVar n)) self.old.state self.new.state }
    {
        if !self.nodes.has_name(name) {
            return Err(Refusal::NoSuch);
        }
        let id = self.nodes.type_var(name)?;
        self.add_type(id)
    }

    /// A type operator with these types as arguments.
    pub(crate) fn type_op(&mut self, name: NameId, args: &[usize]) -> Result<(), Refusal>
        ensures { (n : NameValue) (ts : List (Ty NameValue)) → IsNamed self.old name n
            → AreEach (IsAt self.old.state.types) args.now ts
            → MadeBy result (makes_type names (TyOp n (arguments ts))) self.old.state self.new.state }
    {
        if !self.nodes.has_name(name) {
            return Err(Refusal::NoSuch);
        }
        let args = each_at(self.nodes.allocator(), &self.types, args)?;
        let id = self.nodes.type_op(name, &args)?;
        self.add_type(id)
    }

    /// A free variable.
    pub(crate) fn free(&mut self, v: NamedType) -> Result<(), Refusal>
        ensures { (w : Variable NameValue) → IsVariable self.old v w
            → MadeBy result (makes_term names (Free w)) self.old.state self.new.state }
    {
        let Some(v) = variable_at(&self.nodes, &self.types, v) else {
            return Err(Refusal::NoSuch);
        };
        let id = self.nodes.free(v.name, v.ty)?;
        self.add_term(id)
    }

    /// A constant at a type.
    pub(crate) fn constant_term(&mut self, name: NameId, ty: usize) -> Result<(), Refusal>
        ensures { (n : NameValue) (t : Ty NameValue) → IsNamed self.old name n → IsAt self.old.state.types ty t
            → MadeBy result (makes_term names (Con n t)) self.old.state self.new.state }
    {
        if !self.nodes.has_name(name) {
            return Err(Refusal::NoSuch);
        }
        let ty = *at(&self.types, ty)?;
        let id = self.nodes.constant(name, ty)?;
        self.add_term(id)
    }

    /// The place of an abstraction around.
    pub(crate) fn bound(&mut self, place: u64) -> Result<(), Refusal>
        ensures { MadeBy result (makes_term names (Bound place)) self.old.state self.new.state }
    {
        let id = self.nodes.bound(place)?;
        self.add_term(id)
    }

    /// An application.
    pub(crate) fn app(&mut self, f: usize, x: usize) -> Result<(), Refusal>
        ensures { (t : Tm NameValue) (u : Tm NameValue) → IsAt self.old.state.terms f t
            → IsAt self.old.state.terms x u
            → MadeBy result (makes_term names (App t u)) self.old.state self.new.state }
    {
        let f = *at(&self.terms, f)?;
        let x = *at(&self.terms, x)?;
        let id = self.nodes.app(f, x)?;
        self.add_term(id)
    }

    /// An abstraction over a type.
    pub(crate) fn lam(&mut self, ty: usize, body: usize) -> Result<(), Refusal>
        ensures { (t : Ty NameValue) (b : Tm NameValue) → IsAt self.old.state.types ty t
            → IsAt self.old.state.terms body b
            → MadeBy result (makes_term names (Abs t b)) self.old.state self.new.state }
    {
        let ty = *at(&self.types, ty)?;
        let body = *at(&self.terms, body)?;
        let id = self.nodes.abs(ty, body)?;
        self.add_term(id)
    }

    /// The equation of a term with itself.
    pub(crate) fn refl(&mut self, term: usize) -> Result<(), Refusal>
        ensures { (t : Tm NameValue) → IsAt self.old.state.terms term t
            → MadeBy result (makes_sequent names (refl_step names t)) self.old.state self.new.state }
    {
        let term = *at(&self.terms, term)?;
        let made = refl(&mut self.nodes, &mut self.typings, term);
        self.add_sequent(made)
    }

    /// A proposition under itself.
    pub(crate) fn assume(&mut self, term: usize) -> Result<(), Refusal>
        ensures { (p : Tm NameValue) → IsAt self.old.state.terms term p
            → MadeBy result (makes_sequent names (assume_step names p)) self.old.state self.new.state }
    {
        let term = *at(&self.terms, term)?;
        let made = assume(&mut self.nodes, &mut self.typings, term);
        self.add_sequent(made)
    }

    /// From `G |- p = q` and `H |- p`.
    pub(crate) fn eq_mp(&mut self, equation: usize, other: usize) -> Result<(), Refusal>
        ensures { (a : Sequent NameValue) (b : Sequent NameValue) → IsAt self.old.state.sequents equation a
            → IsAt self.old.state.sequents other b
            → MadeBy result (makes_sequent names (eq_mp_step names a b)) self.old.state self.new.state }
    {
        let a = at(&self.sequents, equation)?;
        let b = at(&self.sequents, other)?;
        let made = eq_mp(&self.nodes, a, b);
        self.add_sequent(made)
    }

    /// From `G |- t = u`, both sides abstracted.
    pub(crate) fn abs_thm(&mut self, v: NamedType, equation: usize) -> Result<(), Refusal>
        ensures { (w : Variable NameValue) (a : Sequent NameValue) → IsVariable self.old v w
            → IsAt self.old.state.sequents equation a
            → MadeBy result (makes_sequent names (abs_thm_step names w a)) self.old.state self.new.state }
    {
        let Some(v) = variable_at(&self.nodes, &self.types, v) else {
            return Err(Refusal::NoSuch);
        };
        let a = at(&self.sequents, equation)?;
        let made = abs_thm(&mut self.nodes, v, a);
        self.add_sequent(made)
    }

    /// From `G |- f = g` and `H |- x = y`.
    pub(crate) fn app_thm(&mut self, functions: usize, arguments: usize) -> Result<(), Refusal>
        ensures { (a : Sequent NameValue) (b : Sequent NameValue) → IsAt self.old.state.sequents functions a
            → IsAt self.old.state.sequents arguments b
            → MadeBy result (makes_sequent names (app_thm_step names a b)) self.old.state self.new.state }
    {
        let a = at(&self.sequents, functions)?;
        let b = at(&self.sequents, arguments)?;
        let made = app_thm(&mut self.nodes, a, b);
        self.add_sequent(made)
    }

    /// From `G |- p` and `H |- q`.
    pub(crate) fn deduct_antisym(&mut self, left: usize, right: usize) -> Result<(), Refusal>
        ensures { (a : Sequent NameValue) (b : Sequent NameValue) → IsAt self.old.state.sequents left a
            → IsAt self.old.state.sequents right b
            → MadeBy result (makes_sequent names (deduct_antisym_step names a b)) self.old.state self.new.state }
    {
        let a = at(&self.sequents, left)?;
        let b = at(&self.sequents, right)?;
        let made = deduct_antisym(&mut self.nodes, a, b);
        self.add_sequent(made)
    }

    /// An abstraction applied to a term.
    pub(crate) fn beta_conv(&mut self, term: usize) -> Result<(), Refusal>
        ensures { (t : Tm NameValue) → IsAt self.old.state.terms term t
            → MadeBy result (makes_sequent names (beta_step names t)) self.old.state self.new.state }
    {
        let term = *at(&self.terms, term)?;
        let made = beta_conv(&mut self.nodes, &mut self.typings, term);
        self.add_sequent(made)
    }

    /// A substitution put into a sequent.
    pub(crate) fn subst(
        &mut self,
        sequent: usize,
        types: &[NamedType],
        terms: &[TermPair],
    ) -> Result<(), Refusal>
        ensures { (a : Sequent NameValue) (s : List (NameValue × Ty NameValue))
            (m : List (Variable NameValue × Tm NameValue))
            → IsAt self.old.state.sequents sequent a → AreEach (IsTypePair self.old) types.now s
            → AreEach (IsTermPair self.old) terms.now m
            → MadeBy result (makes_sequent names (subst_step names s m a)) self.old.state self.new.state }
    {
        let a = at(&self.sequents, sequent)?;
        let alloc = self.nodes.allocator();
        let types = type_pairs_at(alloc, &self.nodes, &self.types, types)?;
        let terms = term_pairs_at(alloc, &self.nodes, &self.types, &self.terms, terms)?;
        let made = subst(&mut self.nodes, &mut self.typings, &types, &terms, a);
        self.add_sequent(made)
    }

    /// An assumption.
    pub(crate) fn assumption(&mut self, concl: usize, hyps: &[usize]) -> Result<(), Refusal>
        ensures { (p : Tm NameValue) (hs : List (Tm NameValue)) → IsAt self.old.state.terms concl p
            → AreEach (IsAt self.old.state.terms) hyps.now hs
            → MadeBy result (makes_assumption names (assumption_step names hs p)) self.old.state self.new.state }
    {
        let concl = *at(&self.terms, concl)?;
        let hyps = each_at(self.nodes.allocator(), &self.terms, hyps)?;
        let made = assumption(&mut self.nodes, &mut self.typings, &hyps, concl);
        self.add_assumed(&hyps, concl, made)
    }

    /// The definition of a constant.
    pub(crate) fn define_constant(&mut self, name: NameId, term: usize) -> Result<(), Refusal>
        ensures { (n : NameValue) (t : Tm NameValue) → IsNamed self.old name n → IsAt self.old.state.terms term t
            → MadeBy result (makes_definition names (λ dl. constant_step names dl n t))
            self.old.state self.new.state }
    {
        if !self.nodes.has_name(name) {
            return Err(Refusal::NoSuch);
        }
        let term = *at(&self.terms, term)?;
        let made = constant(
            &mut self.nodes,
            &mut self.typings,
            &self.signature,
            name,
            term,
        );
        self.add_definition(Definition::Constant { name, term }, made)
    }

    /// The definition of a list of constants.
    pub(crate) fn define_constants(
        &mut self,
        pairs: &[ConstantPair],
        premise: usize,
    ) -> Result<(), Refusal>
        ensures { (ps : List (NameValue × Variable NameValue)) (a : Sequent NameValue)
            → AreEach (IsConstantPair self.old) pairs.now ps → IsAt self.old.state.sequents premise a
            → MadeBy result (makes_definition names (λ dl. constants_step names dl ps a))
            self.old.state self.new.state }
    {
        let alloc = self.nodes.allocator();
        let pairs = constant_pairs_at(alloc, &self.nodes, &self.types, pairs)?;
        let from = at(&self.sequents, premise)?;
        let premise = copied(alloc, from)?;
        let made = constants(&mut self.nodes, &self.signature, &pairs, &premise);
        self.add_definition(Definition::Constants { pairs, premise }, made)
    }

    /// The definition of a type operator.
    pub(crate) fn define_type(
        &mut self,
        name: NameId,
        abs: NameId,
        rep: NameId,
        vars: &[NameId],
        premise: usize,
    ) -> Result<(), Refusal>
        ensures { (n : NameValue) (b : NameValue) (r : NameValue) (vs : List NameValue) (a : Sequent NameValue)
            → IsNamed self.old name n → IsNamed self.old abs b → IsNamed self.old rep r
            → AreEach (IsNamed self.old) vars.now vs → IsAt self.old.state.sequents premise a
            → MadeBy result (makes_definition names (λ dl. type_operator_step names dl n b r vs a))
            self.old.state self.new.state }
    {
        let alloc = self.nodes.allocator();
        if !self.nodes.has_name(name) {
            return Err(Refusal::NoSuch);
        }
        if !self.nodes.has_name(abs) {
            return Err(Refusal::NoSuch);
        }
        if !self.nodes.has_name(rep) {
            return Err(Refusal::NoSuch);
        }
        if !are_names(&self.nodes, vars) {
            return Err(Refusal::NoSuch);
        }
        let from = at(&self.sequents, premise)?;
        let premise = copied(alloc, from)?;
        let vars = Vec::from_slice(alloc, vars)?;
        let made = type_operator(
            &mut self.nodes,
            &mut self.typings,
            &self.signature,
            name,
            abs,
            rep,
            &vars,
            &premise,
        );
        let definition = Definition::TypeOperator {
            name,
            abs,
            rep,
            vars,
            premise,
        };
        self.add_definition(definition, made)
    }

    /// A result.
    pub(crate) fn add_result(&mut self, sequent: usize) -> Result<(), Refusal>
        ensures { (a : Sequent NameValue) → IsAt self.old.state.sequents sequent a
            → MadeBy result (makes_result names a) self.old.state self.new.state }
    {
        let q = at(&self.sequents, sequent)?;
        self.results.keep(&self.nodes, q)?;
        Ok(())
    }

    /// Adds a type, within the limit.
    fn add_type(&mut self, id: TypeId) -> Result<(), Refusal>
        requires { HasType self.old.items id }
        ensures { MadeBy result (makes_type names (type_at self.old.items id)) self.old.state self.new.state }
    {
        if self.nodes.type_depth(id) > DEPTH_LIMIT {
            return Err(Refusal::LogNesting);
        }
        self.types.push(id)?;
        Ok(())
    }

    /// Adds a term, within the limit.
    fn add_term(&mut self, id: TermId) -> Result<(), Refusal>
        requires { HasTerm self.old.items id }
        ensures { MadeBy result (makes_term names (term_at self.old.items id)) self.old.state self.new.state }
    {
        if self.nodes.term_depth(id) > DEPTH_LIMIT {
            return Err(Refusal::LogNesting);
        }
        self.terms.push(id)?;
        Ok(())
    }

    /// Adds a sequent that follows, within the limit.
    fn add_sequent(&mut self, made: Result<Statement, StepFault>) -> Result<(), Refusal>
        requires { Supports self.old made }
        ensures { AddsSequent result made self.old self.new }
    {
        match made {
            Ok(statement) => self.add_statement(statement),
            Err(fault) => Err(refused_step(fault)),
        }
    }

    /// Adds an assumption that its step gives, within the limit.
    fn add_assumed(
        &mut self,
        hyps: &[TermId],
        concl: TermId,
        made: Result<Statement, StepFault>,
    ) -> Result<(), Refusal>
        requires hyps { All (HasTerm self.old.items) hyps.now }
        requires concl { HasTerm self.old.items concl }
        requires gives { Gives made
            (assumption_step names (terms_at self.old.items hyps.now) (term_at self.old.items concl)) self.old.items }
        ensures { MadeBy result
            (makes_assumption names
            (assumption_step names (terms_at self.old.items hyps.now) (term_at self.old.items concl)))
            self.old.state self.new.state }
    {
        match made {
            Ok(statement) => self.add_assumption(hyps, concl, statement),
            Err(fault) => Err(refused_step(fault)),
        }
    }

    /// Adds an assumption, within the limit, to the assumptions where it is new.
    fn add_assumption(
        &mut self,
        hyps: &[TermId],
        concl: TermId,
        statement: Statement,
    ) -> Result<(), Refusal>
        requires hyps { All (HasTerm self.old.items) hyps.now }
        requires concl { HasTerm self.old.items concl }
        requires gives { Gives (Ok statement)
            (assumption_step names (terms_at self.old.items hyps.now) (term_at self.old.items concl)) self.old.items }
        ensures { MadeBy result (makes_assumption names (Ok (sequent_at self.old.items statement)))
            self.old.state self.new.state }
    {
        let within = is_statement_within(&mut self.nodes, &mut self.typings, &statement)?;
        if !within {
            return Err(Refusal::LogNesting);
        }
        self.sequents.reserve(1)?;
        self.assumptions.keep(&self.nodes, &statement)?;
        put_last(&mut self.sequents, statement);
        Ok(())
    }

    /// Adds a definition that its step gives with its theorems, within the limit.
    fn add_definition(
        &mut self,
        definition: Definition,
        made: Result<Vec<Statement>, StepFault>,
    ) -> Result<(), Refusal>
        requires definition { HasDefinition self.old.items definition }
        requires made { Establishes self.old (definition_at self.old.items definition) made }
        ensures { AddsDefinition result (definition_at self.old.items definition) made self.old self.new }
    {
        match made {
            Ok(theorems) => self.accept(definition, theorems),
            Err(fault) => Err(refused_step(fault)),
        }
    }

    /// The same, of theorems that there are.
    fn accept(&mut self, definition: Definition, theorems: Vec<Statement>) -> Result<(), Refusal>
        requires definition { HasDefinition self.old.items definition }
        requires theorems { Establishes self.old (definition_at self.old.items definition) (Ok theorems) }
        ensures { AddsDefinition result (definition_at self.old.items definition) (Ok theorems) self.old self.new }
    {
        let within = are_statements_within(&mut self.nodes, &mut self.typings, &theorems)?;
        if !within {
            return Err(Refusal::LogNesting);
        }
        let mut copies = copies(&self.nodes, &theorems)?;
        self.sequents.reserve(copies.len())?;
        self.definitions.reserve(1)?;
        self.signature.accept(&self.nodes, &definition, &theorems)?;
        put_all(&mut self.sequents, &mut copies);
        put_last(
            &mut self.definitions,
            Accepted {
                definition,
                theorems,
            },
        );
        Ok(())
    }

    /// The same, of a sequent that there is.
    fn add_statement(&mut self, statement: Statement) -> Result<(), Refusal>
        requires { Supports self.old (Ok statement) }
        ensures { AddsSequent result (Ok statement) self.old self.new }
    {
        let within = is_statement_within(&mut self.nodes, &mut self.typings, &statement)?;
        if !within {
            return Err(Refusal::LogNesting);
        }
        self.sequents.push(statement)?;
        Ok(())
    }
}

/// The item at a place.
pub(crate) fn at<T>(items: &[T], place: usize) -> Result<&T, Refusal>
    ensures { MatchResult result (λ x. slice_get items.now place ≡ Some x.now)
        (λ e. (e ≡ Refusal.NoSuch) × (slice_get items.now place ≡ None)) }
{
    match items.get(place) {
        Some(item) => Ok(item),
        None => Err(Refusal::NoSuch),
    }
}

/// Copies of statements.
fn copies(nodes: &Nodes, statements: &[Statement]) -> Result<Vec<Statement>, Memory>
    requires { All (HasStatement nodes.now) statements.now }
    ensures has { IfOk result (λ v. All (HasStatement nodes.now) v.items) }
    ensures same { IfOk result (λ v. map (sequent_at nodes.now) v.items ≡ map (sequent_at nodes.now) statements.now) }
{
    let alloc = nodes.allocator();
    let mut made = Vec::new(alloc);
    for statement in statements {
        let copy = copied(alloc, statement)?;
        made.push(copy)?;
    }
    Ok(made)
}

/// Puts an item at the end of a list that has room.
fn put_last<T: Drop>(items: &mut Vec<T>, item: T)
    requires { vec_len items.old < vec_capacity items.old }
    ensures { items.new.items ≡ items.old.items ++ item ∷ [] }
{
    match items.push(item) {
        Ok(()) => (),
        Err(_) => unreachable!(),
    }
}

/// Moves items to the end of a list that has room.
fn put_all<T: Drop>(items: &mut Vec<T>, more: &mut Vec<T>)
    requires { vec_len items.old + vec_len more.old ≤ vec_capacity items.old }
    ensures { items.new.items ≡ items.old.items ++ more.old.items }
{
    match items.append(more) {
        Ok(()) => (),
        Err(_) => unreachable!(),
    }
}

/// The refusal of a step.
fn refused_step(fault: StepFault) -> Refusal
    ensures { result ≡ of_step fault }
{
    match fault {
        StepFault::BadStep => Refusal::BadStep,
        StepFault::Memory(memory) => Refusal::Memory(memory),
    }
}
