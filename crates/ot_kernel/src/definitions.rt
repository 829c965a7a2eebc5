//! Definitions: constants and type operators that theorems give their meaning.
ghost use Rattle.std.specs.Prelude.{◌≡◌, ◌<◌, ◌++◌, ◌∷◌, [], map, length, Ok, IfOk, IfErr, OnOk, OnErr};
ghost use Rattle.std.specs.List.{All};
ghost use Rattle.ot_logic.specs.Lists.{IsSameSet};
ghost use Rattle.ot_logic.specs.Trees.{ConDef, ListDef};
ghost use Rattle.ot_logic.specs.Hol.{symbols_of, symbols_all, theorems, IsNext};
ghost use Rattle.ot_logic.specs.Naming.{names as name_alphabet, numbers};
ghost use Rattle.ot_logic.specs.Renamed.{map_symbol};
ghost use Rattle.ot_laws.specs.Conditions.{checked_const, checked_list};
ghost use Rattle.ot_kernel.specs.State.{name_at, variable_at, term_at, terms_at, theorem_at, Keeps};
ghost use Rattle.ot_kernel.specs.Definitions.{number_of};
ghost use Rattle.ot_kernel.specs.Spelled.{sequent_of, IsInside};
ghost use Rattle.ot_kernel.specs.Numbered.{tms_at};
ghost use Rattle.ot_term.specs.Symbols.{symbol_of};
ghost use Rattle.ot_define.specs.Signature.{with_symbols};
ghost use Rattle.ot_kernel.specs.Accepting.{accepting, defining, IsAcceptable};
ghost use Rattle.ot_kernel.specs.Defining.{all_defined, all_used, const_definition, list_definition, zipped};
ghost use Rattle.ot_kernel.specs.Answers.{RefusesBy, IsSymbolIn, Defines};
ghost use Rattle.ot_logic.specs.RanOut.{ran_out};

use crate::defining::{const_theorem, list_theorem};
use crate::definition::Definition;
use crate::fault::RuleFault;
use crate::kernel::Kernel;
use crate::theorem::{Theorem, ThmId};
use ot_define::{Signature, constant_symbol, constant_symbols};
use ot_logic::{Memory, NameId};
use ot_term::{Symbol, TermId, Terms, VarKey};
use std::alloc::Global;

impl Kernel {
    /// The theorem of a constant that is defined as a term: that it equals the term.
    ///
    /// The first refusal counts: `Primitive`, `AlreadyDefined`, `SymbolInUse`, `NotClosed`, `TypeVarEscapes`,
    /// `Nesting`.
    pub fn define_const(&mut self, name: NameId, t: TermId) -> Result<ThmId, RuleFault>
        requires name { name < length self.old.names }
        requires t { t < length self.old.terms }
        ensures defines { Defines result (const_definition name_alphabet self.old.definitions (name_at self.old name)
            (term_at self.old t)) self.old self.new }
        ensures symbols { IfErr result (IsSymbolIn (length self.new.names)) }
        ensures keeps { Keeps self.old self.new }
    {
        self.check_constant(name, t)?;
        let theorem = const_theorem(&mut self.terms, name, t)?;
        self.accept_constant(name, t, theorem)
    }

    /// Whether a constant may be defined as the term.
    fn check_constant(&self, name: NameId, t: TermId) -> Result<(), RuleFault>
        requires name { name < length self.now.names }
        requires t { t < length self.now.terms }
        ensures passed { OnOk result (checked_const name_alphabet (all_defined name_alphabet self.now.definitions)
            (all_used name_alphabet self.now.definitions) (name_at self.now name) (term_at self.now t) ≡ Ok tt) }
        ensures next { OnOk result (IsNext name_alphabet self.now.assumptions self.now.definitions
            (ConDef (name_at self.now name) (term_at self.now t))) }
        ensures refused { IfErr result (λ e. RefusesBy (name_at self.now) e
            (const_definition name_alphabet self.now.definitions (name_at self.now name) (term_at self.now t))) }
        ensures symbols { IfErr result (IsSymbolIn (length self.now.names)) }
    {
        let checked = self.signature.check_const(self.alloc, &self.terms, name, t);
        Ok(checked?)
    }

    /// The number of the theorem of a constant that may be defined.
    fn accept_constant(
        &mut self,
        name: NameId,
        t: TermId,
        theorem: Theorem,
    ) -> Result<ThmId, RuleFault>
        requires name { name < length self.old.names }
        requires t { t < length self.old.terms }
        requires inside { IsInside (length self.old.terms) theorem }
        requires next { IsNext name_alphabet self.old.assumptions self.old.definitions
            (ConDef (name_at self.old name) (term_at self.old t)) }
        requires theorem { sequent_of self.old.terms theorem ∷ []
            ≡ theorems name_alphabet (ConDef (name_at self.old name) (term_at self.old t)) }
        ensures ok { IfOk result (λ id. (id ≡ length self.old.theorems)
            × (self.new ≡ defining self.old (ConDef (name_at self.old name) (term_at self.old t)))) }
        ensures err { IfErr result (λ e. (self.new ≡ self.old) × (e ≡ RuleFault.Memory ran_out)) }
    {
        let id = ThmId(self.theorems.len());
        let used = self.symbols_in(&[t, theorem.concl])?;
        let mut theorems = Vec::new(self.alloc);
        theorems.push(theorem)?;
        let definition = Definition::Con { name, th: id };
        let defined = [constant_symbol(name)];
        self.accept(theorems, definition, &defined, used.as_slice())?;
        Ok(id)
    }

    /// Whether constants may be defined for the variables of a theorem.
    fn check_constants(&self, names: &[NameId], vars: &[VarKey], th: ThmId) -> Result<(), RuleFault>
        requires names { All (λ n. n < length self.now.names) names.now }
        requires vars { All (λ v. (v.name < length self.now.names) × (v.ty < length self.now.types)) vars.now }
        requires pairs { length names.now ≡ length vars.now }
        requires th { th < length self.now.theorems }
        ensures passed { OnOk result (checked_list name_alphabet (all_defined name_alphabet self.now.definitions)
            (all_used name_alphabet self.now.definitions) (map (name_at self.now) names.now)
            (map (variable_at self.now) vars.now) (theorem_at self.now th) ≡ Ok tt) }
        ensures next { OnOk result
            (IsNext name_alphabet self.now.assumptions self.now.definitions
            (ListDef (zipped name_alphabet (map (name_at self.now) names.now) (map (variable_at self.now) vars.now))
            (theorem_at self.now th))) }
        ensures refused { IfErr result (λ e. RefusesBy (name_at self.now) e
            (list_definition name_alphabet self.now.definitions (map (name_at self.now) names.now)
            (map (variable_at self.now) vars.now) (theorem_at self.now th))) }
        ensures symbols { IfErr result (IsSymbolIn (length self.now.names)) }
    {
        let theorem = &self.theorems[th.0];
        Ok(
            self.signature.check_list(
                self.alloc,
                &self.terms,
                names,
                vars,
                &theorem.hyps,
                theorem.concl,
            )?,
        )
    }

    /// The number of the theorem of constants that may be defined.
    fn accept_constants(
        &mut self,
        names: &[NameId],
        vars: &[VarKey],
        premise: ThmId,
        theorem: Theorem,
    ) -> Result<ThmId, RuleFault>
        requires names { All (λ n. n < length self.old.names) names.now }
        requires vars { All (λ v. (v.name < length self.old.names) × (v.ty < length self.old.types)) vars.now }
        requires pairs { length names.now ≡ length vars.now }
        requires premise { premise < length self.old.theorems }
        requires inside { IsInside (length self.old.terms) theorem }
        requires next { IsNext name_alphabet self.old.assumptions self.old.definitions
            (ListDef (zipped name_alphabet (map (name_at self.old) names.now) (map (variable_at self.old) vars.now))
            (theorem_at self.old premise)) }
        requires theorem { sequent_of self.old.terms theorem ∷ []
            ≡ theorems name_alphabet
            (ListDef (zipped name_alphabet (map (name_at self.old) names.now) (map (variable_at self.old) vars.now))
            (theorem_at self.old premise)) }
        ensures ok { IfOk result (λ id. (id ≡ length self.old.theorems)
            × (self.new ≡ defining self.old
            (ListDef (zipped name_alphabet (map (name_at self.old) names.now) (map (variable_at self.old) vars.now))
            (theorem_at self.old premise)))) }
        ensures err { IfErr result (λ e. (self.new ≡ self.old) × (e ≡ RuleFault.Memory ran_out)) }
    {
        let id = ThmId(self.theorems.len());
        let used = self.symbols_with(premise, &[theorem.concl])?;
        let defined = constant_symbols(self.alloc, names)?;
        let definition = Definition::List {
            names: Vec::from_slice(self.alloc, names)?,
            vars: Vec::from_slice(self.alloc, vars)?,
            premise,
            th: id,
        };
        let mut theorems = Vec::new(self.alloc);
        theorems.push(theorem)?;
        self.accept(theorems, definition, defined.as_slice(), used.as_slice())?;
        Ok(id)
    }

    /// The symbols of a theorem and of terms.
    pub(crate) fn symbols_with(&self, th: ThmId, ids: &[TermId]) -> Result<Vec<Symbol>, Memory>
        requires th { th < length self.now.theorems }
        requires ids { All (λ i. i < length self.now.terms) ids.now }
        ensures symbols { IfOk result (λ v. IsSameSet (map (map_symbol (name_at self.now)) (map symbol_of v.items))
            (symbols_of name_alphabet (theorem_at self.now th)
            ++ symbols_all name_alphabet (terms_at self.now ids.now))) }
        ensures below { IfOk result (λ v. All (λ s. number_of s < length self.now.names) (map symbol_of v.items)) }
    {
        let mut all = Vec::from_slice(self.alloc, self.hyps(th))?;
        all.push(self.concl(th))?;
        all.extend_from_slice(ids)?;
        self.symbols_in(all.as_slice())
    }

    /// The symbols of terms.
    fn symbols_in(&self, ids: &[TermId]) -> Result<Vec<Symbol>, Memory>
        requires { All (λ i. i < length self.now.terms) ids.now }
        ensures symbols { IfOk result (λ v. IsSameSet (map (map_symbol (name_at self.now)) (map symbol_of v.items))
            (symbols_all name_alphabet (terms_at self.now ids.now))) }
        ensures below { IfOk result (λ v. All (λ s. number_of s < length self.now.names) (map symbol_of v.items)) }
    {
        symbols_of(self.alloc, &self.terms, ids)
    }

    /// The theorem of constants that are defined for the variables of a theorem, whose hypotheses give each variable
    /// its term: the conclusion with the constants for the variables, pair by pair.
    ///
    /// The first refusal counts: `BadDefinitionList`, `Primitive`, `AlreadyDefined`, `SymbolInUse`, `NotClosed`,
    /// `TypeVarEscapes`.
    pub fn define_list(
        &mut self,
        names: &[NameId],
        vars: &[VarKey],
        th: ThmId,
    ) -> Result<ThmId, RuleFault>
        requires names { All (λ n. n < length self.old.names) names.now }
        requires vars { All (λ v. (v.name < length self.old.names) × (v.ty < length self.old.types)) vars.now }
        requires pairs { length names.now ≡ length vars.now }
        requires th { th < length self.old.theorems }
        ensures defines { Defines result (list_definition name_alphabet self.old.definitions (map (name_at self.old) names.now)
            (map (variable_at self.old) vars.now) (theorem_at self.old th)) self.old self.new }
        ensures symbols { IfErr result (IsSymbolIn (length self.new.names)) }
        ensures keeps { Keeps self.old self.new }
    {
        self.check_constants(names, vars, th)?;
        let premise = &self.theorems[th.0];
        let theorem = list_theorem(
            self.alloc,
            &mut self.terms,
            &mut self.names,
            names,
            vars,
            premise,
        )?;
        self.accept_constants(names, vars, th, theorem)
    }

    /// Adds a definition that may be next, with its theorems and its symbols. After running out of memory all is as before.
    pub(crate) fn accept(
        &mut self,
        theorems: Vec<Theorem>,
        definition: Definition,
        defined: &[Symbol],
        used: &[Symbol],
    ) -> Result<(), Memory>
        requires { IsAcceptable self.old theorems.items definition (map symbol_of defined.now)
            (map symbol_of used.now) }
        ensures ok { OnOk result (self.new ≡ accepting self.old theorems.items definition) }
        ensures err { OnErr result (self.new ≡ self.old) }
    {
        self.definitions.push(definition)?;
        if let Err(refused) = add_to(
            &mut self.theorems,
            &mut self.signature,
            theorems,
            defined,
            used,
        ) {
            let _ = self.definitions.pop();
            return Err(refused);
        }
        Ok(())
    }
}

/// The symbols of terms over the table.
fn symbols_of(alloc: Global, terms: &Terms, ids: &[TermId]) -> Result<Vec<Symbol>, Memory>
    requires { All (λ i. i < length terms.now.terms) ids.now }
    ensures { IfOk result
        (λ v. IsSameSet (map symbol_of v.items) (symbols_all numbers (tms_at terms.now.terms ids.now))) }
{
    let mut symbols = Vec::new(alloc);
    for id in ids {
        let more = terms.symbols(alloc, *id)?;
        symbols.extend_from_slice(more.as_slice())?;
    }
    Ok(symbols)
}

/// Adds theorems to a list, and symbols to a signature. After running out of memory both are as before.
fn add_to(
    theorems: &mut Vec<Theorem>,
    signature: &mut Signature,
    mut more: Vec<Theorem>,
    defined: &[Symbol],
    used: &[Symbol],
) -> Result<(), Memory>
    ensures theorems { OnOk result (theorems.new.items ≡ theorems.old.items ++ more.items) }
    ensures symbols { OnOk result (signature.new
        ≡ record {
          defined = with_symbols signature.old.defined (map symbol_of defined.now);
          used = with_symbols
              signature.old.used (map symbol_of used.now);
        }) }
    ensures err { OnErr result ((theorems.new.items ≡ theorems.old.items) × (signature.new ≡ signature.old)) }
{
    let before = theorems.len();
    theorems.append(&mut more)?;
    if let Err(refused) = signature.add(defined, used) {
        theorems.truncate(before);
        return Err(refused);
    }
    Ok(())
}
