//! Substitutions: a type part and a variable part.
ghost use Rattle.std.specs.Prelude.{◌≡◌, ◌<◌, ◌++◌, [], Some, OnOk, OnErr, length};
ghost use Rattle.std.specs.List.{All};
ghost use Rattle.std.specs.Map.{lookup};
ghost use Rattle.ot_logic.specs.NamedTerms.{named_type};
ghost use Rattle.ot_logic.specs.Naming.{numbers};
ghost use Rattle.ot_type.specs.TypeTable.{type_at};
ghost use Rattle.ot_term.specs.Term.{TermTable};
ghost use Rattle.ot_term.specs.TermTable.{term_at};
ghost use Rattle.ot_subst.specs.Substitution.{same_key};

use indexmap::IndexMap;
use ot_logic::Memory;
use ot_term::{TermId, Terms, VarKey};
use ot_type::TypeSubst;
use smallvec::SmallVec;
use std::alloc::Global;
use std::marker::Model;

/// How many pairs are looked through one by one.
const FEW: usize = 8;

/// A substitution: types for names, and terms for variables. The type part is put in first, then the variable part at
/// once; a variable is matched by its name and by its type after the first part.
#[derive(Drop)]
pub struct Subst {
    types: TypeSubst,
    // The first pairs. Most substitutions have one or two, for which nothing is allocated, and no more than few are here.
    first: SmallVec<(VarKey, TermId), 2>,
    // Those that come after, by hash.
    others: IndexMap<VarKey, TermId>,
}

impl Model for Subst {
    ghost use Rattle.std.specs.Prelude.{◌++◌};
    ghost use Rattle.ot_subst.specs.Substitution.{Substitution, coded_substitution};

    ghost Value = { Substitution };

    ghost coded = { coded_substitution };

    ghost view = { λ s. record { types = s.types; terms = s.first.items ++ s.others.entries } };
}

impl Subst {
    ghost use Rattle.ot_subst.specs.Substitution.{term_for, with_pair, IsSubstOf};

    /// The substitution with this type part and no variables.
    pub fn new(alloc: Global, types: TypeSubst) -> Subst
        ensures pairs { result ≡ record { types = types; terms = [] } }
        ensures fits { (t : TermTable) → All (λ p. p.1 < length t.types) types → IsSubstOf t result }
    {
        Subst {
            types,
            first: SmallVec::new(alloc),
            others: IndexMap::new(alloc),
        }
    }

    /// Adds a variable and its term, a term of this table that has the variable's type. A variable that is there
    /// keeps its term. After running out of memory the substitution is as it was.
    pub fn add(&mut self, terms: &Terms, v: VarKey, t: TermId) -> Result<(), Memory>
        requires term { t < length terms.now.terms }
        requires variable { v.ty < length terms.now.types }
        requires typed { named_type numbers (term_at terms.now.terms t) ≡ Some (type_at terms.now.types v.ty) }
        ensures ok { OnOk result (self.new ≡ with_pair self.old v t) }
        ensures err { OnErr result (self.new ≡ self.old) }
        ensures fits { IsSubstOf terms.now self.old → IsSubstOf terms.now self.new }
    {
        // The table is asked for by the contract alone.
        let _ = terms;
        self.insert(v, t)
    }

    /// Adds a pair.
    pub(crate) fn insert(&mut self, v: VarKey, t: TermId) -> Result<(), Memory>
        ensures ok { OnOk result (self.new ≡ with_pair self.old v t) }
        ensures err { OnErr result (self.new ≡ self.old) }
    {
        if self.get(&v).is_some() {
            return Ok(());
        }
        if self.first.len() < FEW && self.others.is_empty() {
            self.first.push((v, t))?;
        } else {
            self.others.insert(v, t)?;
        }
        Ok(())
    }

    /// The term of a variable.
    pub(crate) fn get(&self, v: &VarKey) -> Option<TermId>
        ensures { result ≡ term_for self.now v.now }
    {
        match term_among(self.first.as_slice(), v) {
            Some(t) => Some(t),
            None => self.others.get(v).copied(),
        }
    }

    /// The type part.
    pub(crate) fn types(&self) -> &TypeSubst
        ensures { result.now ≡ self.now.types }
    {
        &self.types
    }

    /// The variable part: the first pairs, and those that come after.
    pub(crate) fn terms(&self) -> (&[(VarKey, TermId)], &IndexMap<VarKey, TermId>)
        ensures { self.now.terms ≡ result.0.now ++ result.1.now.entries }
    {
        (self.first.as_slice(), &self.others)
    }
}

/// The term of a variable among pairs that are looked through.
fn term_among(pairs: &[(VarKey, TermId)], v: &VarKey) -> Option<TermId>
    ensures { result ≡ lookup (same_key v.now) pairs.now }
{
    'each: for pair in pairs {
        if *v == pair.0 {
            return Some(pair.1);
        }
    }
    None
}
