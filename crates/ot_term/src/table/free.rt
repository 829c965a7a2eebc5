//! The free variables of a term.
ghost use Rattle.std.specs.Prelude.{◌≡◌, ◌↔◌, ℕ, ◌<◌, length, map, IfOk, Decides};
ghost use Rattle.std.specs.List.{All};
ghost use Rattle.ot_logic.specs.Hol.{IsClosed, IsFree, is_free};
ghost use Rattle.ot_logic.specs.NamedTerms.{nameless};
ghost use Rattle.ot_logic.specs.Lists.{AreDistinct, IsMember};
ghost use Rattle.ot_logic.specs.Naming.{numbers};
ghost use Rattle.ot_logic.specs.Trees.{Variable};
ghost use Rattle.ot_term.specs.Free.{key_at, var_key};

use crate::table::{Terms, class_beside};
use crate::term::{TermId, VarKey};
use ot_class::Key;
use ot_logic::{Memory, NameId};
use ot_type::TypeId;
use std::alloc::Global;

impl Terms {
    ghost use Rattle.ot_term.specs.TermTable.{term_at, variable_of, IsTermTable};
    ghost use Rattle.ot_term.specs.Free.{AreFree, AreTypesOf};

    /// The free variables of a term, each once. They stand with its class: no term is walked.
    pub fn free_vars(&self, alloc: Global, id: TermId) -> Result<Vec<VarKey>, Memory>
        requires { id < length self.now.terms }
        ensures within { IfOk result (λ vars. All (λ v. v.ty < length self.now.types) vars.items) }
        ensures free { IfOk result
            (λ vars. (w : Variable ℕ) → IsMember w (map (variable_of self.now.types) vars.items)
            ↔ IsFree numbers w (nameless numbers (term_at self.now.terms id))) }
        ensures once { IfOk result (λ vars. AreDistinct vars.items) }
    {
        let keys = self.free_keys(id)?;
        var_keys(alloc, keys.as_slice())
    }

    /// The free variables of a term that have a name, each once. No term is walked.
    pub fn free_named(&self, alloc: Global, name: NameId, id: TermId) -> Result<Vec<VarKey>, Memory>
        requires { id < length self.now.terms }
        ensures within { IfOk result (λ vars. All (λ v. v.ty < length self.now.types) vars.items) }
        ensures free { IfOk result
            (λ vars. (w : Variable ℕ) → IsMember w (map (variable_of self.now.types) vars.items)
            ↔ ((w.name ≡ name) × IsFree numbers w (nameless numbers (term_at self.now.terms id)))) }
        ensures once { IfOk result (λ vars. AreDistinct vars.items) }
    {
        let types = self.types_of_name(alloc, name, id)?;
        keys_of(alloc, name, &types)
    }

    /// Whether a variable is free in a term. No term is walked.
    pub fn is_free(&self, alloc: Global, v: &VarKey, id: TermId) -> Result<bool, Memory>
        requires ty { v.now.ty < length self.now.types }
        requires term { id < length self.now.terms }
        ensures { IfOk result (λ free. free ≡ is_free numbers (variable_of self.now.types v.now)
            (nameless numbers (term_at self.now.terms id))) }
    {
        let types = self.types_of_name(alloc, v.name, id)?;
        Ok(types.contains(&v.ty))
    }

    /// Whether no variable is free in a term.
    pub fn is_closed(&self, id: TermId) -> bool
        requires { id < length self.now.terms }
        ensures { Decides result (IsClosed numbers (nameless numbers (term_at self.now.terms id))) }
    {
        self.classes.is_closed(class_beside(&self.nodes, id))
    }

    /// The types at which variables of a name are free in a term, each once.
    fn types_of_name(&self, alloc: Global, name: NameId, id: TermId) -> Result<Vec<TypeId>, Memory>
        requires { id < length self.now.terms }
        ensures types { IfOk result (λ types. AreTypesOf self.now.types name (term_at self.now.terms id) types.items) }
        ensures table { IsTermTable self.now }
    {
        let class = class_beside(&self.nodes, id);
        self.classes.types_of(alloc, name, class)
    }

    /// The free variables of a term's class, each once.
    fn free_keys(&self, id: TermId) -> Result<Vec<Key>, Memory>
        requires { id < length self.now.terms }
        ensures { IfOk result (λ keys. AreFree self.now.types (term_at self.now.terms id) (map var_key keys.items)) }
    {
        let class = class_beside(&self.nodes, id);
        self.classes.free_vars(class)
    }
}

/// The variables of a class, as those of a term.
fn var_keys(alloc: Global, keys: &[Key]) -> Result<Vec<VarKey>, Memory>
    ensures { IfOk result (λ vars. vars.items ≡ map var_key keys.now) }
{
    Ok(
        keys.iter()
            .map(|key| VarKey {
                name: key.name,
                ty: key.ty,
            })
            .collect(alloc)?,
    )
}

/// The variables of a name at some types.
fn keys_of(alloc: Global, name: NameId, types: &[TypeId]) -> Result<Vec<VarKey>, Memory>
    ensures { IfOk result (λ vars. vars.items ≡ map (key_at name) types.now) }
{
    Ok(
        types
            .iter()
            .map(|ty| VarKey { name, ty: *ty })
            .collect(alloc)?,
    )
}
