//! Substitutions over the numbers of a kernel, pair by pair.
ghost use Rattle.std.specs.Prelude.{◌≡◌, ◌<◌, length, if◌then◌else◌, IfOk, OnOk, OnErr};
ghost use Rattle.ot_logic.specs.Naming.{names};
ghost use Rattle.ot_logic.specs.Rules.{has_type};
ghost use Rattle.ot_kernel.specs.State.{name_at, type_at, variable_at, term_at};
ghost use Rattle.ot_kernel.specs.Pairs.{with_type, with_term, type_pairs, term_pairs, AreTypePairs, IsSubstIn};

use crate::kernel::Kernel;
use ot_logic::{Memory, NameId};
use ot_subst::Subst;
use ot_term::{TermId, VarKey};
use ot_type::{TypeId, TypeSubst};

impl Kernel {
    /// Adds a name and its type to the type part of a substitution. A name that has a type keeps it.
    pub fn add_type(&self, s: &mut TypeSubst, name: NameId, ty: TypeId) -> Result<(), Memory>
        requires name { name < length self.now.names }
        requires ty { ty < length self.now.types }
        requires fits { AreTypePairs self.now s.old }
        ensures ok { OnOk result (type_pairs self.now s.new
            ≡ with_type (type_pairs self.now s.old) (name_at self.now name) (type_at self.now ty)) }
        ensures err { OnErr result (s.new ≡ s.old) }
        ensures fits { AreTypePairs self.now s.new }
    {
        // The names and types are asked for by the contract alone.
        let _names = &self.names;
        s.add(name, ty)
    }

    /// Adds a variable and its term to a substitution, where the term has the variable's type; whether it has. A
    /// variable that has a term keeps it.
    pub fn add_term(&self, s: &mut Subst, v: VarKey, t: TermId) -> Result<bool, Memory>
        requires name { v.name < length self.now.names }
        requires ty { v.ty < length self.now.types }
        requires t { t < length self.now.terms }
        requires fits { IsSubstIn self.now s.old }
        ensures typed { IfOk result (λ b. b ≡ has_type names (term_at self.now t) (type_at self.now v.ty)) }
        ensures pairs { IfOk result (λ b. term_pairs self.now s.new
            ≡ (if b then with_term (term_pairs self.now s.old) (variable_at self.now v) (term_at self.now t) else
            term_pairs self.now s.old)) }
        ensures types { s.new.types ≡ s.old.types }
        ensures err { OnErr result (s.new ≡ s.old) }
        ensures fits { IsSubstIn self.now s.new }
    {
        if self.terms.type_of(t) != v.ty {
            return Ok(false);
        }
        s.add(&self.terms, v, t)?;
        Ok(true)
    }
}
