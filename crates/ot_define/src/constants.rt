//! The check of a constant.
ghost use Rattle.std.specs.Prelude.{◌<◌, length};
ghost use Rattle.ot_logic.specs.Naming.{numbers};
ghost use Rattle.ot_laws.specs.Conditions.{checked_const};
ghost use Rattle.ot_define.specs.Answers.{Checks, tm_at};

use crate::fault::DefineFault;
use crate::premise::{check_closed_but, check_type_vars};
use crate::signature::Signature;
use crate::symbols::constant_symbol;
use ot_logic::NameId;
use ot_term::{TermId, Terms};
use std::alloc::Global;

impl Signature {
    /// Whether a constant of this name may be defined as the term.
    ///
    /// The first refusal counts: `Primitive`, `AlreadyDefined`, `SymbolInUse`, `NotClosed`, `TypeVarEscapes`.
    pub fn check_const(
        &self,
        alloc: Global,
        terms: &Terms,
        name: NameId,
        t: TermId,
    ) -> Result<(), DefineFault>
        requires { t < length terms.now.terms }
        ensures { Checks result
            (checked_const numbers self.now.defined self.now.used name (tm_at terms.now.terms t)) }
    {
        let symbol = constant_symbol(name);
        self.check_symbols(alloc, terms, &[], t, &[symbol])?;
        check_closed_but(alloc, terms, &[], t)?;
        check_type_vars(alloc, terms, t)
    }
}
