//! The check of a type operator.
ghost use Rattle.std.specs.Prelude.{◌≡◌, ◌<◌, ◌&&◌, map, length, IfOk, IfSome};
ghost use Rattle.std.specs.List.{All};
ghost use Rattle.std.specs.Option.{option_map};
ghost use Rattle.ot_logic.specs.Faults.{BadTypeVars};
ghost use Rattle.ot_logic.specs.Hol.{vars_tm};
ghost use Rattle.ot_logic.specs.Naming.{numbers};
ghost use Rattle.ot_logic.specs.Answers.{unless};
ghost use Rattle.ot_laws.specs.Conditions.{are_distinct, are_names_of, checked_type, function_of};
ghost use Rattle.ot_define.specs.Answers.{Checks, tm_at, sequent_at};

use crate::fault::DefineFault;
use crate::premise::{check_closed_but, pass_if};
use crate::sets::{are_among, are_distinct};
use crate::signature::Signature;
use crate::symbols::type_symbols;
use ot_logic::NameId;
use ot_term::{TermId, TermNode, Terms};
use std::alloc::Global;

impl Signature {
    /// Whether a type operator of this name may be defined over the type variables, with the constants `abs` and `rep`,
    /// from a theorem.
    ///
    /// The first refusal counts: `HypothesesPresent`, `NotApplication`, `BadTypeVars`, `Primitive`, `AlreadyDefined`,
    /// `SymbolInUse`, `NotClosed`. Each check of symbols goes over the operator, `abs` and `rep` before the next.
    pub fn check_type(
        &self,
        alloc: Global,
        terms: &Terms,
        name: NameId,
        abs: NameId,
        rep: NameId,
        vars: &[NameId],
        hyps: &[TermId],
        concl: TermId,
    ) -> Result<(), DefineFault>
        requires hyps { All (λ i. i < length terms.now.terms) hyps.now }
        requires concl { concl < length terms.now.terms }
        ensures { Checks result (checked_type numbers self.now.defined self.now.used name abs rep vars.now
            (sequent_at terms.now.terms hyps.now concl)) }
    {
        pass_if(hyps.is_empty(), DefineFault::HypothesesPresent)?;
        let Some(p) = function_of(terms, concl) else {
            return Err(DefineFault::NotApplication);
        };
        check_listed(alloc, terms, vars, p)?;
        let symbols = type_symbols(name, abs, rep);
        self.check_symbols(alloc, terms, hyps, concl, &symbols)?;
        check_closed_but(alloc, terms, &[], p)
    }
}

/// The function of an application.
fn function_of(terms: &Terms, t: TermId) -> Option<TermId>
    requires { t < length terms.now.terms }
    ensures function { option_map (tm_at terms.now.terms) result ≡ function_of (tm_at terms.now.terms t) }
    ensures inside { IfSome result (λ f. f < length terms.now.terms) }
{
    match *terms.node(t) {
        TermNode::App(f, _) => Some(f),
        _ => None,
    }
}

/// Refuses type variables of which one stands twice, or the term has another.
fn check_listed(alloc: Global, terms: &Terms, vars: &[NameId], t: TermId) -> Result<(), DefineFault>
    requires { t < length terms.now.terms }
    ensures { Checks result
        (unless BadTypeVars (are_distinct numbers.same vars.now
        && are_names_of numbers (vars_tm numbers (tm_at terms.now.terms t)) vars.now)) }
{
    let occurring = terms.type_vars(alloc, t)?;
    let distinct = are_distinct(alloc, vars)?;
    let listed = are_among(alloc, occurring.as_slice(), vars)?;
    pass_if(distinct & listed, DefineFault::BadTypeVars)
}
