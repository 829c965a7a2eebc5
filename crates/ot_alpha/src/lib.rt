//! Comparison of terms up to the names of bound variables.
#![tactic(auto)]

ghost use Rattle.std.specs.Prelude.{◌≡◌, ◌<◌, ◌↔◌, length, IsTrue};
ghost use Rattle.ot_logic.specs.NamedTerms.{nameless};
ghost use Rattle.ot_logic.specs.Naming.{numbers};
ghost use Rattle.ot_term.specs.TermTable.{term_at};

use ot_term::{TermId, Terms};

/// Whether two terms of the table differ at most in the names of their bound variables: true exactly where their
/// nameless forms are equal. It takes no memory, and no longer for great terms than for small ones.
pub fn alpha_eq(terms: &Terms, a: TermId, b: TermId) -> bool
    requires left { a < length terms.now.terms }
    requires right { b < length terms.now.terms }
    ensures { IsTrue result
        ↔ (nameless numbers (term_at terms.now.terms a) ≡ nameless numbers (term_at terms.now.terms b)) }
{
    terms.class(a) == terms.class(b)
}
