//! The law that a text names one thing.
ghost use Rattle.ot_print.specs.Laws.{TextsNameOne};

/// A law: a text is that of one well typed sequent, and of one definition with a well typed premise, up to the order
/// of hypotheses; also where bytes follow, behind a sequent none that begin with a digit. Accepted definitions have such
/// premises.
pub fn one_text()
    ensures { TextsNameOne }
{
    ot_text::one_text();
}
