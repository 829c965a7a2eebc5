ghost use Rattle.ot_read.specs.Laws.{LinesReadByForms, TermsReadByForms, TextsReadByForms};

use ot_forms::one_reading;

/// A law: what a line is read as, from left to right, is what the forms say of it; and so for a text of one term, and
/// for lines one after another.
pub fn as_the_forms_say()
    ensures lines { LinesReadByForms }
    ensures terms { TermsReadByForms }
    ensures texts { TextsReadByForms }
{
    one_reading();
}
