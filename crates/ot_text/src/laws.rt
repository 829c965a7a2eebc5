ghost use Rattle.ot_text.specs.Laws.{OneType, OneTerm, OneSequent, OneText};
ghost use Rattle.ot_text.specs.Laws.{OneTypeInFront, OneTermInFront, OneSequentInFront};

/// A law: a text is the text of one type, of one well typed term and of one sequent. A sequent is a set of hypotheses
/// and a conclusion: one set has one text. What stands behind a text doesn't change what it is the text of.
pub fn one_text()
    ensures types { OneType }
    ensures terms { OneTerm }
    ensures sequents { OneSequent }
    ensures sets { OneText }
    ensures types_in_front { OneTypeInFront }
    ensures terms_in_front { OneTermInFront }
    ensures sequents_in_front { OneSequentInFront }
{}
