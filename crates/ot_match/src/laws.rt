//! Laws of the definitions: each call has an empty body, and its postcondition is a theorem.
ghost use Rattle.ot_logic.specs.Naming.{names, numbers};
ghost use Rattle.ot_match.specs.Walk.{WalkMatches};
ghost use Rattle.ot_match.specs.Laws.{MatchedIsMatch, NoneMatch, OneMatch, AnySubstitution};

/// The computed maps are those that match a pattern with a term. At most one pair of maps does, and
/// the keys lose no match. A walk over the pattern computes them.
pub fn match_law()
    ensures of_names { MatchedIsMatch names }
    ensures of_numbers { MatchedIsMatch numbers }
    ensures none_of_names { NoneMatch names }
    ensures none_of_numbers { NoneMatch numbers }
    ensures one_of_names { OneMatch names }
    ensures one_of_numbers { OneMatch numbers }
    ensures any_of_names { AnySubstitution names }
    ensures any_of_numbers { AnySubstitution numbers }
    ensures walk_of_names { WalkMatches names }
    ensures walk_of_numbers { WalkMatches numbers }
{}
