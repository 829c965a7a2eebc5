//! Laws of the definitions: each call has an empty body, and its postcondition is a theorem.
ghost use Rattle.ot_find.specs.Matches.{MatchesAreThose, MatchesOfOneMore};

/// The computed matches are exactly the pairs of a source and an export of it that the pattern matches, each once, in
/// order, with the maps that match it. Those of a further source stand behind the others.
pub fn find_law()
    ensures those { MatchesAreThose }
    ensures one_more { MatchesOfOneMore }
{}
