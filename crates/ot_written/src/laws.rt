//! Laws of what is needed for exports and of their written article: each call has an empty body, and its postcondition is a theorem.
ghost use Rattle.std.specs.Prelude.{ℕ};
ghost use Rattle.ot_logic.specs.Names.{Name};
ghost use Rattle.ot_written.specs.Laws.{NeededSetLaw, RenamedArticleLaw, SameOriginLaw, StoredEnoughLaw};

/// The needed definitions are those that the roots lead to, the least closed set, in their old order and each once;
/// among themselves they are all needed. The needed origins are those that the roots lead to.
pub fn needed_set_law()
    ensures of_names { NeededSetLaw Name }
    ensures of_numbers { NeededSetLaw ℕ }
{}

/// The test of origins decides whether they are one.
pub fn same_origin_law()
    ensures of_names { SameOriginLaw Name }
    ensures of_numbers { SameOriginLaw ℕ }
{}

/// To store what has two uses or more is enough for an article to be lean.
pub fn stored_enough_law()
    ensures of_names { StoredEnoughLaw Name }
    ensures of_numbers { StoredEnoughLaw ℕ }
{}

/// The article over names is the article over their numbers, with the names on its lines.
pub fn renamed_article_law()
    ensures { RenamedArticleLaw ℕ Name }
{}
