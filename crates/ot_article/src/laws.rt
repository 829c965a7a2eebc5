//! The laws of the written article: each call states one, by the laws of the machine.
ghost use Rattle.ot_article.specs.Article.{MinimisedLaw, WrittenArticleLaw};

use ot_machine::{fresh_law, lines_law};

/// The bytes of the written article of a lawful run's exports run alone to their end, export the
/// same, with the needed definitions and assumptions alone, and are lean.
pub fn written_article_law()
    ensures { WrittenArticleLaw }
{}

/// So do those of the exports of whatever article was run alone.
pub fn minimised_law()
    ensures { MinimisedLaw }
{
    fresh_law();
    lines_law();
}
