ghost use Rattle.std.specs.Prelude.{ℕ, List};
ghost use Rattle.ot_scan.specs.Lines.{NamesLimit};

/// A law: the fault of a piece is that of the earlier of its two places, at one place the article's.
pub fn earlier_limit()
    ensures { (max before : ℕ) (piece : List ℕ) → NamesLimit max before piece }
{}
