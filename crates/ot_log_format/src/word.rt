ghost use Rattle.std.specs.Prelude.{◌≡◌};
ghost use Rattle.ot_log_format.specs.Tokens.{spelling, record_of};

/// The word with which a record begins.
#[derive(Clone, Copy, PartialEq, Eq)]
pub enum RecordWord {
    TyVar,
    TyOp,
    Free,
    Con,
    Bound,
    App,
    Lam,
    Refl,
    Assume,
    EqMp,
    AbsThm,
    AppThm,
    DeductAntisym,
    BetaConv,
    Subst,
    Assumption,
    Constant,
    Constants,
    TypeOperator,
    Result,
}

const WORDS: [RecordWord; 20] = [
    RecordWord::TyVar,
    RecordWord::TyOp,
    RecordWord::Free,
    RecordWord::Con,
    RecordWord::Bound,
    RecordWord::App,
    RecordWord::Lam,
    RecordWord::Refl,
    RecordWord::Assume,
    RecordWord::EqMp,
    RecordWord::AbsThm,
    RecordWord::AppThm,
    RecordWord::DeductAntisym,
    RecordWord::BetaConv,
    RecordWord::Subst,
    RecordWord::Assumption,
    RecordWord::Constant,
    RecordWord::Constants,
    RecordWord::TypeOperator,
    RecordWord::Result,
];

impl RecordWord {
    /// How the record begins.
    pub fn text(self) -> &'static [u8]
        ensures { result.now ≡ spelling self }
    {
        match self {
            RecordWord::TyVar => b"tyvar",
            RecordWord::TyOp => b"tyop",
            RecordWord::Free => b"free",
            RecordWord::Con => b"con",
            RecordWord::Bound => b"bound",
            RecordWord::App => b"app",
            RecordWord::Lam => b"lam",
            RecordWord::Refl => b"refl",
            RecordWord::Assume => b"assume",
            RecordWord::EqMp => b"eqMp",
            RecordWord::AbsThm => b"absThm",
            RecordWord::AppThm => b"appThm",
            RecordWord::DeductAntisym => b"deductAntisym",
            RecordWord::BetaConv => b"betaConv",
            RecordWord::Subst => b"subst",
            RecordWord::Assumption => b"assumption",
            RecordWord::Constant => b"constant",
            RecordWord::Constants => b"constants",
            RecordWord::TypeOperator => b"typeOperator",
            RecordWord::Result => b"result",
        }
    }

    /// The record that begins so.
    pub fn find(text: &[u8]) -> Option<RecordWord>
        ensures { result ≡ record_of text.now }
    {
        WORDS.iter().copied().find(|w| w.text() == text)
    }
}
