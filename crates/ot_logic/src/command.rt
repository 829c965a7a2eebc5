ghost use Rattle.std.specs.Prelude.{◌≡◌, ◌==◌, [], ◌∷◌, length, find};
ghost use Rattle.std.specs.List.{filter};
ghost use Rattle.std.specs.Str.{bytes_eq};
ghost use Rattle.ot_logic.specs.Commands.{spelling, commands, command_of};

/// A command word of an article.
#[derive(Clone, Copy, PartialEq, Eq, Hash)]
pub enum Cmd {
    Version,
    Nil,
    Cons,
    HdTl,
    Def,
    Ref,
    Remove,
    Pop,
    Pragma,
    TypeOp,
    OpType,
    VarType,
    Var,
    VarTerm,
    Const,
    ConstTerm,
    AppTerm,
    AbsTerm,
    Refl,
    Assume,
    EqMp,
    AbsThm,
    AppThm,
    DeductAntisym,
    BetaConv,
    Subst,
    Sym,
    Trans,
    ProveHyp,
    Axiom,
    Thm,
    DefineConst,
    DefineConstList,
    DefineTypeOp,
}

impl Cmd {
    /// How the command is written.
    pub fn text(self) -> &'static [u8]
        ensures { result.now ≡ spelling self }
    {
        match self {
            Cmd::Version => b"version",
            Cmd::Nil => b"nil",
            Cmd::Cons => b"cons",
            Cmd::HdTl => b"hdTl",
            Cmd::Def => b"def",
            Cmd::Ref => b"ref",
            Cmd::Remove => b"remove",
            Cmd::Pop => b"pop",
            Cmd::Pragma => b"pragma",
            Cmd::TypeOp => b"typeOp",
            Cmd::OpType => b"opType",
            Cmd::VarType => b"varType",
            Cmd::Var => b"var",
            Cmd::VarTerm => b"varTerm",
            Cmd::Const => b"const",
            Cmd::ConstTerm => b"constTerm",
            Cmd::AppTerm => b"appTerm",
            Cmd::AbsTerm => b"absTerm",
            Cmd::Refl => b"refl",
            Cmd::Assume => b"assume",
            Cmd::EqMp => b"eqMp",
            Cmd::AbsThm => b"absThm",
            Cmd::AppThm => b"appThm",
            Cmd::DeductAntisym => b"deductAntisym",
            Cmd::BetaConv => b"betaConv",
            Cmd::Subst => b"subst",
            Cmd::Sym => b"sym",
            Cmd::Trans => b"trans",
            Cmd::ProveHyp => b"proveHyp",
            Cmd::Axiom => b"axiom",
            Cmd::Thm => b"thm",
            Cmd::DefineConst => b"defineConst",
            Cmd::DefineConstList => b"defineConstList",
            Cmd::DefineTypeOp => b"defineTypeOp",
        }
    }

    /// The command that is written so.
    /// Once a line: readers of articles and of other texts are to have it inline.
    #[inline(always)]
    pub fn find(text: &[u8]) -> Option<Cmd>
        ensures { result ≡ command_of text.now }
    {
        match text.len() {
            3 => of_three(text),
            4 => of_four(text),
            5 => of_five(text),
            6 => of_six(text),
            7 => of_seven(text),
            8 => of_eight(text),
            9 => only(Cmd::ConstTerm, text),
            11 => only(Cmd::DefineConst, text),
            12 => only(Cmd::DefineTypeOp, text),
            13 => only(Cmd::DeductAntisym, text),
            15 => only(Cmd::DefineConstList, text),
            _ => None,
        }
    }
}

// One match a length, which compiles to tests of single bytes. What recorded proofs use most comes first.

/// The command of three letters that is written so.
#[inline(always)]
fn of_three(text: &[u8]) -> Option<Cmd>
    ensures { result ≡ find (λ c. bytes_eq (spelling c) text.now) (filter (λ c. length (spelling c) == 3) commands) }
{
    match text {
        b"ref" => Some(Cmd::Ref),
        b"def" => Some(Cmd::Def),
        b"sym" => Some(Cmd::Sym),
        b"var" => Some(Cmd::Var),
        b"thm" => Some(Cmd::Thm),
        b"pop" => Some(Cmd::Pop),
        b"nil" => Some(Cmd::Nil),
        _ => None,
    }
}

/// The command of four letters that is written so.
#[inline(always)]
fn of_four(text: &[u8]) -> Option<Cmd>
    ensures { result ≡ find (λ c. bytes_eq (spelling c) text.now) (filter (λ c. length (spelling c) == 4) commands) }
{
    match text {
        b"cons" => Some(Cmd::Cons),
        b"eqMp" => Some(Cmd::EqMp),
        b"refl" => Some(Cmd::Refl),
        b"hdTl" => Some(Cmd::HdTl),
        _ => None,
    }
}

/// The command of five letters that is written so.
#[inline(always)]
fn of_five(text: &[u8]) -> Option<Cmd>
    ensures { result ≡ find (λ c. bytes_eq (spelling c) text.now) (filter (λ c. length (spelling c) == 5) commands) }
{
    match text {
        b"subst" => Some(Cmd::Subst),
        b"trans" => Some(Cmd::Trans),
        b"const" => Some(Cmd::Const),
        b"axiom" => Some(Cmd::Axiom),
        _ => None,
    }
}

/// The command of six letters that is written so.
#[inline(always)]
fn of_six(text: &[u8]) -> Option<Cmd>
    ensures { result ≡ find (λ c. bytes_eq (spelling c) text.now) (filter (λ c. length (spelling c) == 6) commands) }
{
    match text {
        b"appThm" => Some(Cmd::AppThm),
        b"assume" => Some(Cmd::Assume),
        b"absThm" => Some(Cmd::AbsThm),
        b"opType" => Some(Cmd::OpType),
        b"typeOp" => Some(Cmd::TypeOp),
        b"remove" => Some(Cmd::Remove),
        b"pragma" => Some(Cmd::Pragma),
        _ => None,
    }
}

/// The command of seven letters that is written so.
#[inline(always)]
fn of_seven(text: &[u8]) -> Option<Cmd>
    ensures { result ≡ find (λ c. bytes_eq (spelling c) text.now) (filter (λ c. length (spelling c) == 7) commands) }
{
    match text {
        b"appTerm" => Some(Cmd::AppTerm),
        b"absTerm" => Some(Cmd::AbsTerm),
        b"varTerm" => Some(Cmd::VarTerm),
        b"varType" => Some(Cmd::VarType),
        b"version" => Some(Cmd::Version),
        _ => None,
    }
}

/// The command of eight letters that is written so.
#[inline(always)]
fn of_eight(text: &[u8]) -> Option<Cmd>
    ensures { result ≡ find (λ c. bytes_eq (spelling c) text.now) (filter (λ c. length (spelling c) == 8) commands) }
{
    match text {
        b"proveHyp" => Some(Cmd::ProveHyp),
        b"betaConv" => Some(Cmd::BetaConv),
        _ => None,
    }
}

/// The command, if it is the one that is written so.
#[inline(always)]
fn only(command: Cmd, text: &[u8]) -> Option<Cmd>
    ensures { result ≡ find (λ c. bytes_eq (spelling c) text.now) (command ∷ []) }
{
    if command.text() == text {
        Some(command)
    } else {
        None
    }
}
