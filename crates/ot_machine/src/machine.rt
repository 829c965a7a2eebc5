ghost use Rattle.std.specs.Prelude.{◌≡◌, ◌≢◌, ◌<◌, ◌≤◌, ◌^◌, ℕ, [], length, Err, IsOk, IfErr};
ghost use Rattle.ot_io.specs.Causes.{CountRose};
ghost use Rattle.ot_io.specs.Reading.{HasRead};
ghost use Rattle.ot_io.specs.Keeping.{KeepsSource};
ghost use Rattle.ot_logic.specs.RanOut.{ran_out};
ghost use Rattle.ot_kernel.specs.State.{State};
ghost use Rattle.ot_scan.specs.Lines.{lines_of};
ghost use Rattle.ot_scan.specs.Words.{word_value};
ghost use Rattle.ot_machine.specs.States.{fresh_article};
ghost use Rattle.ot_machine.specs.declared.session.Session.{Session as SessionState};
ghost use Rattle.ot_machine.specs.Meaning.{article_of, machine_state, command_at};
ghost use Rattle.ot_machine.specs.Meaning.{version_of, IsRun, IsOf, Grows, IsCommandIn};
ghost use Rattle.ot_machine.specs.Contexts.{context_of, IsContextOf};
ghost use Rattle.ot_machine.specs.Step.{step, row, word_row, version_rule};
ghost use Rattle.ot_machine.specs.Run.{line_step};
ghost use Rattle.ot_machine.specs.Answers.{Makes, StepsTo, TakesRow, Runs, NamesSymbolIn};

use crate::context::Context;
use crate::fault::{ArticleFault, Fault, refusal};
use crate::object::{Cell, Command, Entry, Object};
use crate::rows;
use crate::session::Session;
use indexmap::IndexMap;
use ot_io::Source;
use ot_kernel::{Places, ThmId};
use ot_logic::Cmd;
use ot_near::KeyHasher;
use ot_scan::{Lines, Word, command as read_word};
use ot_trace::StepId;
use std::alloc::Global;
use std::hash::BuildHasherDefault;

/// A theorem that an article exports, and the steps that made it, its list of hypotheses and its conclusion.
#[derive(Clone, Copy)]
pub struct Export {
    pub th: ThmId,
    pub theorem: StepId,
    pub list: StepId,
    pub term: StepId,
}

/// The version of an article: open as long as it may be 5 or 6.
#[derive(Clone, Copy)]
pub(crate) enum Version {
    Open,
    Five,
    Six,
}

/// The machine of one article.
#[derive(Drop)]
pub struct Machine {
    pub(crate) alloc: Global,
    pub(crate) stack: Vec<Entry>,
    pub(crate) dictionary: IndexMap<i64, Entry, BuildHasherDefault<KeyHasher>>,
    pub(crate) exports: Vec<Export>,
    // The places of their sequents among the exports.
    pub(crate) places: Places,
    pub(crate) cells: Vec<Cell>,
    count: u64,
    version: Version,
}

impl Machine {
    /// A machine before the first command of an article, for any session.
    pub fn new(alloc: Global) -> Machine
        ensures fresh { (s : SessionState) → article_of s result ≡ fresh_article }
        ensures of { (s : SessionState) → IsRun s → IsOf s result }
    {
        Machine {
            alloc,
            stack: Vec::new(alloc),
            dictionary: IndexMap::with_hasher(alloc, BuildHasherDefault::new()),
            exports: Vec::new(alloc),
            places: Places::new(alloc),
            cells: Vec::new(alloc),
            count: 0,
            version: Version::Open,
        }
    }

    /// What the article exports, in order, each sequent once.
    pub fn exports(&self) -> &[Export]
        ensures { result.now ≡ self.now.exports.items }
    {
        &self.exports
    }

    /// The same, where the machine is done with.
    pub fn into_exports(self) -> Vec<Export>
        ensures { result.items ≡ self.exports.items }
    {
        self.exports
    }

    /// One command. The first fault of the stated machine counts; after it, and after running out of memory, the state is as
    /// before. The machine's numbers, and the context's names and theorems, have to be of this session.
    // Inlined into the loop over lines, with what it calls for most words: a call a line costs as much as a short row.
    #[inline(always)]
    pub fn step(
        &mut self,
        session: &mut Session,
        context: &Context<'_>,
        word: Word<'_>,
    ) -> Result<(), Fault>
        requires of { IsOf session.old self.old }
        requires context { IsContextOf session.old context.now }
        ensures moves { StepsTo session.new.kernel result
            (step (context_of session.old context.now) (machine_state session.old self.old)
            (word_value word.entry)) (machine_state session.old self.old) (machine_state session.new self.new) }
        ensures of { IsOf session.new self.new }
        ensures grown { Grows session.old session.new }
    {
        let command = session.command(self, word)?;
        let version = version_behind(self.version, self.count, &command)?;
        self.row(session, context, version, command)?;
        self.version = version;
        self.count = self.count.saturating_add(1);
        Ok(())
    }

    /// Runs the lines of an article up to the first fault, in one pass over a source. A fault names its line, and leaves
    /// the state that the lines before it made. Want of memory is no fault of a line, but an answer of its own, and
    /// `ReadFault` comes only where the source failed in this call: after each of these the state is that of some number
    /// of the first lines. The machine's numbers, and the context's names and theorems, have to be of this session.
    pub fn run_article<S: Source>(
        &mut self,
        session: &mut Session,
        context: &Context<'_>,
        source: &mut S,
        max_bytes: u64,
    ) -> Result<(), ArticleFault>
        requires of { IsOf session.old self.old }
        requires context { IsContextOf session.old context.now }
        requires max_bytes { max_bytes ≤ 2 ^ 32 }
        ensures runs { HasRead (S.left source.old) (S.left source.new) (IsOk result)
            (λ bytes rest. Runs session.new.kernel result (context_of session.old context.now)
            (lines_of max_bytes bytes) (machine_state session.old self.old) (machine_state session.new self.new)) }
        ensures of { IsOf session.new self.new }
        ensures grown { Grows session.old session.new }
        ensures symbols { IfErr result (NamesSymbolIn session.new.kernel) }
        ensures apart { (line : ℕ) → result ≢ Err (ArticleFault.At line (Fault.Memory ran_out)) }
        ensures cause { result ≡ Err ArticleFault.ReadFault → CountRose (S.faults source.old) (S.faults source.new) }
        ensures kept { KeepsSource S.folder S.faults S.misses S.at source.old source.new }
    {
        let mut lines = Lines::new(max_bytes);
        'lines: loop {
            match lines.next(source) {
                Ok(None) => return Ok(()),
                Ok(Some(line)) => {
                    if let Err(fault) = self.line(session, context, line.text) {
                        return Err(refusal(line.number, fault));
                    }
                }
                Err(fault) => return Err(ArticleFault::from(fault)),
            }
        }
    }

    /// The text of a line that holds a command.
    #[inline(always)]
    fn line(
        &mut self,
        session: &mut Session,
        context: &Context<'_>,
        text: &[u8],
    ) -> Result<(), Fault>
        requires of { IsOf session.old self.old }
        requires context { IsContextOf session.old context.now }
        requires some { 0 < length text.now }
        ensures moves { StepsTo session.new.kernel result
            (line_step (context_of session.old context.now) (machine_state session.old self.old) text.now)
            (machine_state session.old self.old) (machine_state session.new self.new) }
        ensures of { IsOf session.new self.new }
        ensures grown { Grows session.old session.new }
    {
        let word = read_word(text)?;
        self.step(session, context, word)
    }

    /// The row of a command, in an article of a version.
    #[inline(always)]
    fn row(
        &mut self,
        session: &mut Session,
        context: &Context<'_>,
        version: Version,
        command: Command,
    ) -> Result<(), Fault>
        requires of { IsOf session.old self.old }
        requires context { IsContextOf session.old context.now }
        requires inside { IsCommandIn session.old.kernel command }
        ensures { TakesRow result
            (row (version_of version) (context_of session.old context.now) (command_at session.old.kernel command))
            session.old self.old session.new self.new }
    {
        match command {
            Command::Numeral(number) => {
                session.push(self, Object::Number(number), None)?;
                Ok(())
            }
            Command::Named(name) => rows::name(session, self, name),
            // Two of three words are these, and finding them in the table of all words costs as much as their rows.
            Command::Order(order) => match order {
                Cmd::Ref => rows::refer(session, self),
                Cmd::Cons => rows::cons(session, self),
                _ => self.order(session, context, version, order),
            },
        }
    }

    /// The row of a word, in an article of a version.
    // Not inlined: with all its rows the loop over lines would be too large for the compiler to inline the others.
    fn order(
        &mut self,
        session: &mut Session,
        context: &Context<'_>,
        version: Version,
        order: Cmd,
    ) -> Result<(), Fault>
        requires of { IsOf session.old self.old }
        requires context { IsContextOf session.old context.now }
        ensures { TakesRow result (word_row (version_of version) (context_of session.old context.now) order)
            session.old self.old session.new self.new }
    {
        let alloc = self.alloc;
        match order {
            Cmd::Version => rows::version(session, self),
            Cmd::Nil => rows::nil(session, self),
            Cmd::Cons => rows::cons(session, self),
            Cmd::HdTl => rows::hd_tl(session, self),
            Cmd::Def => rows::def(session, self),
            Cmd::Ref => rows::refer(session, self),
            Cmd::Remove => rows::remove(session, self),
            Cmd::Pop | Cmd::Pragma => rows::pop(session, self),
            Cmd::TypeOp => rows::type_op(session, self, context),
            Cmd::OpType => rows::op_type(alloc, session, self),
            Cmd::VarType => rows::var_type(session, self),
            Cmd::Var => rows::var(session, self),
            Cmd::VarTerm => rows::var_term(session, self),
            Cmd::Const => rows::constant(session, self, context),
            Cmd::ConstTerm => rows::const_term(session, self),
            Cmd::AppTerm => rows::app_term(session, self),
            Cmd::AbsTerm => rows::abs_term(session, self),
            Cmd::Refl => rows::refl(session, self),
            Cmd::Assume => rows::assume(session, self),
            Cmd::EqMp => rows::eq_mp(session, self),
            Cmd::AbsThm => rows::abs_thm(session, self),
            Cmd::AppThm => rows::app_thm(session, self),
            Cmd::DeductAntisym => rows::deduct_antisym(session, self),
            Cmd::BetaConv => rows::beta_conv(session, self),
            Cmd::Subst => rows::subst(alloc, session, self),
            Cmd::Sym => rows::sym(session, self),
            Cmd::Trans => rows::trans(session, self),
            Cmd::ProveHyp => rows::prove_hyp(session, self),
            Cmd::Axiom => rows::axiom(alloc, session, self, context),
            Cmd::Thm => rows::thm(alloc, session, self),
            Cmd::DefineConst => rows::define_const(session, self, context),
            Cmd::DefineConstList => rows::define_const_list(alloc, session, self, context),
            Cmd::DefineTypeOp => rows::define_type(alloc, session, self, context, version),
        }
    }
}

/// The version behind a command, after so many: `6 version` makes an article of version 6, any other beginning one of
/// version 5, and `version` stands nowhere else.
fn version_behind(version: Version, count: u64, command: &Command) -> Result<Version, Fault>
    ensures { (k : State)
        → Makes k version_of result (version_rule (version_of version) count (command_at k command.now)) }
{
    let is_version = matches!(command, Command::Order(Cmd::Version));
    let is_number = matches!(command, Command::Numeral(_));
    match (version, count) {
        (Version::Open, 0) if is_number => Ok(Version::Open),
        (Version::Open, 0) if !is_version => Ok(Version::Five),
        (Version::Open, 1) if is_version => Ok(Version::Six),
        (Version::Open, 1) => Ok(Version::Five),
        _ if is_version => Err(Fault::VersionLate),
        _ => Ok(version),
    }
}
