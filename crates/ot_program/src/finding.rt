//! The search for a pattern among the exports of an input and of the packages that it requires.
ghost use Rattle.std.specs.Prelude.{◌≡◌, ◌⊎◌, ◌++◌, List, [], true};
ghost use Rattle.std.specs.Prelude.{map, string_bytes, IfOk, IfErr, OnOk};
ghost use Rattle.std.specs.List.{All};
ghost use Rattle.ot_logic.specs.Limits.{summary_limit};
ghost use Rattle.ot_logic.specs.PlainTrees.{term_of_tree};
ghost use Rattle.ot_logic.specs.RanOut.{ran_out};
ghost use Rattle.ot_io.specs.Causes.{CountRose};
ghost use Rattle.ot_io.specs.Keeping.{KeepsSource};
ghost use Rattle.ot_args.specs.Grammar.{is_theory};
ghost use Rattle.ot_blocks.specs.Paths.{is_package};
ghost use Rattle.ot_machine.specs.Meaning.{run_of, IsRun, IsExportIn};
ghost use Rattle.ot_machine.specs.States.{fresh_run};
ghost use Rattle.ot_find.specs.Matches.{Found, matches_in};
ghost use Rattle.ot_find.specs.Texts.{find_text};
ghost use Rattle.ot_repo.specs.Answers.{ArePackages, names_of};
ghost use Rattle.ot_print.specs.Laws.{TextsNameOne};
ghost use Rattle.ot_program.specs.World.{HasReadWorld, HasReadFolder, EachTold, is_standard};
ghost use Rattle.ot_program.specs.Tasks.{FindPattern};
ghost use Rattle.ot_program.specs.Runs.{exports_of};
ghost use Rattle.ot_program.specs.Command.{run_lists, IsProved, LeavesOther, LastInput};
ghost use Rattle.ot_program.specs.FindPattern.{pattern_path};
ghost use Rattle.ot_program.specs.Answer.{FileFailed, ClosesFiles};
ghost use Rattle.ot_program.specs.Texts.{column_line, large_line};
ghost use Rattle.ot_program.specs.Endings.{noted_of, ran_from};
ghost use Rattle.ot_program.specs.Verdicts.{IsSaid, IsPrinted, IsTaskVerdict};
ghost use Rattle.ot_program.specs.Searches.{ending_of, IfEnded, EndsSearch, EndsBehind, HasMatches, IsPattern};
ghost use Rattle.ot_program.specs.Searches.{IsWalkVerdict, HasEndedPattern, EndsWalk, EndsInput, EndsRun, EndsRuns};

use crate::input::{fresh_session, run_theory_file};
use crate::noted::{NotedRun, run_noted};
use crate::report::{
    Verdict, accepted, failed, missing, proved, refused, stopped, theorems_of, too_large,
};
use crate::status::Status;
use crate::texts::{column_line, line_at, line_of, theory_fault_text};
use ot_args::is_theory;
use ot_blocks::package_path;
use ot_find::{PrintFault, Search, find_law};
use ot_io::{Files, Source};
use ot_logic::{Limits, Memory, Tm};
use ot_machine::{Export, Session};
use ot_parse::{ReadRefusal, TextFault, read_term};
use ot_pretty::run_notation;
use ot_print::one_text;
use ot_read::as_the_forms_say;
use ot_repo::{RepoFault, required};
use std::alloc::{AllocError, Global};

/// What stands for the path of a pattern.
const PATTERN: &str = "pattern";

/// What is searched for, and where: the pattern, the path of the input, and the folder of packages.
#[derive(Clone, Copy)]
pub struct Query<'a> {
    pub packages: &'a str,
    pub pattern: &'a str,
    pub path: &'a str,
}

/// Why a search doesn't end with its matches.
#[derive(Drop)]
pub enum Ending {
    /// It ends with this verdict.
    Said(Verdict),
    /// Memory ran out.
    Memory(Memory),
}

impl From<Memory> for Ending {
    ghost use Rattle.std.specs.Prelude.{◌≡◌};
    ghost use Rattle.ot_program.specs.declared.finding.Ending.TheVariants.{Memory};

    ghost from_gives = { λ _ r. r ≡ Memory ran_out };

    fn from(memory: Memory) -> Ending {
        Ending::Memory(memory)
    }
}

impl From<AllocError> for Ending {
    ghost use Rattle.std.specs.Prelude.{◌≡◌};
    ghost use Rattle.ot_program.specs.declared.finding.Ending.TheVariants.{Memory};

    ghost from_gives = { λ _ r. r ≡ Memory ran_out };

    fn from(refused: AllocError) -> Ending {
        Ending::Memory(Memory::from(refused))
    }
}

/// Runs an input in a fresh session, and each package that it requires in a session of its own, and makes the text of
/// those of their exports that the pattern matches. What the input requires is looked at first; the packages are run
/// behind the pattern.
pub fn run_finding<F: Files, S: Source>(
    alloc: Global,
    query: Query<'_>,
    files: &mut F,
    input: &mut S,
) -> Result<Verdict, Memory>
    ensures verdict { EachTold (is_standard query.entry.path.now ≡ true) (F.folder files.old)
        (λ told. HasReadWorld told (S.left input.old) (S.left input.new)
        (λ May. IfOk result (λ v. IsTaskVerdict
        (FindPattern query.entry.packages.now query.entry.pattern.now query.entry.path.now)
        (CountRose (S.faults input.old) (S.faults input.new))
        (FileFailed (F.at files.new) (F.faults files.old) (F.faults files.new))
        (CountRose (F.misses files.old) (F.misses files.new)) v May))) }
    ensures at { IfOk result (λ _. LastInput query.entry.path.now (F.folder files.old) (F.at files.new)) }
    ensures files { ClosesFiles F.folder F.faults F.misses F.left files.old files.new }
    ensures source { KeepsSource S.folder S.faults S.misses S.at input.old input.new }
    ensures other { LeavesOther query.entry.path.now files.old files.new input.old input.new }
{
    match searched(alloc, query, files, input) {
        Ok(search) => found_verdict(alloc, query.path, search),
        Err(Ending::Said(verdict)) => Ok(verdict),
        Err(Ending::Memory(memory)) => Err(memory),
    }
}

/// The search over an input, with all matches.
fn searched<F: Files, S: Source>(
    alloc: Global,
    query: Query<'_>,
    files: &mut F,
    input: &mut S,
) -> Result<Search, Ending>
    ensures searched { EachTold (is_standard query.entry.path.now ≡ true) (F.folder files.old)
        (λ told. HasReadWorld told (S.left input.old) (S.left input.new)
        (EndsSearch query.entry.packages.now query.entry.pattern.now query.entry.path.now result
        (CountRose (S.faults input.old) (S.faults input.new))
        (FileFailed (F.at files.new) (F.faults files.old) (F.faults files.new))
        (CountRose (F.misses files.old) (F.misses files.new)))) }
    ensures files { ClosesFiles F.folder F.faults F.misses F.left files.old files.new }
    ensures source { KeepsSource S.folder S.faults S.misses S.at input.old input.new }
    ensures other { LeavesOther query.entry.path.now files.old files.new input.old input.new }
    ensures at { OnOk result (LastInput query.entry.path.now (F.folder files.old) (F.at files.new)) }
    ensures last { IfErr result
        (IfEnded (λ v. LastInput query.entry.path.now (F.folder files.old) (F.at files.new))) }
{
    let mut session = fresh_session(alloc)?;
    search_in(alloc, query, &mut session, files, input)
}

/// The search over an input, which is run in a fresh session.
fn search_in<F: Files, S: Source>(
    alloc: Global,
    query: Query<'_>,
    session: &mut Session,
    files: &mut F,
    input: &mut S,
) -> Result<Search, Ending>
    requires session { IsRun session.old }
    requires fresh { run_of session.old ≡ fresh_run }
    ensures searched { EachTold (is_standard query.entry.path.now ≡ true) (F.folder files.old)
        (λ told. HasReadWorld told (S.left input.old) (S.left input.new)
        (EndsSearch query.entry.packages.now query.entry.pattern.now query.entry.path.now result
        (CountRose (S.faults input.old) (S.faults input.new))
        (FileFailed (F.at files.new) (F.faults files.old) (F.faults files.new))
        (CountRose (F.misses files.old) (F.misses files.new)))) }
    ensures files { ClosesFiles F.folder F.faults F.misses F.left files.old files.new }
    ensures source { KeepsSource S.folder S.faults S.misses S.at input.old input.new }
    ensures other { LeavesOther query.entry.path.now files.old files.new input.old input.new }
    ensures at { OnOk result (LastInput query.entry.path.now (F.folder files.old) (F.at files.new)) }
    ensures last { IfErr result
        (IfEnded (λ v. LastInput query.entry.path.now (F.folder files.old) (F.at files.new))) }
{
    let fulls = required_packages(alloc, query.packages, query.path, files)?;
    let noted = input_run(alloc, session, query.packages, query.path, files, input)?;
    search_run(alloc, query, &fulls, session, &noted, files)
}

/// The search over the run of an input, and over these packages, which it requires.
fn search_run<F: Files>(
    alloc: Global,
    query: Query<'_>,
    fulls: &[String],
    session: &Session,
    run: &NotedRun,
    files: &mut F,
) -> Result<Search, Ending>
    requires full { ArePackages (map string_bytes fulls.now) }
    requires session { IsRun session.now }
    requires exports { All (IsExportIn session.now) run.now.exports.items }
    ensures searched { EachTold (map string_bytes fulls.now ≡ []) (F.folder files.old) (λ told. HasReadFolder told
        (EndsBehind query.entry.packages.now query.entry.pattern.now query.entry.path.now
        (noted_of session.now run.now) (map string_bytes fulls.now) result
        (FileFailed (F.at files.new) (F.faults files.old) (F.faults files.new))
        (CountRose (F.misses files.old) (F.misses files.new)))) }
    ensures files { ClosesFiles F.folder F.faults F.misses F.left files.old files.new }
    ensures none { map string_bytes fulls.now ≡ [] → files.new ≡ files.old }
{
    find_law();
    let term = pattern_term(alloc, session, run, query.pattern)?;
    let mut search = Search::new(alloc, Limits::standard().summary_bytes);
    search_packages(alloc, query.packages, fulls, files, &term, &mut search)?;
    search_exports(alloc, session, &run.exports, query.path, &term, &mut search)?;
    Ok(search)
}

/// The full names of the packages that an input requires: those of a theory file's tags, and of an article none.
fn required_packages<F: Files>(
    alloc: Global,
    packages: &str,
    path: &str,
    files: &mut F,
) -> Result<Vec<String>, Ending>
    ensures required { EachTold (is_standard path.now ≡ true) (F.folder files.old)
        (λ told. HasReadFolder told (EndsWalk packages.now path.now result
        (FileFailed (F.at files.new) (F.faults files.old) (F.faults files.new))
        (CountRose (F.misses files.old) (F.misses files.new)))) }
    ensures theory { IfErr result (IfEnded (λ v. is_theory path.now ≡ true)) }
    ensures article { IfOk result (λ fulls. (is_theory path.now ≡ true) ⊎ (names_of fulls ≡ [])) }
    ensures full { IfOk result (λ fulls. ArePackages (names_of fulls)) }
    ensures files { ClosesFiles F.folder F.faults F.misses F.left files.old files.new }
    ensures other { (is_theory path.now ≡ true) ⊎ (files.new ≡ files.old) }
{
    if !is_theory(path) {
        return Ok(Vec::new(alloc));
    }
    let limits = Limits::standard();
    match required(alloc, files, path, packages, &limits) {
        Ok(fulls) => Ok(fulls),
        Err(fault) => Err(ending_of(walk_verdict(alloc, fault))),
    }
}

/// The verdict on a walk over required packages that was refused so.
fn walk_verdict(alloc: Global, fault: RepoFault) -> Result<Verdict, Memory>
    ensures { IfOk result (IsWalkVerdict fault) }
{
    match fault {
        RepoFault::Theory { path, line, fault } => {
            Ok(refused(line_at(alloc, &path, line, theory_fault_text(fault))?))
        }
        RepoFault::TheoryTooLarge { path } => {
            Ok(refused(line_of(alloc, &path, "theory longer than 1048576 bytes")?))
        }
        RepoFault::IndexTooLarge { path } => Ok(refused(line_of(
            alloc,
            &path,
            "package list longer than 1048576 bytes",
        )?)),
        RepoFault::BadIndex { path, line } => {
            Ok(refused(line_at(alloc, &path, line, "bad package name")?))
        }
        RepoFault::NotInstalled { path, line } => {
            Ok(refused(line_at(alloc, &path, line, "required package not installed")?))
        }
        RepoFault::RequiresCycle { path, line } => {
            Ok(refused(line_at(alloc, &path, line, "requires cycle")?))
        }
        RepoFault::NoFile { path } => missing(alloc, &path),
        RepoFault::ReadFault { path } => failed(alloc, &path),
        RepoFault::Memory(memory) => Err(memory),
    }
}

/// An ending by a verdict, where there is memory for it.
fn ending_of(verdict: Result<Verdict, Memory>) -> Ending
    ensures { result ≡ ending_of verdict }
{
    match verdict {
        Ok(verdict) => Ending::Said(verdict),
        Err(memory) => Ending::Memory(memory),
    }
}

/// The run of the input in a fresh session, with the namespaces that it shows.
fn input_run<F: Files, S: Source>(
    alloc: Global,
    session: &mut Session,
    packages: &str,
    path: &str,
    files: &mut F,
    input: &mut S,
) -> Result<NotedRun, Ending>
    requires session { IsRun session.old }
    requires fresh { run_of session.old ≡ fresh_run }
    ensures ran { EachTold (is_standard path.now ≡ true) (F.folder files.old)
        (λ told. HasReadWorld told (S.left input.old) (S.left input.new)
        (EndsInput packages.now path.now session.new result
        (CountRose (S.faults input.old) (S.faults input.new))
        (FileFailed (F.at files.new) (F.faults files.old) (F.faults files.new))
        (CountRose (F.misses files.old) (F.misses files.new)))) }
    ensures session { IsRun session.new }
    ensures exports { IfOk result (λ run. All (IsExportIn session.new) run.exports.items) }
    ensures files { ClosesFiles F.folder F.faults F.misses F.left files.old files.new }
    ensures source { KeepsSource S.folder S.faults S.misses S.at input.old input.new }
    ensures other { LeavesOther path.now files.old files.new input.old input.new }
    ensures at { OnOk result (LastInput path.now (F.folder files.old) (F.at files.new)) }
    ensures last { IfErr result (IfEnded (λ v. LastInput path.now (F.folder files.old) (F.at files.new))) }
{
    match run_noted(alloc, session, packages, path, files, input) {
        Ok(noted) => Ok(noted),
        Err(stop) => Err(ending_of(stopped(alloc, session.kernel(), stop))),
    }
}

/// The term that the pattern stands for under the notation of a run.
fn pattern_term(
    alloc: Global,
    session: &Session,
    run: &NotedRun,
    pattern: &str,
) -> Result<Tm, Ending>
    requires session { IsRun session.now }
    requires exports { All (IsExportIn session.now) run.now.exports.items }
    ensures ended { IfErr result (IfEnded (HasEndedPattern (noted_of session.now run.now) pattern.now)) }
    ensures is_pattern { IfOk result (λ t. IsPattern (noted_of session.now run.now) pattern.now (term_of_tree t)) }
{
    let theorems = theorems_of(alloc, &run.exports)?;
    let notation = run_notation(alloc, session.kernel(), &run.names, &theorems)?;
    notation.sound();
    as_the_forms_say();
    match read_term(alloc, &notation, pattern.as_bytes()) {
        Ok(term) => Ok(term),
        Err(ReadRefusal::At { column, fault }) => Err(ending_of(pattern_verdict(
            alloc, column, fault,
        ))),
        Err(ReadRefusal::Memory(memory)) => Err(Ending::Memory(memory)),
    }
}

/// The verdict on a pattern that is refused so.
fn pattern_verdict(alloc: Global, column: u64, fault: TextFault) -> Result<Verdict, Memory>
    ensures { IfOk result (λ v. IsSaid v Status.Refused (column_line pattern_path 1 column fault)) }
{
    Ok(refused(column_line(alloc, PATTERN, 1, column, fault)?))
}

/// Runs packages one after another, and adds their matches.
fn search_packages<F: Files>(
    alloc: Global,
    packages: &str,
    fulls: &[String],
    files: &mut F,
    pattern: &Tm,
    search: &mut Search,
) -> Result<(), Ending>
    requires full { ArePackages (map string_bytes fulls.now) }
    ensures searched { EachTold (map string_bytes fulls.now ≡ []) (F.folder files.old)
        (λ told. HasReadFolder told (EndsRuns packages.now
        (map string_bytes fulls.now) (term_of_tree pattern.now) search.old search.new result
        (FileFailed (F.at files.new) (F.faults files.old) (F.faults files.new))
        (CountRose (F.misses files.old) (F.misses files.new)))) }
    ensures files { ClosesFiles F.folder F.faults F.misses F.left files.old files.new }
    ensures none { map string_bytes fulls.now ≡ [] → files.new ≡ files.old }
{
    find_law();
    'each: for full in fulls {
        search_package(alloc, packages, full, files, pattern, search)?;
    }
    Ok(())
}

/// Runs a package alone, in a session of its own, and adds its matches.
fn search_package<F: Files>(
    alloc: Global,
    packages: &str,
    full: &str,
    files: &mut F,
    pattern: &Tm,
    search: &mut Search,
) -> Result<(), Ending>
    requires { is_package full.now ≡ true }
    ensures searched { HasReadFolder (F.folder files.old) (EndsRun packages.now full.now
        (term_of_tree pattern.now) search.old search.new result
        (FileFailed (F.at files.new) (F.faults files.old) (F.faults files.new))
        (CountRose (F.misses files.old) (F.misses files.new))) }
    ensures files { ClosesFiles F.folder F.faults F.misses F.left files.old files.new }
{
    let mut session = fresh_session(alloc)?;
    package_in(alloc, &mut session, packages, full, files, pattern, search)
}

/// The same, in a fresh session.
fn package_in<F: Files>(
    alloc: Global,
    session: &mut Session,
    packages: &str,
    full: &str,
    files: &mut F,
    pattern: &Tm,
    search: &mut Search,
) -> Result<(), Ending>
    requires full { is_package full.now ≡ true }
    requires session { IsRun session.old }
    requires fresh { run_of session.old ≡ fresh_run }
    ensures searched { HasReadFolder (F.folder files.old) (EndsRun packages.now full.now
        (term_of_tree pattern.now) search.old search.new result
        (FileFailed (F.at files.new) (F.faults files.old) (F.faults files.new))
        (CountRose (F.misses files.old) (F.misses files.new))) }
    ensures files { ClosesFiles F.folder F.faults F.misses F.left files.old files.new }
{
    let path = package_path(alloc, packages, full.as_bytes())?;
    match run_theory_file(alloc, session, packages, &path, files) {
        Ok(exports) => search_exports(alloc, session, &exports, full, pattern, search),
        Err(stop) => Err(ending_of(stopped(alloc, session.kernel(), stop))),
    }
}

/// Adds the matches among the exports of a run, which are proved.
fn search_exports(
    alloc: Global,
    session: &Session,
    exports: &[Export],
    source: &str,
    pattern: &Tm,
    search: &mut Search,
) -> Result<(), Ending>
    requires session { IsRun session.now }
    requires exports { All (IsExportIn session.now) exports.now }
    ensures ended { IfErr result (IfEnded (λ v. ⊥)) }
    ensures found { OnOk result ((fs : List Found) → HasMatches search.old fs
        → HasMatches search.new (fs
        ++ matches_in (term_of_tree pattern.now) source.now (exports_of (ran_from session.now exports.now)))) }
    ensures proved { IsProved (run_lists (ran_from session.now exports.now)) }
{
    proved(session, exports);
    let theorems = theorems_of(alloc, exports)?;
    search.add(
        alloc,
        session.kernel(),
        source.as_bytes(),
        &theorems,
        pattern,
    );
    Ok(())
}

/// The matches of a search, or the line for a text that is too large.
fn found_verdict(alloc: Global, path: &str, search: Search) -> Result<Verdict, Memory>
    ensures ends { (fs : List Found) → HasMatches search fs → IfOk result
        (IsPrinted summary_limit (find_text fs) (large_line path.now)) }
    ensures one_text { TextsNameOne }
{
    one_text();
    let mut text = Vec::new(alloc);
    match search.finish(alloc, &mut text) {
        Ok(()) => Ok(accepted(text)),
        Err(PrintFault::TooLarge) => too_large(alloc, path),
        Err(PrintFault::Memory(memory)) => Err(memory),
    }
}
