//! Blocks, theory files and packages as they are run.
ghost use Rattle.std.specs.Prelude.{◌≡◌, ◌<◌, ◌++◌, ◌∷◌, ℕ, [], Some, true, map, codes, length};
ghost use Rattle.std.specs.Prelude.{position, slice_get, slice_index_or, IfOk, IfErr, string_bytes};
ghost use Rattle.std.specs.List.{All, list_any};
ghost use Rattle.std.specs.Str.{bytes_eq};
ghost use Rattle.ot_io.specs.Keeping.{KeepsFiles};
ghost use Rattle.ot_io.specs.Readings.{HasReadFiles};
ghost use Rattle.ot_theory.specs.Answers.{block_of, blocks_of, tags_of, theory_of};
ghost use Rattle.ot_theory.specs.Sound.{IsSound};
ghost use Rattle.ot_blocks.specs.Paths.{is_package};
ghost use Rattle.ot_blocks.specs.Answers.{plan_of};
ghost use Rattle.ot_machine.specs.Meaning.{export_of, run_of, IsExportIn};
ghost use Rattle.ot_machine.specs.Contexts.{context_of};
ghost use Rattle.ot_link.specs.Blocks.{source_at, run_source, run_block};
ghost use Rattle.ot_link.specs.Link.{imported, run_at, run_planned, run_theory, run_file};
ghost use Rattle.ot_link.specs.Answers.{AreWithin, setting_of, Comes, ran_of, NamesSymbolIn, HasCause};
ghost use Rattle.ot_link.specs.Holding.{held_at, held_of, done_of};
ghost use Rattle.ot_link.specs.Running.{chain_of, first_source, opener_of, source_value, IsRunnable, IsSourceRight};
ghost use Rattle.ot_link.specs.Lawful.{AreLawfulExports, AreLawfulOnce, IsReady, LeavesExports};

use crate::article::open_article;
use crate::exports::{each_once, given_to, imported};
use crate::fault::LinkFault;
use crate::reading::{plan_at, theory_in, theory_text};
use crate::renaming::{interpretation_of, naming_law};
use crate::setting::Setting;
use ot_blocks::{Plan, StructureFault, article_path, package_path};
use ot_io::Files;
use ot_logic::Memory;
use ot_machine::{Context, Export, Session, stays_law};
use ot_theory::{Block, Key, Tag, Theory, key_of};
use std::alloc::Global;
use std::collections::HashMap;

/// A theory file that is run.
#[derive(Drop)]
pub(crate) struct File<'x> {
    pub path: String,
    /// The full names of the packages that it is in.
    pub chain: Vec<Vec<u8>>,
    /// How many more packages may be opened inside each other.
    pub left: usize,
    /// What its blocks are run in, besides what they import.
    pub outer: &'x Context<'x>,
}

/// What a block takes its exports from.
#[derive(Clone, Copy)]
pub(crate) enum Source<'a> {
    /// The value of its `article:` statement.
    Article(&'a [u8]),
    /// The line of its `package:` statement, and the full name.
    Package(u64, &'a [u8]),
    /// Its imports.
    Imports,
}

/// The source of a block with these statements.
fn source_of<'a>(statements: &[Tag<'a>]) -> Source<'a>
    ensures { source_value result ≡ source_at (first_source (tags_of statements.now)) }
{
    'each: for statement in statements {
        match key_of(statement.key) {
            Key::Article => return Source::Article(statement.value),
            Key::Package => return Source::Package(statement.line, statement.value),
            Key::Import | Key::Interpret | Key::Other => {}
        }
    }
    Source::Imports
}

/// Whether a package is being run.
fn is_open(chain: &[Vec<u8>], full: &[u8]) -> bool
    ensures { result ≡ list_any (λ name. bytes_eq full.now name.items) chain.now }
{
    chain.iter().any(|name| full == name.as_slice())
}

/// The packages that are being run, inside a further one.
fn longer_chain(alloc: Global, chain: &[Vec<u8>], full: &[u8]) -> Result<Vec<Vec<u8>>, Memory>
    ensures { IfOk result (λ longer. chain_of longer.items ≡ chain_of chain.now ++ full.now ∷ []) }
{
    let mut longer = Vec::new(alloc);
    'each: for name in chain {
        let name = Vec::from_slice(alloc, name)?;
        longer.push(name)?;
    }
    let name = Vec::from_slice(alloc, full)?;
    longer.push(name)?;
    Ok(longer)
}

/// The blocks that a block imports, in the order of the lines.
fn imports_at(plan: &Plan, place: usize) -> &[usize]
    ensures { result.now ≡ slice_index_or (plan_of plan.now).imports place [] }
{
    match plan.imports.get(place) {
        Some(imports) => imports,
        None => &[],
    }
}

fn main_place(blocks: &[Block<'_>]) -> Option<usize>
    ensures { result ≡ position (λ b. bytes_eq b.name.now (codes "main")) blocks.now }
{
    blocks
        .iter()
        .position(|block| block.name == b"main".as_slice())
}

/// The exports of `main`.
fn main_exports(
    alloc: Global,
    blocks: &[Block<'_>],
    done: &HashMap<usize, Vec<Export>>,
) -> Result<Vec<Export>, Memory>
    ensures { IfOk result (λ exports. exports.items
        ≡ held_of done.now (position (λ b. bytes_eq b.name.now (codes "main")) blocks.now)) }
{
    match main_place(blocks) {
        Some(place) => imported(alloc, done, &[place]),
        None => Ok(Vec::new(alloc)),
    }
}

/// Runs what a block takes its exports from, in a context.
#[cycle(linking)]
fn run_source<'x, F: Files>(
    setting: Setting<'_>,
    session: &mut Session,
    files: &mut F,
    file: &File<'_>,
    context: &'x Context<'x>,
    source: Source<'_>,
    imports: &[Export],
) -> Result<Vec<Export>, LinkFault>
    requires limits { AreWithin setting.limits.now }
    requires ready { IsReady session.old context.now }
    requires source { IsSourceRight (source_value source) }
    requires imports { All (IsExportIn session.old) imports.now }
    requires lawful_imports { AreLawfulExports session.old imports.now }
    ensures comes { HasReadFiles (F.folder files.old) (λ folder. Comes session.new.kernel (ran_of session.new) result
        (run_source (setting_of folder setting.entry) (opener_of (setting_of folder setting.entry) file.now)
        (string_bytes file.now.path)
        (map (export_of session.old) imports.now) (source_value source.entry) (context_of session.old context.now)
        (run_of session.old))) }
    ensures left { LeavesExports NamesSymbolIn result session.old session.new }
    ensures cause { IfErr result (λ e. HasCause e (F.misses files.old) (F.misses files.new) (F.faults files.old)
        (F.faults files.new) (F.at files.new)) }
    ensures kept { KeepsFiles F.folder F.faults F.misses files.old files.new }
{
    match source {
        Source::Article(value) => {
            let path = article_path(setting.alloc, &file.path, value)?;
            open_article(setting, session, files, context, path)
        }
        Source::Package(line, full) => {
            open_package(setting, session, files, file, context, line, full)
        }
        Source::Imports => {
            let once = each_once(setting.alloc, session, imports)?;
            Ok(once)
        }
    }
}

/// Runs the theory file of a package, in a context, unless the package is being run.
#[cycle(linking)]
fn open_package<'x, F: Files>(
    setting: Setting<'_>,
    session: &mut Session,
    files: &mut F,
    file: &File<'_>,
    context: &'x Context<'x>,
    line: u64,
    full: &[u8],
) -> Result<Vec<Export>, LinkFault>
    requires limits { AreWithin setting.limits.now }
    requires ready { IsReady session.old context.now }
    requires full { is_package full.now ≡ true }
    ensures comes { HasReadFiles (F.folder files.old) (λ folder. Comes session.new.kernel (ran_of session.new) result
        (opener_of (setting_of folder setting.entry) file.now line full.now (context_of session.old context.now)
        (run_of session.old))) }
    ensures left { LeavesExports NamesSymbolIn result session.old session.new }
    ensures cause { IfErr result (λ e. HasCause e (F.misses files.old) (F.misses files.new) (F.faults files.old)
        (F.faults files.new) (F.at files.new)) }
    ensures kept { KeepsFiles F.folder F.faults F.misses files.old files.new }
{
    let alloc = setting.alloc;
    if is_open(&file.chain, full) {
        let path = String::from_str(alloc, &file.path)?;
        let fault = StructureFault::PackageCycle;
        return Err(LinkFault::Structure { path, line, fault });
    }
    if file.left == 0 {
        let path = String::from_str(alloc, &file.path)?;
        let fault = StructureFault::PackageDepth;
        return Err(LinkFault::Structure { path, line, fault });
    }
    let path = package_path(alloc, setting.packages, full)?;
    let chain = longer_chain(alloc, &file.chain, full)?;
    let package = File {
        path,
        chain,
        left: file.left - 1,
        outer: context,
    };
    link_file(setting, session, files, &package)
}

/// Runs a block, whose imports export these.
#[cycle(linking)]
fn run_block<F: Files>(
    setting: Setting<'_>,
    session: &mut Session,
    files: &mut F,
    file: &File<'_>,
    block: &Block<'_>,
    imports: &[Export],
) -> Result<Vec<Export>, LinkFault>
    requires limits { AreWithin setting.limits.now }
    requires ready { IsReady session.old file.now.outer.now }
    requires block { IsRunnable (block_of block.now) }
    requires imports { All (IsExportIn session.old) imports.now }
    requires lawful_imports { AreLawfulExports session.old imports.now }
    ensures comes { HasReadFiles (F.folder files.old) (λ folder. Comes session.new.kernel (ran_of session.new) result
        (run_block (setting_of folder setting.entry) (opener_of (setting_of folder setting.entry) file.now)
        (string_bytes file.now.path)
        (context_of session.old file.now.outer.now) (block_of block.now) (map (export_of session.old) imports.now)
        (run_of session.old))) }
    ensures left { LeavesExports NamesSymbolIn result session.old session.new }
    ensures cause { IfErr result (λ e. HasCause e (F.misses files.old) (F.misses files.new) (F.faults files.old)
        (F.faults files.new) (F.at files.new)) }
    ensures kept { KeepsFiles F.folder F.faults F.misses files.old files.new }
{
    let alloc = setting.alloc;
    let own = interpretation_of(alloc, session, &block.statements)?;
    let interp = own.after(alloc, file.outer.interp)?;
    let theorems = given_to(alloc, imports, file.outer.theorems)?;
    let candidates = session.candidates_of(alloc, &theorems)?;
    session.kernel().sound();
    naming_law();
    let context = Context {
        interp: &interp,
        theorems: &theorems,
        candidates: &candidates,
    };
    run_source(
        setting,
        session,
        files,
        file,
        &context,
        source_of(&block.statements),
        imports,
    )
}

/// Runs the block at a place, behind those that have run.
#[cycle(linking)]
fn run_next<F: Files>(
    setting: Setting<'_>,
    session: &mut Session,
    files: &mut F,
    file: &File<'_>,
    blocks: &[Block<'_>],
    plan: &Plan,
    done: &HashMap<usize, Vec<Export>>,
    place: usize,
) -> Result<Vec<Export>, LinkFault>
    requires limits { AreWithin setting.limits.now }
    requires ready { IsReady session.old file.now.outer.now }
    requires blocks { All IsRunnable (blocks_of blocks.now) }
    requires done { (b : ℕ) → All (IsExportIn session.old) (held_at done.now b) }
    requires lawful_done { (b : ℕ) → AreLawfulOnce session.old (held_at done.now b) }
    ensures comes { HasReadFiles (F.folder files.old) (λ folder. Comes session.new.kernel (ran_of session.new) result
        (run_at (setting_of folder setting.entry) (opener_of (setting_of folder setting.entry) file.now)
        (string_bytes file.now.path)
        (context_of session.old file.now.outer.now)
        (imported (plan_of plan.now).imports (done_of session.old done.now) place)
        (slice_get (blocks_of blocks.now) place) (run_of session.old))) }
    ensures left { LeavesExports NamesSymbolIn result session.old session.new }
    ensures cause { IfErr result (λ e. HasCause e (F.misses files.old) (F.misses files.new) (F.faults files.old)
        (F.faults files.new) (F.at files.new)) }
    ensures kept { KeepsFiles F.folder F.faults F.misses files.old files.new }
{
    let imports = imported(setting.alloc, done, imports_at(plan, place))?;
    match blocks.get(place) {
        Some(block) => run_block(setting, session, files, file, block, &imports),
        None => Ok(Vec::new(setting.alloc)),
    }
}

/// Runs blocks in the order of their plan, and gives the exports of `main`.
#[cycle(linking)]
fn run_blocks<F: Files>(
    setting: Setting<'_>,
    session: &mut Session,
    files: &mut F,
    file: &File<'_>,
    blocks: &[Block<'_>],
    plan: &Plan,
) -> Result<Vec<Export>, LinkFault>
    requires limits { AreWithin setting.limits.now }
    requires ready { IsReady session.old file.now.outer.now }
    requires blocks { All IsRunnable (blocks_of blocks.now) }
    ensures comes { HasReadFiles (F.folder files.old) (λ folder. Comes session.new.kernel (ran_of session.new) result
        (run_planned (setting_of folder setting.entry) (opener_of (setting_of folder setting.entry) file.now)
        (string_bytes file.now.path)
        (context_of session.old file.now.outer.now) (run_of session.old)
        (record { blocks = blocks_of blocks.now; plan = plan_of plan.now }))) }
    ensures left { LeavesExports NamesSymbolIn result session.old session.new }
    ensures cause { IfErr result (λ e. HasCause e (F.misses files.old) (F.misses files.new) (F.faults files.old)
        (F.faults files.new) (F.at files.new)) }
    ensures kept { KeepsFiles F.folder F.faults F.misses files.old files.new }
{
    stays_law();
    let mut done: HashMap<usize, Vec<Export>> = HashMap::new(setting.alloc);
    'each: for place in &plan.order {
        let exports = run_next(setting, session, files, file, blocks, plan, &done, *place)?;
        done.insert(*place, exports)?;
    }
    let exports = main_exports(setting.alloc, blocks, &done)?;
    Ok(exports)
}

/// Runs a theory file, and gives the exports of its block `main`.
#[cycle(linking)]
pub(crate) fn link_file<F: Files>(
    setting: Setting<'_>,
    session: &mut Session,
    files: &mut F,
    file: &File<'_>,
) -> Result<Vec<Export>, LinkFault>
    requires limits { AreWithin setting.limits.now }
    requires ready { IsReady session.old file.now.outer.now }
    ensures comes { HasReadFiles (F.folder files.old) (λ folder. Comes session.new.kernel (ran_of session.new) result
        (run_file (setting_of folder setting.entry) (opener_of (setting_of folder setting.entry) file.now)
        (string_bytes file.now.path)
        (context_of session.old file.now.outer.now) (run_of session.old))) }
    ensures left { LeavesExports NamesSymbolIn result session.old session.new }
    ensures cause { IfErr result (λ e. HasCause e (F.misses files.old) (F.misses files.new) (F.faults files.old)
        (F.faults files.new) (F.at files.new)) }
    ensures kept { KeepsFiles F.folder F.faults F.misses files.old files.new }
{
    let text = theory_text(setting, files, &file.path)?;
    let theory = theory_in(setting.alloc, &file.path, &text)?;
    run_theory(setting, session, files, file, &theory)
}

/// Runs a theory file that was read, and gives the exports of its block `main`.
#[cycle(linking)]
pub(crate) fn run_theory<F: Files>(
    setting: Setting<'_>,
    session: &mut Session,
    files: &mut F,
    file: &File<'_>,
    theory: &Theory<'_>,
) -> Result<Vec<Export>, LinkFault>
    requires limits { AreWithin setting.limits.now }
    requires ready { IsReady session.old file.now.outer.now }
    requires sound { IsSound (theory_of theory.now) }
    ensures comes { HasReadFiles (F.folder files.old) (λ folder. Comes session.new.kernel (ran_of session.new) result
        (run_theory (setting_of folder setting.entry) (opener_of (setting_of folder setting.entry) file.now)
        (string_bytes file.now.path)
        (context_of session.old file.now.outer.now) (run_of session.old) (theory_of theory.now))) }
    ensures left { LeavesExports NamesSymbolIn result session.old session.new }
    ensures cause { IfErr result (λ e. HasCause e (F.misses files.old) (F.misses files.new) (F.faults files.old)
        (F.faults files.new) (F.at files.new)) }
    ensures kept { KeepsFiles F.folder F.faults F.misses files.old files.new }
{
    let plan = plan_at(setting.alloc, &file.path, &theory.blocks)?;
    run_blocks(setting, session, files, file, &theory.blocks, &plan)
}
