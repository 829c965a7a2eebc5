ghost use Rattle.std.specs.Prelude.{◌≡◌, [], Some, IfOk, IfErr};
ghost use Rattle.ot_io.specs.Keeping.{KeepsFiles};
ghost use Rattle.ot_io.specs.Readings.{HasReadFiles};
ghost use Rattle.ot_machine.specs.States.{fresh_run};
ghost use Rattle.ot_machine.specs.Meaning.{run_of, IsRun};
ghost use Rattle.ot_theory.specs.Answers.{theory_of};
ghost use Rattle.ot_theory.specs.Sound.{IsSound};
ghost use Rattle.ot_link.specs.Link.{link_theory, link};
ghost use Rattle.ot_link.specs.Answers.{AreWithin, setting_of, Comes, ran_of, AreExportsIn, NamesSymbolIn, HasCause};
ghost use Rattle.ot_link.specs.Lawful.{IsLawfulSession, AreLawfulOnce};

use crate::blocks::{File, run_theory};
use crate::fault::LinkFault;
use crate::reading::{read_theory, theory_in};
use crate::setting::Setting;
use ot_interp::Interp;
use ot_io::Files;
use ot_kernel::Candidates;
use ot_logic::Limits;
use ot_machine::{Context, Export, Session, fresh_law};
use ot_theory::Theory;
use std::alloc::Global;

/// Runs a theory file, with all articles and packages that it asks for, and gives the exports of its block `main`. By
/// the theory file format the blocks that `main` reaches run in depth-first order, each once, behind its imports; a
/// block's article or package is run in the context of the exports that the block imports, and under its `interpret:`
/// statements. A package `NAME-VERSION` is the file `NAME.thy` in the folder of that full name in `packages`. The
/// session is fresh, and the limits are at most those of the program.
///
/// Files were read, each of them missing, whole, or a front of it; the answer is that of the run in every folder that
/// agrees with this. A folder that is known does.
///
/// - `Article`, `Theory`, `Structure`, `TheoryTooLarge`: the first fault of the run, with the path of its file and its line.
///   The symbol that a fault of an article names has its name in the session's kernel.
/// - `NoFile`: only where a file was missing in this call, and exactly where it is the first fault.
/// - `ReadFault`: only where the files failed in this call; the path is one of those that the run needs.
/// - `Memory`: may come at any point.
///
/// No file is left open. After a fault the session may hold what the run put into it. Each assumption, definition and
/// export is what its origin makes, and each name in an origin is one that a line can say.
pub fn link<F: Files>(
    alloc: Global,
    session: &mut Session,
    files: &mut F,
    theory_path: &str,
    packages: &str,
    limits: &Limits,
) -> Result<Vec<Export>, LinkFault>
    requires session { IsRun session.old }
    requires fresh { run_of session.old ≡ fresh_run }
    requires limits { AreWithin limits.now }
    ensures reads { HasReadFiles (F.folder files.old) (λ folder. Comes session.new.kernel (ran_of session.new) result
        (link (record { folder = folder; packages = packages.now; limits = limits.now }) theory_path.now)) }
    ensures session { IsRun session.new }
    ensures lawful { IsLawfulSession session.new }
    ensures lawful_exports { IfOk result (λ exports. AreLawfulOnce session.new exports.items) }
    ensures exports { IfOk result (AreExportsIn session.new) }
    ensures symbols { IfErr result (NamesSymbolIn session.new.kernel) }
    ensures cause { IfErr result (λ e. HasCause e (F.misses files.old) (F.misses files.new) (F.faults files.old)
        (F.faults files.new) (F.at files.new)) }
    ensures kept { KeepsFiles F.folder F.faults F.misses files.old files.new }
    ensures closed { F.left files.new ≡ Some [] }
{
    fresh_law();
    let text = read_theory(alloc, files, theory_path, limits)?;
    let theory = theory_in(alloc, theory_path, &text)?;
    link_theory(
        alloc,
        session,
        files,
        theory_path,
        &theory,
        packages,
        limits,
    )
}

/// Runs a theory file that was read from its path, as `link` does, which reads it first.
///
/// Other files were read, each of them missing, whole, or a front of it; the answer is that of the run in every folder
/// that agrees with this. A folder that is known does.
pub fn link_theory<F: Files>(
    alloc: Global,
    session: &mut Session,
    files: &mut F,
    theory_path: &str,
    theory: &Theory<'_>,
    packages: &str,
    limits: &Limits,
) -> Result<Vec<Export>, LinkFault>
    requires session { IsRun session.old }
    requires fresh { run_of session.old ≡ fresh_run }
    requires sound { IsSound (theory_of theory.now) }
    requires limits { AreWithin limits.now }
    ensures reads { HasReadFiles (F.folder files.old) (λ folder. Comes session.new.kernel (ran_of session.new) result
        (link_theory (record { folder = folder; packages = packages.now; limits = limits.now }) theory_path.now
        (theory_of theory.now))) }
    ensures session { IsRun session.new }
    ensures lawful { IsLawfulSession session.new }
    ensures lawful_exports { IfOk result (λ exports. AreLawfulOnce session.new exports.items) }
    ensures exports { IfOk result (AreExportsIn session.new) }
    ensures symbols { IfErr result (NamesSymbolIn session.new.kernel) }
    ensures cause { IfErr result (λ e. HasCause e (F.misses files.old) (F.misses files.new) (F.faults files.old)
        (F.faults files.new) (F.at files.new)) }
    ensures kept { KeepsFiles F.folder F.faults F.misses files.old files.new }
    ensures closed { F.left files.new ≡ Some [] }
{
    let setting = Setting {
        alloc,
        packages,
        limits,
    };
    let result = link_first(setting, session, files, theory_path, theory);
    files.close();
    result
}

/// Runs the theory file of a path, in the empty context.
fn link_first<F: Files>(
    setting: Setting<'_>,
    session: &mut Session,
    files: &mut F,
    path: &str,
    theory: &Theory<'_>,
) -> Result<Vec<Export>, LinkFault>
    requires session { IsRun session.old }
    requires fresh { run_of session.old ≡ fresh_run }
    requires sound { IsSound (theory_of theory.now) }
    requires limits { AreWithin setting.limits.now }
    ensures comes { HasReadFiles (F.folder files.old) (λ folder. Comes session.new.kernel (ran_of session.new) result
        (link_theory (setting_of folder setting.entry) path.now (theory_of theory.now))) }
    ensures session { IsRun session.new }
    ensures lawful { IsLawfulSession session.new }
    ensures lawful_exports { IfOk result (λ exports. AreLawfulOnce session.new exports.items) }
    ensures exports { IfOk result (AreExportsIn session.new) }
    ensures symbols { IfErr result (NamesSymbolIn session.new.kernel) }
    ensures cause { IfErr result (λ e. HasCause e (F.misses files.old) (F.misses files.new) (F.faults files.old)
        (F.faults files.new) (F.at files.new)) }
    ensures kept { KeepsFiles F.folder F.faults F.misses files.old files.new }
{
    fresh_law();
    let interp = Interp::new(setting.alloc);
    let candidates = Candidates::none(setting.alloc);
    let outer = Context {
        interp: &interp,
        theorems: &[],
        candidates: &candidates,
    };
    let path = String::from_str(setting.alloc, path)?;
    let file = File {
        path,
        chain: Vec::new(setting.alloc),
        left: setting.limits.package_depth,
        outer: &outer,
    };
    run_theory(setting, session, files, &file, theory)
}
