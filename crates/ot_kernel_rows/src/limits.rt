//! What a run writes, within as many bytes as it has, and within one fewer.
ghost use Rattle.std.specs.Prelude.{◌≡◌, ◌<◌, ◌^◌, map, length, IfOk};
ghost use Rattle.std.specs.List.{All};
ghost use Rattle.ot_machine.specs.Meaning.{run_of, export_of, IsRun, IsExportIn};
ghost use Rattle.ot_machine.specs.States.{fresh_run};
ghost use Rattle.ot_log.specs.Logs.{AreLawful};

use crate::fresh::fresh_session;
use ot_find::Search;
use ot_io::MemSource;
use ot_link::run_alone;
use ot_log::{LogRefusal, write_log};
use ot_logic::{Limits, Name, Tm, Ty};
use ot_machine::{Export, Session};
use ot_print::PrintFault;
use ot_uses::uses_text;
use std::alloc::{AllocError, Global};
use std::process::Abort;
use std::test::Fail;

/// A proposition, taken as an axiom, and exported.
const ARTICLE: &[u8] =
    b"6\nversion\n\"p\"\n\"bool\"\ntypeOp\nnil\nopType\nvar\nvarTerm\n0\ndef\npop\nnil\n0\nref\naxiom\nnil\n0\nref\nthm\n";

const LOG: &[u8] = b"otlog\n1\ntyop\n\"bool\"\n0\nfree\n\"p\"\n0\nassumption\n0\n0\nresult\n0\n";

const USES: &[u8] =
    b"theorem 1: |- \"p\":\"bool\"\n  assumptions: 1\n    |- \"p\":\"bool\"\n  definitions: 0\n";

const FOUND: &[u8] =
    b"matches: 1\n  p.art: |- \"p\":\"bool\"\n    \"v\":\"bool\" := \"p\":\"bool\"\n";

#[test]
fn texts(rt: HostRuntime) -> Result<(), Fail> {
    let mut session = fresh_session(rt.alloc())?;
    check_run(&rt, rt.alloc(), &mut session)
}

/// Runs the article, and looks at what can be written of it.
fn check_run(rt: &impl Abort, alloc: Global, session: &mut Session) -> Result<(), Fail>
    requires run { IsRun session.old }
    requires fresh { run_of session.old ≡ fresh_run }
{
    let bytes = Vec::from_slice(alloc, ARTICLE)?;
    let mut source = MemSource::new(bytes, 9, Vec::new(alloc));
    let path = String::from_str(alloc, "p.art")?;
    let limits = Limits::standard();
    match run_alone(alloc, session, &mut source, path, &limits) {
        Ok(exports) => check_texts(rt, alloc, session, &exports),
        Err(_) => {
            assert!(rt; false, "the article is refused");
            Ok(())
        }
    }
}

fn check_texts(
    rt: &impl Abort,
    alloc: Global,
    session: &Session,
    exports: &[Export],
) -> Result<(), Fail>
    requires run { IsRun session.now }
    requires exports { All (IsExportIn session.now) exports.now }
    requires lawful { AreLawful (run_of session.now) (map (export_of session.now) exports.now) }
{
    let mut out = Vec::new(alloc);
    check_log(rt, alloc, session, exports, &mut out)?;
    out.clear();
    check_uses(rt, alloc, session, exports, &mut out)?;
    out.clear();
    let pattern = proposition(alloc)?;
    check_found(rt, alloc, session, exports, &pattern, &mut out)
}

/// The proof log.
fn check_log(
    rt: &impl Abort,
    alloc: Global,
    session: &Session,
    exports: &[Export],
    out: &mut Vec<u8>,
) -> Result<(), Fail>
    requires run { IsRun session.now }
    requires exports { All (IsExportIn session.now) exports.now }
    requires lawful { AreLawful (run_of session.now) (map (export_of session.now) exports.now) }
{
    let short = write_log(alloc, session, exports, 56, out);
    assert!(rt; matches!(short, Err(LogRefusal::TooLarge)) && out.is_empty());
    let whole = write_log(alloc, session, exports, 57, out);
    assert!(rt; whole.is_ok() && out.as_slice() == LOG);
    Ok(())
}

/// What each theorem rests on.
fn check_uses(
    rt: &impl Abort,
    alloc: Global,
    session: &Session,
    exports: &[Export],
    out: &mut Vec<u8>,
) -> Result<(), Fail>
    requires run { IsRun session.now }
    requires exports { All (IsExportIn session.now) exports.now }
{
    let short = uses_text(alloc, session, exports, 76, out);
    assert!(rt; short == Err(PrintFault::TooLarge) && out.is_empty());
    uses_text(alloc, session, exports, 77, out)?;
    assert!(rt; out.as_slice() == USES);
    Ok(())
}

/// A variable that any proposition is put in for.
fn proposition(alloc: Global) -> Result<Tm, AllocError> {
    let ty = Ty::Op(Name::of_text(alloc, b"bool")?, Vec::new(alloc));
    Ok(Tm::Free(Name::of_text(alloc, b"v")?, ty))
}

/// The matches of a pattern.
fn check_found(
    rt: &impl Abort,
    alloc: Global,
    session: &Session,
    exports: &[Export],
    pattern: &Tm,
    out: &mut Vec<u8>,
) -> Result<(), Fail>
    requires run { IsRun session.now }
    requires exports { All (IsExportIn session.now) exports.now }
{
    let short = search(alloc, session, exports, pattern, 62, out);
    assert!(rt; short == Err(PrintFault::TooLarge) && out.is_empty());
    search(alloc, session, exports, pattern, 63, out)?;
    assert!(rt; out.as_slice() == FOUND);
    Ok(())
}

/// Searches the exports for a pattern.
fn search(
    alloc: Global,
    session: &Session,
    exports: &[Export],
    pattern: &Tm,
    max: usize,
    out: &mut Vec<u8>,
) -> Result<(), PrintFault>
    requires run { IsRun session.now }
    requires exports { All (IsExportIn session.now) exports.now }
{
    let mut search = Search::new(alloc, max);
    for export in exports {
        search.add(alloc, session.kernel(), b"p.art", &[export.th], pattern);
    }
    search.finish(alloc, out)
}
