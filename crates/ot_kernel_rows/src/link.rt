//! Theory files over files in memory.
ghost use Rattle.std.specs.Prelude.{◌++◌, map, IsTrue};
ghost use Rattle.ot_io.specs.Folder.{has_distinct_paths};
ghost use Rattle.ot_link.specs.Answers.{AreWithin};

mod tables;

use crate::folder::{Entry, files_of};
use crate::fresh::fresh_session;
use ot_blocks::StructureFault;
use ot_io::{MemFiles, MemSource};
use ot_link::{LinkFault, link, run_alone};
use ot_logic::Limits;
use ot_machine::{Export, Fault, Session};
use ot_theory::TheoryFault;
use std::alloc::Global;
use std::test::Fail;
use tables::{
    ASSUMES, CHAIN, CYCLE, GONE, IMPORTS, IMPORTS_LATE, IMPORTS_NONE, NOT_RENAMED, RENAMES,
};

/// How a link ends: the numbers of theorems, assumptions and definitions, or its fault without the
/// path.
#[derive(Clone, Copy, PartialEq, Eq)]
enum End {
    Ended(usize, usize, usize),
    Article(u64, Fault),
    Theory(u64, TheoryFault),
    Structure(u64, StructureFault),
    TooLarge,
    NoFile,
    ReadFault,
    Memory,
}

fn end_of(answer: &Result<Vec<Export>, LinkFault>, session: &Session) -> End {
    match answer {
        Ok(exports) => End::Ended(
            exports.len(),
            session.kernel().assumptions().len(),
            session.kernel().definitions().len(),
        ),
        Err(LinkFault::Article { line, fault, .. }) => End::Article(*line, *fault),
        Err(LinkFault::Theory { line, fault, .. }) => End::Theory(*line, *fault),
        Err(LinkFault::Structure { line, fault, .. }) => End::Structure(*line, *fault),
        Err(LinkFault::TheoryTooLarge { .. }) => End::TooLarge,
        Err(LinkFault::NoFile { .. }) => End::NoFile,
        Err(LinkFault::ReadFault { .. }) => End::ReadFault,
        Err(LinkFault::Memory(_)) => End::Memory,
    }
}

/// Whether this is the path of a fault, or empty where there is none.
fn is_at(answer: &Result<Vec<Export>, LinkFault>, wanted: &str) -> bool {
    match answer {
        Err(LinkFault::Article { path, .. }) => path.as_str() == wanted,
        Err(LinkFault::Theory { path, .. }) => path.as_str() == wanted,
        Err(LinkFault::Structure { path, .. }) => path.as_str() == wanted,
        Err(LinkFault::TheoryTooLarge { path }) => path.as_str() == wanted,
        Err(LinkFault::NoFile { path }) => path.as_str() == wanted,
        Err(LinkFault::ReadFault { path }) => path.as_str() == wanted,
        Ok(_) | Err(LinkFault::Memory(_)) => wanted.is_empty(),
    }
}

/// Links the first of these files, and compares how that ends, and the path of its fault.
fn ends(
    alloc: Global,
    entries: &[Entry],
    limits: &Limits,
    fail: &[u64],
    end: End,
    path: &str,
) -> Result<bool, Fail>
    requires distinct { IsTrue (has_distinct_paths (map (λ e. (e.0.now, e.1.now ++ e.2.now)) entries.now)) }
    requires limits { AreWithin limits.now }
{
    let Some(first) = entries.first() else {
        return Ok(false);
    };
    let fail = Vec::from_slice(alloc, fail)?;
    let files = files_of(alloc, entries)?;
    let mut files = MemFiles::new(files, 9, fail);
    ends_over(alloc, &mut files, first.0, limits, end, path)
}

/// The same, over files. They and the session have owners of their own, so that no refusal has to
/// drop both.
fn ends_over(
    alloc: Global,
    files: &mut MemFiles,
    input: &str,
    limits: &Limits,
    end: End,
    path: &str,
) -> Result<bool, Fail>
    requires limits { AreWithin limits.now }
{
    let mut session = fresh_session(alloc)?;
    let result = link(alloc, &mut session, files, input, "packages", limits);
    Ok(end_of(&result, &session) == end && is_at(&result, path))
}

#[test]
fn theories(rt: HostRuntime) -> Result<(), Fail> {
    let alloc = rt.alloc();
    let limits = Limits::standard();
    let one = End::Ended(1, 0, 0);
    let assumed = End::Ended(1, 1, 0);
    assert!(rt; ends(alloc, &IMPORTS, &limits, &[], one, "")?);
    assert!(rt; ends(alloc, &IMPORTS_NONE, &limits, &[], assumed, "")?);
    assert!(rt; ends(alloc, &IMPORTS_LATE, &limits, &[], assumed, "")?);
    assert!(rt; ends(alloc, &ASSUMES, &limits, &[], assumed, "")?);
    assert!(rt; ends(alloc, &RENAMES, &limits, &[], assumed, "")?);
    Ok(())
}

#[test]
fn stops(rt: HostRuntime) -> Result<(), Fail> {
    let alloc = rt.alloc();
    let limits = Limits::standard();
    let end = End::Article(85, Fault::NotEquation);
    assert!(rt; ends(alloc, &NOT_RENAMED, &limits, &[], end, "d/eq.art")?);
    let end = End::Structure(5, StructureFault::ImportCycle);
    assert!(rt; ends(alloc, &CYCLE, &limits, &[], end, "v.thy")?);
    assert!(rt; ends(alloc, &GONE, &limits, &[], End::NoFile, "gone.art")?);
    // The second call opens or reads the theory file.
    assert!(rt; ends(alloc, &GONE, &limits, &[2], End::ReadFault, "w.thy")?);
    Ok(())
}

/// The file in use at a call, where each is opened, read by nine bytes a call, and once more at its end.
fn in_use(entries: &[Entry], call: u64) -> Option<&'static str> {
    let mut left = call;
    for (path, start, end) in entries {
        let bytes = start.len().saturating_add(end.len());
        let calls = bytes.div_ceil(9).saturating_add(2) as u64;
        if left <= calls {
            return Some(path);
        }
        left = left.saturating_sub(calls);
    }
    None
}

/// Each call of a run over a theory file and its articles fails in turn.
#[test]
fn failing_files(rt: HostRuntime) -> Result<(), Fail> {
    let alloc = rt.alloc();
    let limits = Limits::standard();
    for call in 1..1000 {
        let Some(path) = in_use(&IMPORTS, call) else {
            assert!(rt; ends(alloc, &IMPORTS, &limits, &[call], End::Ended(1, 0, 0), "")?);
            return Ok(());
        };
        assert!(rt;
            ends(alloc, &IMPORTS, &limits, &[call], End::ReadFault, path)?,
            "call {call}"
        );
    }
    assert!(rt; false, "no run without a failing call");
    Ok(())
}

/// {p} |- p, in 89 bytes.
const ALONE: &[u8] =
    b"6\nversion\n\"p\"\n\"bool\"\ntypeOp\nnil\nopType\nvar\nvarTerm\n0\ndef\nassume\n0\nref\nnil\ncons\n0\nref\n\
      thm\n";

/// Whether the run of an article by sixteen bytes a call ends so, where this call fails.
fn ends_alone(alloc: Global, call: u64, end: End) -> Result<bool, Fail> {
    let bytes = Vec::from_slice(alloc, ALONE)?;
    let mut source = MemSource::new(bytes, 16, Vec::from_slice(alloc, &[call])?);
    let path = String::from_str(alloc, "a.art")?;
    ends_by_source(alloc, &mut source, path, end)
}

fn ends_by_source(
    alloc: Global,
    source: &mut MemSource,
    path: String,
    end: End,
) -> Result<bool, Fail> {
    let limits = Limits::standard();
    let mut session = fresh_session(alloc)?;
    let result = run_alone(alloc, &mut session, source, path, &limits);
    Ok(end_of(&result, &session) == end)
}

/// The seventh call finds the end of the article.
#[test]
fn failing_articles(rt: HostRuntime) -> Result<(), Fail> {
    for call in 1..8 {
        assert!(rt;
            ends_alone(rt.alloc(), call, End::ReadFault)?,
            "call {call}"
        );
    }
    assert!(rt; ends_alone(rt.alloc(), 8, End::Ended(1, 0, 0))?);
    Ok(())
}

/// A chain of three packages, where three may be opened inside each other, or two.
#[test]
fn packages(rt: HostRuntime) -> Result<(), Fail> {
    let alloc = rt.alloc();
    let mut limits = Limits::standard();
    limits.package_depth = 3;
    assert!(rt; ends(alloc, &CHAIN, &limits, &[], End::Ended(0, 0, 0), "")?);
    limits.package_depth = 2;
    let end = End::Structure(2, StructureFault::PackageDepth);
    assert!(rt; ends(alloc, &CHAIN, &limits, &[], end, "packages/b-1/b.thy")?);
    Ok(())
}
