//! What theory files require, over folders of packages in memory.
use crate::folder::{Entry, files_of};
use ot_io::MemFiles;
use ot_logic::Limits;
use ot_repo::{RepoFault, required};
use ot_theory::TheoryFault;
use std::alloc::Global;
use std::test::Fail;

/// Theory files, and three folders of packages: `p`, `q` without a list, and `bad`.
const FILES: [Entry; 13] = [
    ("u.thy", b"requires: a\nrequires: b-1\nmain {\n}\n", b""),
    ("none.thy", b"name: none\nmain {\n}\n", b""),
    ("gone.thy", b"requires: gone\nmain {\n}\n", b""),
    ("round.thy", b"name: round\nrequires: c\nmain {\n}\n", b""),
    ("far.thy", b"requires: b-1-9\nmain {\n}\n", b""),
    ("open.thy", b"requires: a\nmain {\n", b""),
    (
        "p/installed",
        b"a-1\nb-1\n# b-3\n\t b-2 \r\nc-1\nd-1\nb-1-9\n",
        b"",
    ),
    ("p/a-1/a.thy", b"requires: b\nmain {\n}\n", b""),
    ("p/b-1/b.thy", b"requires: b-2\nmain {\n}\n", b""),
    ("p/b-2/b.thy", b"main {\n}\n", b""),
    ("p/c-1/c.thy", b"requires: d\nmain {\n}\n", b""),
    (
        "p/d-1/d.thy",
        b"name: d\nrequires: b\nrequires: c\nmain {\n}\n",
        b"",
    ),
    ("bad/installed", b"a-1\n\nBool-1\n", b""),
];

/// How a walk ends, but for the path of a fault.
#[derive(Clone, Copy)]
enum End {
    Names(&'static [&'static str]),
    Theory(u64, TheoryFault),
    TheoryTooLarge,
    IndexTooLarge,
    BadIndex(u64),
    NotInstalled(u64),
    RequiresCycle(u64),
    NoFile,
    ReadFault,
    Memory,
}

/// A theory file, a folder of packages, the most bytes of a theory file, the call that fails, the
/// end, and the path of its fault.
type Row = (&'static str, &'static str, usize, u64, End, &'static str);

const ROWS: [Row; 14] = [
    (
        "u.thy",
        "p",
        1000,
        0,
        End::Names(&["b-2", "a-1", "b-1"]),
        "",
    ),
    ("none.thy", "q", 20, 0, End::Names(&[]), ""),
    ("none.thy", "q", 19, 0, End::TheoryTooLarge, "none.thy"),
    ("gone.thy", "p", 1000, 0, End::NotInstalled(1), "gone.thy"),
    ("gone.thy", "q", 1000, 0, End::NoFile, "q/installed"),
    (
        "gone.thy",
        "bad",
        1000,
        0,
        End::BadIndex(3),
        "bad/installed",
    ),
    (
        "round.thy",
        "p",
        1000,
        0,
        End::RequiresCycle(3),
        "p/d-1/d.thy",
    ),
    ("far.thy", "p", 1000, 0, End::NoFile, "p/b-1-9/b-1.thy"),
    (
        "open.thy",
        "q",
        1000,
        0,
        End::Theory(2, TheoryFault::BadBlock),
        "open.thy",
    ),
    ("x.thy", "p", 1000, 0, End::NoFile, "x.thy"),
    ("none.thy", "q", 1000, 1, End::ReadFault, "none.thy"),
    ("none.thy", "q", 1000, 2, End::ReadFault, "none.thy"),
    ("u.thy", "p", 1000, 7, End::ReadFault, "p/installed"),
    ("u.thy", "p", 34, 0, End::TheoryTooLarge, "u.thy"),
];

/// Whether an answer ends so, with this path.
fn ends_so(answer: &Result<Vec<String>, RepoFault>, end: End, wanted: &str) -> bool {
    match (answer, end) {
        (Ok(names), End::Names(wanted)) => {
            names.len() == wanted.len() && names.iter().zip(wanted).all(|(a, b)| a.as_str() == *b)
        }
        (Err(RepoFault::Theory { path, line, fault }), End::Theory(at, other)) => {
            path.as_str() == wanted && *line == at && *fault == other
        }
        (Err(RepoFault::TheoryTooLarge { path }), End::TheoryTooLarge) => path.as_str() == wanted,
        (Err(RepoFault::IndexTooLarge { path }), End::IndexTooLarge) => path.as_str() == wanted,
        (Err(RepoFault::BadIndex { path, line }), End::BadIndex(at)) => {
            path.as_str() == wanted && *line == at
        }
        (Err(RepoFault::NotInstalled { path, line }), End::NotInstalled(at)) => {
            path.as_str() == wanted && *line == at
        }
        (Err(RepoFault::RequiresCycle { path, line }), End::RequiresCycle(at)) => {
            path.as_str() == wanted && *line == at
        }
        (Err(RepoFault::NoFile { path }), End::NoFile) => path.as_str() == wanted,
        (Err(RepoFault::ReadFault { path }), End::ReadFault) => path.as_str() == wanted,
        _ => false,
    }
}

/// Whether the walk of a row ends as it says.
fn holds(alloc: Global, row: Row) -> Result<bool, Fail> {
    let (path, packages, max, fail, end, wanted) = row;
    let fail = Vec::from_slice(alloc, &[fail])?;
    let files = files_of(alloc, &FILES)?;
    let mut files = MemFiles::new(files, 9, fail);
    let mut limits = Limits::standard();
    limits.theory_bytes = max;
    let answer = required(alloc, &mut files, path, packages, &limits);
    Ok(ends_so(&answer, end, wanted))
}

#[test]
fn walks(rt: HostRuntime) -> Result<(), Fail> {
    for row in ROWS {
        assert!(rt; holds(rt.alloc(), row)?, "{} in {}", row.0, row.1);
    }
    Ok(())
}
