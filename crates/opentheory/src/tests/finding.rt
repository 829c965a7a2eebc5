//! Searches for a pattern, among the exports of an input and of the packages that it requires.
use super::devices::{answers, says};
use super::theories::{DEFINES_IT, EQUATION, Entry, NOT_EQUATION, PROVES_IT, SYMMETRY};
use ot_program::Status;
use std::test::Fail;

/// The equation of the identity with itself, by another name of its variable.
const PROVES_IT_BY_Y: &[u8] =
    b"8\nref\nrefl\n\"y\"\n1\nref\nvar\n9\ndef\n9\nref\nvarTerm\nabsTerm\nrefl\neqMp\nnil\n8\nref\nthm\n";

/// The two halves of an article, a pattern, the status, and the text.
const ARTICLES: &[(&[u8], &[u8], &str, Status, &[u8])] = &[
    (
        EQUATION,
        DEFINES_IT,
        "((p : bool) = (q : bool))",
        Status::Accepted,
        b"matches: 1\n  -: |- (@\"Data.Bool.T\":\"bool\" = ((\\\"bool\". #0) = (\\\"bool\". #0)))\n    \
          \"p\":\"bool\" := @\"Data.Bool.T\":\"bool\"\n    \"q\":\"bool\" := ((\\\"bool\". #0) = (\\\"bool\". \
          #0))\n",
    ),
    (
        EQUATION,
        PROVES_IT_BY_Y,
        "((x : 'A) = (x : 'A))",
        Status::Accepted,
        b"matches: 1\n  -: |- ((\\\"bool\". #0) = (\\\"bool\". #0))\n    type '\"A\" := (\"bool\" -> \
          \"bool\")\n    \"x\":(\"bool\" -> \"bool\") := (\\\"bool\". #0)\n",
    ),
    (
        EQUATION,
        DEFINES_IT,
        "((x : 'A) = (x : 'A))",
        Status::Accepted,
        b"matches: 0\n",
    ),
    (
        EQUATION,
        DEFINES_IT,
        "x",
        Status::Refused,
        b"opentheory: pattern:1:1: unbound name\n",
    ),
    (
        EQUATION,
        DEFINES_IT,
        "(p : bool) ",
        Status::Refused,
        b"opentheory: pattern:1:11: cannot be read\n",
    ),
    (
        SYMMETRY,
        b"",
        "x",
        Status::Refused,
        b"opentheory: -:85: not an equation\n",
    ),
];

const REQUIRES_EQ: Entry = (
    "u.thy",
    b"requires: eq\nlib {\npackage: eq-1.0\ninterpret: const \"X\" as \"=\"\n}\n",
    b"main {\nimport: lib\n}\n",
);

const EQ_THEORY: Entry = (
    "packages/eq-1.0/eq.thy",
    b"inner {\ninterpret: const \"Y\" as \"X\"\narticle: \"eq.art\"\n}\n",
    b"main {\nimport: inner\n}\n",
);

const EQ_ARTICLE: Entry = ("packages/eq-1.0/eq.art", SYMMETRY, b"");

/// A theory file that requires a package whose article runs in its context alone, one that requires none that is
/// installed, and one that requires a package which runs.
const FILES: [Entry; 9] = [
    REQUIRES_EQ,
    (
        "gone.thy",
        b"requires: gone\nlib {\npackage: eq-1.0\ninterpret: const \"X\" as \"=\"\n}\n",
        b"main {\nimport: lib\n}\n",
    ),
    (
        "t.thy",
        b"requires: one-1\nmain {\n  article: \"truth.art\"\n}\n",
        b"",
    ),
    ("truth.art", EQUATION, DEFINES_IT),
    ("packages/installed", b"eq-1.0\none-1\n", b""),
    EQ_THEORY,
    EQ_ARTICLE,
    (
        "packages/one-1/one.thy",
        b"main {\n  article: \"one.art\"\n}\n",
        b"",
    ),
    ("packages/one-1/one.art", EQUATION, PROVES_IT),
];

/// The first of them, where that package alone is installed.
const ONE_INSTALLED: [Entry; 4] = [
    REQUIRES_EQ,
    ("packages/installed", b"eq-1.0", b""),
    EQ_THEORY,
    EQ_ARTICLE,
];

/// Words behind `find`, the status, and the text.
const ROWS: &[(&[&str], Status, &[u8])] = &[
    (&["(p : bool)", "u.thy"], Status::Refused, NOT_EQUATION),
    (
        &["(p : bool)", "gone.thy"],
        Status::Refused,
        b"opentheory: gone.thy:1: required package not installed\n",
    ),
    (
        &["x", "u.thy"],
        Status::Refused,
        b"opentheory: pattern:1:1: unbound name\n",
    ),
    (
        &["((p : 'a) = (q : 'a))", "t.thy"],
        Status::Accepted,
        b"matches: 2\n  one-1: |- ((\\\"bool\". #0) = (\\\"bool\". #0))\n    type '\"a\" := (\"bool\" -> \
          \"bool\")\n    \"p\":(\"bool\" -> \"bool\") := (\\\"bool\". #0)\n    \"q\":(\"bool\" -> \"bool\") := \
          (\\\"bool\". #0)\n  t.thy: |- (@\"Data.Bool.T\":\"bool\" = ((\\\"bool\". #0) = (\\\"bool\". #0)))\n    \
          type '\"a\" := \"bool\"\n    \"p\":\"bool\" := @\"Data.Bool.T\":\"bool\"\n    \"q\":\"bool\" := \
          ((\\\"bool\". #0) = (\\\"bool\". #0))\n",
    ),
    (
        &["--packages", "p", "(p : bool)", "t.thy"],
        Status::NoFile,
        b"opentheory: p/installed: no such file\n",
    ),
    (
        &["x", "packages/eq-1.0/eq.art"],
        Status::Refused,
        NOT_EQUATION,
    ),
    (
        &["x", "none.art"],
        Status::NoFile,
        b"opentheory: none.art: no such file\n",
    ),
];

#[test]
fn patterns(rt: HostRuntime) -> Result<(), Fail> {
    for &(start, end, pattern, status, text) in ARTICLES {
        let mut article = Vec::from_slice(rt.alloc(), start)?;
        article.extend_from_slice(end)?;
        assert!(rt;
            answers(rt.alloc(), &["find", pattern, "-"], &article, status, text)?,
            "{pattern:?}"
        );
    }
    Ok(())
}

#[test]
fn packages(rt: HostRuntime) -> Result<(), Fail> {
    for &(operands, status, text) in ROWS {
        let mut words: Vec<&str> = vec![in rt.alloc(); "find"]?;
        words.extend_from_slice(operands)?;
        assert!(rt;
            says(rt.alloc(), &words, &FILES, 0, status, text)?,
            "{operands:?}"
        );
    }
    let words = &["find", "(p : bool)", "u.thy"];
    assert!(rt;
        says(
            rt.alloc(),
            words,
            &ONE_INSTALLED,
            0,
            Status::Refused,
            NOT_EQUATION
        )?
    );
    Ok(())
}

/// Calls that fail: the list of packages is read, and a package's article.
#[test]
fn failing_packages(rt: HostRuntime) -> Result<(), Fail> {
    let words = &["find", "(p : bool)", "t.thy"];
    let line: &[u8] = b"opentheory: packages/installed: read fault\n";
    assert!(rt; says(rt.alloc(), words, &FILES, 4, Status::ReadFault, line)?);
    Ok(())
}
