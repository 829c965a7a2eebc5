//! Logs and what their check answers, worked by hand.
use ot_io::MemSource;
use ot_verify::{LogFault, Verified, VerifiedText, VerifyFault, verify};
use std::alloc::Global;
use std::process::Abort;
use std::test::Fail;

/// The type of propositions, the variable `p` of it, and `{p} |- p`.
const ASSUMED: &[u8] = b"otlog\n1\ntyop\n\"bool\"\n0\nfree\n\"p\"\n0\nassume\n0\n";

/// What stands before the type is another operator.
const OTHER: &[u8] = b"otlog\n1\ntyop\n\"t\"\n0\nfree\n\"p\"\n0\nassume\n0\n";

const ROWS: &[(&[u8], &[u8], Option<(u64, LogFault)>)] = &[
    (ASSUMED, b"result\n0\n", None),
    (OTHER, b"result\n0\n", Some((9, LogFault::BadStep))),
    (ASSUMED, b"result\n", Some((11, LogFault::LogEnds))),
    (b"", b"", Some((0, LogFault::LogEnds))),
    (b"otlog\n2\n", b"", Some((2, LogFault::BadHeader))),
    (b"otlog\n01\n", b"", Some((2, LogFault::BadToken))),
    (b"otlog\n1\nwhat\n", b"", Some((3, LogFault::UnknownRecord))),
    (b"otlog\n1\n1\n", b"", Some((3, LogFault::BadToken))),
    (
        b"otlog\n1\nassume\n0\n",
        b"",
        Some((4, LogFault::BadReference)),
    ),
    // A step that doesn't follow is a fault at the record's first line, a token at its own.
    (ASSUMED, b"eqMp\n0\n0\n", Some((11, LogFault::BadStep))),
    (ASSUMED, b"eqMp\n0\n1\n", Some((13, LogFault::BadReference))),
    // |- p = p, and p by it.
    (ASSUMED, b"refl\n0\neqMp\n1\n0\n", None),
    (ASSUMED, b"refl\n0\nabsThm\n\"p\"\n0\n1\n", None),
    (ASSUMED, b"deductAntisym\n0\n0\nresult\n1\n", None),
    // p is free in the hypothesis of p = p under p.
    (
        ASSUMED,
        b"refl\n0\ndeductAntisym\n0\n1\nabsThm\n\"p\"\n0\n2\n",
        Some((16, LogFault::BadStep)),
    ),
    // An open term isn't well typed.
    (
        ASSUMED,
        b"bound\n0\nrefl\n1\n",
        Some((13, LogFault::BadStep)),
    ),
    (ASSUMED, b"bound\n0\nlam\n0\n1\nrefl\n2\n", None),
    // (\x. x) p = p
    (
        ASSUMED,
        b"bound\n0\nlam\n0\n1\napp\n2\n0\nbetaConv\n3\n",
        None,
    ),
    (
        ASSUMED,
        b"bound\n0\nlam\n0\n1\nbetaConv\n2\n",
        Some((16, LogFault::BadStep)),
    ),
    // The first entry for a variable counts.
    (
        ASSUMED,
        b"tyop\n\"t\"\n0\nfree\n\"q\"\n1\nsubst\n0\n0\n2\n\"p\"\n0\n0\n\"p\"\n0\n1\n",
        None,
    ),
    (
        ASSUMED,
        b"tyop\n\"t\"\n0\nfree\n\"q\"\n1\nsubst\n0\n0\n2\n\"p\"\n0\n1\n\"p\"\n0\n0\n",
        Some((17, LogFault::BadStep)),
    ),
    // A constant is defined once, and for a closed term.
    (ASSUMED, b"bound\n0\nlam\n0\n1\nconstant\n\"c\"\n2\n", None),
    (
        ASSUMED,
        b"bound\n0\nlam\n0\n1\nconstant\n\"c\"\n2\nconstant\n\"c\"\n2\n",
        Some((19, LogFault::BadStep)),
    ),
    (
        ASSUMED,
        b"constant\n\"c\"\n0\n",
        Some((11, LogFault::BadStep)),
    ),
];

/// Why a log is refused where it may have so many bytes, if it is.
fn refusal(alloc: Global, text: Vec<u8>, max: u32) -> Option<(u64, LogFault)> {
    let mut source = MemSource::new(text, 7, Vec::new(alloc));
    match verify(alloc, &mut source, u64::from(max)) {
        Ok(_) => None,
        Err(VerifyFault::At { line, fault }) => Some((line, fault)),
        Err(_) => Some((0, LogFault::LineTooLong)),
    }
}

#[test]
fn logs(rt: HostRuntime) -> Result<(), Fail> {
    for &(front, back, wanted) in ROWS {
        let mut text = Vec::from_slice(rt.alloc(), front)?;
        text.extend_from_slice(back)?;
        assert!(rt; refusal(rt.alloc(), text, 4096) == wanted);
    }
    Ok(())
}

/// How many bytes the first log may have, of 42, and what is answered: at the line of the first byte that is too many.
const LIMITS: &[(u32, Option<(u64, LogFault)>)] = &[
    (42, None),
    (41, Some((10, LogFault::LogTooLong))),
    (10, Some((3, LogFault::LogTooLong))),
    (0, Some((1, LogFault::LogTooLong))),
];

/// How many abstractions stand over the variable of the first log, each over the one before, and what is answered: at
/// the record of the one that is nested deeper than 4,128.
const NESTED: &[(u64, Option<(u64, LogFault)>)] = &[
    (4127, None),
    (4128, Some((12392, LogFault::LogNesting))),
    (4129, Some((12392, LogFault::LogNesting))),
];

/// How many letters a name has that stands in quotes on the seventh line, and what is answered.
const LONG: &[(usize, Option<(u64, LogFault)>)] = &[
    (65533, None),
    (65534, Some((7, LogFault::LineTooLong))),
];

#[test]
fn limits(rt: HostRuntime) -> Result<(), Fail> {
    for &(max, wanted) in LIMITS {
        let text = Vec::from_slice(rt.alloc(), ASSUMED)?;
        assert!(rt; refusal(rt.alloc(), text, max) == wanted, "{max} bytes");
    }
    for &(count, wanted) in NESTED {
        let text = nested(rt.alloc(), count)?;
        assert!(rt;
            refusal(rt.alloc(), text, 1_000_000) == wanted,
            "{count} abstractions"
        );
    }
    for &(letters, wanted) in LONG {
        let text = named(rt.alloc(), letters)?;
        assert!(rt;
            refusal(rt.alloc(), text, 1_000_000) == wanted,
            "{letters} letters"
        );
    }
    Ok(())
}

/// The first log, and so many abstractions.
fn nested(alloc: Global, count: u64) -> Result<Vec<u8>, Fail> {
    let mut text = Vec::from_slice(alloc, ASSUMED)?;
    for number in 0..count {
        let record = format!(in alloc; "lam\n0\n{number}\n")?;
        text.extend_from_slice(record.as_bytes())?;
    }
    Ok(text)
}

/// A variable whose name has so many letters.
fn named(alloc: Global, letters: usize) -> Result<Vec<u8>, Fail> {
    let letters = vec![in alloc; b'p'; letters]?;
    let mut text = Vec::from_slice(alloc, b"otlog\n1\ntyop\n\"bool\"\n0\nfree\n\"")?;
    text.extend_from_slice(&letters)?;
    text.extend_from_slice(b"\"\n0\n")?;
    Ok(text)
}

/// What stands behind the first log, and the summary of both.
const SUMMARIES: &[(&[u8], &[u8])] = &[
    (b"", b"assumptions: 0\ndefinitions: 0\ntheorems: 0\n"),
    (
        b"result\n0\n",
        b"assumptions: 0\ndefinitions: 0\ntheorems: 1\n  \"p\":\"bool\" |- \"p\":\"bool\"\n",
    ),
    // The assumptions |- q and {p} |- q; they are results, the first of them twice, and p |- p.
    (
        b"free\n\"q\"\n0\nassumption\n1\n0\nassumption\n1\n1\n0\n\
          result\n1\nresult\n2\nresult\n1\nresult\n0\n",
        b"assumptions: 2\n\
          \x20 \"p\":\"bool\" |- \"q\":\"bool\"\n\
          \x20 |- \"q\":\"bool\"\n\
          definitions: 0\n\
          theorems: 3\n\
          \x20 |- \"q\":\"bool\"\n\
          \x20 \"p\":\"bool\" |- \"q\":\"bool\"\n\
          \x20 \"p\":\"bool\" |- \"p\":\"bool\"\n",
    ),
    // A constant for \x. x
    (
        b"bound\n0\nlam\n0\n1\nconstant\n\"c\"\n2\nresult\n1\n",
        b"assumptions: 0\n\
          definitions: 1\n\
          \x20 const \"c\" : |- (@\"c\":(\"bool\" -> \"bool\") = (\\\"bool\". #0))\n\
          theorems: 1\n\
          \x20 |- (@\"c\":(\"bool\" -> \"bool\") = (\\\"bool\". #0))\n",
    ),
    // The same constant by v = (\x. x).
    (
        b"bound\n0\nlam\n0\n1\ntyop\n\"->\"\n2\n0\n0\ntyop\n\"->\"\n2\n1\n0\n\
          tyop\n\"->\"\n2\n1\n2\nfree\n\"v\"\n1\ncon\n\"=\"\n3\napp\n4\n3\napp\n5\n2\n\
          assume\n6\nconstants\n1\n\"c\"\n\"v\"\n1\n1\n",
        b"assumptions: 0\n\
          definitions: 1\n\
          \x20 consts \"c\" for \"v\":(\"bool\" -> \"bool\") from \
          (\"v\":(\"bool\" -> \"bool\") = (\\\"bool\". #0)) |- \
          (\"v\":(\"bool\" -> \"bool\") = (\\\"bool\". #0)) : \
          |- (@\"c\":(\"bool\" -> \"bool\") = (\\\"bool\". #0))\n\
          theorems: 0\n",
    ),
    // A type by the assumption |- (\x. x) T
    (
        b"bound\n0\nlam\n0\n1\ncon\n\"T\"\n0\napp\n2\n3\nassumption\n4\n0\n\
          typeOperator\n\"t\"\n\"abs\"\n\"rep\"\n0\n1\n",
        b"assumptions: 1\n\
          \x20 |- ((\\\"bool\". #0) @\"T\":\"bool\")\n\
          definitions: 1\n\
          \x20 type \"t\" () abs \"abs\" rep \"rep\" from |- ((\\\"bool\". #0) @\"T\":\"bool\") : \
          |- ((\\\"t\". (@\"abs\":(\"bool\" -> \"t\") (@\"rep\":(\"t\" -> \"bool\") #0))) = \
          (\\\"t\". #0)) ; \
          |- ((\\\"bool\". ((@\"rep\":(\"t\" -> \"bool\") (@\"abs\":(\"bool\" -> \"t\") #0)) = #0)) = \
          (\\\"bool\". ((\\\"bool\". #0) #0)))\n\
          theorems: 0\n",
    ),
];

#[test]
fn summaries(rt: HostRuntime) -> Result<(), Fail> {
    for &(back, wanted) in SUMMARIES {
        let mut text = Vec::from_slice(rt.alloc(), ASSUMED)?;
        text.extend_from_slice(back)?;
        let mut source = MemSource::new(text, 7, Vec::new(rt.alloc()));
        let Ok(verified) = verify(rt.alloc(), &mut source, 4096) else {
            return Err(Fail::new("refused"));
        };
        check_summary(&rt, rt.alloc(), &verified, wanted)?;
    }
    Ok(())
}

/// The record of term 1, which is then doubled 200 times under the function f, and what stands behind term 401: a
/// definition, beta, a substitution and a closing of what is doubled.
const DOUBLED: &[(&[u8], &[u8])] = &[
    (b"con\n\"k\"\n0\n", b"constant\n\"c\"\n401\nresult\n0\n"),
    (
        b"bound\n0\n",
        b"lam\n0\n401\ncon\n\"k\"\n0\napp\n402\n403\nbetaConv\n404\nresult\n0\n",
    ),
    (
        b"free\n\"x\"\n0\n",
        b"refl\n401\ncon\n\"k\"\n0\nsubst\n0\n0\n1\n\"x\"\n0\n402\nresult\n1\n",
    ),
    (
        b"free\n\"x\"\n0\n",
        b"refl\n401\nabsThm\n\"x\"\n0\n0\nresult\n1\n",
    ),
];

/// Each is accepted, by work on the shared parts alone; its summary is too large, which is seen at the limit.
#[test]
fn doubled(rt: HostRuntime) -> Result<(), Fail> {
    for &(first, last) in DOUBLED {
        let text = doubled_log(rt.alloc(), first, last)?;
        let mut source = MemSource::new(text, 4096, Vec::new(rt.alloc()));
        let Ok(verified) = verify(rt.alloc(), &mut source, 1_000_000) else {
            return Err(Fail::new("refused"));
        };
        check_large(&rt, rt.alloc(), &verified);
    }
    Ok(())
}

fn doubled_log(alloc: Global, first: &[u8], last: &[u8]) -> Result<Vec<u8>, Fail> {
    let types = b"otlog\n1\ntyop\n\"bool\"\n0\ntyop\n\"->\"\n2\n0\n0\ntyop\n\"->\"\n2\n0\n1\n";
    let mut text = Vec::from_slice(alloc, types)?;
    text.extend_from_slice(b"con\n\"f\"\n2\n")?;
    text.extend_from_slice(first)?;
    for round in 0..200 {
        let part: u64 = 2 * round + 1;
        let half = part + 1;
        let records = format!(in alloc; "app\n0\n{part}\napp\n{half}\n{part}\n")?;
        text.extend_from_slice(records.as_bytes())?;
    }
    text.extend_from_slice(last)?;
    Ok(text)
}

fn check_large(rt: &impl Abort, alloc: Global, verified: &Verified) {
    let mut out = Vec::new(alloc);
    let answer = verified.text(alloc, 65536, &mut out);
    assert!(rt; answer == Err(VerifiedText::TooLarge));
}

/// With a byte less there is no summary.
fn check_summary(
    rt: &impl Abort,
    alloc: Global,
    verified: &Verified,
    wanted: &[u8],
) -> Result<(), Fail> {
    let mut out = Vec::new(alloc);
    let short = verified.text(alloc, wanted.len().saturating_sub(1), &mut out);
    assert!(rt; short == Err(VerifiedText::TooLarge));
    let whole = verified.text(alloc, wanted.len(), &mut out);
    assert!(rt; whole == Ok(()));
    assert!(rt; out.as_slice() == wanted);
    Ok(())
}
