//! Lines of readable text: what they are read as, and where they are refused.
use ot_logic::{Name, Tm, Ty};
use ot_parse::{
    Notation, PlainFault, ReadRefusal, Readable, TextFault, WordKind, plain_text, read_sequent,
    read_term,
};
use ot_read::sequents_text;
use std::alloc::{AllocError, Global};
use std::process::Abort;
use std::test::Fail;

fn boolean(alloc: Global) -> Result<Ty, AllocError> {
    Ok(Ty::Op(Name::of_text(alloc, b"bool")?, Vec::new(alloc)))
}

fn function(alloc: Global, from: Ty, to: Ty) -> Result<Ty, AllocError> {
    let mut args = Vec::new(alloc);
    args.push(from)?;
    args.push(to)?;
    Ok(Ty::Op(Name::of_text(alloc, b"->")?, args))
}

/// p, a proposition.
fn variable(alloc: Global) -> Result<Tm, AllocError> {
    let ty = boolean(alloc)?;
    Ok(Tm::Free(Name::of_text(alloc, b"p")?, ty))
}

/// `=` between propositions.
fn equality(alloc: Global) -> Result<Tm, AllocError> {
    let half = function(alloc, boolean(alloc)?, boolean(alloc)?)?;
    let ty = function(alloc, boolean(alloc)?, half)?;
    Ok(Tm::Con(Name::of_text(alloc, b"=")?, ty))
}

fn application(alloc: Global, f: Tm, x: Tm) -> Result<Tm, AllocError> {
    let f = Box::new(alloc, f)?;
    Ok(Tm::App(f, Box::new(alloc, x)?))
}

/// A term applied to p.
fn applied(alloc: Global, f: Tm) -> Result<Tm, AllocError> {
    let p = variable(alloc)?;
    application(alloc, f, p)
}

/// `\y. y`
fn identity(alloc: Global) -> Result<Tm, AllocError> {
    let place = Box::new(alloc, Tm::Bound(0))?;
    Ok(Tm::Abs(boolean(alloc)?, place))
}

/// `\y. y` applied to p = p.
fn conclusion(alloc: Global) -> Result<Tm, AllocError> {
    let half = applied(alloc, equality(alloc)?)?;
    let whole = applied(alloc, half)?;
    let f = identity(alloc)?;
    application(alloc, f, whole)
}

/// That conclusion, under p twice.
fn sequent(alloc: Global) -> Result<Readable, AllocError> {
    let mut hyps = Vec::new(alloc);
    for _ in 0..2 {
        let p = variable(alloc)?;
        hyps.push(p)?;
    }
    let concl = conclusion(alloc)?;
    Ok(Readable { hyps, concl })
}

#[test]
fn texts(rt: HostRuntime) -> Result<(), Fail> {
    let read = sequent(rt.alloc())?;
    check_texts(&rt, rt.alloc(), &read)
}

/// The texts of two sequents take 2 * 56 bytes, and no fewer.
#[test]
fn lines_of_texts(rt: HostRuntime) -> Result<(), Fail> {
    let mut read = Vec::new(rt.alloc());
    read.push(sequent(rt.alloc())?)?;
    read.push(sequent(rt.alloc())?)?;
    check_lines_of_texts(&rt, rt.alloc(), &read)
}

/// Two lines of that text.
const PRINTED_TWICE: &[u8] =
    b"\"p\":\"bool\" |- ((\\\"bool\". #0) (\"p\":\"bool\" = \"p\":\"bool\"))\n\
      \"p\":\"bool\" |- ((\\\"bool\". #0) (\"p\":\"bool\" = \"p\":\"bool\"))\n";

fn check_lines_of_texts(rt: &impl Abort, alloc: Global, read: &[Readable]) -> Result<(), Fail> {
    let text = sequents_text(alloc, read, 112)?;
    assert!(rt; text.as_slice() == PRINTED_TWICE);
    for max in [0, 55, 56, 111] {
        let short = sequents_text(alloc, read, max);
        assert!(rt; matches!(short, Err(PlainFault::TooLarge)), "{max} bytes");
    }
    Ok(())
}

fn check_texts(rt: &impl Abort, alloc: Global, read: &Readable) -> Result<(), Fail> {
    let mut out = Vec::new(alloc);
    plain_text(alloc, read, 55, &mut out)?;
    let wanted: &[u8] = b"\"p\":\"bool\" |- ((\\\"bool\". #0) (\"p\":\"bool\" = \"p\":\"bool\"))";
    assert!(rt; out.as_slice() == wanted);
    assert!(rt; plain_text(alloc, read, 54, &mut out) == Err(PlainFault::TooLarge));
    Ok(())
}

/// A few symbols: what each is, and its quoted name.
const SYMBOLS: &[(WordKind, &[u8])] = &[
    (WordKind::Con, b"\"Data.Bool.T\""),
    (WordKind::Con, b"\"Data.Bool./\\\\\""),
    (WordKind::Con, b"\"Data.Bool.==>\""),
    (WordKind::TyOp, b"\"bool\""),
    (WordKind::TyOp, b"\"Data.Bool.pair\""),
];

fn symbols_of(rt: &impl Abort, alloc: Global) -> Result<Vec<(WordKind, Name)>, Fail> {
    let mut symbols = Vec::new(alloc);
    for &(kind, quoted) in SYMBOLS {
        assert!(rt; !quoted.is_empty() && quoted[0] == b'"');
        let name = Name::read(alloc, quoted)?;
        symbols.push((kind, name))?;
    }
    Ok(symbols)
}

/// The notation that shows `Data.Bool`, over these symbols.
fn notation_of(alloc: Global, symbols: &[(WordKind, Name)]) -> Result<Notation, Fail> {
    let shown = [Name::read(alloc, b"\"Data.Bool\"")?];
    Ok(Notation::new(alloc, &shown, symbols)?)
}

fn test_notation(rt: &impl Abort, alloc: Global) -> Result<Notation, Fail> {
    let symbols = symbols_of(rt, alloc)?;
    notation_of(alloc, &symbols)
}

/// Lines, and the column and fault of each; 0 where it is read.
const LINES: &[(&[u8], u64, TextFault)] = &[
    (b"|- (x : bool)", 0, TextFault::Syntax),
    (b"|- (x : bool", 13, TextFault::Syntax),
    (b"|- y", 4, TextFault::Unbound),
    (b"|- {T : bool}", 0, TextFault::Syntax),
    (b"|- {Data.Bool.T : bool}", 16, TextFault::Syntax),
    (b"|- {Data.Bool.U : bool}", 0, TextFault::Syntax),
    (b"|- {\"T\" : bool}", 0, TextFault::Syntax),
    (b"|- {\"U\" : bool}", 7, TextFault::Syntax),
    (b"|- (\"a\" : bool)", 7, TextFault::Syntax),
    (b"|- (\"a b\" : bool)", 0, TextFault::Syntax),
    (b"|- (\"a\\b\" : bool)", 8, TextFault::Syntax),
    (b"|- (x0 = y)", 5, TextFault::Unbound),
    (b"|- ((p : bool) /\\ (q : bool))", 0, TextFault::Syntax),
    (
        b"|- ((p : bool) // (q : bool))",
        4,
        TextFault::UnknownOperator,
    ),
    (b"|- ((p : bool) // (q : 'a))", 19, TextFault::BadTypes),
    (b"|- {// : bool}", 6, TextFault::Syntax),
    (b"|- {/ : bool}", 6, TextFault::Syntax),
    (b"|- {= : bool}", 6, TextFault::Syntax),
    (b"|- {/\\ : bool}", 0, TextFault::Syntax),
    (b"|- {==> : bool}", 0, TextFault::Syntax),
    (b"|- ((\\x : bool . x) (y : bool))", 0, TextFault::Syntax),
    (b"|- ((\\x : bool . x) (y : 'a))", 4, TextFault::BadTypes),
    (b"|- ((p : bool) = (q : 'a))", 4, TextFault::BadTypes),
    (b"|- ((p : 'a) = (q : 'a))", 0, TextFault::Syntax),
    (b"|- (p : 'a)", 4, TextFault::BadTypes),
    (b"|- (p : (bool -> bool))", 4, TextFault::BadTypes),
    (b"|- (p : (\"->\" bool bool))", 24, TextFault::Syntax),
    (
        b"|- ((f : (\"->\" bool)) = (f : (\"->\" bool)))",
        0,
        TextFault::Syntax,
    ),
    (
        b"|- ((f : (\"->\" bool 'a 'b)) = (f : (\"->\" bool 'a 'b)))",
        0,
        TextFault::Syntax,
    ),
    (
        b"|- ((f : (pair bool 'a)) = (f : (pair bool 'a)))",
        0,
        TextFault::Syntax,
    ),
    (
        b"|- ((f : (Data.Bool.pair bool 'a)) = (f : (pair bool 'a)))",
        25,
        TextFault::Syntax,
    ),
    (b"(x : bool) |- (x : bool)", 0, TextFault::Syntax),
    (
        b"(x : bool), (y : bool) |- (x : bool)",
        0,
        TextFault::Syntax,
    ),
    (
        b"(x : bool),(y : bool) |- (x : bool)",
        12,
        TextFault::Syntax,
    ),
    (b"(x : bool)  |- (x : bool)", 12, TextFault::Syntax),
    (b"(x : bool) |-  (x : bool)", 15, TextFault::Syntax),
    (b"", 1, TextFault::Syntax),
    (b"|", 2, TextFault::Syntax),
    (b"|- ", 4, TextFault::Syntax),
    (b"|- (x)", 6, TextFault::Syntax),
    (b"|- (x.y z)", 9, TextFault::Syntax),
    (b"|- (x :bool)", 8, TextFault::Syntax),
    (b"|- ((x : bool) )", 16, TextFault::Syntax),
    (b"|- (x : bool) ", 14, TextFault::Syntax),
    (b"|- (x. : bool)", 7, TextFault::Syntax),
    (b"|- (x : ')", 10, TextFault::Syntax),
    (b"|- (x : (bool))", 14, TextFault::Syntax),
    (b"|- (x : (bool ->  bool))", 18, TextFault::Syntax),
    (b"|- (x : (bool bool -> bool))", 20, TextFault::Syntax),
    (b"|- (\\x : bool . y)", 17, TextFault::Unbound),
    (b"|- (\\x : bool . x)", 4, TextFault::BadTypes),
    (b"|- ((a : bool) y (x : 'a))", 16, TextFault::Unbound),
    (b"|- ((a : bool) (b : bool) y)", 4, TextFault::BadTypes),
    (
        b"|- (((\\x : bool . x) = (\\y : bool . y)) = {T : bool})",
        0,
        TextFault::Syntax,
    ),
    // An operator of nine arguments, nine functions inside one another, and a function of nine arguments.
    (
        b"|- ((f : (t 'a 'b 'c 'd 'e 'f 'g 'h 'i)) = (f : (t 'a 'b 'c 'd 'e 'f 'g 'h 'i)))",
        0,
        TextFault::Syntax,
    ),
    (
        b"|- ((f : (bool -> (bool -> (bool -> (bool -> (bool -> (bool -> (bool -> (bool -> (bool -> bool)))))))))) \
          (a : bool) (a : bool) (a : bool) (a : bool) (a : bool) (a : bool) (a : bool) (a : bool) (a : bool))",
        0,
        TextFault::Syntax,
    ),
];

#[test]
fn lines_and_their_refusals(rt: HostRuntime) -> Result<(), Fail> {
    let notation = test_notation(&rt, rt.alloc())?;
    check_lines(&rt, rt.alloc(), &notation)
}

#[test]
fn many_open(rt: HostRuntime) -> Result<(), Fail> {
    let notation = test_notation(&rt, rt.alloc())?;
    check_many_open(&rt, rt.alloc(), &notation)
}

#[test]
fn deep(rt: HostRuntime) -> Result<(), Fail> {
    let notation = test_notation(&rt, rt.alloc())?;
    check_deep(&rt, rt.alloc(), &notation)
}

fn answer_of(read: Result<Readable, ReadRefusal>) -> (u64, TextFault) {
    match read {
        Ok(_) => (0, TextFault::Syntax),
        Err(ReadRefusal::At { column, fault }) => (column, fault),
        Err(ReadRefusal::Memory(_)) => (1000, TextFault::Syntax),
    }
}

fn check_lines(rt: &impl Abort, alloc: Global, notation: &Notation) -> Result<(), Fail> {
    for &(line, wanted, fault) in LINES {
        let answer = answer_of(read_sequent(alloc, notation, line));
        assert!(rt; answer.0 == wanted, "line {line:?}");
        assert!(rt; answer.1 == fault);
    }
    Ok(())
}

/// So many parentheses before the end, and where the line is refused.
const DEEP: &[(u64, u64, TextFault)] = &[
    (8192, 4 + 8192, TextFault::Syntax),
    (8193, 3 + 8193, TextFault::TooManyOpen),
    (1, 5, TextFault::Syntax),
    (10000, 3 + 8193, TextFault::TooManyOpen),
];

fn check_many_open(rt: &impl Abort, alloc: Global, notation: &Notation) -> Result<(), Fail> {
    for &(count, wanted, fault) in DEEP {
        let mut line = Vec::from_slice(alloc, b"|- ")?;
        for _ in 0..count {
            line.push(b'(')?;
        }
        let answer = answer_of(read_sequent(alloc, notation, &line));
        assert!(rt; answer.0 == wanted);
        assert!(rt; answer.1 == fault);
    }
    Ok(())
}

/// A term of abstractions inside one another, so many.
fn nested(alloc: Global, count: u64) -> Result<Vec<u8>, AllocError> {
    let mut line = Vec::new(alloc);
    for _ in 0..count {
        line.extend_from_slice(b"(\\x : bool . ")?;
    }
    line.push(b'x')?;
    for _ in 0..count {
        line.push(b')')?;
    }
    Ok(line)
}

fn check_deep(rt: &impl Abort, alloc: Global, notation: &Notation) -> Result<(), Fail> {
    for (count, column) in [(4095u64, 0u64), (4096, 1), (8192, 13 * 4096 + 1)] {
        let line = nested(alloc, count)?;
        let answer = match read_term(alloc, notation, &line) {
            Ok(_) => (0, TextFault::TooDeep),
            Err(ReadRefusal::At { column, fault }) => (column, fault),
            Err(ReadRefusal::Memory(_)) => (1000, TextFault::Syntax),
        };
        assert!(rt; answer.0 == column);
        assert!(rt; answer.1 == TextFault::TooDeep);
    }
    match read_term(alloc, notation, b"(\\x0 : bool . (x0 : bool))")? {
        Tm::Abs(_, body) => match Box::into_inner(body) {
            Tm::Free(_, Ty::Op(_, _)) => {}
            _ => assert!(rt; false),
        },
        _ => assert!(rt; false),
    }
    Ok(())
}
