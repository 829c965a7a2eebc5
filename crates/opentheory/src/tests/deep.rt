//! A term of 4,090 applications, which each command walks on the ordinary stack.
use super::devices::{FINE, add_lines, answered, answered_over, answers, joined, one_file};
use super::tables::NONE;
use ot_program::Status;
use std::alloc::Global;
use std::process::Abort;
use std::test::Fail;

/// How often the function is applied.
const TIMES: usize = 4090;

/// A function c, as 5, and the variable x, as 6, of propositions.
const OF_PROPOSITIONS: &[u8] =
    b"6 version \"->\" typeOp 0 def pop \"bool\" typeOp nil opType 1 def pop 0 ref 1 ref 1 ref nil cons cons opType \
      2 def pop \"c\" const 2 ref constTerm 5 def pop \"x\" 1 ref var 6 def varTerm";

/// The same, of a type variable.
const OF_ANY: &[u8] =
    b"6 version \"->\" typeOp 0 def pop \"A\" varType 1 def pop 0 ref 1 ref 1 ref nil cons cons opType 2 def pop \"c\" \
      const 2 ref constTerm 5 def pop \"x\" 1 ref var 6 def varTerm";

const APPLIED: &[u8] = b"7 def pop 5 ref 7 ref appTerm";

/// What the article begins with, and what is done with the term, 7, at its end.
const ROWS: &[(&[u8], &[u8])] = &[
    // (\x. t) y
    (
        OF_PROPOSITIONS,
        b"7 def pop 6 ref 7 ref absTerm \"y\" 1 ref var varTerm appTerm betaConv",
    ),
    // z for x in {t} |- t
    (
        OF_PROPOSITIONS,
        b"7 def pop nil 6 ref \"z\" 1 ref var varTerm nil cons cons nil cons nil cons cons 7 ref assume subst",
    ),
    // y for x below the binder y
    (
        OF_PROPOSITIONS,
        b"7 def pop nil 6 ref \"y\" 1 ref var 8 def varTerm nil cons cons nil cons nil cons cons 8 ref 7 ref absTerm \
          refl subst",
    ),
    // bool for A
    (
        OF_ANY,
        b"7 def pop \"A\" \"bool\" typeOp nil opType nil cons cons nil cons nil nil cons cons 7 ref refl subst",
    ),
];

/// The article of a row.
fn article(alloc: Global, first: &[u8], last: &[u8]) -> Result<Vec<u8>, Fail> {
    let mut article = joined(alloc, &[first])?;
    for _ in 0..TIMES {
        add_lines(&mut article, APPLIED)?;
    }
    add_lines(&mut article, last)?;
    Ok(article)
}

#[test]
fn terms(rt: HostRuntime) -> Result<(), Fail> {
    let alloc = rt.alloc();
    for (first, last) in ROWS {
        let article = article(alloc, first, last)?;
        let answer = answered(alloc, &["check", "-"], &article, FINE)?;
        assert!(rt; answer.is(Status::Accepted, NONE), "{last:?}");
    }
    Ok(())
}

/// Exports the term, an axiom.
const EXPORTED: &[u8] = b"7 def pop nil 7 ref axiom nil 7 ref thm";

/// The printed term, in a line of a section: each application, and the variable.
const PRINTED: (&[u8], &[u8]) = (b"(@\"c\":(\"bool\" -> \"bool\") ", b"\"x\":\"bool\"");

const READABLE: (&[u8], &[u8]) = (b"({c : (bool -> bool)} ", b"(x : bool)");

/// Adds a line with the statement of the term.
fn add_statement(
    text: &mut Vec<u8>,
    indent: &[u8],
    (applied, variable): (&[u8], &[u8]),
) -> Result<(), Fail> {
    text.extend_from_slice(indent)?;
    text.extend_from_slice(b"|- ")?;
    for _ in 0..TIMES {
        text.extend_from_slice(applied)?;
    }
    text.extend_from_slice(variable)?;
    for _ in 0..TIMES {
        text.push(b')')?;
    }
    text.push(b'\n')?;
    Ok(())
}

/// The summary of the article, with what stands between both lists.
fn summary(alloc: Global, between: &[u8], printed: (&[u8], &[u8])) -> Result<Vec<u8>, Fail> {
    let mut text = Vec::new(alloc);
    text.extend_from_slice(b"assumptions: 1\n")?;
    add_statement(&mut text, b"  ", printed)?;
    text.extend_from_slice(between)?;
    text.extend_from_slice(b"theorems: 1\n")?;
    add_statement(&mut text, b"  ", printed)?;
    Ok(text)
}

#[test]
fn texts(rt: HostRuntime) -> Result<(), Fail> {
    let article = article(rt.alloc(), OF_PROPOSITIONS, EXPORTED)?;
    check_summaries(&rt, rt.alloc(), &article)?;
    check_readable(&rt, rt.alloc(), &article)
}

/// The summary of the article is that of its minimised article, and of its proof log.
fn check_summaries(rt: &impl Abort, alloc: Global, article: &[u8]) -> Result<(), Fail> {
    let wanted = summary(alloc, b"definitions: 0\n", PRINTED)?;
    assert!(rt; answers(alloc, &["info", "-"], article, Status::Accepted, &wanted)?);
    let written = answered(alloc, &["minimise", "-"], article, FINE)?;
    assert!(rt; written.status == Status::Accepted);
    assert!(rt;
        answers(
            alloc,
            &["info", "-"],
            &written.out,
            Status::Accepted,
            &wanted
        )?
    );
    let log = answered(alloc, &["prove", "-"], article, FINE)?;
    assert!(rt; log.status == Status::Accepted);
    assert!(rt; answers(alloc, &["verify", "-"], &log.out, Status::Accepted, &wanted)?);
    Ok(())
}

/// The readable summary, and what a line of it is read as.
fn check_readable(rt: &impl Abort, alloc: Global, article: &[u8]) -> Result<(), Fail> {
    let wanted = summary(alloc, b"", READABLE)?;
    assert!(rt;
        answers(
            alloc,
            &["info", "--readable", "-"],
            article,
            Status::Accepted,
            &wanted
        )?
    );
    let mut line = Vec::new(alloc);
    add_statement(&mut line, b"", READABLE)?;
    let mut printed = Vec::new(alloc);
    add_statement(&mut printed, b"", PRINTED)?;
    let files = one_file(alloc, "b.txt", &line)?;
    let answer = answered_over(alloc, &["read", "-", "b.txt"], files, article, FINE)?;
    assert!(rt; answer.is(Status::Accepted, &printed));
    Ok(())
}
