//! Proof logs.
use super::devices::{FINE, Outside, answered, answers, joined};
use super::tables::{FIRST, NEEDED, SUMMARIES};
use ot_program::Status;
use std::alloc::Global;
use std::test::Fail;

/// A log, a space for the end of a line.
const LOG: &[u8] = b"otlog 1 tyop \"bool\" 0 free \"p\" 0 assume 0 result 0";

const SUMMARY: &[u8] =
    b"assumptions: 0\ndefinitions: 0\ntheorems: 1\n  \"p\":\"bool\" |- \"p\":\"bool\"\n";

/// Words, a log, and the status with the text.
const ROWS: &[(&[&str], &[u8], Status, &[u8])] = &[
    (&["verify", "-"], LOG, Status::Accepted, SUMMARY),
    (&["verify", "a.art"], LOG, Status::Accepted, SUMMARY),
    (
        &["verify", "-"],
        b"otlog 1 tyop \"t\" 0 free \"p\" 0 assume 0 result 0",
        Status::Refused,
        b"opentheory: -:9: step does not follow\n",
    ),
    (
        &["verify", "-"],
        b"otlog 1 tyop \"bool\" 0 free \"p\" 0 assume 0 result",
        Status::Refused,
        b"opentheory: -:11: log ends early\n",
    ),
    (
        &["verify", "a.art"],
        b"otlog 2",
        Status::Refused,
        b"opentheory: a.art:2: bad log header\n",
    ),
    (
        &["verify", "-"],
        b"otlog 1 nil",
        Status::Refused,
        b"opentheory: -:3: unknown record\n",
    ),
    (
        &["verify", "-"],
        b"otlog 1 tyop 0",
        Status::Refused,
        b"opentheory: -:4: bad token\n",
    ),
    (
        &["verify", "-"],
        b"otlog 1 free \"p\" 0",
        Status::Refused,
        b"opentheory: -:5: no such number\n",
    ),
    (
        &["verify", "-"],
        b"otlog 1",
        Status::Accepted,
        b"assumptions: 0\ndefinitions: 0\ntheorems: 0\n",
    ),
    (
        &["verify", "gone.thy"],
        LOG,
        Status::NoFile,
        b"opentheory: gone.thy: no such file\n",
    ),
];

#[test]
fn logs(rt: HostRuntime) -> Result<(), Fail> {
    for &(words, text, status, said) in ROWS {
        let log = joined(rt.alloc(), &[text])?;
        assert!(rt; answers(rt.alloc(), words, &log, status, said)?, "{text:?}");
    }
    Ok(())
}

/// Whether `verify` prints this summary of the log that `prove` writes of an article.
pub(super) fn proves(alloc: Global, parts: &[&[u8]], summary: &[u8]) -> Result<bool, Fail> {
    let article = joined(alloc, parts)?;
    let log = answered(alloc, &["prove", "-"], &article, FINE)?;
    let is_proof = answers(alloc, &["verify", "-"], &log.out, Status::Accepted, summary)?;
    Ok(log.status == Status::Accepted && is_proof)
}

/// The log that is written of an article proves what the article does.
#[test]
fn proofs(rt: HostRuntime) -> Result<(), Fail> {
    for place in NEEDED {
        match SUMMARIES.get(place) {
            Some((parts, _, summary)) => {
                assert!(rt; proves(rt.alloc(), parts, summary)?, "{parts:?}");
            }
            None => assert!(rt; false, "no summary {place}"),
        }
    }
    Ok(())
}

/// Articles and the logs that are written of them, a space for the end of a line.
const WRITTEN: &[(&[u8], &[u8])] = &[
    // {p} |- p
    (
        b"6 version \"p\" \"bool\" typeOp nil opType var varTerm 0 def assume 0 ref nil cons 0 ref thm",
        b"otlog 1 tyop \"bool\" 0 free \"p\" 0 assume 0 result 0",
    ),
    (b"", b"otlog 1"),
    // A constant c for a constant k.
    (
        b"6 version \"bool\" typeOp nil opType 0 def pop \"k\" const 0 ref constTerm 1 def pop \"->\" typeOp 0 \
          ref 0 ref nil cons cons opType 2 def pop \"->\" typeOp 0 ref 2 ref nil cons cons opType 3 def pop \
          \"c\" 1 ref defineConst nil \"=\" const 3 ref constTerm \"c\" const 0 ref constTerm appTerm 1 ref \
          appTerm thm",
        b"otlog 1 tyop \"bool\" 0 con \"k\" 0 constant \"c\" 0 result 0",
    ),
    // From p = q, q = p.
    (
        b"6 version \"bool\" typeOp nil opType 0 def pop \"->\" typeOp 0 ref 0 ref nil cons cons opType 1 def \
          pop \"->\" typeOp 0 ref 1 ref nil cons cons opType 2 def pop \"=\" const 2 ref constTerm 3 def pop \
          \"p\" 0 ref var varTerm 4 def pop \"q\" 0 ref var varTerm 5 def pop 3 ref 4 ref appTerm 5 ref appTerm \
          6 def assume sym 6 ref nil cons 3 ref 5 ref appTerm 4 ref appTerm thm",
        b"otlog 1 tyop \"bool\" 0 tyop \"->\" 2 0 0 tyop \"->\" 2 0 1 con \"=\" 2 free \"p\" 0 app 0 1 free \
          \"q\" 0 app 2 3 assume 4 refl 0 appThm 1 0 refl 1 appThm 2 3 eqMp 4 3 result 5",
    ),
    // From p = q and q = r, p = r: the lower theorem first, and the top one first.
    (
        b"6 version \"bool\" typeOp nil opType 0 def pop \"->\" typeOp 0 ref 0 ref nil cons cons opType 1 def \
          pop \"->\" typeOp 0 ref 1 ref nil cons cons opType 2 def pop \"=\" const 2 ref constTerm 3 def pop \
          \"p\" 0 ref var varTerm 4 def pop \"q\" 0 ref var varTerm 5 def pop \"r\" 0 ref var varTerm 6 def pop \
          3 ref 4 ref appTerm 5 ref appTerm 7 def pop 3 ref 5 ref appTerm 6 ref appTerm 8 def pop 7 ref assume 8 \
          ref assume trans 7 ref 8 ref nil cons cons 3 ref 4 ref appTerm 6 ref appTerm thm",
        b"otlog 1 tyop \"bool\" 0 tyop \"->\" 2 0 0 tyop \"->\" 2 0 1 con \"=\" 2 free \"p\" 0 app 0 1 free \
          \"q\" 0 app 2 3 assume 4 app 0 3 free \"r\" 0 app 5 6 assume 7 refl 2 appThm 2 1 eqMp 3 0 result 4",
    ),
    (
        b"6 version \"bool\" typeOp nil opType 0 def pop \"->\" typeOp 0 ref 0 ref nil cons cons opType 1 def \
          pop \"->\" typeOp 0 ref 1 ref nil cons cons opType 2 def pop \"=\" const 2 ref constTerm 3 def pop \
          \"p\" 0 ref var varTerm 4 def pop \"q\" 0 ref var varTerm 5 def pop \"r\" 0 ref var varTerm 6 def pop \
          3 ref 4 ref appTerm 5 ref appTerm 7 def pop 3 ref 5 ref appTerm 6 ref appTerm 8 def pop 8 ref assume 7 \
          ref assume trans 7 ref 8 ref nil cons cons 3 ref 4 ref appTerm 6 ref appTerm thm",
        b"otlog 1 tyop \"bool\" 0 tyop \"->\" 2 0 0 tyop \"->\" 2 0 1 con \"=\" 2 free \"q\" 0 app 0 1 free \
          \"r\" 0 app 2 3 assume 4 free \"p\" 0 app 0 5 app 6 1 assume 7 refl 6 appThm 2 0 eqMp 3 1 result 4",
    ),
    // An assumption for a hypothesis: the lemma is the top theorem, and the lower one.
    (
        b"6 version \"p\" \"bool\" typeOp nil opType var varTerm 0 def assume nil 0 ref axiom proveHyp nil 0 ref thm",
        b"otlog 1 tyop \"bool\" 0 free \"p\" 0 assume 0 assumption 0 0 deductAntisym 1 0 eqMp 2 1 result 3",
    ),
    (
        b"6 version nil \"p\" \"bool\" typeOp nil opType var varTerm 0 def axiom 0 ref assume proveHyp nil 0 ref thm",
        b"otlog 1 tyop \"bool\" 0 free \"p\" 0 assumption 0 0 assume 0 deductAntisym 0 1 eqMp 2 0 result 3",
    ),
    // The hypotheses of an assumption in the order of their texts, each once.
    (
        b"6 version \"bool\" typeOp nil opType 0 def pop \"p\" 0 ref var varTerm 1 def pop \"q\" 0 ref var \
          varTerm 2 def 1 ref 2 ref nil cons cons cons 1 ref axiom 2 ref 1 ref nil cons cons 1 ref thm",
        b"otlog 1 tyop \"bool\" 0 free \"p\" 0 free \"q\" 0 assumption 0 2 0 1 result 0",
    ),
    // Of two pairs for one name or variable the first: of {p} |- p with k for p, and then p for p.
    (
        b"6 version \"bool\" typeOp nil opType 0 def pop \"p\" 0 ref var 1 def varTerm 2 def pop \"k\" const 0 \
          ref constTerm 3 def pop \"A\" 0 ref nil cons cons 4 def pop 4 ref 4 ref nil cons cons 1 ref 3 ref nil \
          cons cons 1 ref 2 ref nil cons cons nil cons cons nil cons cons 2 ref assume subst 3 ref nil cons 3 \
          ref thm",
        b"otlog 1 tyop \"bool\" 0 free \"p\" 0 assume 0 con \"k\" 0 subst 0 1 \"A\" 0 1 \"p\" 0 1 result 1",
    ),
    // (\x. x) p = p, and \p. p = \p. p by absThm of p = p.
    (
        b"6 version \"bool\" typeOp nil opType 0 def pop \"->\" typeOp 0 ref 0 ref nil cons cons opType 1 def \
          pop \"->\" typeOp 0 ref 1 ref nil cons cons opType 2 def pop \"=\" const 2 ref constTerm 3 def pop \
          \"p\" 0 ref var 4 def varTerm 5 def pop \"x\" 0 ref var 6 def 6 ref varTerm absTerm 5 ref appTerm 7 \
          def betaConv nil 3 ref 7 ref appTerm 5 ref appTerm thm 4 ref 5 ref refl absThm pop",
        b"otlog 1 tyop \"bool\" 0 bound 0 lam 0 0 free \"p\" 0 app 1 2 betaConv 3 result 0",
    ),
    // A type operator of version 5, of which the second theorem is exported.
    (
        b"\"->\" typeOp 0 def pop \"bool\" typeOp nil opType 1 def pop 0 ref 1 ref 1 ref nil cons cons opType 2 \
          def pop 0 ref 1 ref 2 ref nil cons cons opType 3 def pop \"=\" const 4 def pop \"A\" varType 5 def pop \
          \"T\" \"abs\" \"rep\" nil nil \"P\" const 2 ref constTerm \"k\" const 1 ref constTerm appTerm axiom \
          defineTypeOp nil 4 ref 3 ref constTerm 8 def \"P\" const 2 ref constTerm \"r\" 1 ref var varTerm 6 def \
          appTerm appTerm 8 ref \"rep\" const 0 ref \"T\" typeOp nil opType 7 def 1 ref nil cons cons opType \
          constTerm \"abs\" const 0 ref 1 ref 7 ref nil cons cons opType constTerm 6 ref appTerm appTerm appTerm \
          6 ref appTerm appTerm thm",
        b"otlog 1 tyop \"bool\" 0 tyop \"->\" 2 0 0 con \"P\" 1 con \"k\" 0 app 0 1 assumption 2 0 typeOperator \
          \"T\" \"abs\" \"rep\" 0 0 bound 0 app 0 3 lam 0 4 free \"r\" 0 app 5 6 betaConv 7 tyop \"->\" 2 0 1 \
          con \"=\" 2 refl 8 appThm 4 3 refl 7 appThm 5 6 eqMp 7 6 refl 6 appThm 2 9 refl 8 appThm 11 10 tyop \
          \"T\" 0 tyop \"->\" 2 3 0 con \"rep\" 4 tyop \"->\" 2 0 3 con \"abs\" 5 app 10 3 app 9 11 app 8 12 app \
          13 3 lam 0 14 app 15 6 refl 16 appThm 12 13 eqMp 14 13 app 0 6 app 8 17 refl 18 appThm 16 15 eqMp 17 8 \
          betaConv 16 refl 18 appThm 20 19 eqMp 21 18 result 22",
    ),
];

/// Whether this log is written of an article.
fn is_written(alloc: Global, text: &[u8], log: &[u8]) -> Result<bool, Fail> {
    let article = joined(alloc, &[text])?;
    let wanted = joined(alloc, &[log])?;
    answers(alloc, &["prove", "-"], &article, Status::Accepted, &wanted)
}

#[test]
fn written_logs(rt: HostRuntime) -> Result<(), Fail> {
    for &(text, log) in WRITTEN {
        assert!(rt; is_written(rt.alloc(), text, log)?, "{text:?}");
    }
    Ok(())
}

/// An article that is refused has no log.
#[test]
fn refused_proofs(rt: HostRuntime) -> Result<(), Fail> {
    let line: &[u8] = b"opentheory: -:2: empty list\n";
    assert!(rt;
        answers(
            rt.alloc(),
            &["prove", "-"],
            b"nil\nhdTl\n",
            Status::Refused,
            line
        )?
    );
    Ok(())
}

/// A log by one byte a call, where the twentieth call fails.
#[test]
fn failing_logs(rt: HostRuntime) -> Result<(), Fail> {
    let rows: [(&str, &[u8]); 2] = [
        ("-", b"opentheory: -: read fault\n"),
        ("a.art", b"opentheory: a.art: read fault\n"),
    ];
    let outside = Outside {
        read: (1, 20),
        ..FINE
    };
    let log = joined(rt.alloc(), &[LOG])?;
    for (path, line) in rows {
        let answer = answered(rt.alloc(), &["verify", path], &log, outside)?;
        assert!(rt; answer.is(Status::ReadFault, line), "{path}");
    }
    Ok(())
}
