//! The sample article, word for word.
use ot_sample::{sample_article, sample_lines};
use std::test::Fail;

/// The article for 1, with a space for the end of a line.
const SAMPLE_1: &[u8] =
    b"6 version \"->\" typeOp 0 def pop \"A\" varType 1 def pop 0 ref 1 ref 1 ref nil cons cons opType 2 def pop 0 ref \
      1 ref 2 ref nil cons cons opType 3 def pop \"f\" 3 ref var varTerm 4 def pop \"x\" 1 ref var 5 def varTerm 6 def \
      pop \"y\" 1 ref var varTerm 7 def pop 4 ref 6 ref appTerm 6 ref appTerm 8 def pop 4 ref 7 ref appTerm 7 ref \
      appTerm 9 def pop 8 ref refl pop 5 ref 8 ref absTerm 7 ref appTerm 10 def betaConv nil \"=\" const 0 ref 1 ref 0 \
      ref 1 ref \"bool\" typeOp nil opType nil cons cons opType nil cons cons opType constTerm 10 ref appTerm 9 ref \
      appTerm thm ";

#[test]
fn sample_of_1(rt: HostRuntime) -> Result<(), Fail> {
    let mut out = Vec::new(rt.alloc());
    out.push(b'x')?;
    sample_article(1, &mut out)?;
    assert!(rt; out.len() == SAMPLE_1.len() + 1);
    let spaced: Vec<u8> = out
        .iter()
        .map(|b| if *b == b'\n' { b' ' } else { *b })
        .collect(rt.alloc())?;
    assert!(rt; &spaced[1..] == SAMPLE_1);
    Ok(())
}

#[test]
fn counts_of_lines(rt: HostRuntime) -> Result<(), Fail> {
    sample_lines();
    for (n, lines) in [(1, 132), (8, 286), (200, 4510), (1000, 22110)] {
        let mut out = Vec::new(rt.alloc());
        sample_article(n, &mut out)?;
        assert!(rt; (out.iter().filter(|b| **b == b'\n').count()) == lines);
    }
    Ok(())
}
