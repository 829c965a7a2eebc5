//! Articles that are written, a space for the end of a line.

/// The articles that `minimise` is given, in parts, and what it writes.
pub type Written = (&'static [&'static [u8]], &'static [u8]);

/// An assumption and a definition that nothing exported needs.
pub const NEEDLESS: &[u8] =
    b"6 version \"bool\" typeOp nil opType 0 def pop \"p\" \"bool\" typeOp nil opType var varTerm 1 def pop nil \
      1 ref axiom pop \"c\" \"k\" const 0 ref constTerm defineConst pop pop 1 ref assume 1 ref nil cons 1 ref \
      thm";

/// What is left of it: 22 lines of 97 bytes.
pub const LEAN: &[u8] =
    b"6 version \"p\" \"bool\" typeOp nil 0 def opType var varTerm 1 def assume 1 ref 0 ref cons 1 ref thm";

pub const NEEDLESS_COUNTS: &[u8] = b"accepted: 1 theorems, 1 assumptions, 1 definitions\n";

/// The theorems of both.
pub const SAME_THEOREMS: &[u8] = b"theorems: 1\n  \"p\":\"bool\" |- \"p\":\"bool\"\n";

pub const WRITTEN: &[Written] = &[
    (&[NEEDLESS], LEAN),
    (&[LEAN], LEAN),
    (
        super::tables::REALISTIC,
        b"6 version \"Data.Bool.T\" 0 def \"=\" const 1 def \"->\" typeOp 2 def 2 ref \"bool\" typeOp nil 3 def \
          opType 4 def 4 ref 3 ref cons 5 def cons opType 6 def 2 ref 6 ref 5 ref cons opType 3 ref cons cons \
          opType constTerm \"x\" 4 ref var 7 def 7 ref varTerm absTerm 8 def appTerm 8 ref appTerm 9 def \
          defineConst 10 def pop pop 10 ref 3 ref 1 ref 2 ref 4 ref 6 ref 3 ref cons cons opType constTerm 0 ref \
          const 4 ref constTerm appTerm 9 ref appTerm thm",
    ),
    // An empty article.
    (&[b"#"], b"6 version"),
];

/// What `link` and `minimise` write of a theory whose second block takes what the first one proves.
pub const LINKED: &[u8] =
    b"6 version \"x\" \"bool\" typeOp nil 0 def opType 1 def var 2 def 2 ref varTerm absTerm 3 def refl 0 ref \
      \"=\" const \"->\" typeOp 4 def 4 ref 1 ref 1 ref 0 ref cons 5 def cons opType 6 def 4 ref 6 ref 5 ref \
      cons opType 0 ref cons cons opType constTerm 3 ref appTerm 3 ref appTerm thm";

/// What they write of a theory whose article defines a constant that the theory names otherwise.
pub const WRITTEN_TOP: &[u8] =
    b"6 version \"Top\" 0 def \"=\" const 1 def \"->\" typeOp 2 def 2 ref \"bool\" typeOp nil 3 def opType 4 def 4 \
      ref 3 ref cons 5 def cons opType 6 def 2 ref 6 ref 5 ref cons opType 3 ref cons cons opType constTerm \"x\" 4 \
      ref var 7 def 7 ref varTerm absTerm 8 def appTerm 8 ref appTerm 9 def defineConst 10 def pop pop 10 ref 3 ref 1 \
      ref 2 ref 4 ref 6 ref 3 ref cons cons opType constTerm 0 ref const 4 ref constTerm appTerm 9 ref appTerm thm";

/// The sizes of samples, and their lines.
pub const SAMPLES: &[(&str, &[u8])] = &[
    (
        "1",
        b"sample 1: 132 lines, 1 theorems, 0 assumptions, 0 definitions; minimised 100 lines\n",
    ),
    (
        "8",
        b"sample 8: 286 lines, 1 theorems, 0 assumptions, 0 definitions; minimised 212 lines\n",
    ),
    (
        "200",
        b"sample 200: 4510 lines, 1 theorems, 0 assumptions, 0 definitions; minimised 3284 lines\n",
    ),
    (
        "1000",
        b"sample 1000: 22110 lines, 1 theorems, 0 assumptions, 0 definitions; minimised 16084 lines\n",
    ),
];
