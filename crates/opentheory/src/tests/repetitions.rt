//! Rows of long articles: lines that are said again and again, and what the program answers.
use super::tables::{NONE, ONE, P, P5};
use ot_program::Status;

/// What is said first, what is said so many times, and what is said last, a space for the end of a line; with the
/// command on standard input, and the answer.
pub type Repeated = (
    &'static [&'static [u8]],
    &'static [u8],
    u64,
    &'static [u8],
    &'static str,
    Status,
    &'static [u8],
);

/// Terms x and y at A, f at A -> (A -> A), stored as 5, 7 and 4; x and y again as 406 and 407.
const SAMPLE: &[u8] =
    b"6 version \"->\" typeOp 0 def pop \"A\" varType 1 def pop 0 ref 1 ref 1 ref nil cons cons opType 2 def pop \
      0 ref 1 ref 2 ref nil cons cons opType 3 def pop \"f\" 3 ref var varTerm 4 def pop \"x\" 1 ref var 5 def \
      varTerm 406 def 6 def pop \"y\" 1 ref var varTerm 407 def 7 def pop";

/// Both are doubled under f.
const BOTH_DOUBLED: &[u8] =
    b"4 ref 406 ref appTerm 406 ref appTerm 406 def pop 4 ref 407 ref appTerm 407 ref appTerm 407 def pop";

/// Over P, p is the constant d, and then the constant c of what it was.
const P_AT_D: &[u8] =
    b"\"c\" const 0 ref 2 ref 2 ref nil cons cons opType constTerm 6 def pop \"d\" const 2 ref constTerm";

const P_DEEPER: &[u8] = b"7 def pop 6 ref 7 ref appTerm";

/// A type operator of that p, by an axiom.
const NEW_TYPE_OF_P: &[u8] =
    b"7 def pop \"T\" \"abs\" \"rep\" nil nil 7 ref \"k\" const 1 ref constTerm appTerm axiom defineTypeOp";

pub const REPEATED: [Repeated; 11] = [
    (
        &[b"6 version nil"],
        b"nil cons",
        4095,
        b"#",
        "check",
        Status::Accepted,
        NONE,
    ),
    (
        &[b"6 version nil"],
        b"nil cons",
        4096,
        b"#",
        "check",
        Status::Refused,
        b"opentheory: -:8195: nested deeper than 4096\n",
    ),
    (
        &[b"6 version \"d\" typeOp 0 def nil opType"],
        b"1 def pop 0 ref 1 ref 1 ref nil cons cons opType",
        1000,
        b"#",
        "check",
        Status::Accepted,
        NONE,
    ),
    (
        &[b"6 version \"t\" typeOp 0 def nil opType"],
        b"1 def pop 0 ref 1 ref nil cons opType",
        4095,
        b"#",
        "check",
        Status::Accepted,
        NONE,
    ),
    (
        &[b"6 version \"t\" typeOp 0 def nil opType"],
        b"1 def pop 0 ref 1 ref nil cons opType",
        4096,
        b"#",
        "check",
        Status::Refused,
        b"opentheory: -:40968: nested deeper than 4096\n",
    ),
    (
        &[
            b"6 version \"->\" typeOp 0 def pop \"A\" varType 1 def pop \"f\" 0 ref 1 ref 1 ref nil cons cons \
              opType var varTerm 2 def pop \"x\" 1 ref var varTerm",
        ],
        b"3 def pop 2 ref 3 ref appTerm",
        4096,
        b"#",
        "check",
        Status::Refused,
        b"opentheory: -:32801: nested deeper than 4096\n",
    ),
    // A type operator of version 5: the deepest term of its derivation is the redex `(\\r. p r) r` as the left side
    // of an equation, five deeper than p.
    (
        &[P5, P_AT_D],
        P_DEEPER,
        4090,
        NEW_TYPE_OF_P,
        "check",
        Status::Accepted,
        b"accepted: 0 theorems, 1 assumptions, 1 definitions\n",
    ),
    (
        &[P5, P_AT_D],
        P_DEEPER,
        4091,
        NEW_TYPE_OF_P,
        "check",
        Status::Refused,
        b"opentheory: -:32815: nested deeper than 4096\n",
    ),
    // And one whose p is doubled 100 times.
    (
        &[
            P5,
            b"\"c\" const 0 ref 2 ref 0 ref 2 ref 2 ref nil cons cons opType nil cons cons opType constTerm 6 \
              def pop \"d\" const 2 ref constTerm",
        ],
        b"7 def pop 6 ref 7 ref appTerm 7 ref appTerm",
        100,
        NEW_TYPE_OF_P,
        "check",
        Status::Accepted,
        b"accepted: 0 theorems, 1 assumptions, 1 definitions\n",
    ),
    (
        &[b"6 version #"],
        b" #",
        3,
        b"#",
        "check",
        Status::Accepted,
        NONE,
    ),
    (
        &[b"6 version"],
        b"nil  #",
        3,
        b"#",
        "check",
        Status::Accepted,
        NONE,
    ),
];

pub const DOUBLED: [Repeated; 4] = [
    // Two axioms about a term that is doubled 60 times.
    (
        &[
            P,
            b"\"f\" 3 ref var varTerm 6 def pop \"x\" 1 ref var varTerm",
        ],
        b"7 def pop 6 ref 7 ref appTerm 7 ref appTerm",
        60,
        b"7 def pop 4 ref 3 ref constTerm 7 ref appTerm 8 def pop nil 8 ref \"a\" 1 ref var varTerm appTerm \
          axiom nil 8 ref \"b\" 1 ref var varTerm appTerm axiom",
        "check",
        Status::Accepted,
        b"accepted: 0 theorems, 2 assumptions, 0 definitions\n",
    ),
    // Two theorems with great hypotheses, compared with conclusions that are as great.
    (
        &[SAMPLE],
        BOTH_DOUBLED,
        200,
        b"\"=\" const 0 ref 1 ref 0 ref 1 ref \"bool\" typeOp nil opType nil cons cons opType nil cons cons \
          opType constTerm 406 ref appTerm 900 def 6 ref appTerm assume 900 ref 7 ref appTerm assume \
          deductAntisym",
        "check",
        Status::Accepted,
        NONE,
    ),
    // y for x in a term that is doubled 200 times.
    (
        &[SAMPLE],
        BOTH_DOUBLED,
        200,
        b"nil 5 ref 7 ref nil cons cons nil cons nil cons cons 406 ref refl subst nil \"=\" const 0 ref 1 ref 0 \
          ref 1 ref \"bool\" typeOp nil opType nil cons cons opType nil cons cons opType constTerm 407 ref \
          appTerm 407 ref appTerm thm",
        "check",
        Status::Accepted,
        ONE,
    ),
    // bool for A in a type that is doubled 100 times.
    (
        &[P, b"5 ref 9 def pop"],
        b"0 ref 9 ref 9 ref nil cons cons opType 9 def pop",
        100,
        b"\"A\" 1 ref nil cons cons nil cons nil nil cons cons \"x\" 9 ref var varTerm refl subst",
        "check",
        Status::Accepted,
        NONE,
    ),
];

/// Terms x and y at A, f at A -> (A -> A), stored as 6, 7 and 4.
pub const KEYED: &[u8] =
    b"6 version \"->\" typeOp 0 def pop \"A\" varType 1 def pop 0 ref 1 ref 1 ref nil cons cons opType 2 def pop 0 \
      ref 1 ref 2 ref nil cons cons opType 3 def pop \"f\" 3 ref var varTerm 4 def pop \"x\" 1 ref var 5 def varTerm \
      6 def pop \"y\" 1 ref var varTerm 7 def pop";

/// Both are doubled 200 times, each time under the next key; y for x in the last of x's.
pub const KEYED_LAST: &[u8] =
    b"nil 5 ref 7 ref nil cons cons nil cons nil cons cons 406 ref refl subst nil \"=\" const 0 ref 1 ref 0 ref 1 \
      ref \"bool\" typeOp nil opType nil cons cons opType nil cons cons opType constTerm 407 ref appTerm 407 ref \
      appTerm thm";

/// An assumption that is doubled 30 times is too large to be printed.
pub const TOO_LARGE: Repeated = (
    &[P, b"\"p\" 1 ref var varTerm"],
    b"6 def pop 4 ref 3 ref constTerm 6 ref appTerm 6 ref appTerm",
    30,
    b"6 def pop nil 6 ref axiom",
    "info",
    Status::Refused,
    b"opentheory: -: summary larger than 67108864 bytes\n",
);
