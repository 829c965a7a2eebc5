//! The rows of the tests: articles, and what the program answers.
use ot_program::Status;

pub const FIRST: &[u8] =
    b"6\nversion\n\"p\"\n\"bool\"\ntypeOp\nnil\nopType\nvar\nvarTerm\n0\ndef\nassume\n0\nref\nnil\ncons\n0\nref\n\
      thm\n";

pub const NONE: &[u8] = b"accepted: 0 theorems, 0 assumptions, 0 definitions\n";

pub const ONE: &[u8] = b"accepted: 1 theorems, 0 assumptions, 0 definitions\n";

const DEFINED: &[u8] = b"accepted: 1 theorems, 0 assumptions, 1 definitions\n";

/// Whole articles, a space for the end of a line.
pub const ARTICLES: &[(&[u8], Status, &[u8])] = &[
    (b"", Status::Accepted, NONE),
    (b"6", Status::Accepted, NONE),
    (b"6 version -9223372036854775808", Status::Accepted, NONE),
    (
        b"6 version \"a.b\\.c\" \"bool\" typeOp nil opType var varTerm 0 def assume 0 ref nil cons 0 ref thm",
        Status::Accepted,
        ONE,
    ),
    (
        b"6 version \"p\" \"bool\" typeOp nil opType var varTerm 0 def assume 0 ref nil cons",
        Status::Accepted,
        NONE,
    ),
    (
        b"6 version \"p\" \"bool\" typeOp nil opType var varTerm 0 def assume 0 ref nil cons 0 ref th",
        Status::Refused,
        b"opentheory: -:19: unknown command\n",
    ),
    (
        b"6 version \"p\" \"bool\" typeOp nil opType var varTerm 0 def assume nil 0 ref thm",
        Status::Refused,
        b"opentheory: -:16: theorem differs from the stated sequent\n",
    ),
    (
        b"6 version \"p\" \"bool\" typeOp nil opType var varTerm 0 def assume 0 ref 0 ref nil cons cons 0 ref thm",
        Status::Accepted,
        ONE,
    ),
    // One sequent exported twice, the second time with its hypothesis twice in the list.
    (
        b"6 version \"p\" \"bool\" typeOp nil opType var varTerm 0 def assume 0 ref nil cons 0 ref thm 0 ref \
          assume 0 ref 0 ref nil cons cons 0 ref thm",
        Status::Accepted,
        ONE,
    ),
    // Articles that don't declare version 6 are of version 5.
    (b"\"a\"", Status::Accepted, NONE),
    (b"6 nil", Status::Accepted, NONE),
    (
        b"absTerm",
        Status::Refused,
        b"opentheory: -:1: stack empty\n",
    ),
    (
        b"nil hdTl",
        Status::Refused,
        b"opentheory: -:2: empty list\n",
    ),
    (
        b"nil pop pop",
        Status::Refused,
        b"opentheory: -:3: stack empty\n",
    ),
    (
        b"version",
        Status::Refused,
        b"opentheory: -:1: version command in a wrong place\n",
    ),
    (
        b"5 version",
        Status::Refused,
        b"opentheory: -:2: version 5 unsupported\n",
    ),
    (
        b"-6 version",
        Status::Refused,
        b"opentheory: -:2: version -6 unsupported\n",
    ),
    (
        b"6 version 6 version",
        Status::Refused,
        b"opentheory: -:4: version command in a wrong place\n",
    ),
    (
        b"6 version nil pop pop",
        Status::Refused,
        b"opentheory: -:5: stack empty\n",
    ),
    (
        b"6 version -0",
        Status::Refused,
        b"opentheory: -:3: bad number\n",
    ),
    (
        b"6 version 9223372036854775808",
        Status::Refused,
        b"opentheory: -:3: number out of range\n",
    ),
    (
        b"6 version \"abc",
        Status::Refused,
        b"opentheory: -:3: bad name\n",
    ),
];

/// It stores 0 `->`, 1 bool, 2 bool -> bool, 3 bool -> (bool -> bool), 4 the constant `=`, 5 the type variable A.
pub const P: &[u8] =
    b"6 version \"->\" typeOp 0 def pop \"bool\" typeOp nil opType 1 def pop 0 ref 1 ref 1 ref nil cons cons \
      opType 2 def pop 0 ref 1 ref 2 ref nil cons cons opType 3 def pop \"=\" const 4 def pop \"A\" varType 5 \
      def pop";

/// `=` at bool -> bool, over P.
const E: &[u8] =
    b"4 ref 0 ref 2 ref 0 ref 2 ref 1 ref nil cons cons opType nil cons cons opType constTerm";

/// `(\x. x) = (\x. x)` at bool, over P and E; it is stored as 8.
const I: &[u8] = b"\"x\" 1 ref var 6 def 6 ref varTerm absTerm 7 def appTerm 7 ref appTerm 8 def";

/// Over P, an assumption that proves a hypothesis of another theorem, and one that proves its own.
const TAKEN: &[u8] =
    b"\"p\" 1 ref var varTerm 6 def assume nil 6 ref axiom 7 def proveHyp nil 6 ref thm 7 ref 6 ref assume \
      proveHyp nil 6 ref thm";

/// Over P, a = b and b = c joined, in both orders.
const JOINED: &[u8] =
    b"\"a\" 1 ref var varTerm 6 def pop \"b\" 1 ref var varTerm 7 def pop \"c\" 1 ref var varTerm 8 def pop 4 \
      ref 3 ref constTerm 9 def pop 9 ref 6 ref appTerm 7 ref appTerm 10 def pop 9 ref 7 ref appTerm 8 ref \
      appTerm 11 def pop 9 ref 6 ref appTerm 8 ref appTerm 12 def pop 10 ref assume 11 ref assume trans 10 ref \
      11 ref nil cons cons 12 ref thm 11 ref assume 10 ref assume trans 11 ref 10 ref nil cons cons 12 ref thm";

/// The constant T, defined as an equation.
pub const REALISTIC: &[&[u8]] = &[
    P,
    b"\"Data.Bool.T\"",
    E,
    I,
    b"defineConst nil 4 ref 3 ref constTerm \"Data.Bool.T\" const 1 ref constTerm appTerm 8 ref appTerm thm",
];

/// Two constants for two variables that equal one term.
const TWO_CONSTANTS: &[&[u8]] = &[
    P,
    E,
    I,
    b"pop \"u\" 1 ref var 9 def pop \"w\" 1 ref var 10 def pop 4 ref 3 ref constTerm 11 def pop \"c\" 9 ref nil \
      cons cons \"d\" 10 ref nil cons cons nil cons cons 11 ref 9 ref varTerm appTerm 8 ref appTerm assume 11 \
      ref 10 ref varTerm appTerm 8 ref appTerm assume sym trans defineConstList nil 11 ref \"c\" const 1 ref \
      constTerm appTerm \"d\" const 1 ref constTerm appTerm thm",
];

/// A definition of no constant.
const NO_CONSTANTS: &[&[u8]] = &[
    P,
    b"nil \"x\" 1 ref var 6 def 6 ref varTerm absTerm refl defineConstList",
];

/// A type operator, by an axiom.
const NEW_TYPE: &[&[u8]] = &[
    P,
    b"\"T\" \"abs\" \"rep\" nil nil \"P\" const 2 ref constTerm \"k\" const 1 ref constTerm appTerm axiom \
      defineTypeOp",
];

/// The same without its version.
pub const P5: &[u8] =
    b"\"->\" typeOp 0 def pop \"bool\" typeOp nil opType 1 def pop 0 ref 1 ref 1 ref nil cons cons opType 2 def \
      pop 0 ref 1 ref 2 ref nil cons cons opType 3 def pop \"=\" const 4 def pop \"A\" varType 5 def pop";

/// p r is that r is the image of its image.
const OPEN: &[u8] =
    b"nil 4 ref 3 ref constTerm 8 def \"P\" const 2 ref constTerm \"r\" 1 ref var varTerm 6 def appTerm appTerm \
      8 ref \"rep\" const 0 ref \"T\" typeOp nil opType 7 def 1 ref nil cons cons opType constTerm \"abs\" const \
      0 ref 1 ref 7 ref nil cons cons opType constTerm 6 ref appTerm appTerm appTerm 6 ref appTerm appTerm thm";

/// A type operator of version 5, of which the second theorem is exported.
const NEW_TYPE_5: &[&[u8]] = &[
    P5,
    b"\"T\" \"abs\" \"rep\" nil nil \"P\" const 2 ref constTerm \"k\" const 1 ref constTerm appTerm axiom \
      defineTypeOp",
    OPEN,
];

/// a is the image of its image.
const OPEN_FIRST: &[u8] =
    b"pop nil 4 ref 0 ref \"T\" typeOp nil opType 7 def 0 ref 7 ref 1 ref nil cons cons opType nil cons cons \
      opType constTerm \"abs\" const 0 ref 1 ref 7 ref nil cons cons opType constTerm \"rep\" const 0 ref 7 ref 1 \
      ref nil cons cons opType constTerm \"a\" 7 ref var varTerm 6 def appTerm appTerm appTerm 6 ref appTerm thm";

/// The same type operator, of which the first theorem is exported.
const NEW_TYPE_5_FIRST: &[&[u8]] = &[
    P5,
    b"\"T\" \"abs\" \"rep\" nil nil \"P\" const 2 ref constTerm \"k\" const 1 ref constTerm appTerm axiom \
      defineTypeOp",
    OPEN_FIRST,
];

/// A type operator of version 5 whose predicate is \x. (\y. x = y) k, stored as 9; its second theorem is exported.
const NEW_TYPE_5_BOUND: &[&[u8]] = &[
    P5,
    b"\"T\" \"abs\" \"rep\" nil nil \"x\" 1 ref var 10 def \"y\" 1 ref var 11 def 4 ref 3 ref constTerm 10 ref \
      varTerm appTerm 11 ref varTerm appTerm absTerm \"k\" const 1 ref constTerm 12 def appTerm absTerm 9 def 12 \
      ref appTerm axiom defineTypeOp nil 4 ref 3 ref constTerm 8 def 9 ref \"r\" 1 ref var varTerm 6 def appTerm \
      appTerm 8 ref \"rep\" const 0 ref \"T\" typeOp nil opType 7 def 1 ref nil cons cons opType constTerm \
      \"abs\" const 0 ref 1 ref 7 ref nil cons cons opType constTerm 6 ref appTerm appTerm appTerm 6 ref appTerm \
      appTerm thm",
];

/// Two beta redexes, one in the other.
const BETA: &[&[u8]] = &[
    P,
    b"0 ref 5 ref 5 ref nil cons cons opType 9 def pop \"x\" 5 ref var 6 def pop \"y\" 5 ref var 7 def pop 6 ref \
      7 ref 6 ref varTerm absTerm absTerm 7 ref varTerm appTerm 8 def betaConv nil 4 ref 0 ref 9 ref 0 ref 9 ref \
      1 ref nil cons cons opType nil cons cons opType constTerm 8 ref appTerm \"z\" 5 ref var 7 ref varTerm \
      absTerm appTerm thm",
];

/// A variable that a substitution of types would capture.
const CAPTURED: &[&[u8]] = &[
    P,
    b"\"A\" 1 ref nil cons cons nil cons nil nil cons cons \"x\" 1 ref var \"x\" 5 ref var varTerm absTerm refl \
      subst nil",
    E,
    b"\"y\" 1 ref var \"x\" 1 ref var varTerm absTerm 6 def appTerm 6 ref appTerm thm",
];

/// An equation used up to the names of binders.
const EQUAL: &[&[u8]] = &[
    P,
    E,
    I,
    b"refl \"y\" 1 ref var 9 def 9 ref varTerm absTerm refl eqMp nil 8 ref thm",
];

/// Over P, `p = q` is stored as 9, and `q = p` as 10.
const Q: &[u8] =
    b"\"p\" 1 ref var varTerm 6 def pop \"q\" 1 ref var varTerm 7 def pop 4 ref 3 ref constTerm 8 def pop 8 ref \
      6 ref appTerm 7 ref appTerm 9 def pop 8 ref 7 ref appTerm 6 ref appTerm 10 def pop";

/// `deductAntisym` of p |- p and q |- q, whose hypotheses stay, and of p |- p with itself, whose hypotheses go.
const DEDUCED: &[&[u8]] = &[
    P,
    Q,
    b"6 ref assume 7 ref assume deductAntisym 6 ref 7 ref nil cons cons 9 ref thm 6 ref assume 6 ref assume \
      deductAntisym nil 8 ref 6 ref appTerm 6 ref appTerm thm",
];

/// `appThm` of f = f and x = y.
const APPLIED: &[&[u8]] = &[
    P,
    b"\"f\" 2 ref var varTerm 6 def refl 4 ref 3 ref constTerm 9 def \"x\" 1 ref var varTerm 7 def appTerm \"y\" \
      1 ref var varTerm 8 def appTerm 10 def assume appThm 10 ref nil cons 9 ref 6 ref 7 ref appTerm appTerm 6 \
      ref 8 ref appTerm appTerm thm",
];

/// `absThm` of an assumption p = q.
const ABSTRACTED: &[&[u8]] = &[
    P,
    Q,
    b"\"z\" 1 ref var 11 def nil 9 ref axiom absThm nil",
    E,
    b"11 ref 6 ref absTerm appTerm 11 ref 7 ref absTerm appTerm thm",
];

/// An operator with an argument, `=` at another type than an equality's and with one argument, and a type with
/// variables.
const FORMS: &[&[u8]] = &[
    P,
    b"\"list\" typeOp 5 ref nil cons opType 6 def pop \"x\" 6 ref var varTerm 7 def refl nil 4 ref 0 ref 6 ref 0 \
      ref 6 ref 1 ref nil cons cons opType nil cons cons opType constTerm 7 ref appTerm 7 ref appTerm thm 4 ref \
      1 ref constTerm 8 def assume 8 ref nil cons 8 ref thm 4 ref 3 ref constTerm \"p\" 1 ref var varTerm \
      appTerm 9 def refl nil",
    E,
    b"9 ref appTerm 9 ref appTerm thm \"T\" \"abs\" \"rep\" \"A\" \"B\" nil cons cons nil \"P\" const 0 ref 5 \
      ref 1 ref nil cons cons opType constTerm \"k\" const 5 ref constTerm appTerm axiom defineTypeOp",
];

/// Two assumptions, two definitions and two theorems.
const ORDERS: &[&[u8]] = &[
    P,
    b"\"q\" 1 ref var varTerm 6 def pop \"p\" 1 ref var varTerm 7 def pop nil 6 ref axiom nil 6 ref thm nil 7 \
      ref axiom nil 7 ref thm \"d\" \"k\" const 1 ref constTerm defineConst pop pop \"c\" \"k\" const 1 ref \
      constTerm defineConst",
];

/// Articles in parts, the words behind `info`, and what it prints.
pub const SUMMARIES: &[(&[&[u8]], &[&str], &[u8])] = &[
    (
        ASSUMED,
        &["--uses", "-"],
        b"theorem 1: |- \"p\":\"bool\"\n  assumptions: 1\n    |- \"p\":\"bool\"\n  definitions: 0\n",
    ),
    (
        &[super::written::NEEDLESS],
        &["--uses", "a.art"],
        b"theorem 1: \"p\":\"bool\" |- \"p\":\"bool\"\n  assumptions: 0\n  definitions: 0\n",
    ),
    (
        &[
            b"6 version \"p\" \"bool\" typeOp nil opType var varTerm 0 def assume 0 ref nil cons 0 ref thm",
        ],
        &["-"],
        b"assumptions: 0\ndefinitions: 0\ntheorems: 1\n  \"p\":\"bool\" |- \"p\":\"bool\"\n",
    ),
    (
        &[
            b"6 version \"a.b\\.c\" \"bool\" typeOp nil opType var varTerm 0 def assume 0 ref nil cons 0 ref thm",
        ],
        &["--theorems", "a.art"],
        b"theorems: 1\n  \"a.b\\.c\":\"bool\" |- \"a.b\\.c\":\"bool\"\n",
    ),
    (
        REALISTIC,
        &["-"],
        b"assumptions: 0\ndefinitions: 1\n  const \"Data.Bool.T\" : |- (@\"Data.Bool.T\":\"bool\" = \
          ((\\\"bool\". #0) = (\\\"bool\". #0)))\ntheorems: 1\n  |- (@\"Data.Bool.T\":\"bool\" = ((\\\"bool\". \
          #0) = (\\\"bool\". #0)))\n",
    ),
    (
        REALISTIC,
        &["--readable", "-"],
        b"assumptions: 0\ntheorems: 1\n  |- ({Data.Bool.T : bool} = ((\\x0 : bool . x0) = (\\x0 : bool . x0)))\n",
    ),
    (
        ASSUMED,
        &["--packages", "p", "--readable", "a.art"],
        b"assumptions: 1\n  |- (p : bool)\ntheorems: 1\n  |- (p : bool)\n",
    ),
    (
        DEDUCED,
        &["--readable", "-"],
        b"assumptions: 0\ntheorems: 2\n  (p : bool), (q : bool) |- ((p : bool) = (q : bool))\n  |- ((p : bool) = \
          (p : bool))\n",
    ),
    (
        BETA,
        &["--theorems", "a.art"],
        b"theorems: 1\n  |- (((\\'\"A\". (\\'\"A\". #1)) \"y\":'\"A\") = (\\'\"A\". \"y\":'\"A\"))\n",
    ),
    (
        CAPTURED,
        &["--theorems", "a.art"],
        b"theorems: 1\n  |- ((\\\"bool\". \"x\":\"bool\") = (\\\"bool\". \"x\":\"bool\"))\n",
    ),
    (
        EQUAL,
        &["--theorems", "a.art"],
        b"theorems: 1\n  |- ((\\\"bool\". #0) = (\\\"bool\". #0))\n",
    ),
    (
        ASSUMED,
        &["-"],
        b"assumptions: 1\n  |- \"p\":\"bool\"\ndefinitions: 0\ntheorems: 1\n  |- \"p\":\"bool\"\n",
    ),
    (
        ASSUMED,
        &["--assumptions", "--packages", "p", "a.art"],
        b"assumptions: 1\n  |- \"p\":\"bool\"\n",
    ),
    (
        TRANSITIVE,
        &["--theorems", "--definitions", "a.art"],
        b"definitions: 0\ntheorems: 1\n  (\"a\":\"bool\" = \"b\":\"bool\"), (\"b\":\"bool\" = \"c\":\"bool\") |- \
          (\"a\":\"bool\" = \"c\":\"bool\")\n",
    ),
    (
        TWO_CONSTANTS,
        &["-"],
        b"assumptions: 0\ndefinitions: 1\n  consts \"c\" for \"u\":\"bool\", \"d\" for \"w\":\"bool\" from \
          (\"u\":\"bool\" = ((\\\"bool\". #0) = (\\\"bool\". #0))), (\"w\":\"bool\" = ((\\\"bool\". #0) = \
          (\\\"bool\". #0))) |- (\"u\":\"bool\" = \"w\":\"bool\") : |- (@\"c\":\"bool\" = @\"d\":\"bool\")\n\
          theorems: 1\n  |- (@\"c\":\"bool\" = @\"d\":\"bool\")\n",
    ),
    (
        NO_CONSTANTS,
        &["--definitions", "a.art"],
        b"definitions: 1\n  consts from |- ((\\\"bool\". #0) = (\\\"bool\". #0)) : |- ((\\\"bool\". #0) = \
          (\\\"bool\". #0))\n",
    ),
    (
        NEW_TYPE,
        &["-"],
        b"assumptions: 1\n  |- (@\"P\":(\"bool\" -> \"bool\") @\"k\":\"bool\")\ndefinitions: 1\n  type \"T\" () \
          abs \"abs\" rep \"rep\" from |- (@\"P\":(\"bool\" -> \"bool\") @\"k\":\"bool\") : |- ((\\\"T\". \
          (@\"abs\":(\"bool\" -> \"T\") (@\"rep\":(\"T\" -> \"bool\") #0))) = (\\\"T\". #0)) ; |- ((\\\"bool\". \
          ((@\"rep\":(\"T\" -> \"bool\") (@\"abs\":(\"bool\" -> \"T\") #0)) = #0)) = (\\\"bool\". \
          (@\"P\":(\"bool\" -> \"bool\") #0)))\ntheorems: 0\n",
    ),
    (
        NEW_TYPE_5,
        &["-"],
        b"assumptions: 1\n  |- (@\"P\":(\"bool\" -> \"bool\") @\"k\":\"bool\")\ndefinitions: 1\n  type \"T\" () \
          abs \"abs\" rep \"rep\" from |- (@\"P\":(\"bool\" -> \"bool\") @\"k\":\"bool\") : |- ((\\\"T\". \
          (@\"abs\":(\"bool\" -> \"T\") (@\"rep\":(\"T\" -> \"bool\") #0))) = (\\\"T\". #0)) ; |- ((\\\"bool\". \
          ((@\"rep\":(\"T\" -> \"bool\") (@\"abs\":(\"bool\" -> \"T\") #0)) = #0)) = (\\\"bool\". \
          (@\"P\":(\"bool\" -> \"bool\") #0)))\ntheorems: 1\n  |- ((@\"P\":(\"bool\" -> \"bool\") \
          \"r\":\"bool\") = ((@\"rep\":(\"T\" -> \"bool\") (@\"abs\":(\"bool\" -> \"T\") \"r\":\"bool\")) = \
          \"r\":\"bool\"))\n",
    ),
    (
        DEDUCED,
        &["-"],
        b"assumptions: 0\ndefinitions: 0\ntheorems: 2\n  \"p\":\"bool\", \"q\":\"bool\" |- (\"p\":\"bool\" = \
          \"q\":\"bool\")\n  |- (\"p\":\"bool\" = \"p\":\"bool\")\n",
    ),
    (
        APPLIED,
        &["--theorems", "-"],
        b"theorems: 1\n  (\"x\":\"bool\" = \"y\":\"bool\") |- ((\"f\":(\"bool\" -> \"bool\") \"x\":\"bool\") = \
          (\"f\":(\"bool\" -> \"bool\") \"y\":\"bool\"))\n",
    ),
    (
        ABSTRACTED,
        &["-"],
        b"assumptions: 1\n  |- (\"p\":\"bool\" = \"q\":\"bool\")\ndefinitions: 0\ntheorems: 1\n  |- \
          ((\\\"bool\". \"p\":\"bool\") = (\\\"bool\". \"q\":\"bool\"))\n",
    ),
    (
        FORMS,
        &["-"],
        b"assumptions: 1\n  |- (@\"P\":('\"A\" -> \"bool\") @\"k\":'\"A\")\ndefinitions: 1\n  type \"T\" (\"A\" \
          \"B\") abs \"abs\" rep \"rep\" from |- (@\"P\":('\"A\" -> \"bool\") @\"k\":'\"A\") : |- ((\\(\"T\" \
          '\"A\" '\"B\"). (@\"abs\":('\"A\" -> (\"T\" '\"A\" '\"B\")) (@\"rep\":((\"T\" '\"A\" '\"B\") -> \
          '\"A\") #0))) = (\\(\"T\" '\"A\" '\"B\"). #0)) ; |- ((\\'\"A\". ((@\"rep\":((\"T\" '\"A\" '\"B\") -> \
          '\"A\") (@\"abs\":('\"A\" -> (\"T\" '\"A\" '\"B\")) #0)) = #0)) = (\\'\"A\". (@\"P\":('\"A\" -> \
          \"bool\") #0)))\ntheorems: 3\n  |- (\"x\":(\"list\" '\"A\") = \"x\":(\"list\" '\"A\"))\n  \
          @\"=\":\"bool\" |- @\"=\":\"bool\"\n  |- ((@\"=\":(\"bool\" -> (\"bool\" -> \"bool\")) \"p\":\"bool\") \
          = (@\"=\":(\"bool\" -> (\"bool\" -> \"bool\")) \"p\":\"bool\"))\n",
    ),
    (
        ORDERS,
        &["-"],
        b"assumptions: 2\n  |- \"p\":\"bool\"\n  |- \"q\":\"bool\"\ndefinitions: 2\n  const \"d\" : |- \
          (@\"d\":\"bool\" = @\"k\":\"bool\")\n  const \"c\" : |- (@\"c\":\"bool\" = @\"k\":\"bool\")\ntheorems: \
          2\n  |- \"q\":\"bool\"\n  |- \"p\":\"bool\"\n",
    ),
];

/// Articles with type operators of version 5, in parts, and their summaries.
pub const NEW_TYPES_5: &[(&[&[u8]], &[u8])] = &[
    (
        NEW_TYPE_5_FIRST,
        b"assumptions: 1\n  |- (@\"P\":(\"bool\" -> \"bool\") @\"k\":\"bool\")\ndefinitions: 1\n  type \"T\" () \
          abs \"abs\" rep \"rep\" from |- (@\"P\":(\"bool\" -> \"bool\") @\"k\":\"bool\") : |- ((\\\"T\". \
          (@\"abs\":(\"bool\" -> \"T\") (@\"rep\":(\"T\" -> \"bool\") #0))) = (\\\"T\". #0)) ; |- ((\\\"bool\". \
          ((@\"rep\":(\"T\" -> \"bool\") (@\"abs\":(\"bool\" -> \"T\") #0)) = #0)) = (\\\"bool\". \
          (@\"P\":(\"bool\" -> \"bool\") #0)))\ntheorems: 1\n  |- ((@\"abs\":(\"bool\" -> \"T\") \
          (@\"rep\":(\"T\" -> \"bool\") \"a\":\"T\")) = \"a\":\"T\")\n",
    ),
    (
        NEW_TYPE_5_BOUND,
        b"assumptions: 1\n  |- ((\\\"bool\". ((\\\"bool\". (#1 = #0)) @\"k\":\"bool\")) @\"k\":\"bool\")\n\
          definitions: 1\n  type \"T\" () abs \"abs\" rep \"rep\" from |- ((\\\"bool\". ((\\\"bool\". (#1 = #0)) \
          @\"k\":\"bool\")) @\"k\":\"bool\") : |- ((\\\"T\". (@\"abs\":(\"bool\" -> \"T\") (@\"rep\":(\"T\" -> \
          \"bool\") #0))) = (\\\"T\". #0)) ; |- ((\\\"bool\". ((@\"rep\":(\"T\" -> \"bool\") \
          (@\"abs\":(\"bool\" -> \"T\") #0)) = #0)) = (\\\"bool\". ((\\\"bool\". ((\\\"bool\". (#1 = #0)) \
          @\"k\":\"bool\")) #0)))\ntheorems: 1\n  |- (((\\\"bool\". ((\\\"bool\". (#1 = #0)) @\"k\":\"bool\")) \
          \"r\":\"bool\") = ((@\"rep\":(\"T\" -> \"bool\") (@\"abs\":(\"bool\" -> \"T\") \"r\":\"bool\")) = \
          \"r\":\"bool\"))\n",
    ),
];

/// The places of articles among the summaries whose definitions and assumptions are all needed.
pub const NEEDED: [usize; 7] = [2, 4, 11, 14, 17, 18, 20];

/// Whole articles in parts, a space for the end of a line.
pub const PARTS: &[(&[&[u8]], Status, &[u8])] = &[
    (
        &[
            P,
            b"0 ref 5 ref 5 ref nil cons cons opType 9 def pop \"x\" 5 ref var 6 def pop \"y\" 5 ref var 7 def \
              pop 6 ref 7 ref 6 ref varTerm absTerm absTerm 7 ref varTerm appTerm 8 def betaConv nil 4 ref 0 ref \
              9 ref 0 ref 9 ref 1 ref nil cons cons opType nil cons cons opType constTerm 8 ref appTerm \"y\" 5 \
              ref var 7 ref varTerm absTerm appTerm thm",
        ],
        Status::Refused,
        b"opentheory: -:128: theorem differs from the stated sequent\n",
    ),
    (
        &[
            P,
            b"\"A\" 1 ref nil cons cons nil cons nil nil cons cons \"x\" 1 ref var \"x\" 5 ref var varTerm \
              absTerm refl subst nil",
            E,
            b"\"x\" 1 ref var \"x\" 1 ref var varTerm absTerm 6 def appTerm 6 ref appTerm thm",
        ],
        Status::Refused,
        b"opentheory: -:113: theorem differs from the stated sequent\n",
    ),
    (
        &[
            P,
            b"\"x\" 1 ref var 6 def 4 ref 3 ref constTerm 6 ref varTerm 7 def appTerm 7 ref appTerm assume absThm",
        ],
        Status::Refused,
        b"opentheory: -:72: variable free in a hypothesis\n",
    ),
    (
        ASSUMED,
        Status::Accepted,
        b"accepted: 1 theorems, 1 assumptions, 0 definitions\n",
    ),
    (REALISTIC, Status::Accepted, DEFINED),
    (
        &[
            P,
            b"\"d\" \"c\" const 1 ref constTerm defineConst \"c\" \"d\" const 1 ref constTerm defineConst",
        ],
        Status::Refused,
        b"opentheory: -:64: const \"c\" is in use\n",
    ),
    (
        &[P, b"\"=\" \"x\" const 1 ref constTerm defineConst"],
        Status::Refused,
        b"opentheory: -:57: primitive symbol const \"=\"\n",
    ),
    (TWO_CONSTANTS, Status::Accepted, DEFINED),
    (
        NO_CONSTANTS,
        Status::Accepted,
        b"accepted: 0 theorems, 0 assumptions, 1 definitions\n",
    ),
    (
        &[P, b"nil \"p\" 1 ref var varTerm assume defineConstList"],
        Status::Refused,
        b"opentheory: -:58: definition list and hypotheses disagree\n",
    ),
    (
        NEW_TYPE,
        Status::Accepted,
        b"accepted: 0 theorems, 1 assumptions, 1 definitions\n",
    ),
    (
        &[
            P,
            b"\"T\" \"abs\" \"rep\" nil nil \"P\" const 2 ref constTerm \"k\" const 1 ref constTerm appTerm \
              axiom defineTypeOp",
            OPEN,
        ],
        Status::Refused,
        b"opentheory: -:132: theorem differs from the stated sequent\n",
    ),
];

/// An assumption that proves a hypothesis of another theorem.
const ASSUMED: &[&[u8]] = &[P, TAKEN];

/// a = c under a = b and b = c.
const TRANSITIVE: &[&[u8]] = &[P, JOINED];

/// What follows `6 version`, a space for the end of a line, with the line and the text of the fault.
pub const FAULTS: &[(&[u8], &[u8])] = &[
    (b"\"a\" \"b\" cons", b"5: wanted list, found name"),
    (b"nil def", b"4: wanted number, found list"),
    (b"7 ref", b"4: no entry 7"),
    (b"1 typeOp", b"4: wanted name, found number"),
    (b"\"a\" opType", b"4: wanted list, found name"),
    (b"\"b\" nil cons opType", b"6: wanted type, found name"),
    (b"nil nil opType", b"5: wanted type operator, found list"),
    (b"\"a\" var", b"4: wanted type, found name"),
    (b"1 \"a\" varType var", b"6: wanted name, found number"),
    (b"\"a\" constTerm", b"4: wanted type, found name"),
    (
        b"\"c\" \"A\" varType constTerm",
        b"6: wanted constant, found name",
    ),
    (b"\"a\" appTerm", b"4: wanted term, found name"),
    (
        b"\"c\" const \"A\" varType constTerm appTerm",
        b"8: stack empty",
    ),
    (
        b"nil \"c\" const \"A\" varType constTerm appTerm",
        b"9: wanted term, found list",
    ),
    (
        b"\"c\" const \"A\" varType constTerm 0 def 0 ref appTerm",
        b"12: not a function",
    ),
    (
        b"\"f\" const \"->\" typeOp \"A\" varType 0 def 0 ref nil cons cons opType constTerm \"x\" const \"B\" \
          varType constTerm appTerm",
        b"23: argument of another type",
    ),
    (b"\"a\" assume", b"4: wanted term, found name"),
    (
        b"\"a\" typeOp assume",
        b"5: wanted term, found type operator",
    ),
    (b"\"a\" const assume", b"5: wanted term, found constant"),
    (
        b"\"x\" \"A\" varType var assume",
        b"7: wanted term, found variable",
    ),
    (
        b"\"c\" const \"A\" varType constTerm typeOp",
        b"8: wanted name, found term",
    ),
    (
        b"\"c\" const \"A\" varType constTerm assume",
        b"8: not of type bool",
    ),
    (
        b"\"c\" const \"bool\" typeOp nil opType constTerm assume assume",
        b"11: wanted term, found theorem",
    ),
    (b"nil thm", b"4: wanted term, found list"),
    (
        b"\"c\" const \"A\" varType constTerm thm",
        b"8: stack empty",
    ),
    (
        b"\"c\" \"c\" const \"A\" varType constTerm thm",
        b"9: wanted list, found name",
    ),
    (
        b"\"a\" nil cons \"c\" const \"A\" varType constTerm thm",
        b"11: wanted term, found name",
    ),
    (
        b"nil \"c\" const \"A\" varType constTerm thm",
        b"9: stack empty",
    ),
    (
        b"5 nil \"c\" const \"A\" varType constTerm thm",
        b"10: wanted theorem, found number",
    ),
    (b"\"a\" absTerm", b"4: wanted term, found name"),
    (
        b"nil \"c\" const \"A\" varType constTerm absTerm",
        b"9: wanted variable, found list",
    ),
    (
        b"nil \"c\" const \"A\" varType constTerm refl eqMp",
        b"10: wanted theorem, found list",
    ),
    (
        b"\"p\" \"bool\" typeOp nil opType var varTerm assume 0 def 0 ref eqMp",
        b"15: not an equation",
    ),
    (
        b"\"p\" \"bool\" typeOp nil opType 0 def var varTerm refl \"q\" 0 ref var varTerm assume eqMp",
        b"19: terms differ",
    ),
    (
        b"nil \"c\" const \"A\" varType constTerm refl absThm",
        b"10: wanted variable, found list",
    ),
    (
        b"\"x\" \"A\" varType var \"p\" \"bool\" typeOp nil opType var varTerm assume absThm",
        b"15: not an equation",
    ),
    (
        b"\"c\" const \"A\" varType constTerm refl 0 def 0 ref appThm",
        b"13: not a function",
    ),
    (
        b"\"c\" const \"A\" varType constTerm betaConv",
        b"8: not a beta redex",
    ),
    (b"nil subst", b"4: wanted theorem, found list"),
    (
        b"\"a\" \"c\" const \"A\" varType constTerm refl subst",
        b"10: wanted list, found name",
    ),
    (
        b"nil \"c\" const \"A\" varType constTerm refl subst",
        b"10: bad substitution list",
    ),
    (
        b"nil nil cons nil nil cons cons \"c\" const \"A\" varType constTerm refl subst",
        b"16: bad substitution list",
    ),
    (
        b"nil \"x\" \"A\" varType var \"c\" const \"B\" varType constTerm nil cons cons nil cons nil cons cons \
          \"d\" const \"A\" varType constTerm refl subst",
        b"27: bad substitution list",
    ),
    (
        b"\"p\" \"bool\" typeOp nil opType var varTerm assume sym",
        b"11: not an equation",
    ),
    (
        b"\"c\" const \"A\" varType constTerm refl \"d\" const \"A\" varType constTerm refl trans",
        b"15: terms differ",
    ),
    (
        b"\"c\" const \"A\" varType constTerm refl proveHyp",
        b"9: stack empty",
    ),
    (
        b"\"c\" const \"A\" varType constTerm axiom",
        b"8: stack empty",
    ),
    (
        b"nil \"c\" const \"A\" varType constTerm axiom",
        b"9: not of type bool",
    ),
    (
        b"\"c\" const \"A\" varType constTerm nil cons \"p\" \"bool\" typeOp nil opType var varTerm axiom",
        b"17: not of type bool",
    ),
    (b"nil hdTl", b"4: empty list"),
    (b"\"a\" nil cons hdTl assume", b"7: wanted term, found list"),
    (b"1 remove", b"4: no entry 1"),
    (b"nil 0 def pragma 0 remove pop 0 ref", b"11: no entry 0"),
    (
        b"\"c\" \"x\" \"A\" varType var varTerm defineConst",
        b"9: free variable in a definition",
    ),
    (
        b"\"c\" \"f\" const \"->\" typeOp \"A\" varType 0 def \"bool\" typeOp nil opType nil cons cons opType \
          constTerm \"k\" const 0 ref constTerm appTerm defineConst",
        b"27: type variable not in the type of the constant",
    ),
    (
        b"\"c\" \"k\" const \"A\" varType constTerm 0 def defineConst \"c\" 0 ref defineConst",
        b"15: const \"c\" is defined already",
    ),
    (
        b"\"c\" \"c\" const \"A\" varType constTerm defineConst",
        b"9: const \"c\" is in use",
    ),
    (b"nil defineConstList", b"4: wanted theorem, found list"),
    (
        b"\"T\" \"abs\" \"rep\" nil \"p\" \"bool\" typeOp nil opType var varTerm assume defineTypeOp",
        b"15: theorem has hypotheses",
    ),
    (
        b"\"T\" \"abs\" \"rep\" nil nil \"c\" const \"bool\" typeOp nil opType constTerm axiom defineTypeOp",
        b"16: conclusion is not an application",
    ),
    (
        b"\"T\" \"abs\" \"rep\" \"A\" \"A\" nil cons cons \"c\" const \"A\" varType constTerm refl defineTypeOp",
        b"17: bad type variable list",
    ),
    (
        b"\"bool\" \"abs\" \"rep\" nil \"c\" const \"bool\" typeOp nil opType constTerm refl defineTypeOp",
        b"15: primitive symbol type \"bool\"",
    ),
    (
        b"\"T\" \"a\" \"a\" nil \"c\" const \"bool\" typeOp nil opType constTerm refl defineTypeOp",
        b"15: const \"a\" is defined already",
    ),
];
