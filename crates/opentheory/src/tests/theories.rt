//! Theory files and their articles, and what the program answers.

/// A path, and the text of its file in two parts.
pub type Entry = (&'static str, &'static [u8], &'static [u8]);

/// The term (\x. x) = (\x. x) at bool, stored as 8, and \x. x as 7.
pub const EQUATION: &[u8] =
    b"6\nversion\n\"->\"\ntypeOp\n0\ndef\npop\n\"bool\"\ntypeOp\nnil\nopType\n1\ndef\npop\n0\nref\n1\nref\n1\n\
      ref\nnil\ncons\ncons\nopType\n2\ndef\npop\n0\nref\n1\nref\n2\nref\nnil\ncons\ncons\nopType\n3\ndef\npop\n\
      \"=\"\nconst\n4\ndef\npop\n\"A\"\nvarType\n5\ndef\npop\n4\nref\n0\nref\n2\nref\n0\nref\n2\nref\n1\nref\n\
      nil\ncons\ncons\nopType\nnil\ncons\ncons\nopType\nconstTerm\n\"x\"\n1\nref\nvar\n6\ndef\n6\nref\nvarTerm\n\
      absTerm\n7\ndef\nappTerm\n7\nref\nappTerm\n8\ndef\npop\n";

pub const PROVES_IT: &[u8] = b"7\nref\nrefl\nnil\n8\nref\nthm\n";

const TAKES_IT: &[u8] = b"nil\n8\nref\naxiom\nnil\n8\nref\nthm\n";

pub const DEFINES_IT: &[u8] =
    b"\"Data.Bool.T\"\n8\nref\ndefineConst\nnil\n4\nref\n3\nref\nconstTerm\n\"Data.Bool.T\"\nconst\n1\nref\n\
      constTerm\nappTerm\n8\nref\nappTerm\nthm\n";

/// The same under a hypothesis that it doesn't need.
const TAKES_IT_UNDER_Q: &[u8] =
    b"\"q\"\n1\nref\nvar\nvarTerm\n9\ndef\npop\n9\nref\nnil\ncons\n8\nref\naxiom\n9\nref\nnil\ncons\n8\nref\nthm\n";

/// Two variables p and q of type bool, and p = q and q = p, stored as 9 and 10.
const BOTH_WAYS: &[u8] =
    b"6\nversion\n\"->\"\ntypeOp\n0\ndef\npop\n\"bool\"\ntypeOp\nnil\nopType\n1\ndef\npop\n0\nref\n1\nref\n1\n\
      ref\nnil\ncons\ncons\nopType\n2\ndef\npop\n0\nref\n1\nref\n2\nref\nnil\ncons\ncons\nopType\n3\ndef\npop\n\
      \"=\"\nconst\n4\ndef\npop\n\"A\"\nvarType\n5\ndef\npop\n\"p\"\n1\nref\nvar\nvarTerm\n6\ndef\npop\n\"q\"\n1\n\
      ref\nvar\nvarTerm\n7\ndef\npop\n4\nref\n3\nref\nconstTerm\n8\ndef\npop\n8\nref\n6\nref\nappTerm\n7\nref\n\
      appTerm\n9\ndef\npop\n8\nref\n7\nref\nappTerm\n6\nref\nappTerm\n10\ndef\npop\n";

/// A constant "Y" between p and q of type bool, as an axiom, and its symmetry.
pub const SYMMETRY: &[u8] =
    b"6\nversion\n\"->\"\ntypeOp\n0\ndef\npop\n\"bool\"\ntypeOp\nnil\nopType\n1\ndef\npop\n0\nref\n1\nref\n1\n\
      ref\nnil\ncons\ncons\nopType\n2\ndef\npop\n0\nref\n1\nref\n2\nref\nnil\ncons\ncons\nopType\n3\ndef\npop\n\
      \"=\"\nconst\n4\ndef\npop\n\"A\"\nvarType\n5\ndef\npop\n\"p\"\n1\nref\nvar\nvarTerm\n6\ndef\npop\n\"q\"\n1\n\
      ref\nvar\nvarTerm\n7\ndef\npop\n\"Y\"\nconst\n3\nref\nconstTerm\n6\nref\nappTerm\n7\nref\nappTerm\n8\ndef\n\
      pop\nnil\n8\nref\naxiom\nsym\npop\nnil\n8\nref\naxiom\nnil\n8\nref\nthm\n";

/// `one` proves what `two` takes; `two` imports it, or doesn't, or only `main` does.
pub const IMPORTS: [Entry; 3] = [
    (
        "t.thy",
        b"name: t\none {\n  article: \"one.art\"\n}\ntwo {\n  import: one\n  article: \"two.art\"\n}\nmain {\n  \
          import: two\n}\n",
        b"",
    ),
    ("one.art", EQUATION, PROVES_IT),
    ("two.art", EQUATION, TAKES_IT),
];

pub const IMPORTS_NONE: [Entry; 3] = [
    (
        "t.thy",
        b"name: t\none {\n  article: \"one.art\"\n}\ntwo {\n  article: \"two.art\"\n}\nmain {\n  import: two\n}\n",
        b"",
    ),
    ("one.art", EQUATION, PROVES_IT),
    ("two.art", EQUATION, TAKES_IT),
];

pub const IMPORTS_LATE: [Entry; 3] = [
    (
        "t.thy",
        b"name: t\none {\n  article: \"one.art\"\n}\ntwo {\n  article: \"two.art\"\n}\nmain {\n  import: one\n  \
          import: two\n}\n",
        b"",
    ),
    ("one.art", EQUATION, PROVES_IT),
    ("two.art", EQUATION, TAKES_IT),
];

/// `two` takes what `one` proves under a hypothesis more.
pub const WEAKENS: [Entry; 3] = [
    (
        "t.thy",
        b"name: t\none {\n  article: \"one.art\"\n}\ntwo {\n  import: one\n  article: \"two.art\"\n}\nmain {\n  \
          import: two\n}\n",
        b"",
    ),
    ("one.art", EQUATION, PROVES_IT),
    ("two.art", EQUATION, TAKES_IT_UNDER_Q),
];

pub const WEAKENS_NONE: [Entry; 3] = [
    (
        "t.thy",
        b"name: t\none {\n  article: \"one.art\"\n}\ntwo {\n  article: \"two.art\"\n}\nmain {\n  import: two\n}\n",
        b"",
    ),
    ("one.art", EQUATION, PROVES_IT),
    ("two.art", EQUATION, TAKES_IT_UNDER_Q),
];

pub const WEAKENED: &[u8] =
    b"theorems: 1\n  \"q\":\"bool\" |- ((\\\"bool\". #0) = (\\\"bool\". #0))\n";

pub const ASSUMED_ONE: &[u8] = b"accepted: 1 theorems, 1 assumptions, 0 definitions\n";

/// `one` turns an assumption round, which `two` takes.
pub const ASSUMES: [Entry; 3] = [
    (
        "t.thy",
        b"name: t\none {\n  article: \"one.art\"\n}\ntwo {\n  import: one\n  article: \"two.art\"\n}\nmain {\n  \
          import: two\n}\n",
        b"",
    ),
    (
        "one.art",
        BOTH_WAYS,
        b"nil\n9\nref\naxiom\nsym\nnil\n10\nref\nthm\n",
    ),
    (
        "two.art",
        BOTH_WAYS,
        b"nil\n10\nref\naxiom\nnil\n10\nref\nthm\n",
    ),
];

pub const SYMMETRIC: &[u8] =
    b"assumptions: 1\n  |- (\"p\":\"bool\" = \"q\":\"bool\")\ndefinitions: 0\ntheorems: 1\n  |- (\"q\":\"bool\" \
      = \"p\":\"bool\")\n";

/// A package whose "Y" is called "X" inside, and `=` outside. Its article alone has no equation.
pub const RENAMES: [Entry; 3] = [
    (
        "t.thy",
        b"lib {\npackage: eq-1.0\ninterpret: const \"X\" as \"=\"\n}\nmain {\nimport: lib\n}\n",
        b"",
    ),
    (
        "packages/eq-1.0/eq.thy",
        b"inner {\ninterpret: const \"Y\" as \"X\"\narticle: \"eq.art\"\n}\nmain {\nimport: inner\n}\n",
        b"",
    ),
    ("packages/eq-1.0/eq.art", SYMMETRY, b""),
];

pub const RENAMED: &[u8] =
    b"assumptions: 1\n  |- (\"p\":\"bool\" = \"q\":\"bool\")\ndefinitions: 0\ntheorems: 1\n  |- (\"p\":\"bool\" \
      = \"q\":\"bool\")\n";

pub const NOT_EQUATION: &[u8] = b"opentheory: packages/eq-1.0/eq.art:85: not an equation\n";

/// The article of a package's theory file, which renames nothing.
pub const FAR: [Entry; 3] = [
    ("t.thy", b"main {\npackage: far-2\n}\n", b""),
    (
        "packages/far-2/far.thy",
        b"main {\narticle: \"d/eq.art\"\n}\n",
        b"",
    ),
    ("packages/far-2/d/eq.art", SYMMETRY, b""),
];

pub const NOT_EQUATION_FAR: &[u8] = b"opentheory: packages/far-2/d/eq.art:85: not an equation\n";

/// The constant T, defined as the equation, in a namespace that the theory file shows.
pub const SHOWS: [Entry; 2] = [
    (
        "t.thy",
        b"show: \"Data.Bool\"\nmain {\n  article: \"truth.art\"\n}\n",
        b"",
    ),
    ("truth.art", EQUATION, DEFINES_IT),
];

/// The constant T under another name.
pub const DEFINES_TOP: [Entry; 2] = [
    (
        "t.thy",
        b"main {\n  interpret: const \"Data.Bool.T\" as \"Top\"\n  article: \"truth.art\"\n}\n",
        b"",
    ),
    ("truth.art", EQUATION, DEFINES_IT),
];

pub const DEFINED_TOP: &[u8] =
    b"assumptions: 0\ndefinitions: 1\n  const \"Top\" : |- (@\"Top\":\"bool\" = ((\\\"bool\". #0) = \
      (\\\"bool\". #0)))\ntheorems: 1\n  |- (@\"Top\":\"bool\" = ((\\\"bool\". #0) = (\\\"bool\". #0)))\n";

pub const SHOWN: &[u8] =
    b"assumptions: 0\ntheorems: 1\n  |- ({T : bool} = ((\\x0 : bool . x0) = (\\x0 : bool . x0)))\n";

pub const NO_THEORY: &[u8] = b"opentheory: gone.thy: no such file\n";

pub const CYCLE: [Entry; 1] = [(
    "t.thy",
    b"a {\nimport: b\n}\nb {\nimport: a\n}\nmain {\nimport: a\n}\n",
    b"",
)];

pub const IMPORT_CYCLE: &[u8] = b"opentheory: t.thy:5: import cycle\n";

pub const UNREADABLE: [Entry; 2] = [
    ("t.thy", b"main {\npackage: bad-1\n}\n", b""),
    ("packages/bad-1/bad.thy", b"main {\nimport: a b\n}\n", b""),
];

pub const BAD_LINE: &[u8] = b"opentheory: packages/bad-1/bad.thy:2: bad line\n";

pub const GONE: [Entry; 1] = [("t.thy", b"main {\narticle: \"gone.art\"\n}\n", b"")];

pub const NO_ARTICLE: &[u8] = b"opentheory: gone.art: no such file\n";

pub const THEORY_FAILED: &[u8] = b"opentheory: t.thy: read fault\n";

/// Each package asks for the next one.
pub const CHAIN: [Entry; 19] = [
    ("sixteen.thy", b"main {\npackage: b-1\n}\n", b""),
    ("seventeen.thy", b"main {\npackage: a-1\n}\n", b""),
    ("p/a-1/a.thy", b"main {\npackage: b-1\n}\n", b""),
    ("p/b-1/b.thy", b"main {\npackage: c-1\n}\n", b""),
    ("p/c-1/c.thy", b"main {\npackage: d-1\n}\n", b""),
    ("p/d-1/d.thy", b"main {\npackage: e-1\n}\n", b""),
    ("p/e-1/e.thy", b"main {\npackage: f-1\n}\n", b""),
    ("p/f-1/f.thy", b"main {\npackage: g-1\n}\n", b""),
    ("p/g-1/g.thy", b"main {\npackage: h-1\n}\n", b""),
    ("p/h-1/h.thy", b"main {\npackage: i-1\n}\n", b""),
    ("p/i-1/i.thy", b"main {\npackage: j-1\n}\n", b""),
    ("p/j-1/j.thy", b"main {\npackage: k-1\n}\n", b""),
    ("p/k-1/k.thy", b"main {\npackage: l-1\n}\n", b""),
    ("p/l-1/l.thy", b"main {\npackage: m-1\n}\n", b""),
    ("p/m-1/m.thy", b"main {\npackage: n-1\n}\n", b""),
    ("p/n-1/n.thy", b"main {\npackage: o-1\n}\n", b""),
    ("p/o-1/o.thy", b"main {\npackage: p-1\n}\n", b""),
    ("p/p-1/p.thy", b"main {\npackage: q-1\n}\n", b""),
    ("p/q-1/q.thy", b"main {\n}\n", b""),
];

pub const TOO_DEEP: &[u8] = b"opentheory: p/p-1/p.thy:2: packages nested deeper than 16\n";

/// A package that asks for itself.
pub const SELF: [Entry; 2] = [
    ("u.thy", b"main {\npackage: a-1.0\n}\n", b""),
    ("packages/a-1.0/a.thy", b"main {\npackage: a-1.0\n}\n", b""),
];

pub const PACKAGE_CYCLE: &[u8] = b"opentheory: packages/a-1.0/a.thy:2: package cycle\n";
