//! Theory files, with the files that they name.
use crate::folder::Entry;

/// What some articles begin with: the term (\x. x) = (\x. x) at bool, stored as 8, and \x. x as 7.
const EQUATION: &[u8] =
    b"6\nversion\n\"->\"\ntypeOp\n0\ndef\npop\n\"bool\"\ntypeOp\nnil\nopType\n1\ndef\npop\n0\nref\n1\nref\n1\nref\n\
      nil\ncons\ncons\nopType\n2\ndef\npop\n0\nref\n1\nref\n2\nref\nnil\ncons\ncons\nopType\n3\ndef\npop\n\"=\"\n\
      const\n4\ndef\npop\n\"A\"\nvarType\n5\ndef\npop\n4\nref\n0\nref\n2\nref\n0\nref\n2\nref\n1\nref\nnil\ncons\n\
      cons\nopType\nnil\ncons\ncons\nopType\nconstTerm\n\"x\"\n1\nref\nvar\n6\ndef\n6\nref\nvarTerm\nabsTerm\n7\ndef\n\
      appTerm\n7\nref\nappTerm\n8\ndef\npop\n";

const PROVES_IT: &[u8] = b"7\nref\nrefl\nnil\n8\nref\nthm\n";

const TAKES_IT: &[u8] = b"nil\n8\nref\naxiom\nnil\n8\nref\nthm\n";

/// Two variables p and q of type bool, and p = q and q = p, stored as 9 and 10.
const BOTH_WAYS: &[u8] =
    b"6\nversion\n\"->\"\ntypeOp\n0\ndef\npop\n\"bool\"\ntypeOp\nnil\nopType\n1\ndef\npop\n0\nref\n1\nref\n1\nref\n\
      nil\ncons\ncons\nopType\n2\ndef\npop\n0\nref\n1\nref\n2\nref\nnil\ncons\ncons\nopType\n3\ndef\npop\n\"=\"\n\
      const\n4\ndef\npop\n\"A\"\nvarType\n5\ndef\npop\n\"p\"\n1\nref\nvar\nvarTerm\n6\ndef\npop\n\"q\"\n1\nref\nvar\n\
      varTerm\n7\ndef\npop\n4\nref\n3\nref\nconstTerm\n8\ndef\npop\n8\nref\n6\nref\nappTerm\n7\nref\nappTerm\n9\ndef\n\
      pop\n8\nref\n7\nref\nappTerm\n6\nref\nappTerm\n10\ndef\npop\n";

/// A constant "Y" between p and q of type bool, and its symmetry.
const SYMMETRY: &[u8] =
    b"6\nversion\n\"->\"\ntypeOp\n0\ndef\npop\n\"bool\"\ntypeOp\nnil\nopType\n1\ndef\npop\n0\nref\n1\nref\n1\nref\n\
      nil\ncons\ncons\nopType\n2\ndef\npop\n0\nref\n1\nref\n2\nref\nnil\ncons\ncons\nopType\n3\ndef\npop\n\"=\"\n\
      const\n4\ndef\npop\n\"A\"\nvarType\n5\ndef\npop\n\"p\"\n1\nref\nvar\nvarTerm\n6\ndef\npop\n\"q\"\n1\nref\nvar\n\
      varTerm\n7\ndef\npop\n\"Y\"\nconst\n3\nref\nconstTerm\n6\nref\nappTerm\n7\nref\nappTerm\n8\ndef\npop\nnil\n8\n\
      ref\naxiom\nsym\npop\nnil\n8\nref\naxiom\nnil\n8\nref\nthm\n";

/// `one` proves what `two` takes; `two` imports it, or doesn't.
pub(crate) const IMPORTS: [Entry; 3] = [
    (
        "t.thy",
        b"name: t\none {\n  article: \"one.art\"\n}\ntwo {\n  import: one\n  article: \"two.art\"\n}\n\
          main {\n  import: two\n}\n",
        b"",
    ),
    ("one.art", EQUATION, PROVES_IT),
    ("two.art", EQUATION, TAKES_IT),
];

pub(crate) const IMPORTS_NONE: [Entry; 3] = [
    (
        "t.thy",
        b"name: t\none {\n  article: \"one.art\"\n}\ntwo {\n  article: \"two.art\"\n}\nmain {\n  import: two\n}\n",
        b"",
    ),
    ("one.art", EQUATION, PROVES_IT),
    ("two.art", EQUATION, TAKES_IT),
];

pub(crate) const IMPORTS_LATE: [Entry; 3] = [
    (
        "t.thy",
        b"name: t\none {\n  article: \"one.art\"\n}\ntwo {\n  article: \"two.art\"\n}\n\
          main {\n  import: one\n  import: two\n}\n",
        b"",
    ),
    ("one.art", EQUATION, PROVES_IT),
    ("two.art", EQUATION, TAKES_IT),
];

pub(crate) const ASSUMES: [Entry; 3] = [
    (
        "t.thy",
        b"name: t\none {\n  article: \"one.art\"\n}\ntwo {\n  import: one\n  article: \"two.art\"\n}\n\
          main {\n  import: two\n}\n",
        b"",
    ),
    (
        "one.art",
        BOTH_WAYS,
        b"nil\n9\nref\naxiom\nsym\nnil\n10\nref\nthm\n",
    ),
    (
        "two.art",
        BOTH_WAYS,
        b"nil\n10\nref\naxiom\nnil\n10\nref\nthm\n",
    ),
];

pub(crate) const RENAMES: [Entry; 3] = [
    (
        "u.thy",
        b"lib {\npackage: eq-1.0\ninterpret: const \"X\" as \"=\"\n}\nmain {\nimport: lib\n}\n",
        b"",
    ),
    (
        "packages/eq-1.0/eq.thy",
        b"inner {\ninterpret: const \"Y\" as \"X\"\narticle: \"eq.art\"\n}\nmain {\nimport: inner\n}\n",
        b"",
    ),
    ("packages/eq-1.0/eq.art", SYMMETRY, b""),
];

pub(crate) const NOT_RENAMED: [Entry; 2] = [
    ("d/u.thy", b"main {\narticle: \"eq.art\"\n}\n", b""),
    ("d/eq.art", SYMMETRY, b""),
];

pub(crate) const CYCLE: [Entry; 1] = [(
    "v.thy",
    b"a {\nimport: b\n}\nb {\nimport: a\n}\nmain {\nimport: a\n}\n",
    b"",
)];

pub(crate) const GONE: [Entry; 1] = [("w.thy", b"main {\narticle: \"gone.art\"\n}\n", b"")];

/// Each package asks for the next one.
pub(crate) const CHAIN: [Entry; 4] = [
    ("c.thy", b"main {\npackage: a-1\n}\n", b""),
    ("packages/a-1/a.thy", b"main {\npackage: b-1\n}\n", b""),
    ("packages/b-1/b.thy", b"main {\npackage: c-1\n}\n", b""),
    ("packages/c-1/c.thy", b"main {\n}\n", b""),
];
