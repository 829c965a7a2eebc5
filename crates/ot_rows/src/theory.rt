//! Theory files, and the values of their statements.
use ot_theory::{SymbolWord, Tag, TheoryError, TheoryFault, parse, split_interpret};
use std::test::Fail;

/// Texts that are no theory files, each with the line and the fault that it is refused for.
const FAULTS: &[(&[u8], u64, TheoryFault)] = &[
    (b"", 0, TheoryFault::NoMain),
    (b"main {\n", 1, TheoryFault::BadBlock),
    (b"main {\n}\nmain {\n", 3, TheoryFault::DuplicateBlock),
    (
        b"main {\narticle: \"a\"\npackage: b-1\n}\n",
        3,
        TheoryFault::TwoSources,
    ),
    (
        b"main {\ninterpret: const \"a\" as b\n}\n",
        2,
        TheoryFault::BadInterpret,
    ),
    (
        b"main {\ninterpret: type \"a\" as \"b\"\ninterpret: type \"a\" as \"c\"\n}\n",
        3,
        TheoryFault::DuplicateInterpret,
    ),
    (b"name: x\n}\n", 2, TheoryFault::BadBlock),
    (b"main\n", 1, TheoryFault::BadLine),
    (b"a {\n}\n\n#\n", 4, TheoryFault::NoMain),
    (b"main: x\n", 1, TheoryFault::NoMain),
    (b"main {\n}\n\nb {\n\n", 4, TheoryFault::BadBlock),
    (b"main {\nb {\n", 2, TheoryFault::BadBlock),
    (b"main {\nb\n", 2, TheoryFault::BadLine),
    (b"main {}\n", 1, TheoryFault::BadLine),
    (b"main { x\n", 1, TheoryFault::BadLine),
    (b"a b: c\n", 1, TheoryFault::BadLine),
    (b": c\n", 1, TheoryFault::BadLine),
    (b"main {\nimport:\n}\n}\n", 2, TheoryFault::BadLine),
    (b"main {\nimport: a b\n}\n", 2, TheoryFault::BadLine),
    (b"main {\narticle: \"\"\n}\n", 2, TheoryFault::BadLine),
    (b"main {\narticle: \"a\"b\"\n}\n", 2, TheoryFault::BadLine),
    (b"main {\narticle: \"\xff\"\n}\n", 2, TheoryFault::BadLine),
    (
        b"main {\npackage: a-1\narticle: b\n}\n",
        3,
        TheoryFault::BadLine,
    ),
    (
        b"main {\npackage: a-1\npackage:\n}\n",
        3,
        TheoryFault::TwoSources,
    ),
    (
        b"main {\ninterpret: const \"a\" as \"b\"\ninterpret: const \"a\" as c\n}\n",
        3,
        TheoryFault::BadInterpret,
    ),
    (
        b"main {\ninterpret: const \"a\" as \"b\"\ninterpret: const \"\\a\" as \"b\"\n}\n",
        3,
        TheoryFault::DuplicateInterpret,
    ),
];

#[test]
fn first_faults(rt: HostRuntime) {
    for &(text, line, fault) in FAULTS {
        match parse(rt.alloc(), text) {
            Ok(_) => assert!(rt; false),
            Err(error) => assert!(rt; error == TheoryError::At { line, fault }),
        }
    }
}

/// A statement's line, key and value.
type Statement = (u64, &'static [u8], &'static [u8]);

/// Texts with their tags, and their blocks: a line, a name and the statements.
const FILES: &[(
    &[u8],
    &[Statement],
    &[(u64, &'static [u8], &'static [Statement])],
)] = &[
    (
        b"name: t\none {\n  article: \"one.art\"\n}\ntwo {\n  import: one\n  article: \"two.art\"\n}\n\
          main {\n  import: two\n}\n",
        &[(1, b"name", b"t")],
        &[
            (2, b"one", &[(3, b"article", b"\"one.art\"")]),
            (
                5,
                b"two",
                &[(6, b"import", b"one"), (7, b"article", b"\"two.art\"")],
            ),
            (9, b"main", &[(10, b"import", b"two")]),
        ],
    ),
    (
        b"lib {\npackage: eq-1.0\ninterpret: const \"X\" as \"=\"\n}\nmain {\nimport: lib\n}\n",
        &[],
        &[
            (
                1,
                b"lib",
                &[
                    (2, b"package", b"eq-1.0"),
                    (3, b"interpret", b"const \"X\" as \"=\""),
                ],
            ),
            (5, b"main", &[(6, b"import", b"lib")]),
        ],
    ),
    (
        b"inner {\ninterpret: const \"Y\" as \"X\"\narticle: \"eq.art\"\n}\nmain {\nimport: inner\n}\n",
        &[],
        &[
            (
                1,
                b"inner",
                &[
                    (2, b"interpret", b"const \"Y\" as \"X\""),
                    (3, b"article", b"\"eq.art\""),
                ],
            ),
            (5, b"main", &[(6, b"import", b"inner")]),
        ],
    ),
    (
        b"# a theory\r\nname:\t t \r\nversion : 1.0\r\n\r\ndescription:\r\nname: \"x: y\"\r\nmain{\r\n\
          \tchecksum: \r\n  # no statement\r\n import:main\r\n}\r\nimport: a b",
        &[
            (2, b"name", b"t"),
            (3, b"version", b"1.0"),
            (5, b"description", b""),
            (6, b"name", b"\"x: y\""),
            (12, b"import", b"a b"),
        ],
        &[(
            7,
            b"main",
            &[(8, b"checksum", b""), (10, b"import", b"main")],
        )],
    ),
    (
        b"main \t{\ninterpret: const \"a\" as \"b\"\ninterpret: type \"a\" as \"b\"\ninterpret: const \"b\" as \"a\"\n\
          package:\n}",
        &[],
        &[(
            1,
            b"main",
            &[
                (2, b"interpret", b"const \"a\" as \"b\""),
                (3, b"interpret", b"type \"a\" as \"b\""),
                (4, b"interpret", b"const \"b\" as \"a\""),
                (5, b"package", b""),
            ],
        )],
    ),
];

#[test]
fn tags_and_blocks(rt: HostRuntime) {
    for &(text, tags, blocks) in FILES {
        match parse(rt.alloc(), text) {
            Ok(theory) => {
                assert!(rt; same(&theory.tags, tags));
                assert!(rt; theory.blocks.len() == blocks.len());
                for (block, (line, name, statements)) in theory.blocks.iter().zip(blocks) {
                    assert!(rt; block.line == *line);
                    assert!(rt; block.name == *name);
                    assert!(rt; same(&block.statements, statements));
                }
            }
            Err(_) => assert!(rt; false),
        }
    }
}

fn same(found: &[Tag<'_>], wanted: &[Statement]) -> bool {
    let found = found.iter().map(|tag| (tag.line, tag.key, tag.value));
    found.eq(wanted.iter().copied())
}

/// Values, and what they are split into.
const VALUES: &[(&[u8], Option<(SymbolWord, &[u8], &[u8])>)] = &[
    (
        b"const \"a\" as \"b\"",
        Some((SymbolWord::Con, b"\"a\"", b"\"b\"")),
    ),
    (
        b"type\t\"a.b\"  as \t\"c\"",
        Some((SymbolWord::TyOp, b"\"a.b\"", b"\"c\"")),
    ),
    (
        b"const \"\\\"\" as \"\"",
        Some((SymbolWord::Con, b"\"\\\"\"", b"\"\"")),
    ),
    (
        b"const \" as \" as \"\xff\"",
        Some((SymbolWord::Con, b"\" as \"", b"\"\xff\"")),
    ),
    (b"", None),
    (b"const", None),
    (b"const \"a\"", None),
    (b"const \"a\" as", None),
    (b"const \"a\" as b", None),
    (b"const a as \"b\"", None),
    (b"constant \"a\" as \"b\"", None),
    (b"Const \"a\" as \"b\"", None),
    (b"const\"a\" as \"b\"", None),
    (b"const \"a\"as \"b\"", None),
    (b"const \"a\" as\"b\"", None),
    (b"const \"a\" as \"b\"c", None),
    (b"const \"a\\\" as \"b\"", None),
    (b"const \"a\" to \"b\"", None),
];

#[test]
fn interpretations(rt: HostRuntime) {
    for &(value, parts) in VALUES {
        assert!(rt; split_interpret(value) == parts);
    }
}

#[test]
fn long_names(rt: HostRuntime) -> Result<(), Fail> {
    for (letters, is_split) in [(65533, true), (65534, false)] {
        let name = vec![in rt.alloc(); b'x'; letters]?;
        let mut value = Vec::from_slice(rt.alloc(), b"type \"")?;
        value.extend_from_slice(&name)?;
        value.extend_from_slice(b"\" as \"b\"")?;
        assert!(rt; split_interpret(&value).is_some() == is_split);
    }
    Ok(())
}
