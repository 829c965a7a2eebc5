//! The blocks of theory files, and the files that they name.
use ot_blocks::{PlanFault, StructureFault, article_path, is_package, package_path, plan_blocks};
use ot_theory::parse;

/// Theory files, with the blocks that each of their blocks imports and the order in which they run.
const PLANS: &[(&[u8], &[&[usize]], &[usize])] = &[
    (
        b"name: t\none {\n  article: \"one.art\"\n}\ntwo {\n  import: one\n  article: \"two.art\"\n}\n\
          main {\n  import: two\n}\n",
        &[&[], &[0], &[1]],
        &[0, 1, 2],
    ),
    (
        b"name: t\none {\n  article: \"one.art\"\n}\ntwo {\n  article: \"two.art\"\n}\n\
          main {\n  import: one\n  import: two\n}\n",
        &[&[], &[], &[0, 1]],
        &[0, 1, 2],
    ),
    (
        b"main {\nimport: two\nimport: one\nimport: two\n}\none {\nimport: two\n}\ntwo {\n}\n",
        &[&[2, 1, 2], &[2], &[]],
        &[2, 1, 0],
    ),
    (
        b"a {\nimport: b\n}\nb {\nimport: a\n}\nmain {\npackage: a-b-1.2.3\n}\n",
        &[&[1], &[0], &[]],
        &[2],
    ),
    (b"main {\n}\n", &[&[]], &[0]),
];

#[test]
fn plans(rt: HostRuntime) {
    for &(text, imports, order) in PLANS {
        match parse(rt.alloc(), text) {
            Ok(theory) => match plan_blocks(rt.alloc(), &theory.blocks) {
                Ok(plan) => {
                    assert!(rt; plan.order.as_slice() == order);
                    assert!(rt; plan.imports.len() == imports.len());
                    for (found, wanted) in plan.imports.iter().zip(imports) {
                        assert!(rt; found.as_slice() == *wanted);
                    }
                }
                Err(_) => assert!(rt; false),
            },
            Err(_) => assert!(rt; false),
        }
    }
}

/// Theory files that have no plan, each with the line and the fault that it is refused for.
const FAULTS: &[(&[u8], u64, StructureFault)] = &[
    (
        b"a {\nimport: b\n}\nb {\nimport: a\n}\nmain {\nimport: a\n}\n",
        5,
        StructureFault::ImportCycle,
    ),
    (b"main {\nimport: main\n}\n", 2, StructureFault::ImportCycle),
    (
        b"a {\nimport: b\n}\nmain {\n}\n",
        2,
        StructureFault::UnknownImport,
    ),
    (
        b"a {\npackage: bool\n}\nmain {\nimport: b\n}\n",
        2,
        StructureFault::BadPackageName,
    ),
    (
        b"a {\nimport: b\n}\nmain {\npackage: bool\n}\n",
        2,
        StructureFault::UnknownImport,
    ),
    (
        b"main {\nimport: main\n}\na {\nimport: b\n}\n",
        5,
        StructureFault::UnknownImport,
    ),
    (b"main {\npackage:\n}\n", 2, StructureFault::BadPackageName),
];

#[test]
fn faults(rt: HostRuntime) {
    for &(text, line, fault) in FAULTS {
        match parse(rt.alloc(), text) {
            Ok(theory) => match plan_blocks(rt.alloc(), &theory.blocks) {
                Ok(_) => assert!(rt; false),
                Err(found) => assert!(rt; found == PlanFault::At { line, fault }),
            },
            Err(_) => assert!(rt; false),
        }
    }
}

/// Texts, and whether they are full names of packages.
const FULL_NAMES: &[(&[u8], bool)] = &[
    (b"bool-1.0", true),
    (b"a-b-1.2.3", true),
    (b"eq-1.0", true),
    (b"a_0-1", true),
    (b"--1", true),
    (b"bool", false),
    (b"Bool-1.0", false),
    (b"bool-", false),
    (b"bool-1..0", false),
    (b"-1.0", false),
    (b"bool-1.0.", false),
    (b"bool-.1", false),
    (b"bool-1.a", false),
    (b"bool 1.0", false),
    (b"b.c-1.0", false),
    (b"", false),
];

#[test]
fn full_names(rt: HostRuntime) {
    for &(full, is_full_name) in FULL_NAMES {
        assert!(rt; is_package(full) == is_full_name);
    }
}

/// Folders of packages, full names, and the paths of the packages' theory files.
const PACKAGES: &[(&str, &[u8], &str)] = &[
    ("packages", b"eq-1.0", "packages/eq-1.0/eq.thy"),
    ("packages", b"bool-1.0", "packages/bool-1.0/bool.thy"),
    ("/p/", b"a-b-1.2.3", "/p//a-b-1.2.3/a-b.thy"),
    ("", b"a-1", "/a-1/a.thy"),
];

#[test]
fn packages(rt: HostRuntime) {
    for &(folder, full, wanted) in PACKAGES {
        if is_package(full) {
            match package_path(rt.alloc(), folder, full) {
                Ok(path) => assert!(rt; path.as_str() == wanted),
                Err(_) => assert!(rt; false),
            }
        } else {
            assert!(rt; false);
        }
    }
}

/// Paths of theory files, and the paths of the article `eq.art` that they name.
const ARTICLES: &[(&str, &str)] = &[
    ("packages/eq-1.0/eq.thy", "packages/eq-1.0/eq.art"),
    ("w.thy", "eq.art"),
    ("/w.thy", "/eq.art"),
    ("./a/../w.thy", "./a/../eq.art"),
];

#[test]
fn articles(rt: HostRuntime) {
    for &(theory_path, wanted) in ARTICLES {
        match article_path(rt.alloc(), theory_path, b"\"eq.art\"") {
            Ok(path) => assert!(rt; path.as_str() == wanted),
            Err(_) => assert!(rt; false),
        }
    }
    match article_path(rt.alloc(), "w.thy", b"\"gone.art\"") {
        Ok(path) => assert!(rt; path.as_str() == "gone.art"),
        Err(_) => assert!(rt; false),
    }
}
