//! Names and command words.
use ot_logic::{Cmd, Name, NameFault};
use std::test::Fail;

/// Quoted texts, the components that they spell, and the spelling of that name.
const NAMES: &[(&[u8], &[&[u8]], &[u8])] = &[
    (b"\"a.b\\.c\"", &[b"a", b"b.c"], b"\"a.b\\.c\""),
    (b"\"\"", &[b""], b"\"\""),
    (b"\".\"", &[b"", b""], b"\".\""),
    (b"\"a\\x\"", &[b"ax"], b"\"ax\""),
    (b"\"\\\"\\\\..\"", &[b"\"\\", b"", b""], b"\"\\\"\\\\..\""),
    (
        b"\"Data.Bool.T\"",
        &[b"Data", b"Bool", b"T"],
        b"\"Data.Bool.T\"",
    ),
    (
        b"\"\xc3\xa9\\\x80\"",
        &[b"\xc3\xa9\x80"],
        b"\"\xc3\xa9\x80\"",
    ),
];

/// Quoted texts that spell no name.
const FAULTS: &[(&[u8], NameFault)] = &[
    (b"\"abc", NameFault::Unterminated),
    (b"\"", NameFault::Unterminated),
    (b"\"a\\\"", NameFault::Unterminated),
    (b"\"a\"b", NameFault::Trailing),
    (b"\"\"\"", NameFault::Trailing),
    (b"\"a\\\\\".", NameFault::Trailing),
];

#[test]
fn names_and_their_spellings(rt: HostRuntime) -> Result<(), Fail> {
    for &(quoted, components, spelling) in NAMES {
        assert!(rt; !quoted.is_empty() && quoted[0] == b'"');
        let name = Name::read(rt.alloc(), quoted)?;
        assert!(rt; name.components().len() == components.len());
        for (component, wanted) in name.components().iter().zip(components) {
            assert!(rt; component.as_slice() == *wanted);
        }
        let mut out = Vec::new(rt.alloc());
        out.push(b'x')?;
        name.spell(&mut out)?;
        assert!(rt; out.len() == spelling.len() + 1);
        assert!(rt; &out[1..] == spelling);
    }
    for &(quoted, fault) in FAULTS {
        assert!(rt; !quoted.is_empty() && quoted[0] == b'"');
        match Name::read(rt.alloc(), quoted) {
            Ok(_) => assert!(rt; false),
            Err(answer) => assert!(rt; answer == fault),
        }
    }
    Ok(())
}

#[test]
fn command_words(rt: HostRuntime) {
    let rows: [(&[u8], Option<Cmd>); 8] = [
        (b"version", Some(Cmd::Version)),
        (b"typeOp", Some(Cmd::TypeOp)),
        (b"axiom", Some(Cmd::Axiom)),
        (b"hdTl", Some(Cmd::HdTl)),
        (b"defineTypeOp", Some(Cmd::DefineTypeOp)),
        (b"typeop", None),
        (b"th", None),
        (b"", None),
    ];
    for (text, wanted) in rows {
        assert!(rt; Cmd::find(text) == wanted);
    }
}
