//! Lines of readable text, read under the notation of a run.
use super::devices::says;
use super::theories::{DEFINES_IT, EQUATION, Entry};
use ot_program::Status;
use std::test::Fail;

/// The constant T, defined as an equation, as a theory file that shows its namespace, and texts to read.
const FILES: [Entry; 10] = [
    (
        "t.thy",
        b"show: \"Data.Bool\"\nmain {\n  article: \"truth.art\"\n}\n",
        b"",
    ),
    ("truth.art", EQUATION, DEFINES_IT),
    (
        "short.txt",
        b"# as it is printed\n",
        b"\n |- ({T : bool} = ((\\x0 : bool . x0) = (\\x0 : bool . x0)))\r\n",
    ),
    (
        "long.txt",
        b"|- ({Data.Bool.T : bool} = ((\\x0 : bool . x0) = (\\x0 : bool . x0)))",
        b"",
    ),
    (
        "two.txt",
        b"(q : bool), (p : bool) |- (p : bool)\n#\n",
        b"|- ((\\y : bool . y) (x : bool))",
    ),
    ("none.txt", b"", b""),
    ("open.txt", b"|- (x : bool", b""),
    ("y.txt", b"|- y", b""),
    ("unbound.txt", b"\n|- (x : bool)\n", b"|- y\n|- (x : bool"),
    ("types.txt", b"|- (x : bool)\n", b"   |- (x : 'a)"),
];

const TRUTH: &[u8] = b"|- (@\"Data.Bool.T\":\"bool\" = ((\\\"bool\". #0) = (\\\"bool\". #0)))\n";

/// Words, the status, and the text.
const ROWS: &[(&[&str], Status, &[u8])] = &[
    (&["read", "t.thy", "short.txt"], Status::Accepted, TRUTH),
    (
        &["read", "truth.art", "short.txt"],
        Status::Accepted,
        b"|- (@\"T\":\"bool\" = ((\\\"bool\". #0) = (\\\"bool\". #0)))\n",
    ),
    (&["read", "truth.art", "long.txt"], Status::Accepted, TRUTH),
    (
        &["read", "t.thy", "long.txt"],
        Status::Refused,
        b"opentheory: long.txt:1:17: cannot be read\n",
    ),
    (
        &["read", "-", "two.txt"],
        Status::Accepted,
        b"\"p\":\"bool\", \"q\":\"bool\" |- \"p\":\"bool\"\n|- ((\\\"bool\". #0) \"x\":\"bool\")\n",
    ),
    (&["read", "t.thy", "none.txt"], Status::Accepted, b""),
    (
        &["read", "t.thy", "open.txt"],
        Status::Refused,
        b"opentheory: open.txt:1:13: cannot be read\n",
    ),
    (
        &["read", "truth.art", "y.txt"],
        Status::Refused,
        b"opentheory: y.txt:1:4: unbound name\n",
    ),
    (
        &["read", "t.thy", "unbound.txt"],
        Status::Refused,
        b"opentheory: unbound.txt:3:4: unbound name\n",
    ),
    (
        &["read", "t.thy", "types.txt"],
        Status::Refused,
        b"opentheory: types.txt:2:4: types do not fit\n",
    ),
    (
        &["read", "t.thy", "gone.txt"],
        Status::NoFile,
        b"opentheory: gone.txt: no such file\n",
    ),
    (
        &["read", "gone.art", "gone.txt"],
        Status::NoFile,
        b"opentheory: gone.art: no such file\n",
    ),
    (
        &["read", "short.txt", "open.txt"],
        Status::Refused,
        b"opentheory: short.txt:3: unknown command\n",
    ),
];

#[test]
fn lines(rt: HostRuntime) -> Result<(), Fail> {
    for &(words, status, text) in ROWS {
        assert!(rt;
            says(rt.alloc(), words, &FILES, 0, status, text)?,
            "{words:?}"
        );
    }
    Ok(())
}

/// Calls that fail: each file is opened, read and found at its end, first the theory file, once, then the article, then
/// the text; and of an article on the input its own and the text's.
#[test]
fn failures(rt: HostRuntime) -> Result<(), Fail> {
    let rows: [(&str, u64, &[u8]); 5] = [
        ("t.thy", 1, b"opentheory: t.thy: read fault\n"),
        ("t.thy", 4, b"opentheory: truth.art: read fault\n"),
        ("t.thy", 7, b"opentheory: short.txt: read fault\n"),
        ("-", 1, b"opentheory: -: read fault\n"),
        ("-", 2, b"opentheory: short.txt: read fault\n"),
    ];
    for (input, call, line) in rows {
        let words = &["read", input, "short.txt"];
        assert!(rt;
            says(rt.alloc(), words, &FILES, call, Status::ReadFault, line)?,
            "{input} {call}"
        );
    }
    Ok(())
}
