//! Lines of words, and the commands that they write.
use ot_args::{Command, Sections, is_theory};
use std::alloc::{AllocError, Global};
use std::test::Fail;

/// The words of a line, with `|` between them, and after ` => ` what they write: the word of a command, its texts,
/// and of the sections assumptions, definitions and theorems the first letters.
const COMMANDS: &str = "\
check|- => check|packages|-|
check|a.art => check|packages|a.art|
check|a.thy.art => check|packages|a.thy.art|
check|.thy => check|packages|.thy|
check|--packages|p|t.thy => check|p|t.thy|
check|--packages|-p|a.art => check|-p|a.art|
check|--packages|--packages|- => check|--packages|-|
check|--packages|--theorems|- => check|--theorems|-|
check|check => check|packages|check|
info|a => info|packages|a||adt
info|- => info|packages|-||adt
info|a.thy => info|packages|a.thy||adt
info|--packages|p|a => info|p|a||adt
info|--theorems|a => info|packages|a||t
info|--definitions|a => info|packages|a||d
info|--packages|p|--assumptions|a => info|p|a||a
info|--definitions|--packages|--theorems|--assumptions|a => info|--theorems|a||ad
info|--theorems|--definitions|--assumptions|a => info|packages|a||adt
info|--uses|a.thy => uses|packages|a.thy|
info|--packages|p|--uses|- => uses|p|-|
info|--readable|a.thy => readable|packages|a.thy|
info|--packages|p|--readable|- => readable|p|-|
link|t.thy => link|packages|t.thy|
link|.thy => link|packages|.thy|
link|--packages|p|d/t.thy => link|p|d/t.thy|
minimise|- => minimise|packages|-|
minimise|a.art => minimise|packages|a.art|
minimise|--packages|p|t.thy => minimise|p|t.thy|
verify|- => verify|-||
verify|a.log => verify|a.log||
verify|a.thy => verify|a.thy||
verify|verify => verify|verify||
read|a.art|t.txt => read|packages|a.art|t.txt
read|--packages|p|-|t.thy => read|p|-|t.thy
prove|- => prove|packages|-|
prove|--packages|p|t.thy => prove|p|t.thy|
find|(p : bool)|- => find|packages|(p : bool)|-
find|--packages|p| x|t.thy => find|p| x|t.thy
";

/// The same for an article that is made, with how often it doubles.
const SAMPLES: &[(&str, &str, u64)] = &[
    ("sample|1", "sample", 1),
    ("sample|8", "sample", 8),
    ("sample|10", "sample", 10),
    ("sample|999", "sample", 999),
    ("sample|1000", "sample", 1000),
    ("sample|--article|8", "sample article", 8),
    ("sample|--article|1000", "sample article", 1000),
];

/// Lines that are no command.
const REFUSED: &str = "\
prove
prove|
prove|-x
prove|a.art|b.art
prove|--theorems|a.art
find|(p : bool)
find||a.art
find|-|a.art
find|--uses|(p : bool)|a.art
find|(p : bool)|--packages|p|a.art
check
check|
check|-x
check|-.thy
check|a|b
check|--|-
check|--packages
check|--packages|-
check|--packages||-
check|--packages=p|-
check|-|--packages|p
check|--packages|--packages|p|-
check|--packages|p|--packages|q|-
check|--assumptions|-
check|--definitions|-
check|--theorems|a
check|--article|-
Check|-
info
info|-x
info|a|b
info|a|--theorems
info|--definitions
info|--theorems|-x
info|--theorems|--theorems|a
info|--article|a
info|--uses
info|--uses|--uses|a
info|--uses|--theorems|a
info|--assumptions|--packages|p|--uses|a
check|--uses|a
info|--readable
info|--readable|--readable|a
info|--readable|--theorems|a
info|--assumptions|--packages|p|--readable|a
info|--definitions|--readable|a
info|--uses|--readable|a
info|--readable|--uses|a
check|--readable|a
link|--readable|a.thy
info|--packages
info|--packages||a
info|--packages|p|--theorems|--packages|q|a
link
link|-
link|a.art
link|t.thy.art
link|-.thy
link|a.thy|b.thy
link|--theorems|a.thy
link|--packages||a.thy
minimise
minimise|-x
minimise|a|b
minimise|--theorems|a
minimise|--packages|p
minimize|a
sample
sample|
sample|-
sample|0
sample|1001
sample|10000
sample|18446744073709551617
sample|007
sample|+1
sample|-1
sample|1e3
sample|1 
sample|--article
sample|--article|0
sample|--article|--article|1
sample|--packages|p|1
sample|--theorems|1
sample|1|--article
sample|1|2
verify
verify|
verify|-x
verify|a|b
verify|--packages|p|a
verify|--theorems|a
verify|--article|a
Verify|a
proof|a
read
read|a
read|a|
read|a|-
read|a|-t
read|-a|t
read|a|t|u
read|--uses|a|t
--help
--version
";

fn owned(alloc: Global, line: &str) -> Result<Vec<String>, AllocError> {
    let mut words = Vec::new(alloc);
    for word in line.split('|') {
        words.push(String::from_str(alloc, word)?)?;
    }
    Ok(words)
}

fn letters(sections: Sections) -> &'static str {
    match (
        sections.assumptions,
        sections.definitions,
        sections.theorems,
    ) {
        (true, true, true) => "adt",
        (true, true, false) => "ad",
        (true, false, true) => "at",
        (true, false, false) => "a",
        (false, true, true) => "dt",
        (false, true, false) => "d",
        (false, false, true) => "t",
        (false, false, false) => "",
    }
}

/// The word of a command, its texts, the sections that it shows, and its number.
type Parts<'a> = (&'static str, [&'a str; 3], &'static str, u64);

fn parts_of(command: Command<'_>) -> Parts<'_> {
    match command {
        Command::Check { packages, input } => ("check", [packages, input, ""], "", 0),
        Command::Info {
            packages,
            input,
            sections,
        } => ("info", [packages, input, ""], letters(sections), 0),
        Command::Uses { packages, input } => ("uses", [packages, input, ""], "", 0),
        Command::Readable { packages, input } => ("readable", [packages, input, ""], "", 0),
        Command::Link { packages, file } => ("link", [packages, file, ""], "", 0),
        Command::Minimise { packages, input } => ("minimise", [packages, input, ""], "", 0),
        Command::Sample { count } => ("sample", [""; 3], "", count),
        Command::SampleArticle { count } => ("sample article", [""; 3], "", count),
        Command::Read {
            packages,
            input,
            text,
        } => ("read", [packages, input, text], "", 0),
        Command::Prove { packages, input } => ("prove", [packages, input, ""], "", 0),
        Command::Verify { log } => ("verify", [log, "", ""], "", 0),
        Command::Find {
            packages,
            pattern,
            input,
        } => ("find", [packages, pattern, input], "", 0),
    }
}

fn says(command: Command<'_>, wanted: &str) -> bool {
    let (word, texts, sections, _) = parts_of(command);
    let mut parts = wanted.split('|');
    if parts.next() != Some(word) {
        return false;
    }
    for text in texts {
        if parts.next() != Some(text) {
            return false;
        }
    }
    parts.next().unwrap_or("") == sections && parts.next().is_none()
}

#[test]
fn lines(rt: HostRuntime) -> Result<(), Fail> {
    for row in COMMANDS.lines() {
        let (line, wanted) = row.split_once(" => ").unwrap_or((row, ""));
        let words = owned(rt.alloc(), line)?;
        match Command::read(&words) {
            Ok(found) => assert!(rt; says(found, wanted), "{row}"),
            Err(_) => assert!(rt; false, "{row}"),
        }
    }
    Ok(())
}

#[test]
fn samples(rt: HostRuntime) -> Result<(), Fail> {
    for (line, word, count) in SAMPLES {
        let words = owned(rt.alloc(), line)?;
        match Command::read(&words) {
            Ok(found) => assert!(rt; parts_of(found) == (*word, [""; 3], "", *count), "{line}"),
            Err(_) => assert!(rt; false, "{line}"),
        }
    }
    Ok(())
}

#[test]
fn refused(rt: HostRuntime) -> Result<(), Fail> {
    let none = Vec::new(rt.alloc());
    assert!(rt; Command::read(&none).is_err());
    for line in REFUSED.lines() {
        let words = owned(rt.alloc(), line)?;
        assert!(rt; Command::read(&words).is_err(), "{line}");
    }
    Ok(())
}

#[test]
fn theories(rt: HostRuntime) -> Result<(), Fail> {
    assert!(rt; is_theory("d/t.thy") && is_theory(".thy"));
    assert!(rt; !is_theory("t.thy.art") && !is_theory("thy") && !is_theory("-"));
    Ok(())
}
