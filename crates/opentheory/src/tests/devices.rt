//! The program over devices in memory, and what it answers.
ghost use Rattle.std.specs.Prelude.{◌≡◌, ◌≤◌, ◌++◌, map, IsTrue, IfOk};
ghost use Rattle.ot_io.specs.Folder.{has_distinct_paths};
ghost use Rattle.ot_io.specs.FileList.{folder_of};

use super::theories::Entry;
use ot_io::{MemFiles, MemSink, MemSource};
use ot_program::{Status, run};
use std::alloc::Global;
use std::test::Fail;

/// What the program answers: its status, and what stands on both sinks.
#[derive(Drop)]
pub struct Answer {
    pub status: Status,
    pub out: Vec<u8>,
    pub err: Vec<u8>,
}

impl Answer {
    /// Whether the status is this, and this text stands on the sink that belongs to it, and nothing on the other.
    pub fn is(&self, status: Status, text: &[u8]) -> bool {
        if self.status == Status::Accepted {
            self.stands(status, text, b"")
        } else {
            self.stands(status, b"", text)
        }
    }

    /// Whether the status is this, and these texts stand on the sinks.
    pub fn stands(&self, status: Status, out: &[u8], err: &[u8]) -> bool {
        self.status == status && self.out.as_slice() == out && self.err.as_slice() == err
    }
}

/// Objects in memory: the bytes of a call and the call that fails, for the input and the file, and for both sinks.
#[derive(Clone, Copy)]
pub struct Outside {
    pub read: (usize, u64),
    pub write: (usize, u64),
    pub say: (usize, u64),
}

/// The most bytes that a sink in memory takes.
const ROOM: usize = 262_144;

/// Large pieces, and no call that fails.
pub const FINE: Outside = Outside {
    read: (65536, 0),
    write: (65536, 0),
    say: (1024, 0),
};

/// Runs the program on these words, where the article stands on the input, and in the one file, `a.art`.
pub fn answered(
    alloc: Global,
    words: &[&str],
    article: &[u8],
    outside: Outside,
) -> Result<Answer, Fail>
    requires read { 1 ≤ outside.read.0 }
    requires write { 1 ≤ outside.write.0 }
    requires say { 1 ≤ outside.say.0 }
{
    let files = one_file(alloc, "a.art", article)?;
    answered_over(alloc, words, files, article, outside)
}

/// Whether the program answers these words over an article so.
pub fn answers(
    alloc: Global,
    words: &[&str],
    article: &[u8],
    status: Status,
    text: &[u8],
) -> Result<bool, Fail> {
    let answer = answered(alloc, words, article, FINE)?;
    Ok(answer.is(status, text))
}

/// One file with this path and these bytes.
pub fn one_file(alloc: Global, path: &str, bytes: &[u8]) -> Result<Vec<(String, Vec<u8>)>, Fail>
    ensures { IfOk result (λ files. IsTrue (has_distinct_paths (folder_of files.items))) }
{
    let mut files = Vec::new(alloc);
    files.push((
        String::from_str(alloc, path)?,
        Vec::from_slice(alloc, bytes)?,
    ))?;
    Ok(files)
}

/// Runs the program on these words over these files, with an article on the input.
pub fn answered_over(
    alloc: Global,
    words: &[&str],
    files: Vec<(String, Vec<u8>)>,
    article: &[u8],
    outside: Outside,
) -> Result<Answer, Fail>
    requires paths { IsTrue (has_distinct_paths (folder_of files.items)) }
    requires read { 1 ≤ outside.read.0 }
    requires write { 1 ≤ outside.write.0 }
    requires say { 1 ≤ outside.say.0 }
{
    let mut devices = devices_of(alloc, files, article, outside)?;
    answered_on(alloc, words, &mut devices)
}

/// The devices of a run. They have an owner of their own, so that no refusal in a run has to drop them.
#[derive(Drop)]
struct Devices {
    files: MemFiles,
    input: MemSource,
    out: MemSink,
    err: MemSink,
}

fn devices_of(
    alloc: Global,
    files: Vec<(String, Vec<u8>)>,
    article: &[u8],
    outside: Outside,
) -> Result<Devices, Fail>
    requires paths { IsTrue (has_distinct_paths (folder_of files.items)) }
    requires read { 1 ≤ outside.read.0 }
    requires write { 1 ≤ outside.write.0 }
    requires say { 1 ≤ outside.say.0 }
{
    let fail = Vec::from_slice(alloc, &[outside.read.1])?;
    let files = MemFiles::new(files, outside.read.0, fail);
    let input = source(alloc, article, outside.read)?;
    let out = sink(alloc, outside.write)?;
    let err = sink(alloc, outside.say)?;
    Ok(Devices {
        files,
        input,
        out,
        err,
    })
}

fn answered_on(alloc: Global, words: &[&str], devices: &mut Devices) -> Result<Answer, Fail> {
    let words = texts_of(alloc, words)?;
    let status = status_on(alloc, &words, devices);
    answer_of(alloc, status, devices.out.text(), devices.err.text())
}

fn texts_of(alloc: Global, words: &[&str]) -> Result<Vec<String>, Fail> {
    let mut texts = Vec::new(alloc);
    for word in words {
        texts.push(String::from_str(alloc, word)?)?;
    }
    Ok(texts)
}

fn status_on(alloc: Global, words: &[String], devices: &mut Devices) -> Status {
    run(
        alloc,
        words,
        &mut devices.files,
        &mut devices.input,
        &mut devices.out,
        &mut devices.err,
    )
}

fn answer_of(alloc: Global, status: Status, out: &[u8], err: &[u8]) -> Result<Answer, Fail> {
    let out = Vec::from_slice(alloc, out)?;
    let err = Vec::from_slice(alloc, err)?;
    Ok(Answer { status, out, err })
}

/// The files of a table; each has its text in two parts.
pub fn files_of(alloc: Global, entries: &[Entry]) -> Result<Vec<(String, Vec<u8>)>, Fail>
    ensures { IfOk result (λ files. folder_of files.items ≡ map (λ e. (e.0.now, e.1.now ++ e.2.now)) entries.now) }
{
    let mut files = Vec::new(alloc);
    'each: for (path, start, end) in entries {
        let path = String::from_str(alloc, path)?;
        let mut bytes = Vec::from_slice(alloc, start)?;
        bytes.extend_from_slice(end)?;
        files.push((path, bytes))?;
    }
    Ok(files)
}

/// Runs the program on these words over the files of a table, and compares the status and what it says. The call of
/// this number fails.
pub fn says(
    alloc: Global,
    words: &[&str],
    entries: &[Entry],
    fail: u64,
    status: Status,
    text: &[u8],
) -> Result<bool, Fail>
    requires { IsTrue (has_distinct_paths (map (λ e. (e.0.now, e.1.now ++ e.2.now)) entries.now)) }
{
    let answer = answered_in(alloc, words, entries, fail)?;
    Ok(answer.is(status, text))
}

/// Runs the program so.
pub fn answered_in(
    alloc: Global,
    words: &[&str],
    entries: &[Entry],
    fail: u64,
) -> Result<Answer, Fail>
    requires { IsTrue (has_distinct_paths (map (λ e. (e.0.now, e.1.now ++ e.2.now)) entries.now)) }
{
    let files = files_of(alloc, entries)?;
    let outside = Outside {
        read: (65536, fail),
        ..FINE
    };
    answered_over(alloc, words, files, b"", outside)
}

fn source(alloc: Global, article: &[u8], calls: (usize, u64)) -> Result<MemSource, Fail>
    requires { 1 ≤ calls.0 }
{
    Ok(MemSource::new(
        Vec::from_slice(alloc, article)?,
        calls.0,
        Vec::from_slice(alloc, &[calls.1])?,
    ))
}

fn sink(alloc: Global, calls: (usize, u64)) -> Result<MemSink, Fail>
    requires { 1 ≤ calls.0 }
{
    Ok(MemSink::new(alloc, ROOM, calls.0, Vec::from_slice(alloc, &[calls.1])?)?)
}

/// Adds the lines of a text that has a space for the end of a line, and a newline behind the last.
pub fn add_lines(article: &mut Vec<u8>, text: &[u8]) -> Result<(), Fail> {
    for byte in text {
        article.push(if *byte == b' ' { b'\n' } else { *byte })?;
    }
    article.push(b'\n')?;
    Ok(())
}

/// The lines of all parts.
pub fn joined(alloc: Global, parts: &[&[u8]]) -> Result<Vec<u8>, Fail> {
    let mut article = Vec::new(alloc);
    for part in parts {
        add_lines(&mut article, part)?;
    }
    Ok(article)
}
