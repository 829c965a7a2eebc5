//! Sources, sinks and files.
use crate::folder::{Entry, files_of};
use ot_io::{
    DirFiles, Failed, Files, MemFiles, MemSink, MemSource, OpenFault, Sink, Source, StdSink,
    StdSource, WriteFault, write_whole,
};
use std::io;
use std::io::{ErrorKind, Read, Write};
use std::process::Abort;
use std::test::Fail;

const ARTICLE: &[u8] = b"6\nversion\n\"p\"\n\"bool\"\ntypeOp\nnil\nopType\nvar\nvarTerm\n0\ndef\n";

const SUMMARY: &[u8] = b"accepted: 1 theorems, 0 assumptions, 0 definitions\n";

#[test]
fn writes_up_to_a_fault(rt: HostRuntime) -> Result<(), Fail> {
    // Room, bytes a call, the call that fails, the answer, and how many bytes stand.
    let cases = [
        (64, 10, 3, Err(WriteFault), 20),
        (64, 10, 7, Ok(()), 51),
        (12, 64, 7, Err(WriteFault), 12),
        (64, 64, 1, Err(WriteFault), 0),
    ];
    for (room, piece, call, answer, count) in cases {
        let fail = Vec::from_slice(rt.alloc(), &[call])?;
        let mut sink = MemSink::new(rt.alloc(), room, piece, fail)?;
        assert!(rt; write_whole(&mut sink, SUMMARY) == answer);
        assert!(rt; sink.text() == &SUMMARY[..count]);
    }
    Ok(())
}

#[test]
fn flushes_but_at_a_listed_call(rt: HostRuntime) -> Result<(), Fail> {
    let fail = Vec::from_slice(rt.alloc(), &[2])?;
    let mut sink = MemSink::new(rt.alloc(), 64, 64, fail)?;
    assert!(rt; write_whole(&mut sink, SUMMARY) == Ok(()));
    assert!(rt; sink.flush() == Err(Failed));
    assert!(rt; sink.flush() == Ok(()));
    assert!(rt; sink.text() == SUMMARY);
    Ok(())
}

#[test]
fn reads_on_after_a_fault(rt: HostRuntime) -> Result<(), Fail> {
    let bytes = Vec::from_slice(rt.alloc(), ARTICLE)?;
    let fail = Vec::from_slice(rt.alloc(), &[36])?;
    let mut source = MemSource::new(bytes, 1, fail);
    let mut buffer = [0; 8];
    for byte in &ARTICLE[..35] {
        assert!(rt; source.read(&mut buffer) == Ok(1));
        assert!(rt; buffer[0] == *byte);
    }
    assert!(rt; source.read(&mut buffer) == Err(Failed));
    assert!(rt; source.read(&mut buffer) == Ok(1));
    assert!(rt; buffer[0] == ARTICLE[35]);
    Ok(())
}

const FILES: [Entry; 2] = [("a.art", b"nil", b""), ("b.art", b"pop", b"")];

fn check_files(rt: &impl Abort, files: &mut MemFiles) {
    let mut buffer = [0; 8];
    assert!(rt; files.open_file("c.art") == Err(OpenFault::Missing));
    assert!(rt; files.open_file("b.art") == Ok(()));
    assert!(rt; files.open_file("a.art") == Err(OpenFault::Failed));
    assert!(rt; files.read(&mut buffer) == Ok(0));
    assert!(rt; files.open_file("b.art") == Ok(()));
    assert!(rt; files.read(&mut buffer) == Ok(2));
    assert!(rt; &buffer[..2] == b"po".as_slice());
    files.close();
    assert!(rt; files.read(&mut buffer) == Ok(0));
}

#[test]
fn opens_files_in_memory(rt: HostRuntime) -> Result<(), Fail> {
    let fail = Vec::from_slice(rt.alloc(), &[3])?;
    let files = files_of(rt.alloc(), &FILES)?;
    let mut files = MemFiles::new(files, 2, fail);
    check_files(&rt, &mut files);
    Ok(())
}

/// A device that always fails.
#[derive(Drop)]
struct Broken;

impl Read for Broken {
    fn read(&mut self, _buf: &mut [u8]) -> io::Result<usize> {
        Err(io::Error::from(ErrorKind::Other))
    }
}

impl Write for Broken {
    fn write(&mut self, _piece: &[u8]) -> io::Result<usize> {
        Err(io::Error::from(ErrorKind::Other))
    }

    fn flush(&mut self) -> io::Result<()> {
        Err(io::Error::from(ErrorKind::Other))
    }
}

#[test]
fn passes_on_what_readers_and_writers_do(rt: HostRuntime) -> Result<(), Fail> {
    let mut buffer = [0; 8];
    let mut source = StdSource::new(b"nil\n".as_slice());
    assert!(rt; Source::read(&mut source, &mut buffer) == Ok(4));
    assert!(rt; &buffer[..4] == b"nil\n".as_slice());
    assert!(rt; Source::read(&mut source, &mut buffer) == Ok(0));
    let mut sink = StdSink::new(Vec::new(rt.alloc()));
    assert!(rt; write_whole(&mut sink, SUMMARY) == Ok(()));
    assert!(rt; Sink::flush(&mut sink) == Ok(()));
    assert!(rt; Source::read(&mut StdSource::new(Broken), &mut buffer) == Err(Failed));
    assert!(rt; Sink::write(&mut StdSink::new(Broken), SUMMARY) == Err(Failed));
    assert!(rt; Sink::flush(&mut StdSink::new(Broken)) == Err(Failed));
    Ok(())
}

/// Opens a file and reads from it, over any files.
fn read_from<F: Files>(files: &mut F, path: &str, buffer: &mut [u8]) -> Result<usize, Failed> {
    match files.open_file(path) {
        Ok(()) => files.read(buffer),
        Err(_) => Err(Failed),
    }
}

#[test]
fn tells_missing_files_from_failures(rt: HostRuntime) -> Result<(), Fail> {
    let mut files = DirFiles::new(&rt);
    let mut buffer = [0; 8];
    let cases = [
        ("no such folder/a.art", Err(OpenFault::Missing)),
        ("/dev/null", Ok(())),
        ("/dev/null/a.art", Err(OpenFault::Failed)),
        ("a\0.art", Err(OpenFault::Failed)),
    ];
    for (path, answer) in cases {
        assert!(rt; files.open_file(path) == answer, "{path:?}");
        assert!(rt; Source::read(&mut files, &mut buffer) == Ok(0));
    }
    assert!(rt; files.open_file("/") == Ok(()));
    assert!(rt;
        Source::read(&mut files, &mut buffer) == Err(Failed),
        "a folder"
    );
    files.close();
    assert!(rt; Source::read(&mut files, &mut buffer) == Ok(0));
    buffer = [1; 8];
    assert!(rt; read_from(&mut files, "/dev/zero", &mut buffer) == Ok(8));
    assert!(rt; buffer == [0; 8]);
    Ok(())
}
