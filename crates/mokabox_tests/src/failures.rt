//! Readers and writers that fail, and lines that the program prints only without memory.
use moka::PredicateError;
use moka::policy::Refused;
use mokabox_interpreter::program::run_program;
use mokabox_interpreter::script::Status;
use mokabox_syntax::output_line::{OutputLine, write_line};
use std::alloc::Global;
use std::io::{BufReader, BufWriter, Error, ErrorKind, Read, Write};
use std::test::Fail;
use std::{fs, io};

/// A reader whose reads fail.
#[derive(Clone, Copy)]
struct Broken;

impl Read for Broken {
    fn read(&mut self, _buf: &mut [u8]) -> io::Result<usize> {
        Err(Error::from(ErrorKind::Other))
    }
}

/// A writer that takes so many bytes. Then a write and a flush fail.
#[derive(Drop)]
pub(crate) struct Sink {
    pub(crate) taken: Vec<u8>,
    room: usize,
}

impl Sink {
    pub(crate) fn new(alloc: Global, room: usize) -> Self {
        let taken = Vec::new(alloc);
        Sink { taken, room }
    }
}

impl Write for Sink {
    fn write(&mut self, buf: &[u8]) -> io::Result<usize> {
        self.flush()?;
        let length = self.room.min(buf.len());
        self.taken.extend_from_slice(&buf[..length])?;
        self.room -= length;
        Ok(length)
    }

    fn flush(&mut self) -> io::Result<()> {
        match self.room {
            0 => Err(Error::from(ErrorKind::Other)),
            _ => Ok(()),
        }
    }
}

// A writer that is full fails the run, at a write or when it is flushed, and so does a full device.
#[test]
fn a_writer_that_is_full_fails_the_run(rt: HostRuntime) -> Result<(), Fail> {
    let usage = [String::from_str(rt.alloc(), "threads")?];
    for (arguments, script, wanted) in [
        ([].as_slice(), "", ""),
        (&[], "new", "ok\n"),
        (&[], "new\ninsert 1 a\nget 1\n", "ok\nok\nsome a\n"),
        (&[], "new\nhas 2\n", "ok\nfalse\n"),
        (&[], "new\nnew\n", "ok\nbad line\n"),
        (&[], "\n", "bad line\n"),
        (&usage, "", "usage: mokabox [threads N]\n"),
    ] {
        let (script, wanted) = (script.as_bytes(), wanted.as_bytes());
        for room in 0..=wanted.len() {
            let mut sink = Sink::new(rt.alloc(), room);
            let status = run_program(rt.alloc(), arguments, script, &mut sink, &mut io::sink());
            assert_eq!(rt; status.code(), 1, "of {script:?} with room for {room}");
            assert_eq!(rt; sink.taken.as_slice(), &wanted[..room]);
        }
    }
    let mut device = BufWriter::new(rt.alloc(), fs::create(&rt, "/dev/full")?)?;
    let script = b"new\n".as_slice();
    let status = run_program(rt.alloc(), &[], script, &mut device, &mut io::sink());
    assert_eq!(rt; status, Status::Failed);
    Ok(())
}

// A reader that fails fails the run, after the lines that were read. Arguments are answered before
// anything is read.
#[test]
fn a_broken_reader_fails_the_run(rt: HostRuntime) -> Result<(), Fail> {
    for (script, wanted, status) in [
        ("", "", Status::Failed),
        ("ne", "", Status::Failed),
        ("new\n", "ok\n", Status::Failed),
        ("new\ninsert 1 a\nget 1", "ok\nok\n", Status::Failed),
        ("new\nget 1\nget 1\n", "ok\nnone\nnone\n", Status::Failed),
        ("new\n\n", "ok\nbad line\n", Status::Failed),
        // A bad first line ends the run at once.
        ("\n", "bad line\n", Status::Bad),
        ("new new\n", "bad line\n", Status::Bad),
    ] {
        for piece in [1, 7, 4096] {
            let rest = script.as_bytes().chain(Broken);
            let reader = BufReader::with_capacity(rt.alloc(), piece, rest)?;
            let mut printed = Vec::new(rt.alloc());
            let ended = run_program(rt.alloc(), &[], reader, &mut printed, &mut io::sink());
            assert_eq!(rt; ended, status, "of {script:?} in pieces of {piece}");
            assert_eq!(rt; printed.as_slice(), wanted.as_bytes(), "of {script:?}");
        }
    }
    for (word, code) in [("threads", 2), ("--help", 0), ("--version", 0)] {
        let arguments = [String::from_str(rt.alloc(), word)?];
        let reader = BufReader::new(rt.alloc(), Broken)?;
        let (printed, reports) = (&mut io::sink(), &mut io::sink());
        let ended = run_program(rt.alloc(), &arguments, reader, printed, reports);
        assert_eq!(rt; ended.code(), code, "of {word}");
    }
    Ok(())
}

// A report that cannot be written changes neither what is printed nor the status.
#[test]
fn a_report_that_cannot_be_written_is_dropped(rt: HostRuntime) -> Result<(), Fail> {
    for room in [0, 10] {
        let (mut printed, mut reports) = (Vec::new(rt.alloc()), Sink::new(rt.alloc(), room));
        let script = b"new\nnew\nhas 1\nnew\n".as_slice();
        let status = run_program(rt.alloc(), &[], script, &mut printed, &mut reports);
        let wanted = b"ok\nbad line\nfalse\nbad line\n".as_slice();
        assert_eq!(rt; (status, printed.as_slice()), (Status::Bad, wanted));
        assert_eq!(rt; reports.taken.len(), room);
    }
    Ok(())
}

// What the program prints only where memory is refused, and what it never prints, has its line.
#[test]
fn refusals_have_their_lines(rt: HostRuntime) -> Result<(), Fail> {
    let mut written = Vec::new(rt.alloc());
    for output in [
        OutputLine::Refused(Refused::OutOfMemory),
        OutputLine::Refused(Refused::TurnIsOpen),
        OutputLine::NotHidden(PredicateError::OutOfMemory),
    ] {
        write_line(&mut written, &output)?;
    }
    assert_eq!(rt;
        written.as_slice(),
        b"refused 1\nrefused 5\nerror 2\n".as_slice()
    );
    Ok(())
}
