//! The adapters, on the file system, on standard output and on readers that are interrupted.
use crate::reads::{is_read, refuses};
use io_world::{
    FileFault, Files, RealFiles, RealSink, RealSource, Sink, Source, SourceFault, read_some,
    write_all,
};
use std::io::{BufRead, ErrorKind, Lines, Read};
use std::test::Fail;
use std::{env, fs, io, process};

#[test]
fn real_files_are_read_whole_or_refused(rt: HostRuntime) -> Result<(), Fail> {
    let alloc = rt.alloc();
    let number = process::id(rt.process());
    let path = format!(in alloc; "/tmp/lidcliff-io-{number}")?;
    fs::write(&rt, path.as_str(), "five\n")?;
    let mut files = RealFiles::new(alloc, &rt);
    let whole = is_read(&mut files, path.as_str(), 5, b"five\n");
    let long = is_read(&mut files, path.as_str(), 4, b"");
    fs::remove_file(&rt, path.as_str())?;
    assert_eq!(rt; whole, Ok(true));
    assert_eq!(rt; long, Err(FileFault::TooLong));
    assert_eq!(rt; files.faults(), 0);
    refuses(&rt, &mut files, path.as_str(), 5, FileFault::Failed, 1);
    Ok(())
}

#[test]
fn a_directory_is_no_file(rt: HostRuntime) -> Result<(), Fail> {
    let mut files = RealFiles::new(rt.alloc(), &rt);
    refuses(&rt, &mut files, "/tmp", 5, FileFault::Failed, 1);
    Ok(())
}

#[test]
fn a_file_without_end_is_too_long(rt: HostRuntime) -> Result<(), Fail> {
    let mut files = RealFiles::new(rt.alloc(), &rt);
    refuses(&rt, &mut files, "/dev/zero", 10_000, FileFault::TooLong, 0);
    Ok(())
}

#[test]
fn standard_output_takes_bytes(rt: HostRuntime) -> Result<(), Fail> {
    let mut out = RealSink::new(&rt);
    assert_eq!(rt; write_all(&mut out, b"goal\n"), Ok(()));
    assert_eq!(rt; out.faults(), 0);
    Ok(())
}

/// A reader that is interrupted, gives one byte, and fails from then on.
#[derive(Drop)]
struct Shaky {
    step: u8,
}

impl Read for Shaky {
    fn read(&mut self, buf: &mut [u8]) -> io::Result<usize> {
        self.step = self.step.saturating_add(1);
        if self.step == 1 || buf.is_empty() {
            return Err(io::Error::from(ErrorKind::Interrupted));
        }
        if self.step > 2 {
            return Err(io::Error::from(ErrorKind::BrokenPipe));
        }
        buf[0] = b'x';
        Ok(1)
    }
}

#[test]
fn an_interrupted_read_is_done_again(rt: HostRuntime) -> Result<(), Fail> {
    let mut reader = Shaky { step: 0 };
    let mut room = [0; 2];
    assert_eq!(rt; read_some(&mut reader, &mut room), Some(1));
    assert_eq!(rt; room[0], b'x');
    assert_eq!(rt; read_some(&mut reader, &mut room), None);
    Ok(())
}

/// A runtime whose standard input is stated.
#[derive(Drop)]
struct Typed;

impl Input for Typed {
    type Reader = &'static [u8];

    fn read_line<A: std::alloc::Allocator + Clone>(
        &self,
        buf: &mut String<A>,
    ) -> io::Result<usize> {
        self.reader().read_line(buf)
    }

    fn lines<A: std::alloc::Allocator>(&self, alloc: A) -> Lines<&'static [u8], A> {
        self.reader().lines(alloc)
    }

    fn reader(&self) -> &'static [u8] {
        b"next"
    }
}

#[test]
fn standard_input_is_read_to_its_end(rt: HostRuntime) -> Result<(), Fail> {
    let typed = Typed;
    let mut source = RealSource::new(&typed);
    let mut room = [0; 3];
    assert_eq!(rt; source.read(&mut room), Ok(3));
    assert_eq!(rt; &room, b"nex");
    assert_eq!(rt; source.read(&mut room), Ok(1));
    assert_eq!(rt; source.read(&mut room), Ok(0));
    assert_eq!(rt; source.faults(), 0);
    Ok(())
}
