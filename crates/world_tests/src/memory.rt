//! Files, a sink and a source in memory.
ghost use Rattle.std.specs.Prelude.{◌<◌, length};

use crate::reads::{gives, refuses};
use io_world::{
    FileFault, MemFiles, MemSink, MemSource, Sink, SinkFault, Source, SourceFault, SureFiles,
    SureSink, write_all,
};
use std::alloc::{AllocError, Global};
use std::process::Abort;
use std::test::Fail;

/// A file's path and its bytes.
type File = (String, Vec<u8>);

fn file(alloc: Global, path: &str, text: &str) -> Result<File, AllocError> {
    let bytes = Vec::from_slice(alloc, text.as_bytes())?;
    Ok((String::from_str(alloc, path)?, bytes))
}

/// Two files, and another one with the path of the first.
fn two_files(alloc: Global) -> Result<Vec<File>, AllocError> {
    let mut files = Vec::new(alloc);
    for (path, text) in [("a", "one"), ("b", ""), ("a", "two")] {
        files.push(file(alloc, path, text)?)?;
    }
    Ok(files)
}

#[test]
fn files_answer_by_path_and_length(rt: HostRuntime) -> Result<(), Fail> {
    let alloc = rt.alloc();
    let mut files = MemFiles::new(alloc, two_files(alloc)?, vec![in alloc; 4]?);
    gives(&rt, &mut files, "a", 3, b"one", 0);
    gives(&rt, &mut files, "b", 0, b"", 0);
    refuses(&rt, &mut files, "a", 2, FileFault::TooLong, 0);
    refuses(&rt, &mut files, "c", 9, FileFault::Failed, 1);
    refuses(&rt, &mut files, "a", 9, FileFault::Failed, 2);
    gives(&rt, &mut files, "a", 9, b"one", 2);
    Ok(())
}

#[test]
fn sure_files_have_every_path(rt: HostRuntime) -> Result<(), Fail> {
    let alloc = rt.alloc();
    let mut files = SureFiles::new(alloc, two_files(alloc)?);
    gives(&rt, &mut files, "a", 3, b"one", 0);
    gives(&rt, &mut files, "c", 0, b"", 0);
    refuses(&rt, &mut files, "a", 2, FileFault::TooLong, 0);
    Ok(())
}

/// Asserts what a write is answered, and how many faults there were so far.
fn takes(
    rt: &impl Abort,
    sink: &mut impl Sink,
    bytes: &[u8],
    want: Result<usize, SinkFault>,
    faults: u64,
)
    requires { 0 < length bytes.now }
{
    assert_eq!(rt; sink.write(bytes), want);
    assert_eq!(rt; sink.faults(), faults);
}

#[test]
fn sink_takes_pieces_until_it_is_full(rt: HostRuntime) -> Result<(), Fail> {
    let alloc = rt.alloc();
    let mut sink = MemSink::new(alloc, 2, 5, vec![in alloc; 1]?)?;
    takes(&rt, &mut sink, b"abc", Ok(2), 0);
    takes(&rt, &mut sink, b"c", Err(SinkFault::Failed), 1);
    takes(&rt, &mut sink, b"cd", Ok(2), 1);
    takes(&rt, &mut sink, b"ef", Ok(1), 1);
    takes(&rt, &mut sink, b"f", Err(SinkFault::Failed), 2);
    assert_eq!(rt; sink.taken(), b"abcde".as_slice());
    Ok(())
}

#[test]
fn whole_writes_go_on_after_each_piece(rt: HostRuntime) -> Result<(), Fail> {
    let alloc = rt.alloc();
    let mut sink = MemSink::new(alloc, 3, 10, vec![in alloc; 5]?)?;
    assert_eq!(rt; write_all(&mut sink, b"goal\n"), Ok(()));
    assert_eq!(rt; write_all(&mut sink, b""), Ok(()));
    assert_eq!(rt;
        write_all(&mut sink, b"plan 7 goes on"),
        Err(SinkFault::Failed)
    );
    assert_eq!(rt; sink.taken(), b"goal\nplan ".as_slice());
    assert_eq!(rt; write_all(&mut SureSink::new(), b"goal"), Ok(()));
    Ok(())
}

/// Asserts that a read into a room of three bytes gives these.
fn pours(rt: &impl Abort, source: &mut impl Source, want: &[u8]) {
    let mut room = [0; 3];
    assert_eq!(rt; source.read(&mut room), Ok(want.len()));
    assert_eq!(rt; room.get(..want.len()), Some(want));
}

#[test]
fn source_gives_pieces_until_its_end(rt: HostRuntime) -> Result<(), Fail> {
    let alloc = rt.alloc();
    let cuts = vec![in alloc; 1, 0, 2]?;
    let fails = vec![in alloc; 2]?;
    let mut source = MemSource::new(Vec::from_slice(alloc, b"abcdefgh")?, cuts, fails);
    pours(&rt, &mut source, b"a");
    pours(&rt, &mut source, b"bcd");
    assert_eq!(rt; source.read(&mut [0; 3]), Err(SourceFault::Failed));
    assert_eq!(rt; source.faults(), 1);
    pours(&rt, &mut source, b"efg");
    pours(&rt, &mut source, b"h");
    pours(&rt, &mut source, b"");
    pours(&rt, &mut source, b"");
    Ok(())
}
