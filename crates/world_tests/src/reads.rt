//! Reads of files, asserted.
use io_world::{FileFault, Files};
use std::process::Abort;

/// Whether a read gives these bytes; or its fault.
pub fn is_read(
    files: &mut impl Files,
    path: &str,
    most: usize,
    want: &[u8],
) -> Result<bool, FileFault> {
    let bytes = files.read(path, most)?;
    Ok(bytes.as_slice() == want)
}

/// Asserts that a read gives these bytes, and how many faults there were so far.
pub fn gives(
    rt: &impl Abort,
    files: &mut impl Files,
    path: &str,
    most: usize,
    want: &[u8],
    faults: u64,
) {
    assert_eq!(rt; is_read(files, path, most, want), Ok(true));
    assert_eq!(rt; files.faults(), faults);
}

/// Asserts that a read is refused by this fault, and how many faults there were so far.
pub fn refuses(
    rt: &impl Abort,
    files: &mut impl Files,
    path: &str,
    most: usize,
    fault: FileFault,
    faults: u64,
) {
    assert_eq!(rt; is_read(files, path, most, b""), Err(fault));
    assert_eq!(rt; files.faults(), faults);
}
