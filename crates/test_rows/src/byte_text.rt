//! Bytes as programs of tests show them.
use std::alloc::{AllocError, Global};
use std::fmt::Write;

/// Writes bytes. Those that are neither printable nor line feeds are shown by their numbers in
/// `<>`.
fn write_bytes(out: &mut String, bytes: &[u8]) -> Result<(), AllocError> {
    for byte in bytes {
        match byte {
            b' '..=b'~' | b'\n' => out.push(char::from(*byte))?,
            _ => write!(out, "<{byte}>")?,
        }
    }
    Ok(())
}

/// Bytes as they are shown.
pub fn shown(alloc: Global, bytes: &[u8]) -> Result<String, AllocError> {
    let mut out = String::new(alloc);
    write_bytes(&mut out, bytes)?;
    Ok(out)
}

/// Bytes as they are shown, with `@` at this place, or at their end where they are shorter.
pub fn marked(alloc: Global, bytes: &[u8], place: usize) -> Result<String, AllocError> {
    let (front, rest) = bytes.split_at(place.min(bytes.len()));
    let mut out = String::new(alloc);
    write_bytes(&mut out, front)?;
    out.push('@')?;
    write_bytes(&mut out, rest)?;
    Ok(out)
}
