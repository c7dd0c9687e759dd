//! Rows, one after another.
use crate::draft::Draft;
use crate::out::Out;
use std::alloc::AllocError;
use std::io;

/// Prints bytes as they are.
fn print_line(rt: &HostRuntime, line: &[u8]) -> io::Result<()> {
    let text = String::from_utf8_lossy(rt.alloc(), line)?;
    println!(rt; "{text}")
}

/// What is due of the open row, which ends.
fn close(rt: &HostRuntime, draft: &mut Draft, before: &str) -> io::Result<()> {
    let mut out = Out::new(rt.alloc());
    draft.close(&mut out);
    match out.whole() {
        Some(due) => println!(rt; "{before}{due}"),
        None => Err(io::Error::from(AllocError)),
    }
}

/// Prints what is due of the open row, if one is open.
fn print_open(rt: &HostRuntime, draft: &mut Draft) -> io::Result<()> {
    if draft.is_open() {
        close(rt, draft, "")
    } else {
        Ok(())
    }
}

/// Prints a short row, which is one line: itself, and behind `=>` what is due.
fn print_short(rt: &HostRuntime, draft: &mut Draft, line: &[u8]) -> io::Result<()> {
    let name = String::from_utf8_lossy(rt.alloc(), line)?;
    draft.take_short(line)?;
    print!(rt; "> {name} =>")?;
    close(rt, draft, " ")
}

/// Plays a line. `# ` begins a section, `== ` a row with its name, and `>` a short row; lines that
/// begin with `;` are passed over.
fn play_line(rt: &HostRuntime, draft: &mut Draft, line: &[u8]) -> io::Result<()> {
    match line {
        [] | [b';', ..] => Ok(()),
        [b'#', b' ', kind @ ..] => {
            print_open(rt, draft)?;
            draft.begin(kind)?;
            print_line(rt, line)
        }
        [b'=', b'=', b' ', ..] => {
            print_open(rt, draft)?;
            draft.open();
            print_line(rt, line)
        }
        [b'>', b' ', text @ ..] | [b'>', text @ ..] => {
            print_open(rt, draft)?;
            print_short(rt, draft, text)
        }
        _ => {
            if draft.take(line)? {
                Ok(())
            } else {
                println!(rt; "a line that says nothing")
            }
        }
    }
}

/// Plays the lines of a file, and ends its last row.
fn play_lines(rt: &HostRuntime, draft: &mut Draft, text: &[u8]) -> io::Result<()> {
    for line in text.split(|byte| *byte == b'\n') {
        play_line(rt, draft, line)?;
    }
    print_open(rt, draft)
}

/// Plays the rows of a file.
pub(crate) fn play_rows(rt: &HostRuntime, text: &[u8]) -> io::Result<()> {
    let mut draft = Draft::new(rt.alloc());
    play_lines(rt, &mut draft, text)
}
