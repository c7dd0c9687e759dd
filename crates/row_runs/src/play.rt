//! Rows, one after another.
use crate::draft::{Draft, Series};
use crate::hosts::run_row;
use crate::ran::Ran;
use crate::row::Row;
use std::io;

/// Prints what a run wrote, and behind that how it ended, and which calls were noted. A text whose
/// last line has no line feed has `\` there.
fn print_ran(rt: &HostRuntime, ran: &Ran) -> io::Result<()> {
    let Ran { text, calls, .. } = ran;
    let end = if text.is_empty() || text.ends_with('\n') {
        ""
    } else {
        "\\\n"
    };
    let code = ran.status.code();
    print!(rt; "{text}{end}-- {code}\n{calls}")
}

/// Prints by which number a run was done.
fn print_number(rt: &HostRuntime, series: Series, number: usize) -> io::Result<()> {
    match series {
        Series::Once => Ok(()),
        Series::Pieces => println!(rt; "piece {number}"),
        Series::Fronts => println!(rt; "front {number}"),
        Series::Calls(_) => println!(rt; "call {number}"),
    }
}

/// The row's run in which no call fails, where the others are printed beside it; it is printed.
fn whole_run(rt: &HostRuntime, draft: &mut Draft) -> io::Result<Option<Box<Ran>>> {
    if !draft.is_beside_whole {
        return Ok(None);
    }
    let ran = run_row(rt, draft)?;
    print_ran(rt, &ran)?;
    Ok(Some(ran))
}

/// The row's run of this number, beside the whole one.
fn run_number(
    rt: &HostRuntime,
    row: &Row<'_>,
    number: usize,
    whole: Option<&Ran>,
) -> io::Result<Box<Ran>> {
    let mut draft = row.draft(rt)?;
    draft.set_number(number)?;
    let mut ran = run_row(rt, &mut draft)?;
    if let Some(whole) = whole {
        ran.shorten(rt.alloc(), whole.text.as_bytes())?;
    }
    Ok(ran)
}

/// Prints a run where it isn't as the one before, and by which number it was done.
fn print_news(
    rt: &HostRuntime,
    series: Series,
    number: usize,
    last: Option<&Ran>,
    ran: &Ran,
) -> io::Result<()> {
    if let Some(last) = last {
        if ran.is_as(last) {
            return Ok(());
        }
        print_number(rt, series, number)?;
    }
    print_ran(rt, ran)
}

/// Does the row's runs of these numbers, and prints the first, and each that isn't as the one
/// before.
fn play_numbers(
    rt: &HostRuntime,
    row: &Row<'_>,
    series: Series,
    numbers: &[usize],
    whole: Option<&Ran>,
) -> io::Result<()> {
    let mut last: Option<Box<Ran>> = None;
    for number in numbers {
        let ran = run_number(rt, row, *number, whole)?;
        print_news(rt, series, *number, last.as_deref().or(whole), &ran)?;
        last = Some(ran);
    }
    Ok(())
}

/// Prints how many lines of the row say nothing, if some do.
fn print_mute(rt: &HostRuntime, draft: &Draft) -> io::Result<()> {
    let mute = draft.mute;
    if mute > 0 {
        println!(rt; "{mute} lines say nothing")?;
    }
    Ok(())
}

/// Plays a row, if one began: prints its name, and then its runs.
fn play_row(rt: &HostRuntime, row: &Row<'_>) -> io::Result<()> {
    let Some(name) = row.name else {
        return Ok(());
    };
    let name = String::from_utf8_lossy(rt.alloc(), name)?;
    println!(rt; "== {name}")?;
    let mut draft = row.draft(rt)?;
    print_mute(rt, &draft)?;
    let numbers = draft.numbers()?;
    let whole = whole_run(rt, &mut draft)?;
    play_numbers(rt, row, draft.series, numbers.as_slice(), whole.as_deref())
}

/// Plays the rows of a text. A row begins with `== ` and its name, and one that varies the last of
/// these with `=> `; lines that begin with `;` are passed over.
pub(crate) fn play_rows(rt: &HostRuntime, text: &[u8]) -> io::Result<()> {
    let mut row = Row::new(rt.alloc());
    for line in text.split(|byte| *byte == b'\n') {
        match line {
            [] | [b';', ..] => {}
            [b'=', b'=', b' ', name @ ..] => {
                play_row(rt, &row)?;
                row.begin(name);
            }
            [b'=', b'>', b' ', name @ ..] => {
                play_row(rt, &row)?;
                row.vary(name);
            }
            _ => row.add(line)?,
        }
    }
    play_row(rt, &row)
}
