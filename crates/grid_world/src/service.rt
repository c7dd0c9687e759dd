//! All that the program does.
ghost use Rattle.std.specs.Prelude.{map, string_bytes};
ghost use Rattle.grid_world.specs.Serving.{AnswersLines, HasFaults, Serves};

use crate::answer_line::answer_line;
use crate::held::{Filled, Held};
use crate::status::GridStatus;
use grid_text::{Grid, GridFault, read_grid};
use io_world::{FileFault, Files, Sink, Source, write_all};
use std::alloc::Global;

/// The most bytes of a grid file: 4 MiB.
const GRID_BYTES: usize = 4_194_304;

/// How many lines are answered at most.
pub const MOST_LINES: usize = 100_000;

/// Reads the grid at the one path that the words are, and then answers each line of the source by
/// one line, written at once, until the source ends or 100,000 lines were answered. Bytes behind
/// the last line feed are no line.
pub fn serve<F: Files, S: Source, O: Sink>(
    alloc: Global,
    words: &[String],
    files: &mut F,
    source: &mut S,
    out: &mut O,
) -> GridStatus
    // By the words, what the read of the file answered, the file's bytes, and how the answers
    // ended.
    ensures { Serves (record {
      told = F.told files.old;
      asked_old = F.asked files.old;
      asked_new = F.asked files.new;
      files_old = F.faults files.old;
      files_new = F.faults files.new;
      source_old = S.faults source.old;
      source_new = S.faults source.new;
      sink_old = O.faults out.old;
      sink_new = O.faults out.new;
      before = S.left source.old;
      after = S.left source.new;
      old = O.taken out.old;
      new = O.taken out.new;
    }) (map string_bytes words.now) result }
{
    let [path] = words else {
        return GridStatus::Usage;
    };
    let bytes = match files.read(path.as_str(), GRID_BYTES) {
        Ok(bytes) => bytes,
        Err(FileFault::Failed) => return GridStatus::ReadFault,
        Err(FileFault::TooLong) => return GridStatus::ReadFault,
        Err(FileFault::Memory) => return GridStatus::Memory,
    };
    match read_grid(alloc, &bytes) {
        Ok(grid) => serve_lines(alloc, &grid, source, out),
        Err(GridFault::At { .. }) => GridStatus::Input,
        Err(GridFault::Memory) => GridStatus::Memory,
    }
}

/// Answers the lines of a source.
fn serve_lines<S: Source, O: Sink>(
    alloc: Global,
    grid: &Grid,
    source: &mut S,
    out: &mut O,
) -> GridStatus
    ensures answers { AnswersLines grid.now (S.left source.old) (S.left source.new)
        (O.taken out.old) (O.taken out.new) result }
    ensures faults { HasFaults (S.faults source.old) (S.faults source.new)
        (O.faults out.old) (O.faults out.new) result }
{
    let Ok(mut held) = Held::new(alloc) else {
        return GridStatus::Memory;
    };
    for _ in 0..MOST_LINES {
        let end = match held.fill(source) {
            Filled::Line(end) => end,
            Filled::End => return GridStatus::Done,
            Filled::TooLong => return GridStatus::Input,
            Filled::Failed => return GridStatus::ReadFault,
        };
        let line = answer_line(held.answer(grid, end));
        if let Err(_) = write_all(out, line.as_str().as_bytes()) {
            return GridStatus::WriteFault;
        }
        held.drop_line(end);
    }
    GridStatus::Limit
}
