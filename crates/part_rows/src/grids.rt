//! Grid files, what their generator answers, and the texts of grid tasks.
use crate::out::Out;
use crate::shown::{write_name, write_numbers};
use crate::{domains, problems};
use grid_text::{Block, Grid, GridFault, GridTask, Rect, Region, grid_task, read_grid};
use grid_world::{GridAnswer, Side, grid_answer};
use std::alloc::Global;

/// The longest grid file of a row.
pub(crate) const LONGEST: usize = 1_000_000;

/// Writes a rectangle's corner and sides.
fn write_rect(out: &mut Out, rect: &Rect) {
    write_numbers(out, &[rect.x, rect.y, rect.w, rect.h]);
}

/// Writes a block's name, size and corner.
fn write_block(out: &mut Out, block: &Block) {
    write_name(out, &block.name);
    write_numbers(out, &[block.w, block.h, block.x, block.y]);
}

/// Writes a region's name, corner and sides.
fn write_region(out: &mut Out, region: &Region) {
    write_name(out, region.name());
    write_rect(out, &region.rect());
}

/// Writes how wide and high a grid is, and how many blocks, regions and obstacles it has, with the
/// first of each.
fn write_grid(out: &mut Out, grid: &Grid) {
    out.put("grid");
    write_numbers(out, &[grid.width(), grid.height()]);
    out.put(", ");
    out.print(grid.blocks().len());
    out.put(" blocks");
    if let [block, ..] = grid.blocks() {
        write_block(out, block);
    }
    out.put(", ");
    out.print(grid.regions().len());
    out.put(" regions");
    if let [region, ..] = grid.regions() {
        write_region(out, region);
    }
    out.put(", ");
    out.print(grid.obstacles().len());
    out.put(" obstacles");
    if let [obstacle, ..] = grid.obstacles() {
        write_rect(out, obstacle);
    }
}

fn write_blocks(out: &mut Out, blocks: &[Block]) {
    for block in blocks {
        out.put("\nblock");
        write_block(out, block);
    }
}

fn write_regions(out: &mut Out, regions: &[Region]) {
    for region in regions {
        out.put("\nregion");
        write_region(out, region);
    }
}

/// Writes all that a grid holds.
fn write_whole(out: &mut Out, grid: &Grid) {
    out.put("grid");
    write_numbers(out, &[grid.width(), grid.height()]);
    write_blocks(out, grid.blocks());
    write_regions(out, grid.regions());
    for obstacle in grid.obstacles() {
        out.put("\nobstacle");
        write_rect(out, obstacle);
    }
}

/// Writes the first faulty line and the kind of its fault.
pub(crate) fn write_fault(out: &mut Out, fault: GridFault) {
    match fault {
        GridFault::At { line, kind } => {
            out.put("line ");
            out.print(line);
            out.put(" ");
            out.show(kind);
        }
        GridFault::Memory => out.lose(),
    }
}

/// Writes the grid of a text, with the first of each sort or whole, as the row's kind says; or its
/// first faulty line.
pub(crate) fn write_read(alloc: Global, out: &mut Out, kind: &[u8], text: &[u8]) {
    if text.len() > LONGEST {
        return out.lose();
    }
    match read_grid(alloc, text) {
        Ok(grid) => match kind {
            b"grid" => write_grid(out, &grid),
            _ => write_whole(out, &grid),
        },
        Err(fault) => write_fault(out, fault),
    }
}

fn side_word(side: Side) -> &'static str {
    match side {
        Side::N => "yield n",
        Side::E => "yield e",
        Side::S => "yield s",
        Side::W => "yield w",
    }
}

/// Writes a corner behind a word.
fn write_corner(out: &mut Out, word: &str, x: u32, y: u32) {
    out.put(word);
    out.print(x);
    out.put(",");
    out.print(y);
}

/// Writes an answer as a line.
fn write_answer(out: &mut Out, answer: GridAnswer) {
    match answer {
        GridAnswer::Pose { x, y } => write_corner(out, "yield ", x, y),
        GridAnswer::Hand { x, y } => write_corner(out, "yield h", x, y),
        GridAnswer::Side(side) => out.put(side_word(side)),
        GridAnswer::Yes => out.put("yield"),
        GridAnswer::End => out.put("end"),
    }
}

/// Writes what a request on the grid of a text is answered.
pub(crate) fn write_answered(alloc: Global, out: &mut Out, grid: &[u8], request: &[u8]) {
    if grid.len() > LONGEST {
        return out.lose();
    }
    match read_grid(alloc, grid) {
        Ok(grid) => write_answer(out, grid_answer(&grid, request)),
        Err(fault) => write_fault(out, fault),
    }
}

/// Writes the lengths of the domain, the problem, the streams and the grid of a task.
fn write_lengths(out: &mut Out, task: &GridTask) {
    out.print(task.domain.len());
    out.put(" ");
    out.print(task.problem.len());
    out.put(" ");
    out.print(task.streams.len());
    out.put(" ");
    out.print(task.grid.len());
}

/// Writes all that the four texts of a task hold.
fn write_held(alloc: Global, out: &mut Out, kind: &[u8], task: &GridTask) {
    let domain = task.domain.as_slice();
    domains::write_read(alloc, out, b"domain", domain);
    out.put("\n");
    problems::write_read(alloc, out, b"problem", domain, task.problem.as_slice());
    out.put("\n");
    problems::write_read(alloc, out, b"streams", domain, task.streams.as_slice());
    out.put("\n");
    write_read(alloc, out, kind, task.grid.as_slice());
}

/// Writes of the task of a number its lengths, its problem and its grid as texts, or all that its
/// texts hold, or what a request on its grid is answered, as the row's kind says.
pub(crate) fn write_made(alloc: Global, out: &mut Out, kind: &[u8], number: usize, request: &[u8]) {
    let number = match number {
        1..=12 => number as u32,
        _ => return out.put("no such task"),
    };
    let Ok(task) = grid_task(alloc, number) else {
        return out.lose();
    };
    match kind {
        b"made-lengths" => write_lengths(out, &task),
        b"made-texts" => {
            out.put_bytes(task.problem.as_slice());
            out.put_bytes(task.grid.as_slice());
        }
        b"made-read" => write_held(alloc, out, kind, &task),
        _ => write_answered(alloc, out, task.grid.as_slice(), request),
    }
}
