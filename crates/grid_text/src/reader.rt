//! The reader of grid files.
ghost use Rattle.std.specs.Prelude.{◌<◌, ◌^◌, length, IfOk, IfErr};
ghost use Rattle.grid_text.specs.Files.{BlamesGridText, IsGridOf};

use crate::fault::{GridFault, GridKind};
use crate::grid::Grid;
use crate::lines::{first_line, is_bare};
use std::alloc::Global;

/// The grid that a file says (the form is this project's). Lines end with a line feed, one carriage
/// return before it dropped; the last may lack it. Empty lines and those that begin with `;` are
/// passed over. The first other line is `grid W H`, and then come, in any order, `block NAME w h x
/// y`, `region NAME x y w h` and `obstacle x y w h`.
///
/// # Errors
/// The first line with a fault, from 1, and its first fault in the order of [`GridKind`]; `Form` at
/// line 1 where all lines are passed over. Or `Memory`.
pub fn read_grid(alloc: Global, bytes: &[u8]) -> Result<Grid, GridFault>
    requires { length bytes.now < 2 ^ 31 }
    ensures grid { IfOk result (IsGridOf bytes.now) }
    ensures fault { IfErr result (BlamesGridText bytes.now) }
{
    if is_bare(bytes) {
        return Err(GridFault::At {
            line: 1,
            kind: GridKind::Form,
        });
    }
    let mut grid = Grid::empty(alloc);
    let mut rest = bytes;
    let mut before: u32 = 0;
    'lines: loop {
        let (line, more) = first_line(rest);
        grid.take_line(alloc, line, before + 1)?;
        let Some(after) = more else {
            return Ok(grid);
        };
        rest = after;
        before += 1;
    }
}
