//! The pools of a run.
ghost use Rattle.std.specs.Prelude.{◌≡◌, ◌≤◌, Ok, [], ◌∷◌, ℕ, List, map, string_bytes, IfOk, IfErr};
ghost use Rattle.command_line.specs.Held.{held_solve};
ghost use Rattle.grid_text.specs.Files.{IsGridOf};
ghost use Rattle.io_world.specs.Faults.{Extends};
ghost use Rattle.command_files.specs.Files.{HoldsFile, file_of};
ghost use Rattle.command_files.specs.Pools.{HaveText, IsGridRead, MeansPools};
ghost use Rattle.command_files.specs.Inputs.{EndsAtPools, EndsFirst, EndsHere, ask, file_at, reads, stop_for_grid, stop_for_map};
ghost use Rattle.command_files.specs.Outside.{seen_of};
ghost use Rattle.command_files.specs.Stop.{IsOfInput};
ghost use Rattle.stream_map.specs.Accepted.{Accepted, AcceptedMap};
ghost use Rattle.stream_map.specs.Children.{grid_file, plain};
ghost use Rattle.stream_map.specs.Faults.{Refused};
ghost use Rattle.stream_map.specs.Form.{all_stream_names, words_form};
ghost use Rattle.task_model.specs.Fit.{IsFit};
ghost use Rattle.task_reader.specs.Tasks.{SpellsTask};
ghost use Rattle.command_files.specs.declared.stop.FileRole.TheVariants as role;

use crate::stop::{FileRole, Stop};
use crate::texts::read_file;
use command_line::SolveConfig;
use grid_text::{Grid, GridFault, read_grid};
use io_world::Files;
use round_run::RunFault;
use std::alloc::Global;
use stream_map::{MapFault, grid_path, one_pool, read_map, with_grid};
use task_model::{Seq, Task};
use transcript_model::Pool;

/// Why the run stops whose map is refused so.
fn stop_of_map(fault: MapFault) -> Stop
    ensures stop { result ≡ stop_for_map fault }
    ensures input { IsOfInput result }
{
    match fault {
        MapFault::Memory => Stop::Run(RunFault::Memory),
        other => Stop::Map(other),
    }
}

/// Why the run stops whose grid is refused so.
fn stop_of_grid(fault: GridFault) -> Stop
    ensures stop { result ≡ stop_for_grid fault }
    ensures input { IsOfInput result }
{
    match fault {
        GridFault::At { line, kind } => Stop::Grid { kind, line },
        GridFault::Memory => Stop::Run(RunFault::Memory),
    }
}

/// The pool of the program that the words name.
fn program_pools(alloc: Global, words: &SolveConfig, task: &Task) -> Result<Seq<Pool>, Stop>
    requires fit { IsFit task.now }
    ensures pools { IfOk result (Accepted task.now
        (words_form task.now (held_solve words.now).program words.now.workers)) }
    ensures stop { IfErr result (λ why. (fault : MapFault) × (why ≡ stop_for_map fault)
        × Refused (all_stream_names task.now)
        (words_form task.now (held_solve words.now).program words.now.workers) fault) }
    ensures input { IfErr result IsOfInput }
{
    match one_pool(alloc, task, words.program.as_slice(), words.workers) {
        Ok(pools) => Ok(pools),
        Err(fault) => Err(stop_of_map(fault)),
    }
}

/// The pools of the map of this path.
fn map_pools<F: Files>(
    alloc: Global,
    files: &mut F,
    path: &str,
    task: &Task,
) -> Result<Seq<Pool>, Stop>
    requires fit { IsFit task.now }
    ensures pools { IfOk result (λ pools. HoldsFile (F.told files.old) (file_of role.Map path.now)
        (λ bytes. AcceptedMap task.now bytes pools)) }
    ensures asked { IfOk result (λ _. Extends (F.asked files.old) (F.asked files.new)
        (ask (Ok tt) (file_of role.Map path.now) ∷ [])) }
    ensures stop { IfErr result (λ why. (d p s : List ℕ) → SpellsTask d p s task.now
        → EndsHere (seen_of F.told F.faults F.asked files.old files.new) (d ∷ p ∷ s ∷ [])
        (file_of role.Map path.now) why) }
    ensures same { F.told files.new ≡ F.told files.old }
    ensures later { F.faults files.old ≤ F.faults files.new }
    ensures input { IfErr result IsOfInput }
{
    let bytes = read_file(files, FileRole::Map, path)?;
    match read_map(alloc, bytes.as_slice(), task) {
        Ok(pools) => Ok(pools),
        Err(fault) => Err(stop_of_map(fault)),
    }
}

/// The pools that the words mean: those of the map's file, or, where they name none, that of their
/// program. Where the map's file isn't read (as `read_file` says) or its map is refused (`Map`), the
/// run ends at it; where no map is named, the program's words may make no pool (`Map` too).
pub fn meant_pools<F: Files>(
    alloc: Global,
    files: &mut F,
    words: &SolveConfig,
    task: &Task,
) -> Result<Seq<Pool>, Stop>
    requires fit { IsFit task.now }
    ensures pools { IfOk result (MeansPools (F.told files.old) (held_solve words.now) task.now) }
    ensures asked { IfOk result (λ _. Extends (F.asked files.old) (F.asked files.new)
        (reads (file_at role.Map (held_solve words.now).path))) }
    ensures stop { IfErr result (λ why. (d p s : List ℕ) → SpellsTask d p s task.now
        → EndsAtPools (held_solve words.now).path
        (seen_of F.told F.faults F.asked files.old files.new) (d ∷ p ∷ s ∷ [])
        (held_solve words.now) task.now why) }
    ensures same { F.told files.new ≡ F.told files.old }
    ensures later { F.faults files.old ≤ F.faults files.new }
    ensures input { IfErr result IsOfInput }
{
    match &words.map {
        None => program_pools(alloc, words, task),
        Some(path) => map_pools(alloc, files, path.as_str(), task),
    }
}

/// A grid's file that was read.
#[derive(Drop)]
pub struct GridRead {
    /// The grid that it holds.
    pub grid: Grid,
    /// Its bytes.
    pub bytes: Vec<u8>,
}

/// Reads the grid of this path's file. Where the file isn't read (as `read_file` says) or holds no
/// grid (`Grid`, with the first line that has a fault), the run ends at it, whatever texts stand
/// before it.
pub fn read_grid_file<F: Files>(alloc: Global, files: &mut F, path: &str) -> Result<GridRead, Stop>
    ensures grid { IfOk result (IsGridRead (F.told files.old) path.now) }
    ensures asked { IfOk result (λ _. Extends (F.asked files.old) (F.asked files.new)
        (ask (Ok tt) (file_of role.Grid path.now) ∷ [])) }
    ensures stop { IfErr result (λ why. (texts : List (List ℕ))
        → EndsHere (seen_of F.told F.faults F.asked files.old files.new) texts
        (file_of role.Grid path.now) why) }
    ensures same { F.told files.new ≡ F.told files.old }
    ensures later { F.faults files.old ≤ F.faults files.new }
    ensures input { IfErr result IsOfInput }
{
    let bytes = read_file(files, FileRole::Grid, path)?;
    match read_grid(alloc, bytes.as_slice()) {
        Ok(grid) => Ok(GridRead { grid, bytes }),
        Err(fault) => Err(stop_of_grid(fault)),
    }
}

/// The text of a grid's file. A grid's text is ASCII.
fn text_of(read: GridRead) -> String
    requires { IsGridOf read.bytes.items read.grid }
    ensures { string_bytes result ≡ read.bytes.items }
{
    match String::from_utf8(read.bytes) {
        Ok(text) => text,
        Err(_) => unreachable!(),
    }
}

/// These pools, with the text of the grid's file in the place of its path where one of them names
/// it. Where it isn't read or holds no grid, the run ends at it, as `read_grid_file` says.
pub fn place_grid<F: Files>(
    alloc: Global,
    files: &mut F,
    pools: Seq<Pool>,
) -> Result<Seq<Pool>, Stop>
    ensures text { IfOk result (HaveText (grid_file (map plain pools)) (F.told files.old) pools) }
    ensures asked { IfOk result (λ _. Extends (F.asked files.old) (F.asked files.new)
        (reads (file_at role.Grid (grid_file (map plain pools))))) }
    ensures stop { IfErr result (λ why. (texts : List (List ℕ))
        → EndsFirst (seen_of F.told F.faults F.asked files.old files.new) texts
        (file_at role.Grid (grid_file (map plain pools))) why) }
    ensures same { F.told files.new ≡ F.told files.old }
    ensures later { F.faults files.old ≤ F.faults files.new }
    ensures input { IfErr result IsOfInput }
{
    let text = match grid_path(pools.as_slice()) {
        None => return Ok(pools),
        Some(path) => text_of(read_grid_file(alloc, files, path)?),
    };
    Ok(with_grid(pools, text))
}
