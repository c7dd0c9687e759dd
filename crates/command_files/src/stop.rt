//! Why a run has no outcome.
ghost use Rattle.std.specs.Prelude.{◌≡◌, ◌++◌, codes, IfOk};
ghost use Rattle.std.specs.Fmt.{decimal};
ghost use Rattle.task_reader.specs.Kinds.{kind_word};
ghost use Rattle.command_files.specs.Files.{most_of};
ghost use Rattle.command_files.specs.Stop.{grid_word, is_write, last_text, map_word, role_word, status_at, text_word, why_word};
ghost use Rattle.round_run.specs.declared.fault.RunFault.TheVariants.{Memory};
ghost use Rattle.command_files.specs.declared.stop.Stop.TheVariants.{Run};

use crate::status::Status;
use command_line::usage_text;
use gen_lines::Why;
use grid_text::GridKind;
use report_reader::REPORT_BYTES;
use round_run::RunFault;
use std::alloc::{AllocError, Global};
use stream_map::MapFault;
use task_reader::{FaultKind, TEXT_BYTES};

/// One of the three texts of a task.
#[derive(Clone, Copy, Debug, PartialEq, Eq)]
pub enum Text {
    /// The domain.
    Domain,
    /// The problem.
    Problem,
    /// The streams.
    Streams,
}

/// What a command reads a file for.
#[derive(Clone, Copy, Debug, PartialEq, Eq)]
pub enum FileRole {
    /// A text of the task, at most 4 MiB.
    Text(Text),
    /// The map of generators, at most 4 MiB.
    Map,
    /// The grid that a pool names, or on which a plan is acted out, at most 4 MiB.
    Grid,
    /// The report that is judged, at most 256 MiB.
    Report,
}

/// Why a run has no outcome. The causes, their words and their order are this project's.
#[derive(Clone, Copy, Debug, PartialEq, Eq)]
pub enum Stop {
    /// The words are no command.
    Usage,
    /// The text was refused for this fault at this place, in bytes from its beginning.
    Input {
        /// Which of the three.
        text: Text,
        /// The kind of the fault.
        kind: FaultKind,
        /// Its place, in bytes from the text's beginning.
        place: usize,
    },
    /// The map, or the program's words in its place, was refused for this fault, which is not want
    /// of memory.
    Map(MapFault),
    /// The grid was refused for this fault of this line, counted from 1.
    Grid {
        /// The kind of the fault.
        kind: GridKind,
        /// The line, counted from 1.
        line: u32,
    },
    /// The file that is read for this could not be read.
    Failed(FileRole),
    /// The file that is read for this has more bytes than it may have.
    TooLong(FileRole),
    /// The run over the task stopped, or memory was wanting.
    Run(RunFault),
}

impl From<AllocError> for Stop {
    ghost from_gives = { λ _ stop. stop ≡ Run Memory };

    fn from(_error: AllocError) -> Stop {
        Stop::Run(RunFault::Memory)
    }
}

impl Stop {
    /// Whether the sink took no more.
    pub fn is_write(&self) -> bool
        ensures { result ≡ is_write self.now }
    {
        matches!(self, Stop::Run(RunFault::Write))
    }

    /// How a run ends that stops so.
    pub fn status(&self) -> Status
        ensures { result ≡ status_at self.now }
    {
        match self {
            Stop::Usage => Status::Usage,
            Stop::Input { .. } | Stop::Map(_) | Stop::Grid { .. } => Status::Input,
            Stop::Failed(_) | Stop::TooLong(_) => Status::ReadFault,
            Stop::Run(RunFault::Answer { .. }) => Status::BadAnswer,
            Stop::Run(RunFault::Generator) => Status::GeneratorFault,
            Stop::Run(RunFault::Write) => Status::WriteFault,
            Stop::Run(RunFault::Memory) => Status::Memory,
        }
    }

    /// The last line of a run that stops so, with the usage text where the words are no command.
    /// Fails only where memory is wanting.
    pub fn last_text(&self, alloc: Global) -> Result<Vec<u8>, AllocError>
        ensures { IfOk result (λ text. text.items ≡ last_text self.now) }
    {
        match self {
            Stop::Usage => parts(alloc, b"fault usage\n", usage_text().as_bytes(), b""),
            Stop::Input { text, kind, place } => input_line(alloc, *text, *kind, *place),
            Stop::Map(fault) => parts(alloc, b"fault input map ", map_word(*fault), b"\n"),
            Stop::Grid { kind, line } => grid_line(alloc, *kind, *line),
            Stop::Failed(role) => parts(alloc, b"fault read ", role.word(), b" failed\n"),
            Stop::TooLong(role) => parts(alloc, b"fault read ", role.word(), b" too-long\n"),
            Stop::Run(RunFault::Answer { number, why }) => answer_line(alloc, *number, *why),
            Stop::Run(RunFault::Generator) => Vec::from_slice(alloc, b"fault generator\n"),
            Stop::Run(RunFault::Write) => Ok(Vec::new(alloc)),
            Stop::Run(RunFault::Memory) => Vec::from_slice(alloc, MEMORY),
        }
    }
}

/// The line that is printed where memory is wanting.
pub const MEMORY: &[u8] = b"fault memory\n";

impl Text {
    /// The word that stands for the text.
    fn word(&self) -> &'static [u8]
        ensures { result.now ≡ text_word self.now }
    {
        match self {
            Text::Domain => b"domain",
            Text::Problem => b"problem",
            Text::Streams => b"streams",
        }
    }
}

impl FileRole {
    /// The most bytes of such a file.
    pub(crate) fn most(self) -> usize
        ensures { result ≡ most_of self }
    {
        match self {
            FileRole::Text(_) | FileRole::Map | FileRole::Grid => TEXT_BYTES,
            FileRole::Report => REPORT_BYTES,
        }
    }

    /// The word that stands for the file.
    fn word(&self) -> &'static [u8]
        ensures { result.now ≡ role_word self.now }
    {
        match self {
            FileRole::Text(text) => text.word(),
            FileRole::Map => b"map",
            FileRole::Grid => b"grid",
            FileRole::Report => b"report",
        }
    }
}

/// The word for the cause of a bad answer.
fn why_word(why: Why) -> &'static [u8]
    ensures { result.now ≡ why_word why }
{
    match why {
        Why::Word => b"word",
        Why::Count => b"count",
        Why::Value => b"value",
        Why::TooLong => b"too-long",
    }
}

/// The word for the fault of a map.
fn map_word(fault: MapFault) -> &'static [u8]
    ensures { result.now ≡ map_word fault }
{
    match fault {
        MapFault::Json => b"json",
        MapFault::Shape => b"shape",
        MapFault::Workers => b"workers",
        MapFault::Unknown => b"unknown",
        MapFault::Doubled => b"doubled",
        MapFault::Unserved => b"unserved",
        MapFault::Memory => b"memory",
    }
}

/// The word for the fault of a grid's line.
fn grid_word(kind: GridKind) -> &'static [u8]
    ensures { result.now ≡ grid_word kind }
{
    match kind {
        GridKind::Form => b"form",
        GridKind::Number => b"number",
        GridKind::Outside => b"outside",
        GridKind::Duplicate => b"duplicate",
        GridKind::TooMany => b"too-many",
    }
}

/// The line for a refused grid.
fn grid_line(alloc: Global, kind: GridKind, line: u32) -> Result<Vec<u8>, AllocError>
    ensures { IfOk result (λ text. text.items ≡ codes "fault input grid " ++ grid_word kind
        ++ codes " " ++ decimal line ++ codes "\n") }
{
    let line = format!(in alloc; "{line}")?;
    let mut text = parts(alloc, b"fault input grid ", grid_word(kind), b" ")?;
    text.extend_from_slice(line.as_bytes())?;
    text.extend_from_slice(b"\n")?;
    Ok(text)
}

/// These bytes, one behind the other.
fn parts(alloc: Global, first: &[u8], second: &[u8], third: &[u8]) -> Result<Vec<u8>, AllocError>
    ensures { IfOk result (λ text. text.items ≡ first.now ++ second.now ++ third.now) }
{
    let mut text = Vec::from_slice(alloc, first)?;
    text.extend_from_slice(second)?;
    text.extend_from_slice(third)?;
    Ok(text)
}

/// The line for a bad answer.
fn answer_line(alloc: Global, number: u32, why: Why) -> Result<Vec<u8>, AllocError>
    ensures { IfOk result (λ text. text.items ≡ codes "fault answer " ++ decimal number ++ codes " "
        ++ why_word why ++ codes "\n") }
{
    let number = format!(in alloc; "{number}")?;
    let mut text = parts(alloc, b"fault answer ", number.as_bytes(), b" ")?;
    text.extend_from_slice(why_word(why))?;
    text.extend_from_slice(b"\n")?;
    Ok(text)
}

/// The line for a refused text.
fn input_line(
    alloc: Global,
    text: Text,
    kind: FaultKind,
    place: usize,
) -> Result<Vec<u8>, AllocError>
    ensures { IfOk result (λ line. line.items ≡ codes "fault input " ++ text_word text ++ codes " "
        ++ kind_word kind ++ codes " " ++ decimal place ++ codes "\n") }
{
    let place = format!(in alloc; "{place}")?;
    let mut line = parts(alloc, b"fault input ", text.word(), b" ")?;
    line.extend_from_slice(kind.word())?;
    line.extend_from_slice(b" ")?;
    line.extend_from_slice(place.as_bytes())?;
    line.extend_from_slice(b"\n")?;
    Ok(line)
}
