//! Commands that answer with one text. They read files, and ask no child.
ghost use Rattle.std.specs.Prelude.{};
ghost use Rattle.command_line.specs.Ranges.{IsInRange};
ghost use Rattle.io_world.specs.Faults.{last_count, HasCause};
ghost use Rattle.pddlstream_app.specs.Answering.{IsAnswerTold, IsMade, command_answering};
ghost use Rattle.command_files.specs.Outside.{seen_of, written_of};
ghost use Rattle.round_run.specs.declared.fault.RunFault.TheVariants as fault;
ghost use Rattle.command_files.specs.declared.stop.Stop.TheVariants.{Run};

use crate::deorder::deorder_answer;
use crate::migrate::migrate_answer;
use crate::play::play_answer;
use crate::replay::replay_answer;
use crate::said::Said;
use command_files::{Status, Stop};
use command_line::{PlayConfig, ReplayConfig};
use io_world::{Files, Sink, write_all};
use std::alloc::Global;
use turn_run::RunFault;

/// The words of a command that answers.
#[derive(Drop)]
pub(crate) enum AnswerConfig {
    /// A report is to be judged.
    Replay(ReplayConfig),
    /// The report of this path is to be printed in version 2.
    Migrate(String),
    /// What must stay in order of a report's plan is to be told.
    Deorder(ReplayConfig),
    /// A report's plan is to be acted out on a grid.
    Play(PlayConfig),
}

/// Reads the command's files, and makes its answer whole.
fn answer_of<F: Files>(alloc: Global, words: &AnswerConfig, files: &mut F) -> Result<Said, Stop>
    requires within { IsInRange (command_answering words.now) }
    ensures made { IsMade (command_answering words.now)
        (seen_of F.told F.faults F.asked files.old files.new) result }
{
    match words {
        AnswerConfig::Replay(words) => replay_answer(alloc, words, files),
        AnswerConfig::Migrate(path) => migrate_answer(alloc, path.as_str(), files),
        AnswerConfig::Deorder(words) => deorder_answer(alloc, words, files),
        AnswerConfig::Play(words) => play_answer(alloc, words, files),
    }
}

/// Makes the answer of a command whole, writes it, and answers how the run ends.
pub(crate) fn answer<F: Files, O: Sink>(
    alloc: Global,
    words: &AnswerConfig,
    files: &mut F,
    out: &mut O,
) -> Result<Status, Stop>
    requires within { IsInRange (command_answering words.now) }
    ensures told { IsAnswerTold (command_answering words.now)
        (seen_of F.told F.faults F.asked files.old files.new) (written_of O.taken out.old out.new)
        result }
    ensures sink { HasCause (Run fault.Write) last_count (O.faults out.old) (O.faults out.new)
        result }
{
    let said = match answer_of(alloc, words, files) {
        Ok(said) => said,
        Err(stop) => return Err(stop),
    };
    match write_all(out, said.text.as_slice()) {
        Ok(()) => Ok(said.status),
        Err(_) => Err(Stop::Run(RunFault::Write)),
    }
}
