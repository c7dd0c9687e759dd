//! What the words ask for, by how it is done.
ghost use Rattle.std.specs.Prelude.{◌≡◌};
ghost use Rattle.command_line.specs.Held.{held};
ghost use Rattle.pddlstream_app.specs.Answering.{command_done};

use crate::answer::AnswerConfig;
use command_line::{Config, SolveConfig};

/// What the words ask for, by how it is done: a run may ask children and has an outcome, and an
/// answer is one text.
#[derive(Drop)]
pub(crate) enum Job {
    /// A task is to be solved.
    Solve(SolveConfig),
    /// The grid's task of this number is to be made and solved.
    Make(u32),
    /// A command is to be answered.
    Answer(AnswerConfig),
}

/// How this is done.
pub(crate) fn job_of(config: Config) -> Job
    ensures { command_done result ≡ held config }
{
    match config {
        Config::Solve(words) => Job::Solve(words),
        Config::Replay(words) => Job::Answer(AnswerConfig::Replay(words)),
        Config::Generate(number) => Job::Make(number),
        Config::Migrate(path) => Job::Answer(AnswerConfig::Migrate(path)),
        Config::Deorder(words) => Job::Answer(AnswerConfig::Deorder(words)),
        Config::Play(words) => Job::Answer(AnswerConfig::Play(words)),
    }
}
