//! The words that name a task's texts.
ghost use Rattle.std.specs.Prelude.{◌≡◌, IfOk};
ghost use Rattle.clap.specs.Words.{app_of, found_of, rows_of};
ghost use Rattle.command_line.specs.Apps.{task_app};
ghost use Rattle.command_line.specs.Shown.{shown_files};
ghost use Rattle.command_line.specs.Words.{files_in};

use crate::line::{positional, text_in};
use clap::{ArgMatches, Command};
use std::alloc::{AllocError, Global};

/// The paths of a task's three texts.
#[derive(Clone, Copy)]
pub(crate) struct TaskFiles<'a> {
    /// The path of the domain.
    pub(crate) domain: &'a str,
    /// The path of the problem.
    pub(crate) problem: &'a str,
    /// The path of the streams.
    pub(crate) streams: &'a str,
}

/// The command of this name with the paths of a task.
pub(crate) fn task_command<'a>(alloc: Global, name: &'static str) -> Result<Command<'a>, AllocError>
    ensures { IfOk result (λ c. app_of c ≡ task_app name.entry.now) }
{
    Command::new(alloc, name)
        .arg(positional(alloc, "domain"))?
        .arg(positional(alloc, "problem"))?
        .arg(positional(alloc, "streams"))
}

/// The paths of the task.
pub(crate) fn files_in<'a>(matches: &ArgMatches<'a>) -> Option<TaskFiles<'a>>
    ensures { shown_files result ≡ files_in (rows_of (found_of matches.now)) }
{
    let domain = text_in(matches, "domain")?;
    let problem = text_in(matches, "problem")?;
    let streams = text_in(matches, "streams")?;
    Some(TaskFiles {
        domain,
        problem,
        streams,
    })
}
