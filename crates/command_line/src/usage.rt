//! What is told where words are no command.
ghost use Rattle.std.specs.Prelude.{◌≡◌};
ghost use Rattle.command_line.specs.Usage.{usage_text};

/// The usage text: one line for each command, each ended by a line feed. The planner prints it
/// behind its line `fault usage`, where `read_words` answers `WordsFault::Usage` (this project).
pub fn usage_text() -> &'static str
    ensures { result.now ≡ usage_text }
{
    "usage: pddlstream solve DOMAIN PROBLEM STREAMS [OPTIONS] [-- PROGRAM WORDS]
usage: pddlstream replay DOMAIN PROBLEM STREAMS REPORT [--states N]
usage: pddlstream generate N
usage: pddlstream migrate REPORT
usage: pddlstream deorder DOMAIN PROBLEM STREAMS REPORT [--states N]
usage: pddlstream play DOMAIN PROBLEM STREAMS REPORT GRID [--states N]
"
}
