//! The head of a run.
ghost use Rattle.std.specs.Prelude.{Option};
ghost use Rattle.command_line.specs.Held.{held_solve};
ghost use Rattle.io_world.specs.FileMap.{FileMap};
ghost use Rattle.run_command.specs.Heads.{AreServed, IsHeadOf};
ghost use Rattle.task_model.specs.declared.task.Task.{Task};

use command_line::SolveConfig;
use task_model::Seq;
use transcript_model::{Head, Pool};

/// The head of a run of these words, over these pools.
pub(crate) fn head_of(words: &SolveConfig, pools: Seq<Pool>) -> Head
    ensures { (told : Option FileMap) (task : Task)
        → AreServed told (held_solve words.now) task pools
        → IsHeadOf told (held_solve words.now) task result }
{
    Head {
        version: words.protocol,
        mode: words.mode,
        calls: words.calls,
        states: words.states,
        depth: words.depth,
        optimal: words.optimal,
        pools,
    }
}
