//! Whether conditions are true: the calls of this crate.
ghost use Rattle.std.specs.Prelude.{◌≡◌, true, IfOk};
ghost use Rattle.task_model.specs.Fit.{IsFit};
ghost use Rattle.task_model.specs.Truth.{is_true};
ghost use Rattle.formula_eval.specs.Readable.{is_readable};
ghost use Rattle.formula_memo.specs.Remembered.{StandsFor};

use crate::judge::truth;
use crate::memo::Memo;
use crate::scene::Scene;
use formula_eval::{Env, holds};
use std::alloc::AllocError;
use task_model::{Formula, Look, State, Task};

/// Whether the condition is true of the task, what is known and the state (PDDL 2.1, and PDDL 2.2
/// for derived predicates), the variables having their objects in the slots. The slots are
/// unchanged afterwards.
///
/// What the memo remembers of derived atoms isn't judged again, and what is judged of them is
/// remembered. Fails only where memory is wanting.
pub fn holds_memo<L: Look>(
    task: &Task,
    look: &L,
    state: &State,
    memo: &mut Memo,
    formula: &Formula,
    env: &mut Env,
) -> Result<bool, AllocError>
    requires fit { IsFit task.now }
    requires readable { is_readable task.now.domain formula.now ≡ true }
    requires stands { StandsFor task.now.domain (L.known look.now) state.now memo.old }
    ensures value { IfOk result (λ value. value ≡ is_true task.now.domain (L.known look.now)
        state.now formula.now env.old) }
    ensures same { env.new ≡ env.old }
    ensures stands { StandsFor task.now.domain (L.known look.now) state.now memo.new }
{
    let scene = Scene { task, look, state };
    truth(&scene, memo, task.domain.derived.len(), formula, env)
}

/// Whether the condition is true, as `holds_memo` says. Where memory is wanting, what is judged
/// isn't remembered, and this takes the longer.
pub fn holds_with<L: Look>(
    task: &Task,
    look: &L,
    state: &State,
    memo: &mut Memo,
    formula: &Formula,
    env: &mut Env,
) -> bool
    requires fit { IsFit task.now }
    requires readable { is_readable task.now.domain formula.now ≡ true }
    requires stands { StandsFor task.now.domain (L.known look.now) state.now memo.old }
    ensures value { result ≡ is_true task.now.domain (L.known look.now) state.now formula.now
        env.old }
    ensures same { env.new ≡ env.old }
    ensures stands { StandsFor task.now.domain (L.known look.now) state.now memo.new }
{
    match holds_memo(task, look, state, memo, formula, env) {
        Ok(value) => value,
        Err(_) => holds(task, look, state, formula, env),
    }
}

/// Whether the condition is true, as `holds` of `formula_eval` says: each derived atom is judged
/// once. Where memory is wanting, it is judged anew wherever it stands, and this takes the longer.
pub fn holds_once<L: Look>(
    task: &Task,
    look: &L,
    state: &State,
    formula: &Formula,
    env: &mut Env,
) -> bool
    requires fit { IsFit task.now }
    requires readable { is_readable task.now.domain formula.now ≡ true }
    ensures value { result ≡ is_true task.now.domain (L.known look.now) state.now formula.now
        env.old }
    ensures same { env.new ≡ env.old }
{
    let mut memo = Memo::empty(state.allocator());
    holds_with(task, look, state, &mut memo, formula, env)
}
