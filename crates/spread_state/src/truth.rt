//! Truth of conditions over a state that is spread.
ghost use Rattle.std.specs.Prelude.{◌≡◌, ◌<◌, length, true, IfOk, IfSome};
ghost use Rattle.formula_eval.specs.Judged.{all_at, any_at};
ghost use Rattle.formula_eval.specs.Readable.{is_readable, are_readable};
ghost use Rattle.task_model.specs.Condition.{parts_of};
ghost use Rattle.task_model.specs.Fit.{IsFit};
ghost use Rattle.task_model.specs.Truth.{atom_at, is_true};

use crate::cells::SpreadState;
use formula_eval::{Env, object_of, objects_at};
use formula_memo::holds_once;
use std::alloc::AllocError;
use task_model::{Atom, Fact, Formula, FormulaNode, Kind, Look, Role, Row, Task};

/// What truth is judged over.
#[derive(Drop)]
pub(crate) struct Scene<'a, L: Look> {
    pub(crate) task: &'a Task,
    pub(crate) look: &'a L,
    pub(crate) state: &'a SpreadState,
}

/// Whether the atom is true, unless its predicate is derived.
fn plain_atom<L: Look>(scene: &Scene<'_, L>, pred: u32, args: Row) -> Option<bool>
    requires fit { IsFit scene.now.task.now }
    requires predicate { pred < length scene.now.task.now.domain.predicates }
    ensures { IfSome result (λ value. value ≡ atom_at scene.now.task.now.domain
        (L.known scene.now.look.now) scene.now.state.now
        (length scene.now.task.now.domain.derived) pred args) }
{
    match scene.task.domain.roles.as_slice()[pred as usize] {
        Role::Static => {
            let kind = Kind::Predicate;
            Some(
                scene.look.has(&Fact {
                    kind,
                    name: pred,
                    args,
                }),
            )
        }
        Role::Fluent => Some(scene.state.has(&Atom { pred, args })),
        Role::Derived => None,
    }
}

/// Whether the condition is true, by the whole state. Fails only where memory is wanting.
fn truth_by_whole<L: Look>(
    scene: &Scene<'_, L>,
    formula: &Formula,
    env: &mut Env,
) -> Result<bool, AllocError>
    requires fit { IsFit scene.now.task.now }
    requires readable { is_readable scene.now.task.now.domain formula.now ≡ true }
    ensures value { IfOk result (λ value. value ≡ is_true scene.now.task.now.domain
        (L.known scene.now.look.now) scene.now.state.now formula.now env.old) }
    ensures same { env.new ≡ env.old }
{
    let state = scene.state.whole()?;
    Ok(holds_once(scene.task, scene.look, &state, formula, env))
}

/// Whether the condition is true. A derived atom, and a condition that something exists, is judged
/// by the whole state. Fails only where memory is wanting.
#[cycle(truth)]
pub(crate) fn truth<L: Look>(
    scene: &Scene<'_, L>,
    formula: &Formula,
    env: &mut Env,
) -> Result<bool, AllocError>
    requires fit { IsFit scene.now.task.now }
    requires readable { is_readable scene.now.task.now.domain formula.now ≡ true }
    ensures value { IfOk result (λ value. value ≡ is_true scene.now.task.now.domain
        (L.known scene.now.look.now) scene.now.state.now formula.now env.old) }
    ensures same { env.new ≡ env.old }
{
    match &formula.node {
        FormulaNode::Atom { pred, args } => {
            let row = objects_at(scene.state.allocator(), args.as_slice(), env);
            match plain_atom(scene, *pred, row) {
                Some(value) => Ok(value),
                None => truth_by_whole(scene, formula, env),
            }
        }
        FormulaNode::Equal(first, second) => {
            Ok(object_of(*first, env) == object_of(*second, env))
        }
        FormulaNode::All(parts) => all_true(scene, parts.as_slice(), env),
        FormulaNode::Any(parts) => any_true(scene, parts.as_slice(), env),
        FormulaNode::Not(part) => {
            let value = truth(scene, part, env)?;
            Ok(!value)
        }
        FormulaNode::Exists { .. } => truth_by_whole(scene, formula, env),
    }
}

/// Whether all parts are true.
#[cycle(truth)]
fn all_true<L: Look>(
    scene: &Scene<'_, L>,
    parts: &[Formula],
    env: &mut Env,
) -> Result<bool, AllocError>
    requires fit { IsFit scene.now.task.now }
    requires readable { are_readable scene.now.task.now.domain (parts_of parts.now) ≡ true }
    ensures value { IfOk result (λ value. value ≡ all_at scene.now.task.now.domain
        (L.known scene.now.look.now) scene.now.state.now
        (length scene.now.task.now.domain.derived) (parts_of parts.now) env.old) }
    ensures same { env.new ≡ env.old }
{
    for part in parts {
        if !truth(scene, part, env)? {
            return Ok(false);
        }
    }
    Ok(true)
}

/// Whether some part is true.
#[cycle(truth)]
fn any_true<L: Look>(
    scene: &Scene<'_, L>,
    parts: &[Formula],
    env: &mut Env,
) -> Result<bool, AllocError>
    requires fit { IsFit scene.now.task.now }
    requires readable { are_readable scene.now.task.now.domain (parts_of parts.now) ≡ true }
    ensures value { IfOk result (λ value. value ≡ any_at scene.now.task.now.domain
        (L.known scene.now.look.now) scene.now.state.now
        (length scene.now.task.now.domain.derived) (parts_of parts.now) env.old) }
    ensures same { env.new ≡ env.old }
{
    for part in parts {
        if truth(scene, part, env)? {
            return Ok(true);
        }
    }
    Ok(false)
}
