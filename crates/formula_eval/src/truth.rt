//! Truth of conditions.
ghost use Rattle.std.specs.Prelude.{◌≡◌, ◌+◌, ◌≤◌, ◌<◌, length, true};
ghost use Rattle.task_model.specs.Condition.{parts_of};
ghost use Rattle.task_model.specs.Fit.{IsFit};
ghost use Rattle.task_model.specs.Truth.{atom_at, is_true};
ghost use Rattle.formula_eval.specs.Judged.{truth_at, all_at, any_at, some_at, derived_at};
ghost use Rattle.formula_eval.specs.Readable.{is_readable, are_readable};
ghost use Rattle.task_model.specs.declared.limits.TheConstants.{SLOTS};

use crate::env::Env;
use crate::lookup::{have_types, object_of, objects_at};
use task_model::{Atom, Fact, Formula, FormulaNode, Kind, Look, Obj, Role, Row, State, Task};

/// What truth is judged over.
#[derive(Drop)]
pub(crate) struct Scene<'a, L: Look> {
    pub(crate) task: &'a Task,
    pub(crate) look: &'a L,
    pub(crate) state: &'a State,
}

/// Whether the condition is true, where derived atoms rest on derived atoms at most `depth` deep.
#[cycle(truth)]
fn truth<L: Look>(scene: &Scene<'_, L>, depth: usize, formula: &Formula, env: &mut Env) -> bool
    requires fit { IsFit scene.now.task.now }
    requires readable { is_readable scene.now.task.now.domain formula.now ≡ true }
    ensures value { result ≡ truth_at scene.now.task.now.domain (L.known scene.now.look.now)
        scene.now.state.now depth formula.now env.old }
    ensures same { env.new ≡ env.old }
{
    match &formula.node {
        FormulaNode::Atom { pred, args } => {
            let row = objects_at(scene.state.allocator(), args.as_slice(), env);
            atom(scene, depth, *pred, row)
        }
        FormulaNode::Equal(first, second) => object_of(*first, env) == object_of(*second, env),
        FormulaNode::All(parts) => all_true(scene, depth, parts.as_slice(), env),
        FormulaNode::Any(parts) => any_true(scene, depth, parts.as_slice(), env),
        FormulaNode::Not(part) => !truth(scene, depth, part, env),
        FormulaNode::Exists { first, sorts, body } => some_tuple(
            scene,
            depth,
            *first,
            sorts.as_slice(),
            body,
            env,
        ),
    }
}

/// Whether all parts are true.
#[cycle(truth)]
fn all_true<L: Look>(scene: &Scene<'_, L>, depth: usize, parts: &[Formula], env: &mut Env) -> bool
    requires fit { IsFit scene.now.task.now }
    requires readable { are_readable scene.now.task.now.domain (parts_of parts.now) ≡ true }
    ensures value { result ≡ all_at scene.now.task.now.domain (L.known scene.now.look.now)
        scene.now.state.now depth (parts_of parts.now) env.old }
    ensures same { env.new ≡ env.old }
{
    for part in parts {
        if !truth(scene, depth, part, env) {
            return false;
        }
    }
    true
}

/// Whether some part is true.
#[cycle(truth)]
fn any_true<L: Look>(scene: &Scene<'_, L>, depth: usize, parts: &[Formula], env: &mut Env) -> bool
    requires fit { IsFit scene.now.task.now }
    requires readable { are_readable scene.now.task.now.domain (parts_of parts.now) ≡ true }
    ensures value { result ≡ any_at scene.now.task.now.domain (L.known scene.now.look.now)
        scene.now.state.now depth (parts_of parts.now) env.old }
    ensures same { env.new ≡ env.old }
{
    for part in parts {
        if truth(scene, depth, part, env) {
            return true;
        }
    }
    false
}

/// Whether some objects of these types, put into the slots from `first` on, make the body true.
#[cycle(truth)]
fn some_tuple<L: Look>(
    scene: &Scene<'_, L>,
    depth: usize,
    first: u8,
    sorts: &[u32],
    body: &Formula,
    env: &mut Env,
) -> bool
    requires fit { IsFit scene.now.task.now }
    requires slots { first + length sorts.now ≤ SLOTS }
    requires readable { is_readable scene.now.task.now.domain body.now ≡ true }
    ensures value { result ≡ some_at scene.now.task.now.domain (L.known scene.now.look.now)
        scene.now.state.now depth first sorts.now body.now env.old }
    ensures same { env.new ≡ env.old }
{
    let Some((sort, rest)) = sorts.split_first() else {
        return truth(scene, depth, body, env);
    };
    let kept = env.get(first);
    let count = scene.look.count(*sort);
    for place in 0..count {
        env.set(first, scene.look.object(*sort, place));
        if some_tuple(scene, depth, first + 1, rest, body, env) {
            env.set(first, kept);
            return true;
        }
    }
    env.set(first, kept);
    false
}

/// Whether the atom is true.
#[cycle(truth)]
fn atom<L: Look>(scene: &Scene<'_, L>, depth: usize, pred: u32, args: Row) -> bool
    requires fit { IsFit scene.now.task.now }
    requires predicate { pred < length scene.now.task.now.domain.predicates }
    ensures { result ≡ atom_at scene.now.task.now.domain (L.known scene.now.look.now)
        scene.now.state.now depth pred args }
{
    match scene.task.domain.roles.as_slice()[pred as usize] {
        Role::Static => {
            let kind = Kind::Predicate;
            scene.look.has(&Fact {
                kind,
                name: pred,
                args,
            })
        }
        Role::Fluent => scene.state.has(&Atom { pred, args }),
        Role::Derived => match depth.checked_sub(1) {
            Some(below) => derived(scene, below, pred, args.as_slice()),
            None => false,
        },
    }
}

/// Whether the derived atom follows by an item, whose body rests on derived atoms at most `depth`
/// deep.
#[cycle(truth)]
fn derived<L: Look>(scene: &Scene<'_, L>, depth: usize, pred: u32, args: &[Obj]) -> bool
    requires fit { IsFit scene.now.task.now }
    ensures { result ≡ derived_at scene.now.task.now.domain (L.known scene.now.look.now)
        scene.now.state.now depth pred args.now }
{
    let alloc = scene.state.allocator();
    for item in scene.task.domain.derived.as_slice() {
        if item.pred == pred && have_types(alloc, scene.look, args, item.params.as_slice()) {
            let mut env = Env::new(args);
            if truth(scene, depth, &item.body, &mut env) {
                return true;
            }
        }
    }
    false
}

/// Whether the condition is true of the task, what is known and the state (PDDL 2.1, and PDDL 2.2
/// for derived predicates), the variables having their objects in the slots. The slots are
/// unchanged afterwards, and no memory is taken.
pub fn holds<L: Look>(
    task: &Task,
    look: &L,
    state: &State,
    formula: &Formula,
    env: &mut Env,
) -> bool
    requires fit { IsFit task.now }
    requires readable { is_readable task.now.domain formula.now ≡ true }
    ensures value { result ≡ is_true task.now.domain (L.known look.now) state.now formula.now
        env.old }
    ensures same { env.new ≡ env.old }
{
    let scene = Scene { task, look, state };
    truth(&scene, task.domain.derived.len(), formula, env)
}
