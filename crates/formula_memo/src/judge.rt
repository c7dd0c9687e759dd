//! Truth of conditions, where derived atoms are remembered.
ghost use Rattle.std.specs.Prelude.{◌≡◌, ◌+◌, ◌<◌, ◌∷◌, suc, length, true, Contains, IfOk, slice_set};
ghost use Rattle.task_model.specs.Condition.{parts_of};
ghost use Rattle.task_model.specs.Roles.{role_of};
ghost use Rattle.task_model.specs.declared.domain.Role.TheVariants as role;
ghost use Rattle.formula_eval.specs.Readable.{is_readable, are_readable};
ghost use Rattle.formula_memo.specs.Rests.{AllRest, PartsRest, RestsWithin};
ghost use Rattle.formula_memo.specs.Scenes.{CanSeek, IsSameBut, StandsIn, are_true_in, follows_in, is_any_in, is_derived_in, is_some_in, is_true_in, truth_in};
ghost use Rattle.formula_memo.specs.Tries.{is_passed};

use crate::choice::lead_for;
use crate::memo::Memo;
use crate::scene::{Scene, Sought};
use crate::tries::{places, tried_object};
use formula_eval::{Env, have_types, object_of, objects_at};
use std::alloc::AllocError;
use task_model::{Atom, Derived, Fact, Formula, FormulaNode, Kind, Look, Obj, Role, Row};

/// Whether the condition is true, whose predicates rest on derived predicates at most `depth` deep.
#[cycle(truth)]
pub(crate) fn truth<L: Look>(
    scene: &Scene<'_, L>,
    memo: &mut Memo,
    depth: usize,
    formula: &Formula,
    env: &mut Env,
) -> Result<bool, AllocError>
    requires readable { is_readable scene.now.task.now.domain formula.now ≡ true }
    requires rests { AllRest scene.now.task.now.domain depth formula.now }
    requires stands { StandsIn scene.now memo.old }
    ensures value { IfOk result
        (λ value. value ≡ is_true_in scene.now formula.now env.old) }
    ensures same { env.new ≡ env.old }
    ensures stands { StandsIn scene.now memo.new }
{
    match &formula.node {
        FormulaNode::Atom { pred, args } => {
            let row = objects_at(scene.state.allocator(), args.as_slice(), env);
            atom(scene, memo, depth, *pred, row)
        }
        FormulaNode::Equal(first, second) => {
            Ok(object_of(*first, env) == object_of(*second, env))
        }
        FormulaNode::All(parts) => all_true(scene, memo, depth, parts.as_slice(), env),
        FormulaNode::Any(parts) => any_true(scene, memo, depth, parts.as_slice(), env),
        FormulaNode::Not(part) => Ok(!truth(scene, memo, depth, part, env)?),
        FormulaNode::Exists { first, sorts, body } => {
            let left = Sought {
                first: *first,
                sorts: sorts.as_slice(),
                body,
            };
            some_tuple(scene, memo, depth, &left, env)
        }
    }
}

/// Whether all parts are true.
#[cycle(truth)]
fn all_true<L: Look>(
    scene: &Scene<'_, L>,
    memo: &mut Memo,
    depth: usize,
    parts: &[Formula],
    env: &mut Env,
) -> Result<bool, AllocError>
    requires readable { are_readable scene.now.task.now.domain (parts_of parts.now) ≡ true }
    requires rests { PartsRest scene.now.task.now.domain depth (parts_of parts.now) }
    requires stands { StandsIn scene.now memo.old }
    ensures value { IfOk result
        (λ value. value ≡ are_true_in scene.now (parts_of parts.now) env.old) }
    ensures same { env.new ≡ env.old }
    ensures stands { StandsIn scene.now memo.new }
{
    for part in parts {
        let is_true = truth(scene, memo, depth, part, env)?;
        if !is_true {
            return Ok(false);
        }
    }
    Ok(true)
}

/// Whether some part is true.
#[cycle(truth)]
fn any_true<L: Look>(
    scene: &Scene<'_, L>,
    memo: &mut Memo,
    depth: usize,
    parts: &[Formula],
    env: &mut Env,
) -> Result<bool, AllocError>
    requires readable { are_readable scene.now.task.now.domain (parts_of parts.now) ≡ true }
    requires rests { PartsRest scene.now.task.now.domain depth (parts_of parts.now) }
    requires stands { StandsIn scene.now memo.old }
    ensures value { IfOk result
        (λ value. value ≡ is_any_in scene.now (parts_of parts.now) env.old) }
    ensures same { env.new ≡ env.old }
    ensures stands { StandsIn scene.now memo.new }
{
    for part in parts {
        let is_true = truth(scene, memo, depth, part, env)?;
        if is_true {
            return Ok(true);
        }
    }
    Ok(false)
}

/// Whether some objects of the types that are left, put into the slots that are left, make the body
/// true.
#[cycle(truth)]
fn some_tuple<L: Look>(
    scene: &Scene<'_, L>,
    memo: &mut Memo,
    depth: usize,
    left: &Sought<'_>,
    env: &mut Env,
) -> Result<bool, AllocError>
    requires seek { CanSeek scene.now.task.now.domain depth left.now.first
        (length left.now.sorts.now) left.now.body.now }
    requires stands { StandsIn scene.now memo.old }
    ensures value { IfOk result (λ value. value ≡ is_some_in scene.now left.now.first
        left.now.sorts.now left.now.body.now env.old) }
    ensures same { env.new ≡ env.old }
    ensures stands { StandsIn scene.now memo.new }
{
    let Some((sort, rest)) = left.sorts.split_first() else {
        return truth(scene, memo, depth, left.body, env);
    };
    let behind = Sought {
        sorts: rest,
        ..*left
    };
    let kept = env.get(left.first);
    let found = some_object(scene, memo, depth, *sort, &behind, env);
    env.set(left.first, kept);
    found
}

/// Whether some object of this type, put into the slot `left.first`, and objects of the types that
/// are left, put into those behind it, make the body true. The slot may have another object
/// afterwards.
#[cycle(truth)]
fn some_object<L: Look>(
    scene: &Scene<'_, L>,
    memo: &mut Memo,
    depth: usize,
    sort: u32,
    left: &Sought<'_>,
    env: &mut Env,
) -> Result<bool, AllocError>
    requires seek { CanSeek scene.now.task.now.domain depth left.now.first
        (suc (length left.now.sorts.now)) left.now.body.now }
    requires inside { left.now.first < length env.old }
    requires stands { StandsIn scene.now memo.old }
    ensures value { IfOk result (λ value. value ≡ is_some_in scene.now left.now.first
        (sort ∷ left.now.sorts.now) left.now.body.now env.old) }
    ensures same { IsSameBut left.now.first env.old env.new }
    ensures stands { StandsIn scene.now memo.new }
{
    let lead = lead_for(scene, sort, left.first, left.body, env);
    for place in 0..places(scene, sort, &lead) {
        let tried = tried_object(scene, sort, left.first, &lead, place, env);
        let found = passes(scene, memo, depth, tried, left, env)?;
        if found {
            return Ok(true);
        }
    }
    Ok(false)
}

/// Whether there is an object that, put into the slot `left.first`, with objects of the types that
/// are left behind it makes the body true. The slot may have another object afterwards.
#[cycle(truth)]
fn passes<L: Look>(
    scene: &Scene<'_, L>,
    memo: &mut Memo,
    depth: usize,
    tried: Option<Obj>,
    left: &Sought<'_>,
    env: &mut Env,
) -> Result<bool, AllocError>
    requires seek { CanSeek scene.now.task.now.domain depth left.now.first
        (suc (length left.now.sorts.now)) left.now.body.now }
    requires stands { StandsIn scene.now memo.old }
    ensures value { IfOk result (λ found. found ≡ is_passed (λ o. is_some_in scene.now
        (left.now.first + 1) left.now.sorts.now left.now.body.now
        (slice_set env.old left.now.first o)) tried) }
    ensures same { IsSameBut left.now.first env.old env.new }
    ensures stands { StandsIn scene.now memo.new }
{
    let Some(object) = tried else {
        return Ok(false);
    };
    env.set(left.first, object);
    let behind = Sought {
        first: left.first + 1,
        ..*left
    };
    some_tuple(scene, memo, depth, &behind, env)
}

/// Whether the atom is true.
#[cycle(truth)]
fn atom<L: Look>(
    scene: &Scene<'_, L>,
    memo: &mut Memo,
    depth: usize,
    pred: u32,
    args: Row,
) -> Result<bool, AllocError>
    requires predicate { pred < length scene.now.task.now.domain.predicates }
    requires rests { RestsWithin scene.now.task.now.domain depth pred }
    requires stands { StandsIn scene.now memo.old }
    ensures value { IfOk result
        (λ value. value ≡ truth_in scene.now (record { pred = pred; args = args })) }
    ensures stands { StandsIn scene.now memo.new }
{
    match scene.task.domain.roles.as_slice()[pred as usize] {
        Role::Static => {
            let kind = Kind::Predicate;
            Ok(
                scene.look.has(&Fact {
                    kind,
                    name: pred,
                    args,
                }),
            )
        }
        Role::Fluent => Ok(scene.state.has(&Atom { pred, args })),
        Role::Derived => derived_atom(scene, memo, depth, Atom { pred, args }),
    }
}

/// Whether the atom of a derived predicate is true: that is judged unless it is remembered.
#[cycle(truth)]
fn derived_atom<L: Look>(
    scene: &Scene<'_, L>,
    memo: &mut Memo,
    depth: usize,
    atom: Atom,
) -> Result<bool, AllocError>
    requires role { role_of scene.now.task.now.domain atom.pred ≡ role.Derived }
    requires rests { RestsWithin scene.now.task.now.domain depth atom.pred }
    requires stands { StandsIn scene.now memo.old }
    ensures value { IfOk result (λ value. value ≡ truth_in scene.now atom) }
    ensures stands { StandsIn scene.now memo.new }
{
    if let Some(value) = memo.recall(&atom) {
        return Ok(value);
    }
    let Some(below) = depth.checked_sub(1) else {
        unreachable!()
    };
    let value = derived(scene, memo, below, atom.pred, atom.args.as_slice())?;
    memo.note(atom, value)?;
    Ok(value)
}

/// Whether the derived atom follows by an item, whose body rests on derived predicates at most
/// `depth` deep.
#[cycle(truth)]
fn derived<L: Look>(
    scene: &Scene<'_, L>,
    memo: &mut Memo,
    depth: usize,
    pred: u32,
    args: &[Obj],
) -> Result<bool, AllocError>
    requires rests { RestsWithin scene.now.task.now.domain (suc depth) pred }
    requires stands { StandsIn scene.now memo.old }
    ensures value { IfOk result (λ value. value ≡ is_derived_in scene.now pred args.now) }
    ensures stands { StandsIn scene.now memo.new }
{
    for item in scene.task.domain.derived.as_slice() {
        let follows = follows_by(scene, memo, depth, item, pred, args)?;
        if follows {
            return Ok(true);
        }
    }
    Ok(false)
}

/// Whether the derived atom follows by this item of the task.
#[cycle(truth)]
fn follows_by<L: Look>(
    scene: &Scene<'_, L>,
    memo: &mut Memo,
    depth: usize,
    item: &Derived,
    pred: u32,
    args: &[Obj],
) -> Result<bool, AllocError>
    requires there { Contains scene.now.task.now.domain.derived item.now }
    requires rests { RestsWithin scene.now.task.now.domain (suc depth) pred }
    requires stands { StandsIn scene.now memo.old }
    ensures value { IfOk result
        (λ value. value ≡ follows_in scene.now pred args.now item.now) }
    ensures stands { StandsIn scene.now memo.new }
{
    let alloc = scene.state.allocator();
    if item.pred != pred || !have_types(alloc, scene.look, args, item.params.as_slice()) {
        return Ok(false);
    }
    let mut env = Env::new(args);
    truth(scene, memo, depth, &item.body, &mut env)
}
