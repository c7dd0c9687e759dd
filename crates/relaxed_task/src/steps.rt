//! Steps as rules.
ghost use Rattle.std.specs.Prelude.{◌≡◌, ◌≤◌, length, true};
ghost use Rattle.std.specs.List.{list_all};
ghost use Rattle.formula_eval.specs.Readable.{is_readable};
ghost use Rattle.grounder.specs.Candidates.{AreCandidates, AreCandidateRows};
ghost use Rattle.plan_check.specs.Readable.{is_readable_pattern};
ghost use Rattle.task_model.specs.Fit.{IsFit, is_fit_action};
ghost use Rattle.task_model.specs.declared.limits.TheConstants.{SLOTS};

use crate::conditions::{Scene, literal};
use crate::lists::number;
use crate::net::{Literal, Net};
use crate::tuples::filled;
use formula_eval::{Env, objects_at};
use grounder::{Candidates, fluent_atom, tops};
use plan_check::step_cost;
use std::alloc::{AllocError, Global};
use task_model::{
    Action, Atom, Domain, Formula, FormulaNode, Look, Obj, Pattern, Role, State, Wide,
};

/// What it comes to that a part at the top of a condition is true.
fn part_literal<L: Look>(
    scene: &Scene<'_, '_, L>,
    net: &mut Net,
    part: &Formula,
    slots: &[Obj; 16],
) -> Result<Literal, AllocError>
    requires fit { IsFit scene.now.task.now }
    requires readable { is_readable scene.now.task.now.domain part.now ≡ true }
{
    if scene.reached.is_some() {
        return literal(scene, net, part, slots, true);
    }
    let env = Env::new(slots.as_slice());
    match fluent_atom(scene.alloc, &scene.task.domain, part, &env) {
        Some(atom) => Ok(Literal::Fact(net.fluent(&atom, true)?)),
        None => Ok(Literal::Always),
    }
}

/// Whether the part is an atom of a static predicate.
fn is_static_atom(domain: &Domain, part: &Formula) -> bool {
    let FormulaNode::Atom { pred, .. } = &part.node else {
        return false;
    };
    matches!(
        domain.roles.as_slice().get(*pred as usize),
        Some(Role::Static)
    )
}

/// Puts the facts that the condition needs in the place of these, and answers whether it may be true.
/// Its static atoms at the top aren't looked at where they are known to be true.
pub(crate) fn put_needs<L: Look>(
    scene: &Scene<'_, '_, L>,
    net: &mut Net,
    condition: &Formula,
    slots: &[Obj; 16],
    are_known: bool,
    facts: &mut Vec<u32>,
) -> Result<bool, AllocError>
    requires fit { IsFit scene.now.task.now }
    requires readable { is_readable scene.now.task.now.domain condition.now ≡ true }
{
    facts.clear();
    for part in tops(condition) {
        if are_known && is_static_atom(&scene.task.domain, part) {
            continue;
        }
        match part_literal(scene, net, part, slots)? {
            Literal::Always => {}
            Literal::Never => return Ok(false),
            Literal::Fact(fact) => facts.push(fact)?,
        }
    }
    facts.sort_unstable();
    facts.dedup();
    Ok(true)
}

/// The atom of the pattern where the slots have these objects.
fn atom_of(alloc: Global, pattern: &Pattern, env: &Env) -> Atom
    requires { is_readable_pattern pattern.now ≡ true }
{
    Atom {
        pred: pattern.pred,
        args: objects_at(alloc, pattern.args.as_slice(), env),
    }
}

/// Whether one of the patterns is this atom.
fn is_one_of(alloc: Global, patterns: &[Pattern], env: &Env, atom: &Atom) -> bool
    requires { list_all is_readable_pattern patterns.now ≡ true }
{
    for pattern in patterns {
        if pattern.pred == atom.pred && atom_of(alloc, pattern, env) == *atom {
            return true;
        }
    }
    false
}

/// Puts the facts that these atoms are true behind the others.
fn put_added<L: Look>(
    scene: &Scene<'_, '_, L>,
    net: &mut Net,
    adds: &[Pattern],
    env: &Env,
    facts: &mut Vec<u32>,
) -> Result<(), AllocError>
    requires { list_all is_readable_pattern adds.now ≡ true }
{
    for pattern in adds {
        let atom = atom_of(scene.alloc, pattern, env);
        facts.push(net.fluent(&atom, true)?)?;
    }
    Ok(())
}

/// Puts the facts behind the others that those of the atoms are false which are reached and aren't
/// added.
fn put_deleted<L: Look>(
    scene: &Scene<'_, '_, L>,
    net: &mut Net,
    adds: &[Pattern],
    deletes: &[Pattern],
    env: &Env,
    facts: &mut Vec<u32>,
) -> Result<(), AllocError>
    requires adds { list_all is_readable_pattern adds.now ≡ true }
    requires deletes { list_all is_readable_pattern deletes.now ≡ true }
{
    for pattern in deletes {
        let atom = atom_of(scene.alloc, pattern, env);
        if scene.is_reached(&atom) && !is_one_of(scene.alloc, adds, env, &atom) {
            facts.push(net.fluent(&atom, false)?)?;
        }
    }
    Ok(())
}

/// Puts the facts that the action gives with these objects in the place of these: what it adds, and,
/// where it is known what is reached, that what it deletes is false.
fn put_gives<L: Look>(
    scene: &Scene<'_, '_, L>,
    net: &mut Net,
    action: &Action,
    objects: &[Obj],
    facts: &mut Vec<u32>,
) -> Result<(), AllocError>
    requires few { length objects.now ≤ SLOTS }
    requires adds { list_all is_readable_pattern action.now.adds ≡ true }
    requires deletes { list_all is_readable_pattern action.now.deletes ≡ true }
{
    let env = Env::new(objects);
    let adds = action.adds.as_slice();
    facts.clear();
    put_added(scene, net, adds, &env, facts)?;
    if scene.reached.is_some() {
        put_deleted(scene, net, adds, action.deletes.as_slice(), &env, facts)?;
    }
    Ok(())
}

/// What a rule needs and gives, in room that each takes over from the one before.
#[derive(Drop)]
struct Draft {
    needs: Vec<u32>,
    gives: Vec<u32>,
}

/// The rule of the action with these objects, if its cost has a value and its condition may be true:
/// its static atoms at the top are.
fn add_rule<L: Look>(
    scene: &Scene<'_, '_, L>,
    net: &mut Net,
    draft: &mut Draft,
    action: &Action,
    objects: &[Obj],
) -> Result<Option<u32>, AllocError>
    requires fit { IsFit scene.now.task.now }
    requires action { is_fit_action scene.now.task.now.domain action.now ≡ true }
    requires few { length objects.now ≤ SLOTS }
{
    let state = State::new(scene.alloc);
    let Some(cost) = step_cost(scene.task, scene.look, &state, action, objects) else {
        return Ok(None);
    };
    let slots = filled(objects);
    if !put_needs(
        scene,
        net,
        &action.condition,
        &slots,
        true,
        &mut draft.needs,
    )? {
        return Ok(None);
    }
    put_gives(scene, net, action, objects, &mut draft.gives)?;
    net.count_step(cost);
    let rule = number(net.rules.len());
    net.rules
        .add(1, draft.needs.as_slice(), draft.gives.as_slice())?;
    Ok(Some(rule))
}

/// Adds the rules of the action with these rows of objects, as long as there is room: those that are
/// reached, as far as is known.
fn add_rows<L: Look>(
    scene: &Scene<'_, '_, L>,
    net: &mut Net,
    action: &Action,
    rows: &[Wide],
) -> Result<(), AllocError>
    requires fit { IsFit scene.now.task.now }
    requires action { is_fit_action scene.now.task.now.domain action.now ≡ true }
    requires rows { AreCandidateRows scene.now.task.now.domain (L.known scene.now.look.now)
        action.now rows.now }
{
    let mut draft = Draft {
        needs: Vec::new(scene.alloc),
        gives: Vec::new(scene.alloc),
    };
    for objects in rows {
        let rule = if scene.is_step_reached(net.steps.len()) {
            add_rule(scene, net, &mut draft, action, objects.as_slice())?
        } else {
            None
        };
        net.steps.push(rule)?;
        if net.rules.is_full() {
            break;
        }
    }
    Ok(())
}

/// Adds the rules of all actions, as long as there is room, and answers whether all their arguments
/// are known.
pub(crate) fn add_steps<L: Look>(
    scene: &Scene<'_, '_, L>,
    net: &mut Net,
    candidates: &Candidates,
) -> Result<bool, AllocError>
    requires fit { IsFit scene.now.task.now }
    requires candidates { AreCandidates scene.now.task.now (L.known scene.now.look.now)
        candidates.now }
{
    for (number, action) in scene.task.domain.actions.as_slice().iter().enumerate() {
        let Some(rows) = &candidates.actions.as_slice()[number] else {
            return Ok(false);
        };
        add_rows(scene, net, action, rows.as_slice())?;
    }
    Ok(true)
}
