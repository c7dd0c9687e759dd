//! Conditions under the objects of their variables.
ghost use Rattle.std.specs.Prelude.{◌≡◌, ◌<◌, length, true};
ghost use Rattle.formula_eval.specs.Readable.{is_readable, are_readable};
ghost use Rattle.task_model.specs.Condition.{parts_of};
ghost use Rattle.task_model.specs.Fit.{IsFitDomain};

use crate::inner::Exists;
use crate::net::{Joint, Literal, Net, Pending};
use crate::reached::Reached;
use crate::rules::MOST_PARTS;
use crate::tuples::{filled, tuples};
use formula_eval::{Env, have_types, object_of, objects_at};
use std::alloc::{AllocError, Global};
use task_model::{Atom, Fact, Formula, FormulaNode, Kind, Look, Obj, Role, Row, Task};

/// What conditions are looked at over.
#[derive(Drop)]
pub(crate) struct Scene<'a, 'b, L: Look> {
    pub(crate) alloc: Global,
    pub(crate) task: &'a Task,
    pub(crate) look: &'a L,
    /// What is reached, or None where that isn't known yet. Then of conditions only the fluent atoms
    /// at their top count.
    pub(crate) reached: Option<&'b Reached>,
}

impl<'a, 'b, L: Look> Scene<'a, 'b, L> {
    /// Whether the fluent atom is reached, as far as is known.
    pub(crate) fn is_reached(&self, atom: &Atom) -> bool {
        self.reached.is_none_or(|reached| reached.has(atom))
    }

    /// Whether the step at this place is reached, as far as is known.
    pub(crate) fn is_step_reached(&self, place: usize) -> bool {
        self.reached.is_none_or(|reached| reached.has_step(place))
    }
}

/// Puts a part that doesn't decide the whole behind the others, if it is a fact, and answers the
/// whole where it does. Fails only where memory is wanting.
fn gather(
    joint: Joint,
    part: Literal,
    facts: &mut Vec<u32>,
) -> Result<Option<Literal>, AllocError> {
    let whole = joint.decided_by(part);
    if whole.is_none() {
        if let Literal::Fact(fact) = part {
            facts.push(fact)?;
        }
    }
    Ok(whole)
}

/// What it comes to that the condition is true or false, as wanted. Nothing is said of it where
/// there is no room any more. Fails only where memory is wanting.
#[cycle(literal)]
pub(crate) fn literal<L: Look>(
    scene: &Scene<'_, '_, L>,
    net: &mut Net,
    condition: &Formula,
    slots: &[Obj; 16],
    wanted: bool,
) -> Result<Literal, AllocError>
    requires fit { IsFitDomain scene.now.task.now.domain }
    requires readable { is_readable scene.now.task.now.domain condition.now ≡ true }
{
    if net.rules.is_full() {
        return Ok(Literal::Never);
    }
    match &condition.node {
        FormulaNode::Atom { pred, args } => {
            let args = objects_at(scene.alloc, args.as_slice(), &Env::new(slots.as_slice()));
            atom_literal(scene, net, *pred, args, wanted)
        }
        FormulaNode::Equal(first, second) => {
            let env = Env::new(slots.as_slice());
            let is_same = object_of(*first, &env) == object_of(*second, &env);
            Ok(Literal::known(is_same == wanted))
        }
        FormulaNode::All(parts) => {
            let joint = Joint::all_if(wanted);
            parts_literal(scene, net, parts.as_slice(), slots, wanted, joint)
        }
        FormulaNode::Any(parts) => {
            let joint = Joint::all_if(!wanted);
            parts_literal(scene, net, parts.as_slice(), slots, wanted, joint)
        }
        FormulaNode::Not(part) => literal(scene, net, part, slots, !wanted),
        FormulaNode::Exists { first, sorts, body } => {
            let exists = Exists {
                first: *first,
                sorts: sorts.as_slice(),
                body,
                slots: *slots,
            };
            match tuples(scene, &exists)? {
                Some(tuples) => tuples_literal(scene, net, body, tuples.as_slice(), wanted),
                None => {
                    net.rules.fill();
                    Ok(Literal::Never)
                }
            }
        }
    }
}

/// What it comes to that all of the parts, or any, are true or false, as wanted.
#[cycle(literal)]
fn parts_literal<L: Look>(
    scene: &Scene<'_, '_, L>,
    net: &mut Net,
    parts: &[Formula],
    slots: &[Obj; 16],
    wanted: bool,
    joint: Joint,
) -> Result<Literal, AllocError>
    requires fit { IsFitDomain scene.now.task.now.domain }
    requires readable { are_readable scene.now.task.now.domain (parts_of parts.now) ≡ true }
{
    let mut facts = Vec::new(scene.alloc);
    for part in parts {
        let part = literal(scene, net, part, slots, wanted)?;
        if let Some(whole) = gather(joint, part, &mut facts)? {
            return Ok(whole);
        }
    }
    net.whole(joint, facts)
}

/// What it comes to that the body is true under some of the tuples, if that is wanted, or else
/// false under all of them.
#[cycle(literal)]
fn tuples_literal<L: Look>(
    scene: &Scene<'_, '_, L>,
    net: &mut Net,
    body: &Formula,
    tuples: &[[Obj; 16]],
    wanted: bool,
) -> Result<Literal, AllocError>
    requires fit { IsFitDomain scene.now.task.now.domain }
    requires readable { is_readable scene.now.task.now.domain body.now ≡ true }
{
    let joint = Joint::all_if(!wanted);
    let mut facts = Vec::new(scene.alloc);
    net.rules.count(tuples.len());
    for slots in tuples {
        let part = literal(scene, net, body, slots, wanted)?;
        if let Some(whole) = gather(joint, part, &mut facts)? {
            return Ok(whole);
        }
    }
    net.whole(joint, facts)
}

/// What it comes to that the atom is true or false, as wanted.
fn atom_literal<L: Look>(
    scene: &Scene<'_, '_, L>,
    net: &mut Net,
    pred: u32,
    args: Row,
    wanted: bool,
) -> Result<Literal, AllocError>
    requires fit { IsFitDomain scene.now.task.now.domain }
    requires predicate { pred < length scene.now.task.now.domain.predicates }
{
    match scene.task.domain.roles.as_slice()[pred as usize] {
        Role::Static => {
            let kind = Kind::Predicate;
            let name = pred;
            let is_known = scene.look.has(&Fact { kind, name, args });
            Ok(Literal::known(is_known == wanted))
        }
        Role::Fluent => {
            let atom = Atom { pred, args };
            if scene.is_reached(&atom) {
                Ok(Literal::Fact(net.fluent(&atom, wanted)?))
            } else {
                Ok(Literal::known(!wanted))
            }
        }
        Role::Derived => Ok(Literal::Fact(net.derived(Atom { pred, args }, wanted)?)),
    }
}

/// What it comes to that some item gives the derived atom, if that is wanted, or else that none
/// does.
fn items_literal<L: Look>(
    scene: &Scene<'_, '_, L>,
    net: &mut Net,
    atom: &Atom,
    wanted: bool,
) -> Result<Literal, AllocError>
    requires { IsFitDomain scene.now.task.now.domain }
{
    let joint = Joint::all_if(!wanted);
    let mut facts = Vec::new(scene.alloc);
    let args = atom.args.as_slice();
    for item in scene.task.domain.derived.as_slice() {
        if item.pred == atom.pred
            && have_types(scene.alloc, scene.look, args, item.params.as_slice())
        {
            let part = literal(scene, net, &item.body, &filled(args), wanted)?;
            if let Some(whole) = gather(joint, part, &mut facts)? {
                return Ok(whole);
            }
        }
    }
    net.whole(joint, facts)
}

/// Looks at the items of all derived atoms on which something rests. Fails only where memory is
/// wanting.
pub(crate) fn settle<L: Look>(scene: &Scene<'_, '_, L>, net: &mut Net) -> Result<(), AllocError>
    requires { IsFitDomain scene.now.task.now.domain }
{
    for _ in 0..MOST_PARTS {
        let Some(Pending { atom, wanted, fact }) = net.next() else {
            break;
        };
        match items_literal(scene, net, &atom, wanted)? {
            Literal::Always => net.rules.add(0, &[], &[fact])?,
            Literal::Never => {}
            Literal::Fact(whole) => net.rules.add(0, &[whole], &[fact])?,
        }
    }
    Ok(())
}
