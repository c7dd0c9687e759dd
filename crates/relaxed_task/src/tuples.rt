//! The objects that an `exists` may mean.
ghost use Rattle.std.specs.Prelude.{◌≡◌, ◌≤◌, IfOk, IfSome, length, true};
ghost use Rattle.std.specs.List.{list_all};
ghost use Rattle.fact_join.specs.Answers.{is_atom_over, is_pattern_of};
ghost use Rattle.formula_eval.specs.Readable.{is_readable};
ghost use Rattle.task_model.specs.Fit.{IsFitDomain};
ghost use Rattle.task_model.specs.declared.limits.TheConstants.{SLOTS};

use crate::conditions::Scene;
use crate::inner::Exists;
use fact_join::{JoinFault, Partial, Query, QueryAtom, Wanted, join};
use std::alloc::{AllocError, Global};
use task_model::{Look, Obj, Pattern, Role, Term, Wide};

/// The most tuples of one `exists`.
const MOST_TUPLES: usize = 100_000;

/// Any tuple is wanted.
#[derive(Clone, Copy, Debug)]
struct Anything;

impl Wanted for Anything {
    ghost use Rattle.std.specs.Prelude.{true};

    ghost can_judge = { λ _ _. Unit {0} };

    ghost wants = { λ _ _. true };

    /// Whether the tuple is wanted: it is.
    fn wants(&self, _args: &[Obj]) -> bool {
        true
    }
}

/// The slots with these objects in them from `first` on.
fn with_objects(slots: &[Obj; 16], first: u8, objects: &[Obj]) -> [Obj; 16] {
    let mut slots = *slots;
    for (slot, object) in slots.iter_mut().skip(first as usize).zip(objects) {
        *slot = *object;
    }
    slots
}

/// Slots of which the first have these objects.
pub(crate) fn filled(objects: &[Obj]) -> [Obj; 16] {
    with_objects(&[Obj::new(0); 16], 0, objects)
}

/// Whether one of the terms is a variable.
fn has_variable(atom: &Pattern) -> bool {
    for term in atom.args.as_slice() {
        if let Term::Slot(_) = term {
            return true;
        }
    }
    false
}

/// The first of the atoms that has a variable.
fn lead_of(atoms: &[Pattern], width: usize) -> Option<&Pattern>
    requires { list_all (is_pattern_of width) atoms.now ≡ true }
    ensures { IfSome result (λ atom. is_pattern_of width atom.now ≡ true) }
{
    for atom in atoms {
        if has_variable(atom) {
            return Some(atom);
        }
    }
    None
}

/// Puts the tuples behind the rows that make the atoms known facts, and the lead, if there is one, an
/// atom that is reached.
fn add_rows<L: Look>(
    scene: &Scene<'_, '_, L>,
    query: &Query<'_, L, Anything>,
    lead: Option<&Pattern>,
    atoms: &[QueryAtom<'_>],
    rows: &mut Vec<Wide>,
) -> Result<(), JoinFault>
    requires narrow { length query.now.sorts.now ≤ SLOTS }
    requires lead { IfSome lead (λ atom. is_pattern_of (length query.now.sorts.now) atom.now ≡ true) }
    requires atoms { list_all (is_atom_over (length query.now.sorts.now)) atoms.now ≡ true }
    requires few { length rows.old.items ≤ query.now.most }
{
    let (Some(lead), Some(reached)) = (lead, scene.reached) else {
        return join(query, &Partial::new(), atoms, rows);
    };
    for number in reached.numbers(lead.pred) {
        if let Some(atom) = reached.atom(*number) {
            if let Some(partial) = Partial::new().fit(lead.args.as_slice(), atom.args.as_slice()) {
                join(query, &partial, atoms, rows)?;
            }
        }
    }
    Ok(())
}

/// The patterns as atoms of a query. Fails only where memory is wanting.
fn query_atoms<'a>(
    alloc: Global,
    patterns: &'a [Pattern],
    width: usize,
) -> Result<Vec<QueryAtom<'a>>, AllocError>
    requires { list_all (is_pattern_of width) patterns.now ≡ true }
    ensures { IfOk result (λ atoms. list_all (is_atom_over width) atoms.items ≡ true) }
{
    let mut atoms = Vec::new(alloc);
    for pattern in patterns {
        atoms.push(QueryAtom {
            pred: pattern.pred,
            terms: pattern.args.as_slice(),
        })?;
    }
    Ok(atoms)
}

/// The rows of objects that have the types, make the static atoms at the top of the body known facts
/// and one of its fluent atoms reached, or None where there are too many. Fails only where memory is
/// wanting.
fn rows_of<L: Look>(
    scene: &Scene<'_, '_, L>,
    exists: &Exists<'_>,
) -> Result<Option<Vec<Wide>>, AllocError>
    requires fit { IsFitDomain scene.now.task.now.domain }
    requires readable { is_readable scene.now.task.now.domain exists.now.body.now ≡ true }
    requires narrow { length exists.now.sorts.now ≤ SLOTS }
{
    let domain = &scene.task.domain;
    let statics = exists.inner_atoms(scene.alloc, domain, Role::Static)?;
    let fluents = exists.inner_atoms(scene.alloc, domain, Role::Fluent)?;
    let width = exists.sorts.len();
    let atoms = query_atoms(scene.alloc, statics.as_slice(), width)?;
    let query = Query {
        look: scene.look,
        sorts: exists.sorts,
        wanted: &Anything,
        most: MOST_TUPLES,
        alloc: scene.alloc,
    };
    let mut rows = Vec::new(scene.alloc);
    let lead = lead_of(fluents.as_slice(), width);
    match add_rows(scene, &query, lead, atoms.as_slice(), &mut rows) {
        Ok(()) => Ok(Some(rows)),
        Err(JoinFault::TooMany) => Ok(None),
        Err(JoinFault::Memory) => Err(AllocError),
    }
}

/// The slots with the objects that the `exists` may mean, or None where there are too many. Fails only
/// where memory is wanting.
pub(crate) fn tuples<L: Look>(
    scene: &Scene<'_, '_, L>,
    exists: &Exists<'_>,
) -> Result<Option<Vec<[Obj; 16]>>, AllocError>
    requires fit { IsFitDomain scene.now.task.now.domain }
    requires readable { is_readable scene.now.task.now.domain exists.now.body.now ≡ true }
    requires narrow { length exists.now.sorts.now ≤ SLOTS }
{
    let Some(rows) = rows_of(scene, exists)? else {
        return Ok(None);
    };
    let mut tuples = Vec::with_capacity(scene.alloc, rows.len())?;
    for row in rows.as_slice() {
        tuples.push(with_objects(&exists.slots, exists.first, row.as_slice()))?;
    }
    Ok(Some(tuples))
}
