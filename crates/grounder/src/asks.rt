//! What conditions ask of the atoms of a state.
ghost use Rattle.std.specs.Prelude.{◌≡◌, ◌≤◌, length, map, true, All, IfOk, IfSome, Some};
ghost use Rattle.std.specs.List.{list_all};
ghost use Rattle.formula_eval.specs.Readable.{is_readable};
ghost use Rattle.lemmas.specs.Lists.{AreDistinct};
ghost use Rattle.state_store.specs.Rows.{AddsAtoms};
ghost use Rattle.task_model.specs.Fit.{IsFitDomain};
ghost use Rattle.task_model.specs.State.{contains};
ghost use Rattle.task_model.specs.Truth.{slots_of};
ghost use Rattle.grounder.specs.Asks.{AreAsks, AreNumbers, IsAsk, is_met, is_within};
ghost use Rattle.grounder.specs.Parts.{fluent_in, tops_of};
ghost use Rattle.task_model.specs.declared.limits.TheConstants.{SLOTS};

use crate::atoms::{fluent_atom, static_atom, tops};
use formula_eval::Env;
use state_store::{AtomSet, numbers_of};
use std::alloc::{AllocError, Global};
use task_model::{Atom, Domain, Formula, FormulaNode, Seq, State, Wide};

/// What a part at the top of an action's condition asks of a state, for each row of arguments.
#[derive(Drop)]
pub(crate) enum Ask {
    /// Nothing: it is an atom of a static predicate.
    Nothing,
    /// That the atom with this number is in the state, one for each row.
    There(Seq<u32>),
    /// That it is not.
    Missing(Seq<u32>),
    /// What is to be judged.
    Judged,
}

impl Ask {
    ghost use Rattle.std.specs.Prelude.{◌≡◌};
    ghost use Rattle.grounder.specs.Asks.{is_judged};

    /// Whether it is to be judged.
    pub(crate) fn is_judged(&self) -> bool
        ensures { result ≡ is_judged self.now }
    {
        matches!(self, Ask::Judged)
    }
}

/// The atoms that the condition stands for with these rows of arguments, if it is one of a fluent.
/// Fails only where memory is wanting.
fn atoms_for(
    alloc: Global,
    domain: &Domain,
    condition: &Formula,
    rows: &[Wide],
) -> Result<Option<Vec<Atom>>, AllocError>
    requires fit { IsFitDomain domain.now }
    requires readable { is_readable domain.now condition.now ≡ true }
    requires few { All (λ args. length args ≤ SLOTS) rows.now }
    ensures { IfOk result (λ found. IfSome found (λ atoms. map Some atoms.items
        ≡ map (λ args. fluent_in domain.now (slots_of args) condition.now) rows.now)) }
{
    let mut atoms = Vec::new(alloc);
    for args in rows {
        let env = Env::new(args.as_slice());
        match fluent_atom(alloc, domain, condition, &env) {
            Some(atom) => atoms.push(atom)?,
            None => return Ok(None),
        }
    }
    Ok(Some(atoms))
}

/// The numbers of these atoms, if there are such; those that are new are put behind the others.
/// Fails only where memory is wanting.
fn numbers_for(
    alloc: Global,
    numbered: &mut AtomSet,
    domain: &Domain,
    condition: &Formula,
    rows: &[Wide],
) -> Result<Option<Seq<u32>>, AllocError>
    requires fit { IsFitDomain domain.now }
    requires readable { is_readable domain.now condition.now ≡ true }
    requires few { All (λ args. length args ≤ SLOTS) rows.now }
    requires numbered { AreDistinct numbered.old.keys }
    ensures numbers { IfOk result (λ found. IfSome found
        (AreNumbers domain.now condition.now rows.now numbered.new.keys)) }
    ensures grows { AddsAtoms numbered.old.keys numbered.new.keys }
    ensures distinct { AreDistinct numbered.new.keys }
{
    let Some(atoms) = atoms_for(alloc, domain, condition, rows)? else {
        return Ok(None);
    };
    let numbers = numbers_of(alloc, numbered, atoms.as_slice())?;
    Ok(Some(Seq::from_vec(numbers)))
}

/// What the part asks of a state for these rows of arguments. Fails only where memory is wanting.
fn ask_of(
    alloc: Global,
    numbered: &mut AtomSet,
    domain: &Domain,
    part: &Formula,
    rows: &[Wide],
) -> Result<Ask, AllocError>
    requires fit { IsFitDomain domain.now }
    requires readable { is_readable domain.now part.now ≡ true }
    requires few { All (λ args. length args ≤ SLOTS) rows.now }
    requires numbered { AreDistinct numbered.old.keys }
    ensures ask { IfOk result (IsAsk domain.now part.now rows.now numbered.new.keys) }
    ensures grows { AddsAtoms numbered.old.keys numbered.new.keys }
    ensures distinct { AreDistinct numbered.new.keys }
{
    if static_atom(domain, part).is_some() {
        return Ok(Ask::Nothing);
    }
    if let FormulaNode::Not(inner) = &part.node {
        return match numbers_for(alloc, numbered, domain, inner, rows)? {
            Some(numbers) => Ok(Ask::Missing(numbers)),
            None => Ok(Ask::Judged),
        };
    }
    match numbers_for(alloc, numbered, domain, part, rows)? {
        Some(numbers) => Ok(Ask::There(numbers)),
        None => Ok(Ask::Judged),
    }
}

/// What the parts at the top of a condition ask of a state for these rows of arguments. Fails only
/// where memory is wanting.
pub(crate) fn asks_of(
    alloc: Global,
    numbered: &mut AtomSet,
    domain: &Domain,
    condition: &Formula,
    rows: &[Wide],
) -> Result<Seq<Ask>, AllocError>
    requires fit { IsFitDomain domain.now }
    requires readable { is_readable domain.now condition.now ≡ true }
    requires few { All (λ args. length args ≤ SLOTS) rows.now }
    requires numbered { AreDistinct numbered.old.keys }
    ensures asks { IfOk result
        (AreAsks domain.now (tops_of condition.now) rows.now numbered.new.keys) }
    ensures grows { AddsAtoms numbered.old.keys numbered.new.keys }
    ensures distinct { AreDistinct numbered.new.keys }
{
    let mut asks = Vec::new(alloc);
    for part in tops(condition) {
        asks.push(ask_of(alloc, numbered, domain, part, rows)?)?;
    }
    Ok(Seq::from_vec(asks))
}

/// Of each of the atoms, whether it is in the state. Fails only where memory is wanting.
pub(crate) fn marks_of(
    alloc: Global,
    numbered: &AtomSet,
    state: &State,
) -> Result<Vec<bool>, AllocError>
    requires { AreDistinct numbered.now.keys }
    ensures { IfOk result (λ marks. marks.items ≡ map (contains state.now) numbered.now.keys) }
{
    let mut marks = vec![in alloc; false; numbered.len()]?;
    for atom in state.as_slice() {
        if let Some(place) = numbered.get_index_of(atom) {
            marks[place] = true;
        }
    }
    Ok(marks)
}

/// Whether what the parts ask for this row of arguments is so, as far as it needs no judging.
pub(crate) fn are_met(asks: &[Ask], row: usize, marks: &[bool]) -> bool
    requires { list_all (is_within row (length marks.now)) asks.now ≡ true }
    ensures { result ≡ list_all (is_met marks.now row) asks.now }
{
    for ask in asks {
        let is_so = match ask {
            Ask::There(numbers) => marks[numbers.as_slice()[row] as usize],
            Ask::Missing(numbers) => !marks[numbers.as_slice()[row] as usize],
            Ask::Nothing | Ask::Judged => true,
        };
        if !is_so {
            return false;
        }
    }
    true
}
