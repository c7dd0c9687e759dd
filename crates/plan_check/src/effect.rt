//! The state after an action.
ghost use Rattle.std.specs.Prelude.{◌≡◌, ◌≤◌, IfOk, OnOk, length, map, true};
ghost use Rattle.std.specs.List.{list_all};
ghost use Rattle.task_model.specs.State.{Atoms, with_atoms, without_atoms};
ghost use Rattle.task_model.specs.Steps.{atom_of, effect_of};
ghost use Rattle.task_model.specs.Truth.{slots_of};
ghost use Rattle.plan_check.specs.Readable.{is_readable_pattern};
ghost use Rattle.task_model.specs.declared.limits.TheConstants.{SLOTS};

use formula_eval::{Env, objects_at};
use std::alloc::{AllocError, Global};
use task_model::{Action, Atom, Obj, Pattern, State};

/// The pattern's atom where the slots have these objects.
fn pattern_atom(alloc: Global, pattern: &Pattern, env: &Env) -> Atom
    requires { is_readable_pattern pattern.now ≡ true }
    ensures { result ≡ atom_of env.now pattern.now }
{
    let args = objects_at(alloc, pattern.args.as_slice(), env);
    Atom {
        pred: pattern.pred,
        args,
    }
}

/// Takes the patterns' atoms out of the state.
fn take_out(state: &mut State, patterns: &[Pattern], env: &Env)
    requires { list_all is_readable_pattern patterns.now ≡ true }
    ensures { state.new ≡ without_atoms state.old (map (atom_of env.now) patterns.now) }
{
    for pattern in patterns {
        let atom = pattern_atom(state.allocator(), pattern, env);
        state.remove(&atom);
    }
}

/// Puts the patterns' atoms into the state.
fn put_in(state: &mut State, patterns: &[Pattern], env: &Env) -> Result<(), AllocError>
    requires { list_all is_readable_pattern patterns.now ≡ true }
    ensures { OnOk result (state.new ≡ with_atoms state.old (map (atom_of env.now) patterns.now)) }
{
    for pattern in patterns {
        let atom = pattern_atom(state.allocator(), pattern, env);
        state.add(atom)?;
    }
    Ok(())
}

/// Takes out of the state what the action with these arguments deletes, and then puts in what it
/// adds. Where memory is wanting, the state is one in between.
pub(crate) fn change(state: &mut State, action: &Action, args: &[Obj]) -> Result<(), AllocError>
    requires few { length args.now ≤ SLOTS }
    requires adds { list_all is_readable_pattern action.now.adds ≡ true }
    requires deletes { list_all is_readable_pattern action.now.deletes ≡ true }
    ensures { OnOk result (state.new ≡ effect_of action.now args.now state.old) }
{
    let env = Env::new(args);
    take_out(state, action.deletes.as_slice(), &env);
    put_in(state, action.adds.as_slice(), &env)
}

/// The state after the action with these arguments: what it deletes is taken out, and then what it
/// adds is put in, so that an atom that it deletes and adds is there (PDDL 2.1).
///
/// Whether the action is applicable isn't asked: this is for a step that was found to be. Fails
/// only where memory is wanting.
pub fn after(state: &State, action: &Action, args: &[Obj]) -> Result<State, AllocError>
    requires few { length args.now ≤ SLOTS }
    requires adds { list_all is_readable_pattern action.now.adds ≡ true }
    requires deletes { list_all is_readable_pattern action.now.deletes ≡ true }
    ensures { IfOk result (λ after. after ≡ effect_of action.now args.now state.now) }
{
    let mut after = state.copy()?;
    change(&mut after, action, args)?;
    Ok(after)
}

/// The patterns' atoms, in their order. Fails only where memory is wanting.
pub fn pattern_atoms(
    alloc: Global,
    patterns: &[Pattern],
    env: &Env,
) -> Result<Vec<Atom>, AllocError>
    requires { list_all is_readable_pattern patterns.now ≡ true }
    ensures { IfOk result (λ atoms. atoms.items ≡ map (atom_of env.now) patterns.now) }
{
    let mut atoms = Vec::with_capacity(alloc, patterns.len())?;
    for pattern in patterns {
        atoms.push(pattern_atom(alloc, pattern, env))?;
    }
    Ok(atoms)
}

/// What an action does to any state: these atoms are taken out of it, and then those put in.
#[derive(Drop)]
pub struct Changes {
    /// The atoms that go.
    pub gone: Vec<Atom>,
    /// The atoms that come.
    pub come: Vec<Atom>,
}

/// What the action with these arguments does to any state (PDDL 2.1), whether or not it is
/// applicable there. Fails only where memory is wanting.
pub fn changes_of(alloc: Global, action: &Action, args: &[Obj]) -> Result<Changes, AllocError>
    requires few { length args.now ≤ SLOTS }
    requires adds { list_all is_readable_pattern action.now.adds ≡ true }
    requires deletes { list_all is_readable_pattern action.now.deletes ≡ true }
    ensures effect { IfOk result (λ changes. (state : Atoms)
        → with_atoms (without_atoms state changes.gone.items) changes.come.items
        ≡ effect_of action.now args.now state) }
    ensures come { IfOk result (λ changes. changes.come.items
        ≡ map (atom_of (slots_of args.now)) action.now.adds) }
{
    let env = Env::new(args);
    let gone = pattern_atoms(alloc, action.deletes.as_slice(), &env)?;
    let come = pattern_atoms(alloc, action.adds.as_slice(), &env)?;
    Ok(Changes { gone, come })
}
