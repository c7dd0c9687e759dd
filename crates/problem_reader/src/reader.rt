//! Problems, from trees.
ghost use Rattle.std.specs.Prelude.{◌≡◌, IfOk, OnOk};
ghost use Rattle.sexpr_text.specs.Trees.{tree, trees};
ghost use Rattle.form_reader.specs.Faults.{least_fault};
ghost use Rattle.name_tables.specs.Sizes.{IsBoundedTree};
ghost use Rattle.name_tables.specs.Texts.{body_of as body_in};
ghost use Rattle.problem_reader.specs.Fitness.{IsFitOver, IsFitRead};
ghost use Rattle.problem_reader.specs.Problems as specs;
ghost use Rattle.problem_reader.specs.Tables.{problem_names};

use crate::atoms::Setting;
use crate::items::{Held, check_items};
use crate::problem::problem_of;
use crate::tables::put_objects;
use crate::values::check_values;
use domain_reader::check_second_items;
use form_reader::{Fault, InputFault, TextKind, check_form};
use name_tables::{NumberLists, Vocabulary, body_of};
use sexpr_text::{Node, Tree};
use std::alloc::{AllocError, Global};
use task_model::{Domain, Problem};

/// The name fault that is answered of a problem with these names and items, if it has one; and the
/// facts of its first `:init`, of which none are held before. Fails only where memory is wanting.
#[tactic(auto, using(form_reader::proofs::FaultsFirstLemmas::first_append))]
fn check_names(
    setting: &Setting<'_>,
    body: &[Node],
    held: &mut Held,
) -> Result<Option<Fault>, AllocError>
    ensures faults { IfOk result (λ f. f ≡ least_fault
        (specs.names_faults setting.now.domain.now setting.now.names.now (trees body.now))) }
    ensures facts { OnOk result (held.new.facts.items
        ≡ specs.first_facts setting.now.names.now held.old.begun held.old.facts.items
        (trees body.now)) }
{
    let used = check_items(setting, body, None, held)?;
    let single = check_second_items(setting.alloc, TextKind::Problem, body, used)?;
    check_values(setting.alloc, body, single)
}

/// The problem, or its name fault that is answered, where its names are known, and perhaps the types
/// of its objects. Fails only where memory is wanting.
fn read_set(
    setting: &Setting<'_>,
    kept: &Option<NumberLists>,
    text: &Tree,
) -> Result<Result<Problem, Fault>, AllocError>
    requires names { setting.now.names.now
        ≡ problem_names setting.now.domain.now (body_in (tree text.now)) }
    requires types { specs.AreTypesOf setting.now.domain.now setting.now.names.now
        (body_in (tree text.now)) kept.now }
    ensures { IfOk result (λ r. specs.ProblemReadsNamed setting.now.domain.now (tree text.now) r) }
{
    let mut held = Held {
        facts: Vec::new(setting.alloc),
        begun: false,
    };
    match check_names(setting, body_of(text), &mut held)? {
        Some(fault) => Ok(Err(fault)),
        None => {
            let Held { facts, .. } = held;
            let problem = problem_of(setting, kept, text, facts)?;
            Ok(Ok(problem))
        }
    }
}

/// The problem, or its name fault that is answered. Fails only where memory is wanting.
fn read_named(
    alloc: Global,
    text: &Tree,
    domain: &Domain,
) -> Result<Result<Problem, Fault>, AllocError>
    ensures { IfOk result (λ r. specs.ProblemReadsNamed domain.now (tree text.now) r) }
{
    let mut names = Vocabulary::of(alloc, domain)?;
    let kept = put_objects(alloc, domain, &mut names, body_of(text))?;
    let setting = Setting {
        alloc,
        domain,
        names: &names,
    };
    read_set(&setting, &kept, text)
}

/// The problem, or the fault that is answered.
fn read(alloc: Global, text: &Tree, domain: &Domain) -> Result<Problem, InputFault>
    ensures { specs.ProblemReads domain.now (tree text.now) result }
{
    if let Some(Fault { place, kind }) = check_form(TextKind::Problem, text) {
        return Err(InputFault::At { place, kind });
    }
    match read_named(alloc, text, domain)? {
        Ok(problem) => Ok(problem),
        Err(Fault { place, kind }) => Err(InputFault::At { place, kind }),
    }
}

/// Reads a problem of this domain from its tree.
///
/// The forms are those of this project's profile of PDDL 2.1, with the total cost as the metric
/// (IPC 2008). The domain is one that `domain_reader::read_domain` gave.
///
/// # Errors
///
/// - `At`: the text has a fault. Of its form faults the one with the least place is answered, and
///   at one place `Shape` last; where it has none, of its name faults the one with the least place,
///   and at one place the one of the smallest number.
/// - `Memory`: memory ran out, which says nothing of the text.
pub fn read_problem(alloc: Global, text: &Tree, domain: &Domain) -> Result<Problem, InputFault>
    ensures reads { specs.ProblemReads domain.now (tree text.now) result }
    // Over a fit domain that was read, the problem of a tree as texts of at most 4 MiB give it is
    // fit.
    ensures fit { IfOk result (λ p. IsFitRead domain.now → IsBoundedTree (tree text.now)
        → IsFitOver domain.now p) }
{
    read(alloc, text, domain)
}
