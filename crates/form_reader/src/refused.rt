//! Lists that are left out wherever they stand in `:init`, or in a stream's atoms.
#![tactic(auto, using(crate::proofs::FaultsFirstLemmas::first_append))]

ghost use Rattle.std.specs.Prelude.{◌≡◌};
ghost use Rattle.sexpr_text.specs.Trees.{trees};
ghost use Rattle.form_reader.specs.Faults.{first};
ghost use Rattle.form_reader.specs.Refused as specs;

use crate::fault::{Fault, sooner};
use crate::groups::head_of;
use crate::words::{begins_with_digit, is_refused_in_atoms, is_word};
use sexpr_text::{Front, Node, front_of};

/// Where lists are looked at.
#[derive(Clone, Copy, PartialEq, Eq)]
pub(crate) enum Region {
    /// In a problem's `:init`: no negative literals and no timed ones (PDDL 2.2).
    Init,
    /// In a stream's `:domain` and `:certified`: nothing but atoms.
    Atoms,
}

impl Region {
    /// Whether the list of these trees is left out here.
    fn refuses(self, items: &[Node]) -> bool
        ensures { result ≡ specs.is_refused self (trees items.now) }
    {
        match self {
            Region::Init => is_word(head_of(items), b"not") || is_timed(items),
            Region::Atoms => is_refused_in_atoms(head_of(items)),
        }
    }
}

/// Whether this is `at`, a time and a list.
fn is_timed(items: &[Node]) -> bool
    ensures { result ≡ specs.is_timed (trees items.now) }
{
    match front_of(items) {
        Front::Word { text, rest, .. } => is_word(text, b"at") && is_time_and_list(rest),
        Front::End | Front::List { .. } => false,
    }
}

fn is_time_and_list(items: &[Node]) -> bool
    ensures { result ≡ specs.is_time_and_list (trees items.now) }
{
    match front_of(items) {
        Front::Word { text, rest, .. } => begins_with_digit(text) && is_one_list(rest),
        Front::End | Front::List { .. } => false,
    }
}

fn is_one_list(items: &[Node]) -> bool
    ensures { result ≡ specs.is_one_list (trees items.now) }
{
    match front_of(items) {
        Front::List { rest, .. } => is_end(rest),
        Front::End | Front::Word { .. } => false,
    }
}

/// Whether no tree is left.
pub(crate) fn is_end(items: &[Node]) -> bool
    ensures { result ≡ specs.is_end (trees items.now) }
{
    matches!(front_of(items), Front::End)
}

/// The list at this place, which may be left out.
pub(crate) fn check_refused_here(
    region: Region,
    place: usize,
    items: &[Node],
    so_far: Option<Fault>,
) -> Option<Fault>
    ensures { result ≡ first so_far (specs.refused_here region place (trees items.now)) }
{
    if region.refuses(items) {
        sooner(so_far, Fault::unsupported(place))
    } else {
        so_far
    }
}

/// All lists in a row, and those in them.
pub(crate) fn check_refused(region: Region, items: &[Node], so_far: Option<Fault>) -> Option<Fault>
    ensures { result ≡ first so_far (specs.refused_faults region (trees items.now)) }
{
    let mut left = items;
    let mut found = so_far;
    'trees: loop {
        match front_of(left) {
            Front::End => return found,
            Front::Word { rest, .. } => left = rest,
            Front::List { items, place, rest } => {
                let here = check_refused_here(region, place, items, found);
                found = check_refused(region, items, here);
                left = rest;
            }
        }
    }
}
