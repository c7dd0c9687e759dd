//! Whole domains, problems and stream files.
#![tactic(auto, using(crate::proofs::FaultsFirstLemmas::first_append))]

ghost use Rattle.std.specs.Prelude.{◌≡◌};
ghost use Rattle.sexpr_text.specs.Trees.{tree, trees};
ghost use Rattle.form_reader.specs.Faults.{first, least_fault};
ghost use Rattle.form_reader.specs.Texts as specs;

use crate::fault::{Fault, sooner};
use crate::groups::{check_one, head_of};
use crate::items::{TextKind, check_items};
use crate::words::WordSort;
use sexpr_text::{Front, Node, Tree, alone, front_of};

/// The form fault of a text that is answered, if it has one: of all its form faults the one with
/// the least place, and at one place `Shape` last.
///
/// # Faults
///
/// - `Shape`: a word or a list that can't stand where it stands, at its place; a list that ends
///   before its form is complete, a problem without `:domain` or `:goal`, or a cost stream without
///   `:value`, at the list's place.
/// - `Unsupported`: a form of PDDL or PDDLStream that this project leaves out, mostly at its list's
///   place.
/// - `Number`: a word in the place of a number that isn't one of at most 1,000,000, at its place.
pub fn check_form(text: TextKind, text_tree: &Tree) -> Option<Fault>
    ensures { result ≡ least_fault (specs.form_faults text (tree text_tree.now)) }
{
    match alone(text_tree) {
        Front::End => None,
        Front::Word { place, .. } => sooner(None, Fault::shape(place)),
        Front::List { items, place, .. } => {
            check_define(text, place, items, check_missing(text, place, items, None))
        }
    }
}

/// What the text is called in its title.
fn title_of(text: TextKind) -> &'static [u8]
    ensures { result.now ≡ specs.title_of text }
{
    match text {
        TextKind::Domain => b"domain",
        TextKind::Problem => b"problem",
        TextKind::Streams => b"stream",
    }
}

/// The title, as the list at this place.
fn check_title(text: TextKind, place: usize, items: &[Node], so_far: Option<Fault>) -> Option<Fault>
    ensures { result ≡ first so_far (specs.title_faults text place (trees items.now)) }
{
    match front_of(items) {
        Front::End => sooner(so_far, Fault::shape(place)),
        Front::Word {
            text: word,
            rest,
            ..
        } if word == title_of(text) => { check_one(WordSort::Name, place, rest, so_far) }
        Front::Word { place: at, .. } | Front::List { place: at, .. } => {
            sooner(so_far, Fault::shape(at))
        }
    }
}

/// The title and the items, in the list at this place.
fn check_titled(
    text: TextKind,
    place: usize,
    items: &[Node],
    so_far: Option<Fault>,
) -> Option<Fault>
    ensures { result ≡ first so_far (specs.titled_faults text place (trees items.now)) }
{
    match front_of(items) {
        Front::End => sooner(so_far, Fault::shape(place)),
        Front::Word { place: at, .. } => sooner(so_far, Fault::shape(at)),
        Front::List {
            items,
            place: at,
            rest,
        } => { check_items(text, rest, check_title(text, at, items, so_far)) }
    }
}

/// `define`, the title and the items, as the list at this place.
fn check_define(
    text: TextKind,
    place: usize,
    items: &[Node],
    so_far: Option<Fault>,
) -> Option<Fault>
    ensures { result ≡ first so_far (specs.define_faults text place (trees items.now)) }
{
    match front_of(items) {
        Front::End => sooner(so_far, Fault::shape(place)),
        Front::Word {
            text: word,
            rest,
            ..
        } if word == b"define".as_slice() => { check_titled(text, place, rest, so_far) }
        Front::Word { place: at, .. } | Front::List { place: at, .. } => {
            sooner(so_far, Fault::shape(at))
        }
    }
}

/// A problem has a `:domain` and a `:goal`.
fn check_missing(
    text: TextKind,
    place: usize,
    items: &[Node],
    so_far: Option<Fault>,
) -> Option<Fault>
    ensures { result ≡ first so_far (specs.missing_faults text place (trees items.now)) }
{
    match text {
        TextKind::Domain | TextKind::Streams => so_far,
        TextKind::Problem => {
            if has_item(b":domain", items) && has_item(b":goal", items) {
                so_far
            } else {
                sooner(so_far, Fault::shape(place))
            }
        }
    }
}

/// Whether a list that begins with this word is among the trees.
fn has_item(word: &[u8], items: &[Node]) -> bool
    ensures { result ≡ specs.has_item word.now (trees items.now) }
{
    let mut left = items;
    'trees: loop {
        match front_of(left) {
            Front::End => return false,
            Front::List { items, .. } if head_of(items) == word => return true,
            Front::Word { rest, .. } | Front::List { rest, .. } => left = rest,
        }
    }
}
