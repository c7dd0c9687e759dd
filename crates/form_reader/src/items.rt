//! The items of domains, problems and stream files.
#![tactic(auto, using(crate::proofs::FaultsFirstLemmas::first_append))]

ghost use Rattle.std.specs.Prelude.{◌≡◌};
ghost use Rattle.sexpr_text.specs.Trees.{trees};
ghost use Rattle.form_reader.specs.Faults.{first};
ghost use Rattle.form_reader.specs.Items as specs;
ghost use Rattle.form_reader.specs.declared.groups.Spot.TheVariants.{Start};

use crate::atoms::{check_facts, is_total_cost_alone};
use crate::conditions::check_single;
use crate::effects::is_total_cost;
use crate::fault::{Fault, sooner};
use crate::groups::{
    Spot, check_cut, check_declaration, check_groups, check_one, check_row, is_dash, list_fault,
};
use crate::keys::{Keyed, check_keyed, check_missing_value};
use crate::refused::{Region, check_refused, is_end};
use crate::words::{WordSort, is_keyword};
use sexpr_text::{Front, Node, front_of};

/// What a text is read as.
#[derive(Clone, Copy, Debug, PartialEq, Eq)]
pub enum TextKind {
    /// A domain (PDDL 2.1).
    Domain,
    /// A problem (PDDL 2.1).
    Problem,
    /// A stream file (PDDLStream 2020).
    Streams,
}

/// What a list is in the place of an item, by its first word.
#[derive(Clone, Copy, Debug, PartialEq, Eq)]
pub enum Item {
    /// `:requirements` of a domain or a problem.
    Requirements,
    /// `:types` of a domain.
    Types,
    /// `:constants` of a domain.
    Constants,
    /// `:predicates` of a domain.
    Predicates,
    /// `:functions` of a domain.
    Functions,
    /// `:derived` of a domain (PDDL 2.2).
    Derived,
    /// `:action` of a domain.
    Action,
    /// `:domain` of a problem.
    Domain,
    /// `:objects` of a problem.
    Objects,
    /// `:init` of a problem.
    Init,
    /// `:goal` of a problem.
    Goal,
    /// `:metric` of a problem.
    Metric,
    /// `:stream` of a stream file.
    Stream,
    /// `:cost-stream` of a stream file (this project).
    CostStream,
    /// Any other word that begins with `:`.
    Unknown,
    /// Any other word.
    NoItem,
}

impl TextKind {
    /// The item that a list with this first word is here.
    pub fn item_of(self, word: &[u8]) -> Item
        ensures { result ≡ specs.item_of self word.now }
    {
        match self {
            TextKind::Domain => domain_item_of(word),
            TextKind::Problem => problem_item_of(word),
            TextKind::Streams => stream_item_of(word),
        }
    }
}

fn other_item(word: &[u8]) -> Item
    ensures { result ≡ specs.other_item word.now }
{
    if is_keyword(word) {
        Item::Unknown
    } else {
        Item::NoItem
    }
}

#[tactic(auto, unfolding(crate::specs::Items::domain_item_of))]
fn domain_item_of(word: &[u8]) -> Item
    ensures { result ≡ specs.domain_item_of word.now }
{
    if word == b":requirements".as_slice() {
        return Item::Requirements;
    }
    if word == b":types".as_slice() {
        return Item::Types;
    }
    if word == b":constants".as_slice() {
        return Item::Constants;
    }
    if word == b":predicates".as_slice() {
        return Item::Predicates;
    }
    if word == b":functions".as_slice() {
        return Item::Functions;
    }
    if word == b":derived".as_slice() {
        return Item::Derived;
    }
    if word == b":action".as_slice() {
        return Item::Action;
    }
    other_item(word)
}

#[tactic(auto, unfolding(crate::specs::Items::problem_item_of))]
fn problem_item_of(word: &[u8]) -> Item
    ensures { result ≡ specs.problem_item_of word.now }
{
    if word == b":domain".as_slice() {
        return Item::Domain;
    }
    if word == b":requirements".as_slice() {
        return Item::Requirements;
    }
    if word == b":objects".as_slice() {
        return Item::Objects;
    }
    if word == b":init".as_slice() {
        return Item::Init;
    }
    if word == b":goal".as_slice() {
        return Item::Goal;
    }
    if word == b":metric".as_slice() {
        return Item::Metric;
    }
    other_item(word)
}

#[tactic(auto, unfolding(crate::specs::Items::stream_item_of))]
fn stream_item_of(word: &[u8]) -> Item
    ensures { result ≡ specs.stream_item_of word.now }
{
    if word == b":stream".as_slice() {
        return Item::Stream;
    }
    if word == b":cost-stream".as_slice() {
        return Item::CostStream;
    }
    other_item(word)
}

/// Declarations of predicates.
fn check_predicates(items: &[Node], so_far: Option<Fault>) -> Option<Fault>
    ensures { result ≡ first so_far (specs.predicates_faults (trees items.now)) }
{
    let mut left = items;
    let mut found = so_far;
    'declarations: loop {
        match front_of(left) {
            Front::End => return found,
            Front::Word { place, .. } => return sooner(found, Fault::shape(place)),
            Front::List { items, place, rest } => {
                found = check_declaration(WordSort::Predicate, place, items, found);
                left = rest;
            }
        }
    }
}

/// The fault of a word among declarations of functions, if it can't stand there.
fn function_word_fault(spot: Spot, word: &[u8], place: usize) -> Option<Fault>
    ensures { result ≡ specs.function_word_fault spot word.now place }
{
    match spot {
        Spot::Named if is_dash(word) => None,
        Spot::Start | Spot::Named => Some(Fault::shape(place)),
        Spot::Typed if word == b"number".as_slice() => None,
        Spot::Typed => Some(Fault::unsupported(place)),
    }
}

/// Where the next tree stands, behind a word among declarations of functions.
fn after_function_word(spot: Spot) -> Spot
    ensures { result ≡ specs.after_function_word spot }
{
    match spot {
        Spot::Start | Spot::Typed => Spot::Start,
        Spot::Named => Spot::Typed,
    }
}

/// Declarations of functions, in the list at this place.
fn check_functions(place: usize, items: &[Node], so_far: Option<Fault>) -> Option<Fault>
    ensures { result ≡ first so_far (specs.functions_faults place Start (trees items.now)) }
{
    let mut left = items;
    let mut found = so_far;
    let mut spot = Spot::Start;
    'declarations: loop {
        match front_of(left) {
            Front::End => return check_cut(place, spot, found),
            Front::Word {
                text,
                place: at,
                rest,
            } => {
                if let Some(fault) = function_word_fault(spot, text, at) {
                    return sooner(found, fault);
                }
                spot = after_function_word(spot);
                left = rest;
            }
            Front::List {
                items,
                place: at,
                rest,
            } => {
                if spot == Spot::Typed {
                    return sooner(found, list_fault(spot, items, at));
                }
                found = check_declaration(WordSort::Name, at, items, found);
                spot = Spot::Named;
                left = rest;
            }
        }
    }
}

/// The head and the body of a derived predicate, in the list at this place.
fn check_derived(place: usize, items: &[Node], so_far: Option<Fault>) -> Option<Fault>
    ensures { result ≡ first so_far (specs.derived_faults place (trees items.now)) }
{
    match front_of(items) {
        Front::End => sooner(so_far, Fault::shape(place)),
        Front::Word { place: at, .. } => sooner(so_far, Fault::shape(at)),
        Front::List {
            items,
            place: at,
            rest,
        } => {
            let found = check_declaration(WordSort::Predicate, at, items, so_far);
            check_single(place, rest, found)
        }
    }
}

/// Whether this is `total-cost` or `(total-cost)`.
fn is_measure(items: &[Node]) -> bool
    ensures { result ≡ specs.is_measure (trees items.now) }
{
    match front_of(items) {
        Front::End => false,
        Front::Word { text, rest, .. } => is_total_cost(text) && is_end(rest),
        Front::List { items, rest, .. } => is_total_cost_alone(items) && is_end(rest),
    }
}

/// Whether this is `minimize` and the total cost.
fn is_metric(items: &[Node]) -> bool
    ensures { result ≡ specs.is_metric (trees items.now) }
{
    match front_of(items) {
        Front::Word { text, rest, .. } => text == b"minimize".as_slice() && is_measure(rest),
        Front::End | Front::List { .. } => false,
    }
}

/// The metric, in the list at this place.
fn check_metric(place: usize, items: &[Node], so_far: Option<Fault>) -> Option<Fault>
    ensures { result ≡ first so_far (specs.metric_faults place (trees items.now)) }
{
    if is_metric(items) {
        so_far
    } else {
        sooner(so_far, Fault::unsupported(place))
    }
}

/// The facts of `:init`.
fn check_init(items: &[Node], so_far: Option<Fault>) -> Option<Fault>
    ensures { result ≡ first so_far (specs.init_faults (trees items.now)) }
{
    let found = check_refused(Region::Init, items, so_far);
    check_facts(items, found)
}

/// A cost stream, in the list at this place.
fn check_cost_stream(place: usize, items: &[Node], so_far: Option<Fault>) -> Option<Fault>
    ensures { result ≡ first so_far (specs.cost_stream_faults place (trees items.now)) }
{
    let found = check_missing_value(place, items, so_far);
    check_keyed(Keyed::CostStream, place, items, found)
}

/// What stands behind the first word of an item: the item's list is at `place`, that word at `at`.
fn check_body(
    item: Item,
    place: usize,
    at: usize,
    items: &[Node],
    so_far: Option<Fault>,
) -> Option<Fault>
    ensures { result ≡ first so_far (specs.body_faults item place at (trees items.now)) }
{
    match item {
        Item::Requirements => check_row(WordSort::Any, items, so_far),
        Item::Types | Item::Constants | Item::Objects => {
            check_groups(WordSort::Name, place, items, so_far)
        }
        Item::Predicates => check_predicates(items, so_far),
        Item::Functions => check_functions(place, items, so_far),
        Item::Derived => check_derived(place, items, so_far),
        Item::Action => check_keyed(Keyed::Action, place, items, so_far),
        Item::Domain => check_one(WordSort::Name, place, items, so_far),
        Item::Init => check_init(items, so_far),
        Item::Goal => check_single(place, items, so_far),
        Item::Metric => check_metric(place, items, so_far),
        Item::Stream => check_keyed(Keyed::Stream, place, items, so_far),
        Item::CostStream => check_cost_stream(place, items, so_far),
        Item::Unknown => sooner(so_far, Fault::unsupported(place)),
        Item::NoItem => sooner(so_far, Fault::shape(at)),
    }
}

/// The item that the list at this place is.
fn check_item(text: TextKind, place: usize, items: &[Node], so_far: Option<Fault>) -> Option<Fault>
    ensures { result ≡ first so_far (specs.item_faults text place (trees items.now)) }
{
    match front_of(items) {
        Front::End => sooner(so_far, Fault::shape(place)),
        Front::Word {
            text: word,
            place: at,
            rest,
        } => { check_body(text.item_of(word), place, at, rest, so_far) }
        Front::List { place: at, .. } => sooner(so_far, Fault::shape(at)),
    }
}

/// Items in a row.
pub(crate) fn check_items(text: TextKind, items: &[Node], so_far: Option<Fault>) -> Option<Fault>
    ensures { result ≡ first so_far (specs.items_faults text (trees items.now)) }
{
    let mut left = items;
    let mut found = so_far;
    'items: loop {
        match front_of(left) {
            Front::End => return found,
            Front::Word { place, .. } => return sooner(found, Fault::shape(place)),
            Front::List { items, place, rest } => {
                found = check_item(text, place, items, found);
                left = rest;
            }
        }
    }
}
