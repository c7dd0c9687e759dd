//! The keys of actions and streams, and their values.
#![tactic(auto, using(crate::proofs::FaultsFirstLemmas::first_append))]

ghost use Rattle.std.specs.Prelude.{◌≡◌};
ghost use Rattle.sexpr_text.specs.Trees.{trees};
ghost use Rattle.form_reader.specs.Faults.{first};
ghost use Rattle.form_reader.specs.Keys as specs;

use crate::atoms::{check_atoms, check_worth};
use crate::conditions::check_condition;
use crate::effects::check_effect;
use crate::fault::{Fault, sooner};
use crate::groups::check_groups;
use crate::refused::{Region, check_refused, check_refused_here};
use crate::words::{WordSort, is_keyword};
use sexpr_text::{Front, Node, front_of};

/// What has keys behind its name.
#[derive(Clone, Copy, Debug, PartialEq, Eq)]
pub enum Keyed {
    /// An action: `:parameters`, `:precondition` and `:effect` (PDDL 2.1).
    Action,
    /// A stream: `:inputs`, `:outputs`, `:domain` and `:certified` (PDDLStream 2020).
    Stream,
    /// A cost stream: `:inputs`, `:domain` and `:value` (this project).
    CostStream,
}

/// A word in the place of a key.
#[derive(Clone, Copy, Debug, PartialEq, Eq)]
pub enum Key {
    /// `:parameters` of an action.
    Parameters,
    /// `:precondition` of an action.
    Precondition,
    /// `:effect` of an action.
    Effect,
    /// `:inputs` of a stream or a cost stream.
    Inputs,
    /// `:outputs` of a stream.
    Outputs,
    /// `:domain` of a stream or a cost stream.
    Domain,
    /// `:certified` of a stream.
    Certified,
    /// `:value` of a cost stream.
    Value,
    /// Any other word that begins with `:`.
    Unknown,
    /// Any other word.
    NoKey,
}

impl Keyed {
    /// The key that the word is here.
    pub fn key_of(self, word: &[u8]) -> Key
        ensures { result ≡ specs.key_of self word.now }
    {
        match self {
            Keyed::Action => action_key_of(word),
            Keyed::Stream => stream_key_of(word),
            Keyed::CostStream => cost_stream_key_of(word),
        }
    }
}

fn other_key(word: &[u8]) -> Key
    ensures { result ≡ specs.other_key word.now }
{
    if is_keyword(word) {
        Key::Unknown
    } else {
        Key::NoKey
    }
}

#[tactic(auto, unfolding(crate::specs::Keys::action_key_of))]
fn action_key_of(word: &[u8]) -> Key
    ensures { result ≡ specs.action_key_of word.now }
{
    if word == b":parameters".as_slice() {
        return Key::Parameters;
    }
    if word == b":precondition".as_slice() {
        return Key::Precondition;
    }
    if word == b":effect".as_slice() {
        return Key::Effect;
    }
    other_key(word)
}

#[tactic(auto, unfolding(crate::specs::Keys::stream_key_of))]
fn stream_key_of(word: &[u8]) -> Key
    ensures { result ≡ specs.stream_key_of word.now }
{
    if word == b":inputs".as_slice() {
        return Key::Inputs;
    }
    if word == b":outputs".as_slice() {
        return Key::Outputs;
    }
    if word == b":domain".as_slice() {
        return Key::Domain;
    }
    if word == b":certified".as_slice() {
        return Key::Certified;
    }
    other_key(word)
}

#[tactic(auto, unfolding(crate::specs::Keys::cost_stream_key_of))]
fn cost_stream_key_of(word: &[u8]) -> Key
    ensures { result ≡ specs.cost_stream_key_of word.now }
{
    if word == b":inputs".as_slice() {
        return Key::Inputs;
    }
    if word == b":domain".as_slice() {
        return Key::Domain;
    }
    if word == b":value".as_slice() {
        return Key::Value;
    }
    other_key(word)
}

/// The atoms of a stream that the list at this place is.
fn check_stream_atoms(place: usize, items: &[Node], so_far: Option<Fault>) -> Option<Fault>
    ensures { result ≡ first so_far (specs.stream_atoms_faults place (trees items.now)) }
{
    let here = check_refused_here(Region::Atoms, place, items, so_far);
    let within = check_refused(Region::Atoms, items, here);
    check_atoms(place, items, within)
}

/// The value of a key, which is the list at this place.
fn check_value(key: Key, place: usize, items: &[Node], so_far: Option<Fault>) -> Option<Fault>
    ensures { result ≡ first so_far (specs.value_faults key place (trees items.now)) }
{
    match key {
        Key::Parameters | Key::Inputs | Key::Outputs => {
            check_groups(WordSort::Variable, place, items, so_far)
        }
        Key::Precondition => check_condition(place, items, so_far),
        Key::Effect => check_effect(place, items, so_far),
        Key::Domain | Key::Certified => check_stream_atoms(place, items, so_far),
        Key::Value => check_worth(place, items, so_far),
        Key::Unknown | Key::NoKey => so_far,
    }
}

/// Keys with their values, in the list at this place.
fn check_keys(keyed: Keyed, place: usize, items: &[Node], so_far: Option<Fault>) -> Option<Fault>
    ensures { result ≡ first so_far (specs.keys_faults keyed place (trees items.now)) }
{
    let mut left = items;
    let mut found = so_far;
    'keys: loop {
        let (key, behind) = match front_of(left) {
            Front::End => return found,
            Front::Word {
                text,
                place: at,
                rest,
            } => match keyed.key_of(text) {
                Key::Unknown => return sooner(found, Fault::unsupported(at)),
                Key::NoKey => return sooner(found, Fault::shape(at)),
                key => (key, rest),
            },
            Front::List { place: at, .. } => return sooner(found, Fault::shape(at)),
        };
        match front_of(behind) {
            Front::End => return sooner(found, Fault::shape(place)),
            Front::Word { place: at, .. } => return sooner(found, Fault::shape(at)),
            Front::List {
                items,
                place: at,
                rest,
            } => {
                found = check_value(key, at, items, found);
                left = rest;
            }
        }
    }
}

/// A name and then keys, in the list at this place.
pub(crate) fn check_keyed(
    keyed: Keyed,
    place: usize,
    items: &[Node],
    so_far: Option<Fault>,
) -> Option<Fault>
    ensures { result ≡ first so_far (specs.keyed_faults keyed place (trees items.now)) }
{
    match front_of(items) {
        Front::End => sooner(so_far, Fault::shape(place)),
        Front::Word { text, rest, .. } if WordSort::Name.has(text) => {
            check_keys(keyed, place, rest, so_far)
        }
        Front::Word { place: at, .. } | Front::List { place: at, .. } => {
            sooner(so_far, Fault::shape(at))
        }
    }
}

/// A cost stream has a value.
pub(crate) fn check_missing_value(
    place: usize,
    items: &[Node],
    so_far: Option<Fault>,
) -> Option<Fault>
    ensures { result ≡ first so_far (specs.missing_value_faults place (trees items.now)) }
{
    if has_word(b":value", items) {
        so_far
    } else {
        sooner(so_far, Fault::shape(place))
    }
}

/// Whether this word is among the trees.
fn has_word(word: &[u8], items: &[Node]) -> bool
    ensures { result ≡ specs.has_word word.now (trees items.now) }
{
    let mut left = items;
    'trees: loop {
        match front_of(left) {
            Front::End => return false,
            Front::Word { text, .. } if text == word => return true,
            Front::Word { rest, .. } | Front::List { rest, .. } => left = rest,
        }
    }
}
