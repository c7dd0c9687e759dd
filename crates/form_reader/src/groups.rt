//! Rows of words: terms, names, names and variables with types, and atoms.
ghost use Rattle.std.specs.Prelude.{◌≡◌};
ghost use Rattle.sexpr_text.specs.Trees.{trees};
ghost use Rattle.form_reader.specs.Faults.{first};
ghost use Rattle.form_reader.specs.Rows as specs;
ghost use Rattle.form_reader.specs.declared.groups.Spot.TheVariants.{Start};

use crate::fault::{Fault, sooner};
use crate::words::WordSort;
use sexpr_text::{Front, Node, front_of};

/// Where a word or a list stands in groups of names or variables with types.
#[derive(Clone, Copy, Debug, PartialEq, Eq)]
pub enum Spot {
    /// Before the first name of a group.
    Start,
    /// Behind a name of a group.
    Named,
    /// Behind a `-`.
    Typed,
}

impl Spot {
    /// Where the next tree stands, behind this word.
    pub fn after_word(self, word: &[u8]) -> Spot
        ensures { result ≡ specs.after_word self word.now }
    {
        match self {
            Spot::Named if is_dash(word) => Spot::Typed,
            Spot::Start | Spot::Named => Spot::Named,
            Spot::Typed => Spot::Start,
        }
    }

    /// Whether the word may stand here, in groups of words of this sort.
    pub fn takes(self, sort: WordSort, word: &[u8]) -> bool
        ensures { result ≡ specs.can_stand sort self word.now }
    {
        match self {
            Spot::Start => sort.has(word),
            Spot::Named => is_dash(word) || sort.has(word),
            Spot::Typed => WordSort::Name.has(word),
        }
    }
}

/// Whether the word is the `-` before a type.
pub fn is_dash(word: &[u8]) -> bool
    ensures { result ≡ specs.is_dash word.now }
{
    word == b"-".as_slice()
}

/// The word that a list begins with, or no letters.
pub fn head_of<'a>(items: &'a [Node]) -> &'a [u8]
    ensures { result.now ≡ specs.head_of (trees items.now) }
{
    match front_of(items) {
        Front::Word { text, .. } => text,
        Front::End | Front::List { .. } => &[],
    }
}

/// The trees behind the first.
pub fn tail_of<'a>(items: &'a [Node]) -> &'a [Node]
    ensures { trees result.now ≡ specs.tail_of (trees items.now) }
{
    match front_of(items) {
        Front::End => &[],
        Front::Word { rest, .. } | Front::List { rest, .. } => rest,
    }
}

/// The trees in the first, if that is a list.
pub fn inner_of<'a>(items: &'a [Node]) -> &'a [Node]
    ensures { trees result.now ≡ specs.inner_of (trees items.now) }
{
    match front_of(items) {
        Front::End | Front::Word { .. } => &[],
        Front::List { items, .. } => items,
    }
}

/// Nothing more may stand.
pub(crate) fn check_end(items: &[Node], so_far: Option<Fault>) -> Option<Fault>
    ensures { result ≡ first so_far (specs.end_faults (trees items.now)) }
{
    match front_of(items) {
        Front::End => so_far,
        Front::Word { place, .. } | Front::List { place, .. } => sooner(
            so_far,
            Fault::shape(place),
        ),
    }
}

/// Words of one sort.
pub(crate) fn check_row(sort: WordSort, items: &[Node], so_far: Option<Fault>) -> Option<Fault>
    ensures { result ≡ first so_far (specs.row_faults sort (trees items.now)) }
{
    let mut left = items;
    'words: loop {
        match front_of(left) {
            Front::End => return so_far,
            Front::Word { text, place, rest } => {
                if !sort.has(text) {
                    return sooner(so_far, Fault::shape(place));
                }
                left = rest;
            }
            Front::List { place, .. } => return sooner(so_far, Fault::shape(place)),
        }
    }
}

/// One word of a sort, in the list at this place.
pub(crate) fn check_one(
    sort: WordSort,
    place: usize,
    items: &[Node],
    so_far: Option<Fault>,
) -> Option<Fault>
    ensures { result ≡ first so_far (specs.one_faults sort place (trees items.now)) }
{
    match front_of(items) {
        Front::End => sooner(so_far, Fault::shape(place)),
        Front::Word { text, rest, .. } if sort.has(text) => check_end(rest, so_far),
        Front::Word { place: at, .. } | Front::List { place: at, .. } => {
            sooner(so_far, Fault::shape(at))
        }
    }
}

/// Two words of a sort, in the list at this place.
pub(crate) fn check_two(
    sort: WordSort,
    place: usize,
    items: &[Node],
    so_far: Option<Fault>,
) -> Option<Fault>
    ensures { result ≡ first so_far (specs.two_faults sort place (trees items.now)) }
{
    match front_of(items) {
        Front::End => sooner(so_far, Fault::shape(place)),
        Front::Word { text, rest, .. } if sort.has(text) => check_one(sort, place, rest, so_far),
        Front::Word { place: at, .. } | Front::List { place: at, .. } => {
            sooner(so_far, Fault::shape(at))
        }
    }
}

/// An atom or a function term, as the list at this place.
pub(crate) fn check_application(
    head: WordSort,
    args: WordSort,
    place: usize,
    items: &[Node],
    so_far: Option<Fault>,
) -> Option<Fault>
    ensures { result ≡ first so_far (specs.application_faults head args place (trees items.now)) }
{
    match front_of(items) {
        Front::End => sooner(so_far, Fault::shape(place)),
        Front::Word { text, rest, .. } if head.has(text) => check_row(args, rest, so_far),
        Front::Word { place: at, .. } | Front::List { place: at, .. } => {
            sooner(so_far, Fault::shape(at))
        }
    }
}

/// The fault of a list in groups of names or variables.
pub(crate) fn list_fault(spot: Spot, items: &[Node], place: usize) -> Fault
    ensures { result ≡ specs.list_fault spot (trees items.now) place }
{
    match spot {
        Spot::Typed if head_of(items) == b"either".as_slice() => Fault::unsupported(place),
        Spot::Start | Spot::Named | Spot::Typed => Fault::shape(place),
    }
}

/// What ends here, in the list at this place, may end here.
pub(crate) fn check_cut(place: usize, spot: Spot, so_far: Option<Fault>) -> Option<Fault>
    ensures { result ≡ first so_far (specs.cut_faults place spot) }
{
    match spot {
        Spot::Start | Spot::Named => so_far,
        Spot::Typed => sooner(so_far, Fault::shape(place)),
    }
}

/// Groups of names or variables, in the list at this place.
pub(crate) fn check_groups(
    sort: WordSort,
    place: usize,
    items: &[Node],
    so_far: Option<Fault>,
) -> Option<Fault>
    ensures { result ≡ first so_far (specs.groups_faults sort place Start (trees items.now)) }
{
    let mut left = items;
    let mut spot = Spot::Start;
    'words: loop {
        match front_of(left) {
            Front::End => return check_cut(place, spot, so_far),
            Front::Word {
                text,
                place: at,
                rest,
            } => {
                if !spot.takes(sort, text) {
                    return sooner(so_far, Fault::shape(at));
                }
                spot = spot.after_word(text);
                left = rest;
            }
            Front::List {
                items,
                place: at,
                ..
            } => {
                return sooner(so_far, list_fault(spot, items, at));
            }
        }
    }
}

/// A declaration, which is a name and variables, as the list at this place.
pub(crate) fn check_declaration(
    head: WordSort,
    place: usize,
    items: &[Node],
    so_far: Option<Fault>,
) -> Option<Fault>
    ensures { result ≡ first so_far (specs.declaration_faults head place (trees items.now)) }
{
    match front_of(items) {
        Front::End => sooner(so_far, Fault::shape(place)),
        Front::Word { text, rest, .. } if head.has(text) => {
            check_groups(WordSort::Variable, place, rest, so_far)
        }
        Front::Word { place: at, .. } | Front::List { place: at, .. } => {
            sooner(so_far, Fault::shape(at))
        }
    }
}
