//! Domains: types, predicates, functions, derived predicates and actions.
use crate::condition::{Formula, Term};
use crate::name::Name;
use crate::seq::Seq;
use crate::sorts::Sorts;

/// A type. Sort 0 is `object`.
#[derive(Drop)]
pub struct Sort {
    /// Its name in lower case.
    pub name: Name,
    /// All its proper supertypes, by their places.
    pub above: Seq<u32>,
}

/// A predicate or a function with its number of arguments, at most 8.
#[derive(Drop)]
pub struct Signature {
    /// Its name in lower case.
    pub name: Name,
    /// How many arguments it takes.
    pub arity: u8,
}

/// What changes a predicate's atoms: a derived predicate is headed by a `:derived` item (PDDL 2.2),
/// a fluent occurs in an action's effect, and all others are static.
#[derive(Clone, Copy, PartialEq, Eq, Debug)]
pub enum Role {
    /// Its atoms are initial or certified, and stay.
    Static,
    /// Its atoms are those of the state.
    Fluent,
    /// Its atoms follow from its items.
    Derived,
}

/// An object with the types that its declarations give, by their places.
#[derive(Drop)]
pub struct Declared {
    /// Its name in lower case.
    pub name: Name,
    /// The types that are written beside it, without their supertypes.
    pub sorts: Sorts,
}

/// An atom whose arguments are terms.
#[derive(Drop)]
pub struct Pattern {
    /// The predicate, by its place among the domain's predicates.
    pub pred: u32,
    /// The arguments.
    pub args: Seq<Term>,
}

/// One amount by which an action increases the total cost (IPC 2008).
#[derive(Drop)]
pub enum CostTerm {
    /// This number, at most 1,000,000.
    Number(u32),
    /// The value of a function, by its place among the domain's functions.
    Value { func: u32, args: Seq<Term> },
}

/// A rule by which a derived predicate holds (PDDL 2.2). Its parameters have the slots from 0.
#[derive(Drop)]
pub struct Derived {
    /// The predicate that it heads.
    pub pred: u32,
    /// The parameters' types.
    pub params: Seq<u32>,
    /// What makes the head true.
    pub body: Formula,
}

/// An action. Its parameters have the slots from 0.
#[derive(Drop)]
pub struct Action {
    /// Its name in lower case.
    pub name: Name,
    /// The parameters' types.
    pub params: Seq<u32>,
    /// What has to be true for it.
    pub condition: Formula,
    /// The atoms that are there afterwards.
    pub adds: Seq<Pattern>,
    /// The atoms that are gone afterwards, unless they are added too.
    pub deletes: Seq<Pattern>,
    /// What it costs, where costs are counted.
    pub costs: Seq<CostTerm>,
}

/// A domain. All numbers in it are places in its lists.
#[derive(Drop)]
pub struct Domain {
    /// Its name in lower case.
    pub name: Name,
    /// The types; the first is `object`.
    pub sorts: Seq<Sort>,
    /// The predicates.
    pub predicates: Seq<Signature>,
    /// The functions.
    pub functions: Seq<Signature>,
    /// The constants.
    pub constants: Seq<Declared>,
    /// The rules of derived predicates.
    pub derived: Seq<Derived>,
    /// The actions.
    pub actions: Seq<Action>,
    /// The predicates' roles, place by place.
    pub roles: Seq<Role>,
}
