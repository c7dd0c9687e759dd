//! Conditions of actions, derived predicates and goals.
use crate::object::Obj;
use crate::seq::Seq;
use std::marker::Model;

/// A term: one of the sixteen slots that hold the values of variables, or an object.
#[derive(Clone, Copy, PartialEq, Eq, Debug)]
pub enum Term {
    /// The object in this slot, from 0.
    Slot(u8),
    /// This object.
    Object(Obj),
}

/// A condition (PDDL 2.1 with derived predicates and existential quantifiers), which contracts see
/// as plain data.
#[cycle(formula)]
#[derive(Drop)]
pub struct Formula {
    /// Its outermost level.
    pub node: FormulaNode,
}

/// One level of a condition.
#[cycle(formula)]
#[derive(Drop)]
pub enum FormulaNode {
    /// An atom of a predicate, by its place among the domain's predicates.
    Atom {
        pred: u32,
        args: Seq<Term>,
    },
    /// That two terms are the same object.
    Equal(Term, Term),
    /// That all parts are true.
    All(Vec<Formula>),
    /// That some part is true.
    Any(Vec<Formula>),
    /// That the part is false.
    Not(Box<Formula>),
    /// That some objects of these types, put into the slots from `first` on, make the body true.
    Exists {
        first: u8,
        sorts: Seq<u32>,
        body: Box<Formula>,
    },
}

impl Model for Formula {
    ghost use Rattle.task_model.specs.Condition.{Condition, size_of};
    ghost use Rattle.task_model.specs.Stored.{coded_condition};

    ghost Value = { Condition };

    ghost coded = { coded_condition };

    ghost use Rattle.task_model.specs.View.{view_of};

    ghost view = { λ f. view_of f.node };

    ghost size = { size_of };

    ghost use Rattle.std.proofs.Common.{arith};
    ghost use Rattle.task_model.specs.Falls.{deep_le_size};

    ghost size_decreases = { λ f h. omega (arith, deep_le_size f.node) };
}
