//! Problems, tasks and plans.
ghost use Rattle.std.specs.Prelude.{◌≡◌, IfOk};

use crate::condition::Formula;
use crate::domain::{Declared, Domain};
use crate::fact::Fact;
use crate::name::Name;
use crate::object::{Row, Wide};
use crate::seq::Seq;
use crate::stream::Stream;
use std::alloc::AllocError;

/// The value of a function term.
#[derive(PartialEq, Eq, PartialOrd, Ord, Hash, Debug, Drop)]
pub struct Valued {
    /// The function, by its place among the domain's functions.
    pub func: u32,
    /// The arguments.
    pub args: Row,
    /// The value, at most 1,000,000.
    pub value: u32,
}

/// A problem of a domain.
#[derive(Drop)]
pub struct Problem {
    /// Its name in lower case.
    pub name: Name,
    /// The declared objects, the domain's constants first, each name once.
    pub objects: Seq<Declared>,
    /// The atoms that are true at first.
    pub init: Seq<Fact>,
    /// The values of functions.
    pub values: Seq<Valued>,
    /// What a plan has to reach.
    pub goal: Formula,
    /// Whether the total cost is counted; without it each action costs 1.
    pub metric: bool,
}

/// All that is planned for: a domain, a problem and the streams.
#[derive(Drop)]
pub struct Task {
    /// The domain.
    pub domain: Domain,
    /// The problem.
    pub problem: Problem,
    /// The streams.
    pub streams: Seq<Stream>,
}

/// An action with the objects for its parameters.
#[derive(Debug, Drop)]
pub struct GroundAction {
    /// The action, by its place in the domain.
    pub action: u32,
    /// The objects.
    pub args: Wide,
}

impl GroundAction {
    /// An equal action. Fails only where memory is wanting.
    pub fn copy(&self) -> Result<GroundAction, AllocError>
        ensures { IfOk result (λ step. step ≡ self.now) }
    {
        let args = self.args.copy()?;
        Ok(GroundAction {
            action: self.action,
            args,
        })
    }
}

/// Actions one after another.
#[derive(Drop)]
pub struct Plan {
    /// The steps in order.
    pub steps: Seq<GroundAction>,
}
