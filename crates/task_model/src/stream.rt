//! Streams and their instances.
ghost use Rattle.std.specs.Prelude.{◌≡◌, IfOk};

use crate::condition::Term;
use crate::domain::Pattern;
use crate::name::Name;
use crate::object::Row;
use crate::seq::Seq;
use std::alloc::AllocError;

/// The function term whose value a cost stream's answer is.
#[derive(Drop)]
pub struct Worth {
    /// The function, by its place among the domain's functions.
    pub func: u32,
    /// The arguments: inputs and constants.
    pub args: Seq<Term>,
}

/// A conditional generator (PDDLStream 2020). Inputs have the slots from 0, and outputs those after
/// them.
#[derive(Drop)]
pub struct Stream {
    /// Its name in lower case.
    pub name: Name,
    /// The inputs' types.
    pub inputs: Seq<u32>,
    /// The outputs' types.
    pub outputs: Seq<u32>,
    /// The facts of the inputs that have to be known before it is asked.
    pub domain: Seq<Pattern>,
    /// The facts of inputs and outputs that each yield certifies.
    pub certified: Seq<Pattern>,
    /// Of a cost stream the term that it gives a value; then it has no outputs and certifies
    /// nothing else.
    pub worth: Option<Worth>,
}

/// A stream with input objects.
#[derive(PartialEq, Eq, PartialOrd, Ord, Hash, Debug, Drop)]
pub struct Instance {
    /// The stream, by its place in the task.
    pub stream: u32,
    /// The inputs.
    pub inputs: Row,
}

impl Instance {
    /// An equal instance. Fails only where memory is wanting.
    pub fn copy(&self) -> Result<Instance, AllocError>
        ensures { IfOk result (λ instance. instance ≡ self.now) }
    {
        let inputs = self.inputs.copy()?;
        Ok(Instance {
            stream: self.stream,
            inputs,
        })
    }
}
