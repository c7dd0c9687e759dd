//! Tasks, and what planning means: the types of domains, problems and streams, the trait `Look`
//! over what is known, and in `specs/` the meaning of conditions, steps, plans, streams and dreams.
#![tactic(auto)]

mod condition;
mod domain;
mod fact;
mod feeding;
pub mod laws;
mod limits;
mod look;
mod name;
mod number;
mod number_hasher;
mod object;
mod seq;
mod sorts;
mod state;
mod stream;
mod task;

pub use condition::{Formula, FormulaNode, Term};
pub use domain::{Action, CostTerm, Declared, Derived, Domain, Pattern, Role, Signature, Sort};
pub use fact::{Atom, Fact, Kind};
pub use feeding::{has_atom_of, stream_leads, supertypes};
pub use limits::{LARGEST_COUNT, LARGEST_NUMBER, MOST_DUE, MOST_STATES, MOST_SUPPOSED, SLOTS};
pub use look::Look;
pub use name::{Name, is_name};
pub use number::{are_digits, is_number, number_of};
pub use number_hasher::NumberHasher;
pub use object::{Obj, Objects, Row, Wide};
pub use seq::Seq;
pub use sorts::Sorts;
pub use state::State;
pub use stream::{Instance, Stream, Worth};
pub use task::{GroundAction, Plan, Problem, Task, Valued};
