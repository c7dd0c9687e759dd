//! What a transcript's answers certify and tell: of one tuple, of one answer, of all entries, and
//! the knowledge that the run and the judge keep of it entry by entry.
#![tactic(auto)]

mod certified;
mod knowledge;
mod learn;
mod levels;
mod outputs;
mod tuple;
mod worth;

pub use certified::certified_facts;
pub use knowledge::Knowledge;
pub use learn::answered;
pub use levels::dues_of;
pub use outputs::generated_name;
pub use tuple::learn_tuple;
pub use worth::{learn_value, worth_of};
