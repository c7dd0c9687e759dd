//! The term of an atom by which its facts are gone through.
ghost use Rattle.std.specs.Prelude.{◌≡◌, true, IfSome};
ghost use Rattle.std.specs.List.{list_all};
ghost use Rattle.formula_eval.specs.Readable.{is_readable_term};
ghost use Rattle.fact_join.specs.Leads.{IsLead};

use crate::partial::Partial;
use crate::query::QueryAtom;
use task_model::{Look, Obj};

/// A term of an atom whose object is fixed.
#[derive(Clone, Copy)]
pub(crate) struct Lead {
    /// Its place among the terms.
    pub(crate) place: usize,
    /// The object.
    pub(crate) object: Obj,
    /// How many facts have the object there.
    pub(crate) count: usize,
}

/// The fixed term that has the fewest facts, or None where no term is fixed.
pub(crate) fn lead_of<L: Look>(look: &L, partial: &Partial, atom: &QueryAtom<'_>) -> Option<Lead>
    requires { list_all is_readable_term atom.now.terms.now ≡ true }
    ensures { IfSome result (IsLead (L.known look.now) partial.now atom.now) }
{
    let mut best = None;
    for (place, term) in atom.terms.iter().enumerate() {
        if let Some(object) = partial.fixed(*term) {
            let count = look.matches(atom.pred, place, object);
            match best {
                Some(Lead { count: fewest, .. }) if fewest <= count => {}
                _ => {
                    best = Some(Lead {
                        place,
                        object,
                        count,
                    });
                }
            }
        }
    }
    best
}
