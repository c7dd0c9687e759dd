//! What stands in the body of an `exists`, with its own variables alone.
ghost use Rattle.std.specs.Prelude.{◌≡◌, IfOk, IfSome, length, true};
ghost use Rattle.std.specs.List.{list_all};
ghost use Rattle.fact_join.specs.Answers.{is_term_of, is_pattern_of};
ghost use Rattle.formula_eval.specs.Readable.{is_readable, is_readable_term};
ghost use Rattle.task_model.specs.Fit.{IsFitDomain};

use grounder::tops;
use std::alloc::{AllocError, Global};
use task_model::{Domain, Formula, FormulaNode, Obj, Pattern, Role, Seq, Term};

/// An `exists` where the variables around it have objects. Its own have the slots from `first` on.
#[derive(Drop)]
pub(crate) struct Exists<'a> {
    pub(crate) first: u8,
    pub(crate) sorts: &'a [u32],
    pub(crate) body: &'a Formula,
    pub(crate) slots: [Obj; 16],
}

/// The term where a variable of the `width` ones from the slot `first` on has its place among these,
/// from 0, and any other has its object.
fn inner_term(term: Term, first: u8, width: usize, slots: &[Obj; 16]) -> Term
    requires { is_readable_term term ≡ true }
    ensures { is_term_of width result ≡ true }
{
    match term {
        Term::Slot(slot) => {
            if first <= slot && ((slot - first) as usize) < width {
                Term::Slot(slot - first)
            } else {
                Term::Object(slots[slot as usize])
            }
        }
        Term::Object(object) => Term::Object(object),
    }
}

impl<'a> Exists<'a> {
    /// The terms with the variables of the `exists` alone. Fails only where memory is wanting.
    fn inner_terms(&self, alloc: Global, terms: &[Term]) -> Result<Vec<Term>, AllocError>
        requires { list_all is_readable_term terms.now ≡ true }
        ensures within { IfOk result (λ inner.
            list_all (is_term_of (length self.now.sorts.now)) inner.items ≡ true) }
        ensures same { IfOk result (λ inner. length inner.items ≡ length terms.now) }
    {
        let width = self.sorts.len();
        let mut inner = Vec::new(alloc);
        for term in terms {
            inner.push(inner_term(*term, self.first, width, &self.slots))?;
        }
        Ok(inner)
    }

    /// The part with these alone, if it is an atom of such a predicate. Fails only where memory is wanting.
    fn inner_atom(
        &self,
        alloc: Global,
        domain: &Domain,
        role: Role,
        part: &Formula,
    ) -> Result<Option<Pattern>, AllocError>
        requires fit { IsFitDomain domain.now }
        requires readable { is_readable domain.now part.now ≡ true }
        ensures { IfOk result
            (λ atom. IfSome atom (λ p. is_pattern_of (length self.now.sorts.now) p ≡ true)) }
    {
        let FormulaNode::Atom { pred, args } = &part.node else {
            return Ok(None);
        };
        if domain.roles.as_slice()[*pred as usize] != role {
            return Ok(None);
        }
        let args = Seq::from_vec(self.inner_terms(alloc, args.as_slice())?);
        Ok(Some(Pattern { pred: *pred, args }))
    }

    /// The atoms of such predicates that stand at the top of the body. Fails only where memory is
    /// wanting.
    pub(crate) fn inner_atoms(
        &self,
        alloc: Global,
        domain: &Domain,
        role: Role,
    ) -> Result<Vec<Pattern>, AllocError>
        requires fit { IsFitDomain domain.now }
        requires readable { is_readable domain.now self.now.body.now ≡ true }
        ensures { IfOk result
            (λ atoms. list_all (is_pattern_of (length self.now.sorts.now)) atoms.items ≡ true) }
    {
        let mut atoms = Vec::new(alloc);
        for part in tops(self.body) {
            if let Some(atom) = self.inner_atom(alloc, domain, role, part)? {
                atoms.push(atom)?;
            }
        }
        Ok(atoms)
    }
}
