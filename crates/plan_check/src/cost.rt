//! What an action costs.
ghost use Rattle.std.specs.Prelude.{◌≡◌, ◌≤◌, ◌*◌, IfSome, length, true};
ghost use Rattle.std.specs.List.{list_all};
ghost use Rattle.task_model.specs.Steps.{term_cost as cost_of_term, terms_cost as cost_of_terms};
ghost use Rattle.task_model.specs.declared.limits.TheConstants.{LARGEST_NUMBER};
ghost use Rattle.plan_check.specs.Readable.{is_readable_cost};

use formula_eval::{Env, objects_at};
use std::alloc::Global;
use task_model::{CostTerm, Look};

/// What a term adds to the cost, at most 1,000,000, if it has a value.
fn term_cost<L: Look>(alloc: Global, look: &L, term: &CostTerm, env: &Env) -> Option<u32>
    requires { is_readable_cost term.now ≡ true }
    ensures value { result ≡ cost_of_term (L.known look.now) env.now term.now }
    ensures small { IfSome result (λ n. n ≤ LARGEST_NUMBER) }
{
    match term {
        CostTerm::Number(number) => Some(*number),
        CostTerm::Value { func, args } => {
            let row = objects_at(alloc, args.as_slice(), env);
            look.value(*func, row.as_slice())
        }
    }
}

/// The sum of the terms, if all have a value.
pub(crate) fn terms_cost<L: Look>(
    alloc: Global,
    look: &L,
    terms: &[CostTerm],
    env: &Env,
) -> Option<u64>
    requires few { length terms.now ≤ 262144 }
    requires readable { list_all is_readable_cost terms.now ≡ true }
    ensures value { result ≡ cost_of_terms (L.known look.now) env.now terms.now }
    ensures small { IfSome result (λ n. n ≤ LARGEST_NUMBER * length terms.now) }
{
    let mut total: u64 = 0;
    for term in terms {
        total += u64::from(term_cost(alloc, look, term, env)?);
    }
    Some(total)
}
