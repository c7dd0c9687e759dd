//! The way to a state.
ghost use Rattle.std.specs.Prelude.{◌≤◌, IfOk, length};
ghost use Rattle.best_first.specs.Links.{AreLinks, FollowsLink};
ghost use Rattle.task_model.specs.declared.limits.TheConstants.{MOST_STATES};

use crate::tree::Link;
use std::alloc::{AllocError, Global};
use task_model::{Plan, Seq};

/// The steps along the links from the first state to the last, and what they cost together. The link
/// at place n is that of the state n + 1, and there are at most 200,000. Fails only where memory is
/// wanting.
pub fn path(alloc: Global, links: &[Link]) -> Result<(Plan, u64), AllocError>
    requires links { AreLinks links.now }
    requires few { length links.now ≤ MOST_STATES }
    ensures { IfOk result (λ found. FollowsLink links.now 0 found.0.steps (length links.now)
        found.1) }
{
    let mut steps = Vec::new(alloc);
    let mut cost: u64 = 0;
    let mut at = links.len();
    while at > 0 {
        let link = &links[at - 1];
        steps.push(link.step.copy()?)?;
        cost += link.cost;
        at = link.parent as usize;
    }
    steps.reverse();
    Ok((
        Plan {
            steps: Seq::from_vec(steps),
        },
        cost,
    ))
}
