//! How a mode looks for plans.
ghost use Rattle.std.specs.Prelude.{Bool, IfOk};
ghost use Rattle.turn_run.specs.Deciding.{MayDecideIn, MayFindIn};

use crate::situation::Situation;
use best_first::Found;
use std::alloc::AllocError;

/// How a mode looks for plans over what is known, before each of its turns.
pub trait PlanSearch {
    // Whether a plan that is answered costs least.
    ghost cheapest: { Bool };

    /// Looks for a plan among the states that are reached, at most as many as the head allows, or
    /// answers None where the goal is out of reach, so that there is none. Fails only where memory is
    /// wanting.
    fn find(&self, situation: &Situation<'_>) -> Result<Option<Found>, AllocError>
        requires may { MayDecideIn situation.now }
        ensures found { IfOk result (MayFindIn cheapest situation.now) };
}
