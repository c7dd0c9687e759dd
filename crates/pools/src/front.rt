//! How many asks make a round.
ghost use Rattle.std.specs.Prelude.{◌≡◌};
ghost use Rattle.instance_queue.specs.Level.{due_instances};
ghost use Rattle.pools.specs.Pools.{IsLongestFront, shares_of};
ghost use Rattle.transcript_model.specs.Rounds.{fits as fits_all};

use crate::workers::Workers;
use instance_queue::Due;

/// Whether no pool has more of these asks than workers.
fn fits(pools: &[Workers], dues: &[Due]) -> bool
    ensures { result ≡ fits_all (shares_of pools.now) (due_instances dues.now) }
{
    for pool in pools {
        if pool.served(dues) > pool.count() as usize {
            return false;
        }
    }
    true
}

/// How many of these asks, from the front on, make a round: as many as there are such that no pool
/// has more of them than workers. Where each pool has a worker and there is an ask, there is one at
/// least.
pub fn longest_front(pools: &[Workers], dues: &[Due]) -> usize
    ensures { IsLongestFront (shares_of pools.now) (due_instances dues.now) result }
{
    for count in 0..dues.len() {
        if !fits(pools, &dues[..count + 1]) {
            return count;
        }
    }
    dues.len()
}
