//! Whether the numbers of workers may stand.
ghost use Rattle.std.specs.Prelude.{◌≡◌, count_by, map, nat_lt, sum_by};
ghost use Rattle.std.specs.List.{list_any};
ghost use Rattle.stream_map.specs.Faults.{has_wrong_number, have_wrong_workers, is_grid, own_workers};
ghost use Rattle.stream_map.specs.Spelled.{shown_pool_text};
ghost use Rattle.transcript_model.specs.declared.limits.TheConstants.{WORKERS};

use crate::pool_text::{PoolText, begins_grid};
use transcript_model::WORKERS;

/// Whether the pool is the generator in the process.
pub(crate) fn is_grid(pool: &PoolText) -> bool
    ensures { result ≡ is_grid (shown_pool_text pool.now) }
{
    begins_grid(pool.run.as_slice())
}

/// Whether the pool has another number of workers than it may have.
fn has_wrong_number(pool: &PoolText) -> bool
    ensures { result ≡ has_wrong_number (shown_pool_text pool.now) }
{
    !(1 <= pool.workers && pool.workers <= WORKERS as u64) || (is_grid(pool) && pool.workers != 1)
}

/// Whether the pools without the grid have more than 16 workers together.
fn has_many_workers(pools: &[PoolText]) -> bool
    ensures { result ≡ nat_lt WORKERS (sum_by own_workers (map shown_pool_text pools.now)) }
{
    let mut left = WORKERS as u64;
    for pool in pools {
        if is_grid(pool) {
            continue;
        }
        if left < pool.workers {
            return true;
        }
        left -= pool.workers;
    }
    false
}

/// Whether two pools are the generator in the process.
fn has_two_grids(pools: &[PoolText]) -> bool
    ensures { result ≡ nat_lt 1 (count_by is_grid (map shown_pool_text pools.now)) }
{
    pools.iter().filter(|pool| is_grid(pool)).count() > 1
}

/// Whether a pool has another number of workers than it may have.
fn has_wrong_numbers(pools: &[PoolText]) -> bool
    ensures { result ≡ list_any has_wrong_number (map shown_pool_text pools.now) }
{
    for pool in pools {
        if has_wrong_number(pool) {
            return true;
        }
    }
    false
}

/// Whether the pools have numbers of workers that may not stand.
pub(crate) fn have_wrong_workers(pools: &[PoolText]) -> bool
    ensures { result ≡ have_wrong_workers (map shown_pool_text pools.now) }
{
    has_wrong_numbers(pools) || has_two_grids(pools) || has_many_workers(pools)
}
