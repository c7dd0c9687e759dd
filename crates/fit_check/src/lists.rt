//! Lists that aren't too long, and places in them.
ghost use Rattle.std.specs.Prelude.{◌≡◌, nat_lt};
ghost use Rattle.std.specs.List.{list_all};
ghost use Rattle.task_model.specs.Fit as fit;

/// How many members a list may have.
const MOST: usize = 8_388_608;

/// Whether the list isn't too long.
pub(crate) fn is_short<T>(items: &[T]) -> bool
    ensures { result ≡ fit.is_short items.now }
{
    items.len() <= MOST
}

/// Whether each number is below this one.
fn are_below(size: usize, numbers: &[u32]) -> bool
    ensures { result ≡ list_all (λ n. nat_lt n size) numbers.now }
{
    numbers.iter().all(|number| (*number as usize) < size)
}

/// Whether each number is a place of a list of this length.
pub(crate) fn are_places(size: usize, numbers: &[u32]) -> bool
    ensures { result ≡ fit.are_places size numbers.now }
{
    is_short(numbers) && are_below(size, numbers)
}
