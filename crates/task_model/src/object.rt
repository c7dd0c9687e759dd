//! Objects, which are places in a table of names, and short lists of them.
ghost use Rattle.std.specs.Prelude.{◌≡◌, ◌<◌, ◌≤◌, List, [], ◌∷◌, ◌++◌, length, IsOk, IfOk, OnOk, OnErr};
ghost use Rattle.std.specs.Prelude.{nat_eq, refl};
ghost use Rattle.std.specs.Ordering.{nat_cmp, as_partial_cmp};
ghost use Rattle.std.specs.Cmp.{nat_eq_equiv, partial_equiv_from_equiv, partial_order_from_own_ties, partial_order_from_total, unsigned_ties, unsigned_Decides};
ghost use Rattle.std.specs.Cmp.Lexicographic.{pointwise, slice_cmp, lists_per, lists_equiv, lists_ties, nat_list_cmp_total};
ghost use Rattle.std.specs.Hash as fed;
ghost use Rattle.std.specs.Hash.{items_Alike, same_Alike};

use smallvec::SmallVec;
use std::alloc::{AllocError, Global};
use std::cmp::Ordering;
use std::hash::{Hash, Hasher};
use std::marker::Model;

/// An object: a place, from 0, in a table of distinct names.
#[derive(Clone, Copy, PartialEq, Eq, PartialOrd, Ord, Hash, Default, Debug)]
pub struct Obj {
    place: u32,
}

impl Model for Obj {
    ghost use Rattle.std.specs.Prelude.{ℕ};

    ghost Value = { ℕ };

    ghost view = { λ o. o.place };

    ghost inverse = { λ n. record { place = n } };
}

impl Obj {
    /// The object at this place.
    pub fn new(place: u32) -> Obj
        ensures { result ≡ place }
    {
        Obj { place }
    }

    /// The place.
    pub fn place(self) -> u32
        ensures { result ≡ self }
    {
        self.place
    }
}

/// A short list of objects: up to `N` lie in the value itself and take no memory.
#[derive(Debug, Drop)]
pub struct Objects<const N: usize> {
    objects: SmallVec<Obj, N>,
}

/// The arguments of a fact or an atom, or the inputs of a stream: at most 8.
pub type Row = Objects<8>;

/// The arguments of an action: at most 16, of which 8 lie in the value.
pub type Wide = Objects<8>;

impl<const N: usize> Model for Objects<N> {
    ghost use Rattle.std.specs.Prelude.{ℕ, List};

    ghost Value = { List ℕ };

    ghost view = { λ r. r.objects.items };
}

impl<const N: usize> Objects<N> {
    /// The list of these objects. Fails only where memory is wanting, and never for `N` or fewer.
    pub fn new(alloc: Global, objects: &[Obj]) -> Result<Objects<N>, AllocError>
        ensures objects { IfOk result (λ list. list ≡ objects.now) }
        ensures inline { length objects.now ≤ N → IsOk result }
    {
        let objects = SmallVec::from_slice(alloc, objects)?;
        Ok(Objects { objects })
    }

    /// The list of no objects, which takes no memory.
    pub fn empty(alloc: Global) -> Objects<N>
        ensures { result ≡ [] }
    {
        Objects {
            objects: SmallVec::new(alloc),
        }
    }

    /// Puts an object behind the others. Fails only where memory is wanting, and leaves the list as
    /// it was then.
    pub fn push(&mut self, object: Obj) -> Result<(), AllocError>
        ensures ok { OnOk result (self.new ≡ self.old ++ object ∷ []) }
        ensures err { OnErr result (self.new ≡ self.old) }
    {
        self.objects.push(object)?;
        Ok(())
    }

    /// The objects.
    pub fn as_slice(&self) -> &[Obj]
        ensures { result.now ≡ self.now }
    {
        self.objects.as_slice()
    }

    /// The allocator that the list was made with.
    pub fn allocator(&self) -> Global {
        *self.objects.allocator()
    }

    /// An equal list. Fails only where memory is wanting, and never for `N` objects or fewer.
    pub fn copy(&self) -> Result<Objects<N>, AllocError>
        ensures objects { IfOk result (λ list. list ≡ self.now) }
        ensures inline { length self.now ≤ N → IsOk result }
    {
        Objects::new(self.allocator(), self.as_slice())
    }
}

/// Whether the objects are the same, place by place.
fn are_equal(ours: &[Obj], others: &[Obj]) -> bool
    ensures { result ≡ pointwise nat_eq ours.now others.now }
{
    if ours.len() != others.len() {
        return false;
    }
    for index in 0..ours.len() {
        if ours[index].place() != others[index].place() {
            return false;
        }
    }
    true
}

/// The order of the first two objects that differ, and else of the lengths.
fn compared(ours: &[Obj], others: &[Obj]) -> Ordering
    ensures { result ≡ slice_cmp nat_cmp ours.now others.now }
{
    let common = ours.len().min(others.len());
    for index in 0..common {
        let order = ours[index].place().cmp(&others[index].place());
        if order.is_ne() {
            return order;
        }
    }
    ours.len().cmp(&others.len())
}

impl<const N: usize> PartialEq for Objects<N> {
    ghost eq = { pointwise nat_eq };

    ghost laws = { lists_per (partial_equiv_from_equiv nat_eq_equiv) };

    fn eq(&self, other: &Objects<N>) -> bool {
        are_equal(self.as_slice(), other.as_slice())
    }
}

impl<const N: usize> Eq for Objects<N> {
    ghost laws = { lists_equiv nat_eq_equiv };
}

impl<const N: usize> PartialOrd for Objects<N> {
    ghost partial_cmp = { as_partial_cmp (slice_cmp nat_cmp) };

    ghost laws = { partial_order_from_own_ties (partial_order_from_total nat_list_cmp_total)
        (lists_ties nat_cmp unsigned_ties) };

    fn partial_cmp(&self, other: &Objects<N>) -> Option<Ordering> {
        Some(self.cmp(other))
    }
}

impl<const N: usize> Ord for Objects<N> {
    ghost cmp = { slice_cmp nat_cmp };

    ghost total = { nat_list_cmp_total };

    ghost matches_partial_cmp = { λ r s. refl };

    ghost matches_eq = { lists_ties nat_cmp unsigned_ties };

    fn cmp(&self, other: &Objects<N>) -> Ordering {
        compared(self.as_slice(), other.as_slice())
    }
}

impl<const N: usize> Hash for Objects<N> {
    ghost hash_input = { fed.slice fed.u32 };

    ghost respects_eq = { (items_Alike (same_Alike fed.u32 unsigned_Decides)).fed };

    fn hash<H: Hasher>(&self, state: &mut H) {
        self.as_slice().hash(state);
    }
}
