//! The order of instances.
ghost use Rattle.std.specs.Prelude.{◌≡◌, map};
ghost use Rattle.std.specs.Ordering.{nat_cmp};
ghost use Rattle.std.specs.Cmp.Lexicographic.{slice_cmp};
ghost use Rattle.task_model.specs.Streams.{instance_cmp, name_at};

use std::cmp::Ordering;
use std::marker::Model;
use task_model::{Instance, Name, Obj};

/// The names of the objects, each at its object's place: some, and behind them others. It is seen
/// as the list of them.
#[derive(Drop)]
pub struct Names<'a> {
    first: &'a [Name],
    others: &'a [Name],
}

impl<'a> Model for Names<'a> {
    ghost use Rattle.std.specs.Prelude.{ℕ, List, ◌++◌};

    ghost Value = { List (List ℕ) };

    ghost view = { λ n. n.first.now ++ n.others.now };
}

impl<'a> Names<'a> {
    ghost use Rattle.std.specs.Prelude.{◌++◌};

    /// The first names with the others behind them.
    pub fn new(first: &'a [Name], others: &'a [Name]) -> Names<'a>
        ensures { result ≡ first.now ++ others.now }
    {
        Names { first, others }
    }

    /// The name of an object, or no bytes where there is none.
    fn name_of(&self, object: Obj) -> &[u8]
        ensures { result.now ≡ name_at self.now object }
    {
        let place = object.place() as usize;
        let found = if place < self.first.len() {
            self.first.get(place)
        } else {
            self.others.get(place - self.first.len())
        };
        match found {
            Some(name) => name.bytes(),
            None => &[],
        }
    }
}

/// Compares objects by their names, one after another and byte by byte; of a list and a longer one
/// that begins with it the shorter comes first.
fn compare_inputs(names: &Names<'_>, a: &[Obj], b: &[Obj]) -> Ordering
    ensures { result ≡ slice_cmp (slice_cmp nat_cmp) (map (name_at names.now) a.now)
        (map (name_at names.now) b.now) }
{
    match (a.split_first(), b.split_first()) {
        (None, None) => Ordering::Equal,
        (None, Some(_)) => Ordering::Less,
        (Some(_), None) => Ordering::Greater,
        (Some((first, firsts)), Some((second, seconds))) => {
            match names.name_of(*first).cmp(&names.name_of(*second)) {
                Ordering::Equal => compare_inputs(names, firsts, seconds),
                decided => decided,
            }
        }
    }
}

/// Compares instances by their streams' places, and then by their inputs' names.
pub(crate) fn compare(names: &Names<'_>, a: &Instance, b: &Instance) -> Ordering
    ensures { result ≡ instance_cmp names.now a.now b.now }
{
    match a.stream.cmp(&b.stream) {
        Ordering::Equal => compare_inputs(names, a.inputs.as_slice(), b.inputs.as_slice()),
        decided => decided,
    }
}
