//! A store with what is laid over it.
ghost use Rattle.task_model.specs.Known.{IsCoherent};
ghost use Rattle.fact_store.specs.Store.{coherent_prop};
ghost use Rattle.fact_layer.specs.Laid.{laid_over};

use crate::more::More;
use fact_store::Facts;
use std::marker::Model;
use task_model::{Fact, Look, Name, Obj};

/// What a store knows, with names, facts and values behind its own. It is for look-ups, and seen as
/// what is known so, with the proof that it is coherent.
#[derive(Drop)]
pub struct Layer<'a> {
    base: &'a Facts,
    names: &'a [Name],
    more: &'a More,
    ghost coherent: { IsCoherent
        (laid_over base.now.known names.now more.now.facts more.now.values) } by { coherent_prop
            (laid_over base.now.known names.now more.now.facts more.now.values) },
}

impl<'a> Model for Layer<'a> {
    ghost use Rattle.fact_store.specs.Store.{Store, coded_store};
    ghost use Rattle.fact_layer.specs.Laid.{laid_over};

    ghost Value = { Store };

    ghost coded = { coded_store };

    ghost view = { λ l. record {
      known = laid_over l.base.now.known l.names.now l.more.now.facts l.more.now.values;
      coherent = l.coherent;
    } };
}

impl<'a> Layer<'a> {
    ghost use Rattle.std.specs.Prelude.{◌≡◌};

    /// The store with these names, facts and values behind its own, which takes no memory.
    pub fn new(base: &'a Facts, names: &'a [Name], more: &'a More) -> Layer<'a>
        requires { IsCoherent (laid_over base.now.known names.now more.now.facts more.now.values) }
        ensures { result.known
            ≡ laid_over base.now.known names.now more.now.facts more.now.values }
    {
        Layer { base, names, more }
    }
}

impl<'a> Look for Layer<'a> {
    ghost known = { λ l. l.known };

    ghost coherent = { λ l. l.coherent };

    fn has(&self, fact: &Fact) -> bool {
        self.more.has(self.base, fact)
    }

    fn count(&self, sort: u32) -> usize {
        self.more.count(self.base, sort)
    }

    fn object(&self, sort: u32, place: usize) -> Obj {
        match self.more.object(self.base, sort, place) {
            Some(object) => object,
            None => unreachable!(),
        }
    }

    fn value(&self, func: u32, args: &[Obj]) -> Option<u32> {
        self.more.value(self.base, func, args)
    }

    fn name(&self, object: Obj) -> &Name {
        let place = object.place() as usize;
        let names = self.base.names();
        if place < names.len() {
            &names[place]
        } else {
            &self.names[place - names.len()]
        }
    }

    fn matches(&self, pred: u32, place: usize, object: Obj) -> usize {
        self.more.matches(self.base, pred, place, object)
    }

    fn matched(&self, pred: u32, place: usize, object: Obj, number: usize) -> &[Obj] {
        self.more.matched(self.base, pred, place, object, number)
    }
}
