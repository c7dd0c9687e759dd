//! What a search for a cheapest plan stores.
ghost use Rattle.std.specs.Prelude.{◌≡◌, ◌∷◌, [], IfOk};
ghost use Rattle.task_model.specs.Fit.{IsFit};
ghost use Rattle.task_model.specs.Initial.{initial_state};
ghost use Rattle.optimal_search.specs.Agenda.{IsAgenda};
ghost use Rattle.optimal_search.specs.Searches.{ClosesNext};

use crate::agenda::{Agenda, Node};
use best_first::Link;
use plan_check::initial;
use state_store::StateStore;
use std::alloc::{AllocError, Global};
use task_model::Task;

/// The states that were stored, each with its node, and a link for each state that was closed but
/// the first, in the order of closing. A link's parent is a number in that order, from 0.
#[derive(Drop)]
pub(crate) struct Search {
    pub(crate) store: StateStore,
    pub(crate) agenda: Agenda,
    pub(crate) links: Vec<Link>,
}

impl Search {
    /// The search that has stored and closed the initial state alone. Fails only where memory is
    /// wanting.
    pub(crate) fn new(alloc: Global, task: &Task) -> Result<Search, AllocError>
        requires { IsFit task.now }
        ensures store { IfOk result (λ search. search.store ≡ initial_state task.now ∷ []) }
        ensures nodes { IfOk result (λ search. search.agenda.nodes.items
            ≡ record { cost = 0; left = 0; last = None } ∷ []) }
        ensures agenda { IfOk result (λ search. IsAgenda search.agenda) }
        ensures links { IfOk result (λ search. search.links.items ≡ []) }
    {
        let mut store = StateStore::new(alloc)?;
        store.intern(initial(alloc, task)?)?;
        let mut agenda = Agenda::new(alloc);
        agenda.add(Node {
            cost: 0,
            left: 0,
            last: None,
        })?;
        Ok(Search {
            store,
            agenda,
            links: Vec::new(alloc),
        })
    }

    /// Closes the open state of least rank: its place, or None where no state is open. Fails only
    /// where memory is wanting.
    pub(crate) fn close_next(&mut self) -> Result<Option<u32>, AllocError>
        requires { IsAgenda self.old.agenda }
        ensures { IfOk result (ClosesNext self.old self.new) }
    {
        let Some((place, link)) = self.agenda.next() else {
            return Ok(None);
        };
        self.links.push(link)?;
        Ok(Some(place))
    }
}
