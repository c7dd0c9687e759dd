//! Laws of a run of the first worked task, each the contract of a function that does nothing.
ghost use Rattle.premise_laws.specs.Laws.{FirstRunGoesWell, FirstTableIsGiven, HasFirstRun};

use std::alloc::Global;

/// The premise of the first part of `complete` is met: words, files and a host with which all goes
/// well. The pool's words are strings, which are of some allocator.
pub fn the_first_run_goes_well(_alloc: Global)
    ensures { FirstRunGoesWell }
{}

/// The premise of its second part is met by the same run: its child answers by a table that keeps
/// each transcript within the limits.
pub fn the_first_table_is_given()
    ensures { FirstTableIsGiven }
{}

/// So no premise of these is empty: there is a run with an outcome, which asked the child, and whose
/// dialogue was said.
pub fn the_first_run_is_there(_alloc: Global)
    ensures { HasFirstRun }
{}
