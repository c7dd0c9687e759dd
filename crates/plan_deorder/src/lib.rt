//! Which steps of a plan must stay in order.
#![tactic(auto)]

mod conflict;
mod laws;
mod listing;
mod order;
mod predicates;
mod reads;
mod touched;

pub use laws::{
    a_step_may_go_first, kept_orders_are_valid, neighbours_may_be_exchanged, stages_keep_the_order,
    truth_is_what_is_read,
};
pub use listing::keeps;
pub use order::{MOST_STEPS, Order, OrderFault, deorder};
