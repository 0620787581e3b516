//! What each arc and each place of a network is worth: how much of the greatest value is lost without it.
#![tactic(auto)]

pub use gain::{arc_gains, arc_gains_watched, second_gains, second_gains_watched};
pub use laws::{
    arc_has_loss, closing_leaves_out, greatest_value_is_one, held_flow_is_lost,
    idle_arc_loses_nothing, loss_is_flow, node_has_loss, node_loss_is_flow, pair_has_loss,
    second_has_gain, shutting_leaves_out, worst_is_most_vital,
};
pub use loss::{
    arc_losses, arc_losses_of, arc_losses_of_watched, arc_losses_watched, node_losses,
    node_losses_of, node_losses_of_watched, node_losses_watched, value_without_arc,
    value_without_node,
};
pub use pairs::{
    pair_losses, pair_losses_watched, worst_pairs, worst_pairs_among, worst_pairs_among_watched,
    worst_pairs_watched,
};
pub use watch::ValuingWatch;
pub use worst::{
    NumberedLoss, worst_arcs, worst_arcs_among, worst_arcs_among_watched, worst_arcs_watched,
    worst_nodes, worst_nodes_watched,
};

mod along;
mod chains;
mod climb;
mod cursor;
mod exits;
mod gain;
mod grown;
mod growth;
mod guess;
mod hop;
mod laws;
mod least_loss;
mod loss;
mod order;
mod pairs;
mod parts;
mod push;
mod ranks;
mod rerouting;
mod rest;
mod search;
mod tree;
mod watch;
mod worst;
