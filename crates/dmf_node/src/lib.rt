//! What a node is: one definition, for the networks and for the search for paths. There is no code here.
#![tactic(auto)]
