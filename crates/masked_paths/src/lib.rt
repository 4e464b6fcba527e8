//! The theory of paths on which only some objects are followed: when that changes no report, and what an engine owes under such a mask.
#![tactic(auto)]

mod masked_tabulation;
mod met_example;
mod met_states;
mod strict_flows;
mod theorems;

pub use masked_tabulation::{masked_edges_are_realised, masked_reports_are_those_of_paths};
pub use met_example::{Event, Global, Pointer, behind, binds, binds_among};
pub use met_states::{
    edges_meet_global_states, masks_keep_global_states, met_objects_are_enough,
    met_objects_are_fewer,
};
pub use strict_flows::{strict_flows_ask_lists, strict_origins};
pub use theorems::{
    closed_objects_are_enough, closed_realises_the_same, enough_need_not_be_closed,
    flows_are_within, masked_edges_report, masked_log_is_exact, masks_change_no_report,
    matched_objects_are_enough,
};
