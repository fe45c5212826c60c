//! The one-client model: what each component observes of the machine, stated over lists and finite maps.
//!
//! The definitions are in `specs/`, and contracts of nearly all crates cite them. The functions of this crate state theorems about
//! them and do nothing at run time; for example, `lines_are_independent` states isolation. Worked inputs that compute are in
//! `src/rows.rt`.
#![tactic(auto)]

mod accounts;
mod answers;
mod buffers;
mod calls;
mod exits;
mod file_service;
mod heap;
mod heap_window;
mod limits;
mod listed;
mod log_service;
mod object_service;
mod regions;
mod reserves;
mod rows;
mod runs;
mod session_args;
mod sessions;
mod sliced;
mod start;

pub use accounts::totals_are_the_machine;
pub use answers::{
    equal_parts_equal_answers, equal_parts_equal_states, inits_over_a_line, lines_are_independent,
    output_over_a_line, states_are_own_runs, states_over_a_line, transcript_is_running,
};
pub use buffers::{
    buffer_bytes_are_moved, buffer_errors_come_in_order, buffer_is_shared_with_its_session,
    buffer_requests_are_read, buffers_are_charged,
};
pub use calls::{
    addresses_are_read_back, calls_are_refused_in_order, hex_is_read_back,
    new_selector_is_least_unused, nothing_else_is_short,
};
pub use exits::{exits_end, exits_return_limits};
pub use file_service::{
    file_errors_come_in_order, file_requests_are_served, files_are_charged, files_stay_files,
    written_files_are_read,
};
pub use heap::{
    covered_heap_blocks_are_given, heap_payloads_are_found, heap_payloads_lie_apart,
    heap_takes_and_gives, new_heap_blocks_are_zero,
};
pub use heap_window::heap_has_gap;
pub use limits::{
    calls_keep_balance, calls_keep_limits, capalloc_lacks_caps_alone, servers_stay,
    use_is_what_is_held,
};
pub use listed::routes_lead_to_providers;
pub use log_service::writes_are_lines;
pub use object_service::{
    object_errors_come_in_order, object_requests_are_charged, object_requests_are_read,
    object_requests_are_refused_in_order, object_sessions_are_charged, objects_are_as_requested,
    objects_are_charged, objects_are_named_in_order, objects_stay_objects,
};
pub use regions::{
    found_ranges_fit, freed_has_no_regions, full_maps_refuse, pokes_are_read, regions_stay_sound,
};
pub use reserves::{reserves_are_kept, yields_and_requests_undo};
pub use rows::{
    arguments_are_read, empty_budget_is_told, exits_are_reported, lines_and_names_are_refused,
    lines_end_and_overflow, long_lines_are_no_calls, longest_line_is_read, reserve_calls_are_read,
    reserves_are_moved, session_calls_are_read,
};
pub use runs::{own_part_over_append, own_run_over_append};
pub use session_args::arguments_are_read_back;
pub use sessions::{
    buffers_are_independent, buffers_are_of_sessions, closes_return_donations, requests_are_served,
    sessions_are_independent, sessions_stay_sound,
};
pub use sliced::{
    gaps_fit_the_machine, new_blocks_are_zero, payloads_are_found, payloads_lie_apart,
};
pub use start::{boots_balanced, machine_a_boots, services_are_routed};
