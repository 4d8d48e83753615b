//! What holds of all calls of a machine: each law is the contract of a function that does nothing.
#![tactic(auto)]

mod bounds;
mod depths;
mod descriptors;
mod entries;
mod faults;
mod initializing;
mod kernel_lines;
mod link_objects;
mod loading;
mod notes;
mod profiles;
mod refusals;
mod reports;
mod templates;
mod walks;
mod worlds;

pub use bounds::{
    a_report_reaches_its_space_by_accesses, each_access_within_the_bound_is_made,
    no_more_accesses_are_made_than_the_bound,
};
pub use depths::{
    a_machine_that_allows_more_depth_calls_as_one_that_allows_less,
    a_machine_that_allows_more_depth_gathers_as_one_that_allows_less,
};
pub use descriptors::{
    an_item_means_what_its_first_byte_says, interrupts_are_offered_as_their_descriptor_says,
    the_flags_of_an_interrupt_are_bits,
};
pub use entries::{
    an_entry_of_a_routing_table_tells_of_a_pin, an_entry_that_tells_of_no_pin_is_refused,
};
pub use faults::{machine_faults_are_reached_by_accesses, routing_faults_are_reached_by_accesses};
pub use initializing::{
    calls_of_initializing_are_passed_over, initializing_calls_three_methods_in_turn,
};
pub use kernel_lines::{
    a_run_for_a_kernel_is_one_without_its_lines, each_routing_table_has_one_line_bus,
    each_source_has_one_line_trigger, interrupts_are_triggered_as_their_overrides_say,
    links_are_triggered_as_they_offer, the_bus_of_a_routing_table_is_told_by_its_objects,
    the_device_of_each_pin_has_one_line_bus,
};
pub use link_objects::{
    a_link_is_a_device_with_the_id_of_links, a_link_is_present_by_its_status,
    a_routing_table_is_what_its_device_answers, links_are_asked_by_their_objects,
};
pub use loading::{
    osi_knows_the_texts_that_a_machine_is_given, tables_are_loaded_in_turn,
    the_dsdt_says_how_wide_integers_are,
};
pub use notes::{
    machine_faults_are_answers_of_the_last_access, noting_changes_no_call,
    routing_faults_are_answers_of_the_last_access,
};
pub use profiles::{
    the_wide_profile_calls_as_the_core_one_does,
    the_wide_profile_finds_the_buses_that_the_core_one_does,
    the_wide_profile_gathers_what_the_core_one_does,
    the_wide_profile_reports_what_the_core_one_does,
};
pub use refusals::each_refusal_is_told_by_its_number;
pub use reports::{
    a_line_of_a_report_tells_of_its_accesses, noting_changes_no_report,
    the_lines_of_a_report_tell_of_their_accesses,
};
pub use templates::{
    a_template_says_what_its_items_say, interrupts_are_numbered_by_bits_and_bytes,
};
pub use walks::each_name_that_stands_is_walked;
pub use worlds::{
    a_machine_makes_of_its_world_what_evaluations_do, a_run_changes_its_machine_by_evaluations,
    the_first_that_a_machine_passes_over_are_kept,
};
