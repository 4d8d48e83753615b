//! Laws of the grammar of AML (ACPI 6.5, 20.2): how terms are spelled and where faults are found, apart from how
//! bytes are read.
#![tactic(auto)]

mod encoding;
mod laws;
mod names;
mod paths;

pub use encoding::opcodes_have_their_bytes_and_operands;
pub use laws::{
    faults_depend_on_no_later_byte, names_are_refused_exactly_if_faulty,
    parts_are_refused_exactly_if_faulty, read_exactly_if_spelled,
    read_within_levels_exactly_if_spelled, refused_exactly_if_faulty,
    refused_within_levels_exactly_if_faulty,
};
pub use names::{
    a_name_segment_has_four_characters, lists_are_read_and_names_declared_in_their_scope,
};
pub use paths::{
    a_path_is_written_with_all_its_characters, a_text_is_read_as_the_path_that_it_writes,
};
