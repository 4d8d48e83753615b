//! Interrupt resources (ACPI 6.5, 6.4): which interrupts a link device may be set to, which it is set to, and the
//! bytes that set it to one of them.
#![tactic(auto)]

mod current_resources;
mod descriptor;
mod end_tag;
mod exclusives;
mod flags;
mod form;
mod interrupt_numbers;
mod interrupts;
mod item;
mod laws;
mod offer;
mod possible_resources;
mod setting_bytes;

pub use current_resources::current;
pub use end_tag::length_before_end_tag;
pub use exclusives::Exclusives;
pub use form::{Form, Polarity};
pub use interrupt_numbers::InterruptNumbers;
pub use laws::{
    a_set_has_the_numbers_of_its_list, an_item_is_read_as_it_is_written,
    only_exclusive_offers_are_refused,
};
pub use offer::Offer;
pub use possible_resources::{possible, possible_as};
pub use setting_bytes::setting;
