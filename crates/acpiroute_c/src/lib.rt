//! The calls of acpiroute for C, and for whatever calls C: over memory alone, with no state between two calls. The
//! header that declares them is `include/acpiroute.h`.
#![tactic(auto)]

mod call;
mod call_access;
mod call_pin;
mod call_reply;
mod call_settings;
mod call_words;
mod configure_call;
mod evaluate_call;
mod exports;
pub mod laws;
mod pins_call;
mod record_call;
mod table_source;

pub use call_access::{CallAccess, CallWanted};
pub use call_pin::{CallPin, CallSci, PinsReply};
pub use call_reply::CallReply;
pub use call_settings::CallSettings;
