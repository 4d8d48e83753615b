//! Why a machine is refused: how a run of it ended, and what was done then.
#![tactic(auto)]

mod calls;
mod end;
mod evaluation;
mod explaining;
mod explanation;
mod halt;
mod help;
mod link_lines;
mod links;
mod objects;
mod places;
mod stage;
mod tables;
mod told;
mod trace_lines;

pub use calls::refused_call;
pub use end::{End, eval_end, route_end};
pub use evaluation::refused_evaluation;
pub use explanation::Explanation;
pub use help::{Help, help_for};
pub use links::explain_links;
pub use objects::refused_object;
pub use places::put_place;
pub use stage::Stage;
pub use tables::refused_table;
pub use told::{Phase, shown_access};
