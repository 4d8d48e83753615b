//! The state of evaluation (`activation`), the frames that wait for a part of a term (`frames`), and terms that are
//! evaluated at once, without a frame (`known`, `short_terms` and its like).
//!
//! Begin with `activation` and `frames`. Evaluation is one loop over a stack of frames in memory (`aml_evaluation`),
//! in place of functions that call themselves, but for operators over integers that are there already (`at_once`). A
//! step (`begin_x`, `resume_x`) takes a term up to the first part that is evaluated, and answers what is left to do
//! (`Next`); what waits for that part is a `Frame`. Steps of fields and calls are in `aml_accesses`, of data and
//! declarations in `aml_declarations`, of targets in `aml_targets`, of statements in `aml_statements`, of operators and
//! names in `aml_operators`. A frame here is one of this stack; the locals and arguments of a call are in a frame of
//! slots (`aml_world`). What frames and steps mean is in
//! `specs/Follow`, and for single terms in the other files of `specs/`.
//!
//! What needs no frame is tried first: an item of a list by `short_items`; an operand by `known`, where it gives an
//! integer, and an operand of an operator then by `short_values` of `aml_operators`; a target by `known`.
//!
//! In all functions `run` is the world with the steps that are left, `act` the activation: the bytes and the position
//! of the next one, and `levels` how deep terms may still nest. docs/ARCHITECTURE.md explains their clauses (`means`,
//! `ends`, `falls`), docs/WORDS.md the words.
//!
//! `#[inline(always)]` marks common paths, `#[cold]` and `#[inline(never)]` rare ones; they change speed only.
#![tactic(auto)]

mod activation;
mod addresses;
mod at_once;
mod banked;
mod boxed;
mod frames;
mod indexed;
mod operands;
mod path_invocations;
mod position;
mod tracing;
mod uses;
mod values;

pub use activation::Activation;
pub use addresses::{AddressPart, Asked, FunctionAddress, PciAccess, RegionAccess, Waited};
pub use at_once::known::{known_integer, use_known};
pub use at_once::short_items::try_operator;
pub use at_once::short_names::{acquire_at_name, node_at, release_at_name};
pub use at_once::short_opcodes::take_operator;
pub use at_once::short_terms::{short_integer, slot_value};
pub use banked::{BankReads, BankWrites, BankedField, BanksLeft, Selector};
pub use boxed::Boxed;
pub use frames::{
    Call, Callee, Control, DeclarationPart, Entry, Frame, Items, ListItem, Loop, MatchPart, Next,
    Package, leave,
};
pub use indexed::{
    IndexedField, UnitReads, UnitWrites, UnitsLeft, is_kept, merge_unit, put_unit, unit_of, zeros,
};
pub use operands::{bytes_operand, is_named, list_operand, number_operand};
pub use path_invocations::invocation_at;
pub use position::{MethodPath, Position};
pub use tracing::{
    give_up, tell_last, tell_place, told, told_here, told_loop, told_path, told_turn,
};
pub use uses::{
    Access, Accessed, Doing, Dyadic, Inquiry, Monadic, Reading, SecondOperand, Target, TargetForm,
    TargetUse,
};
pub use values::{integer_of, size_or_type, value_of_call};
