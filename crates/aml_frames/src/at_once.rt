//! Terms that are evaluated at once, without a frame: what gives or takes an integer that is there already. Begin with
//! `known`, which an operand or a target asks; items of lists ask `short_items`. Each of these functions does what the
//! term means, and is refused as the term is, or answers that it did nothing: then nothing that a contract sees has
//! changed but the place and the steps, which whoever tried restores, and the term is evaluated as any other is.

pub(crate) mod known;
pub(crate) mod short_items;
pub(crate) mod short_names;
pub(crate) mod short_opcodes;
pub(crate) mod short_operations;
pub(crate) mod short_terms;
