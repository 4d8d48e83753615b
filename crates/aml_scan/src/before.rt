//! The counts that stood before a list, for contracts alone.

use std::marker::Brand;

/// The argument counts from before a list that is read: a value that contracts name, and nothing at run time.
///
/// A reader keeps them in its type. So what was lent at its start is known at its end, and what the list itself
/// declares can be moved behind it without a copy of what stood before.
pub(crate) trait Before {
    ghost use Rattle.std.specs.Prelude.{List};
    ghost use Rattle.aml_arities.specs.declared.arities.Arity.{Arity};

    /// The counts, the latest last.
    ghost before: { List Arity };
}

impl Before for Brand {
    ghost use Rattle.std.specs.Prelude.{[]};

    ghost before = { [] };
}
