//! What holds of all sources: each law is the contract of a function that does nothing.
ghost use Rattle.std.specs.Prelude.{◌≡◌, ℕ, ◌+◌, ◌≤◌};
ghost use Rattle.acpiroute_shell.specs.Reads.{ReadsWithin};

use crate::streams::Source;

/// Where each read of a source adds one to a count that its state determines, at most so many reads add at most as
/// much.
pub fn reads_are_counted<R: Source>()
    ensures { (count : R → ℕ) (limit : ℕ) (before after : R) → ((s t : R) → R.one_read s t → count t ≡ count s + 1)
        → ReadsWithin R.one_read limit before after → count after ≤ count before + limit }
{}
