//! Whole lists as terms in memory: a scan, and then a copy of what it found.
ghost use Rattle.std.specs.Prelude.{◌≡◌, OnErr, map};
ghost use Rattle.ar_space.specs.Outcome.{Answers, seen};
ghost use Rattle.aml_grammar.specs.View.{tree_view};
ghost use Rattle.aml_grammar.specs.Grammar.{reading, table_reading};

use crate::copying::copied_list;
use crate::places::list_at;
use aml_arities::{ArgumentCounts, Arities};
use aml_grammar::Term;
use aml_marks::{scan_list, scan_table_apart};
use aml_path::Path;
use ar_space::Result;
use std::alloc::Global;

/// The terms of a list: of a table after its header, or, where `body` is true, of the body of a control method
/// (TermList of ACPI 6.5, 20.2.5).
///
/// Names stand in `scope`, and `counts` says how many arguments a name takes; outside a body, names that the list
/// declares itself count too, from where they stand on. It is refused as `scan_list` refuses it.
#[tactic(auto, using(crate::proofs::Parsed::parsing))]
pub fn parse_list<C: ArgumentCounts>(
    alloc: Global,
    bytes: &[u8],
    scope: &Path,
    body: bool,
    counts: &C,
) -> Result<Vec<Term>>
    ensures { Answers (seen (λ v. map tree_view v.items) result) (reading bytes.now scope.now body
        (C.counts counts.now)) }
{
    let marks = scan_list(alloc, bytes, scope, body, counts)?;
    copied_list(alloc, list_at(bytes, &marks))
}

/// The terms of a table after its header, whose names stand at the root; the argument counts of names that it
/// declares are appended to `arities`. The faults are those of `parse_list`. Where it is refused, no name takes other
/// arguments.
#[tactic(auto, using(crate::proofs::Parsed::parsing))]
pub fn parse_table(alloc: Global, bytes: &[u8], arities: &mut Arities) -> Result<Vec<Term>>
    ensures table { Answers (seen (λ v. (map tree_view v.items, arities.new)) result)
        (table_reading bytes.now arities.old) }
    ensures refused { OnErr result (arities.new ≡ arities.old) }
{
    let scanned = scan_table_apart(alloc, bytes, arities)?;
    let terms = copied_list(alloc, list_at(bytes, &scanned.marks))?;
    arities.append(scanned.added)?;
    Ok(terms)
}
