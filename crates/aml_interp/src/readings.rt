//! Tables, scanned before their terms are evaluated (ACPI 6.5, 5.4).
ghost use Rattle.ar_space.specs.Change.{Does};
ghost use Rattle.ar_space.specs.Outcome.{seen};
ghost use Rattle.aml_grammar.specs.Shape.{trees_of};
ghost use Rattle.aml_marks.specs.Marked.{trees_by};
ghost use Rattle.aml_meaning.specs.Calling.{table_terms};

use aml_terms::{Marks, scan_table_within};
use aml_world::WorldState;
use ar_space::Result;

/// The marks of a table, given without its header; the names that it declares take their arguments from now on. It is
/// refused as `scan_table_within` refuses it, within the levels that the world allows, and then nothing changes.
#[tactic(auto, using(crate::proofs::Tables::table_read))]
pub(crate) fn read_table<S>(world: &mut WorldState<S>, bytes: &[u8]) -> Result<Marks>
    ensures { Does (seen (λ m. trees_of (trees_by m bytes.now)) result) world.new (table_terms bytes.now) world.old }
{
    let levels = world.nesting().levels;
    let mut arities = world.take_arities();
    let marks = scan_table_within(world.alloc, levels, bytes, &mut arities);
    world.set_arities(arities);
    marks
}
