//! Loads a table (ACPI 6.5, 5.4).
ghost use Rattle.std.specs.Prelude.{◌≡◌, replicate};
ghost use Rattle.ar_space.specs.Change.{Does};
ghost use Rattle.aml_grammar.specs.Shape.{trees_of};
ghost use Rattle.aml_marks.specs.Marked.{trees_by};
ghost use Rattle.aml_objects.specs.declared.value.Value.TheVariants.{Uninitialized};
ghost use Rattle.aml_meaning.specs.Calling.{loaded, table_run, in_frame, framed, with_steps, at_root};

use crate::readings::read_table;
use aml_evaluation::evaluate_list;
use aml_frames::{Activation, MethodPath};
use aml_meaning::{Running, World};
use aml_objects::{Body, Octets, Value};
use aml_path::Path;
use aml_terms::Marks;
use ar_space::{Result, Space};
use std::alloc::Global;

/// Loads a table, given without its header of 36 bytes: reads its terms and evaluates them at the root, in so many
/// steps.
///
/// Names that it declares stand in the world from then on. The first refusal ends it, and what was declared before
/// stays: those of reading (`BadName`, `AboveRoot`, and with an offset `BadOpcode`, `BadPkgLength`, `Truncated`,
/// `TooDeep`, `NotInBody`), and those of evaluation, such as `Exists`, `NotFound`, `OutOfSteps`, `Unsupported` and
/// `ObjectLimit`. `OutOfMemory` where memory runs out: then nothing is said of the world. However else it ends, all
/// mutexes are free after it. Its bytes are copied once, for as long as it is loaded: evaluation owns what it reads.
#[tactic(auto, using(aml_meaning::proofs::Runs::calling), unfolding(aml_meaning::specs::Calling::loaded))]
pub fn load<S: Space>(alloc: Global, world: &mut World<S>, table: &[u8], steps: u64) -> Result<()>
    ensures { Does result world.new (loaded S.accesses table.now steps) world.old }
{
    let run = &mut world.running;
    run.world.alloc = alloc;
    run.world.begin_trace(steps);
    let outcome = table_run(run, table, steps);
    run.world.release_mutexes();
    outcome
}

#[tactic(auto, using(aml_meaning::proofs::Runs::calling), unfolding(aml_meaning::specs::Calling::table_run))]
fn table_run<S: Space>(run: &mut Running<S>, table: &[u8], steps: u64) -> Result<()>
    ensures { Does result run.new.0 (table_run S.accesses steps table.now) run.old.0 }
{
    let marks = read_table(&mut run.world, table)?;
    let bytes = Body::new(
        run.world.alloc,
        Octets::from_vec(Vec::from_slice(run.world.alloc, table)?),
    )?;
    in_frame(run, (bytes, marks), steps)
}

/// The terms, in a frame whose slots are uninitialized.
#[tactic(auto, using(aml_meaning::proofs::Runs::calling), unfolding(aml_meaning::specs::Calling::in_frame))]
fn in_frame<S: Space>(run: &mut Running<S>, list: (Body, Marks), steps: u64) -> Result<()>
    ensures { Does result run.new.0 (in_frame (replicate 7 Uninitialized)
        (with_steps steps (at_root S.accesses (trees_of (trees_by list.1 list.0))))) run.old.0 }
{
    run.world.open_frame([Value::Uninitialized; 7])?;
    framed(run, list, steps)
}

#[tactic(auto, using(aml_meaning::proofs::Runs::calling))]
fn framed<S: Space>(run: &mut Running<S>, list: (Body, Marks), steps: u64) -> Result<()>
    ensures { Does result run.new.0
        (framed (with_steps steps (at_root S.accesses (trees_of (trees_by list.1 list.0))))) run.old.0 }
{
    let outcome = with_steps(run, list, steps);
    run.world.close_frame();
    outcome
}

#[tactic(auto, using(aml_meaning::proofs::Runs::calling))]
fn with_steps<S: Space>(run: &mut Running<S>, list: (Body, Marks), steps: u64) -> Result<()>
    ensures { Does result run.new.0
        (with_steps steps (at_root S.accesses (trees_of (trees_by list.1 list.0)))) run.old.0 }
{
    run.steps = steps;
    at_root(run, list)
}

/// The terms at the root.
#[tactic(auto, using(aml_meaning::proofs::Runs::calling), unfolding(aml_meaning::specs::Calling::at_root))]
fn at_root<S: Space>(run: &mut Running<S>, list: (Body, Marks)) -> Result<()>
    ensures { Does result run.new (at_root S.accesses (trees_of (trees_by list.1 list.0))) run.old }
{
    let alloc = run.world.alloc;
    let root = Path::root(alloc);
    let node = run.world.scope(&root).node;
    let scope = MethodPath::new(alloc, root)?;
    let (bytes, marks) = list;
    evaluate_list(run, Activation::new(bytes, marks, scope, node, 0))?;
    Ok(())
}
