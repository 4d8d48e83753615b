//! Which table is refused: they are loaded once more, until one is.
ghost use Rattle.std.specs.Prelude.{◌∷◌, ◌<◌, IfOk, IfSome, length};
ghost use Rattle.acpi_machine.specs.Loading.{table_loaded};
ghost use Rattle.acpi_explain.specs.Refused.{IsHowFar};
ghost use Rattle.acpi_explain.specs.Stages.{IsTable};

use crate::halt::is_refused;
use acpi_machine::load_table;
use aml_meaning::World;
use aml_objects::Octets;
use aml_world::EvaluationSettings;
use ar_space::{MAX_TEXTS, Space};
use ar_tables::{Table, Tables};
use std::alloc::{AllocError, Global};

/// Loads tables one after the other, and gives the number of the one that is refused.
fn refused_among<S: Space>(
    alloc: Global,
    world: &mut World<S>,
    tables: &[Table],
    steps: u64,
) -> Result<Option<usize>, AllocError>
    ensures far { IfOk result (IsHowFar (table_loaded S.accesses steps) tables.now world.old world.new) }
    ensures within { IfOk result (λ found. IfSome found (λ number. number < length tables.now)) }
{
    for number in 0..tables.len() {
        let outcome = load_table(alloc, world, &tables[number], steps);
        let refused = is_refused(outcome)?;
        if refused {
            return Ok(Some(number));
        }
    }
    Ok(None)
}

/// Loads the DSDT, and then the SSDTs.
fn refused_number<S: Space>(
    alloc: Global,
    world: &mut World<S>,
    tables: &Tables,
    steps: u64,
) -> Result<Option<usize>, AllocError>
    ensures { IfOk result (IsHowFar (table_loaded S.accesses steps) (tables.now.dsdt ∷ tables.now.ssdts)
        world.old world.new) }
{
    let outcome = load_table(alloc, world, &tables.dsdt, steps);
    let refused = is_refused(outcome)?;
    if refused {
        return Ok(Some(0));
    }
    let found = refused_among(alloc, world, tables.ssdts.as_slice(), steps)?;
    match found {
        Some(number) => {
            let next = number + 1;
            Ok(Some(next))
        }
        None => Ok(None),
    }
}

/// Loads tables one after the other into a new world, as `acpi_machine::load_tables_as` does, and gives the number of
/// the one that is refused: 0 for the DSDT, and SSDTs from 1 on; none where no table is.
///
/// Those before it are loaded, and it is refused in the world that they leave.
pub fn refused_table<S: Space + Drop>(
    alloc: Global,
    settings: EvaluationSettings,
    tables: &Tables,
    space: S,
    steps: u64,
    osi: Vec<Octets>,
) -> Result<Option<usize>, AllocError>
    ensures { IfOk result (IsTable S.accesses settings tables.now steps osi.items space) }
{
    if osi.len() > MAX_TEXTS {
        return Ok(None);
    }
    match World::with_settings(alloc, settings, tables.width, osi, space) {
        Ok(mut world) => {
            let number = refused_number(alloc, &mut world, tables, steps);
            // (by a call: what a scope drops at its end is dropped part by part, and long to prove)
            drop(world);
            number
        }
        Err(_) => Err(AllocError),
    }
}
