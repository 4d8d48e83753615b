//! The buses behind PCI-to-PCI bridges, for a field that is read for a caller outside of AML (ACPI 6.5, 5.5.2.4 and
//! 6.1.1).
ghost use Rattle.std.specs.Prelude.{◌≡◌};
ghost use Rattle.ar_space.specs.Change.{Does};
ghost use Rattle.aml_world.specs.fields.Fields.{bus_behind, bus_behind_all};
ghost use Rattle.aml_meaning.specs.Meaning.{meaning};
ghost use Rattle.aml_frames.specs.Uses.{asking};

use aml_evaluation::ask_integer;
use aml_meaning::Running;
use aml_path::Path;
use aml_world::{adr, secondary_bus};
use ar_space::{Result, Space};
use std::collections::VecDeque;

/// The bus behind bridges that stand one below another, the outermost of them on a bus of a segment group.
pub(crate) fn bus_behind_all<S: Space>(
    run: &mut Running<S>,
    calls: usize,
    segment: u64,
    bus: u64,
    bridges: VecDeque<Path>,
) -> Result<u64>
    ensures { Does result run.new (bus_behind_all S.accesses (asking S.accesses (meaning S.accesses) calls)
        segment bus bridges.items) run.old }
{
    let mut left = bridges;
    let mut behind = bus;
    while let Some(bridge) = left.pop_front() {
        behind = bus_behind(run, calls, segment, behind, &bridge)?;
    }
    Ok(behind)
}

/// The bus behind one bridge: its address is asked for, and its secondary bus is read.
#[tactic(auto, using(aml_meaning::proofs::Runs::running, crate::proofs::Lent::lent), //
unfolding(aml_world::specs::fields::Fields::bus_behind))]
fn bus_behind<S: Space>(
    run: &mut Running<S>,
    calls: usize,
    segment: u64,
    bus: u64,
    bridge: &Path,
) -> Result<u64>
    ensures { Does result run.new (bus_behind S.accesses (asking S.accesses (meaning S.accesses) calls)
        segment bus bridge.now) run.old }
{
    let object = bridge.child(run.world.alloc, adr())?;
    let address = ask_integer(run, calls, &object)?;
    secondary_bus(&mut run.world.space, segment, bus, address)
}
