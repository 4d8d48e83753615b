//! What a run finds: links and their pins, and the other devices, where these are spared.
ghost use Rattle.std.specs.Prelude.{◌≡◌, ◌≤◌, ◌+◌, IfOk, [], false, true, length, map, option_to_list};
ghost use Rattle.std.specs.List.Sorted.{IsStrictlySortedBy};
ghost use Rattle.ar_space.specs.Outcome.{Answers};
ghost use Rattle.ar_space.specs.Change.{Does};
ghost use Rattle.aml_path.specs.Paths.{path_cmp};
ghost use Rattle.acpi_machine.specs.MachineStates.{sci_of};
ghost use Rattle.acpi_links.specs.Problems.{problem_of};
ghost use Rattle.route_solve.specs.Fits.{Fits};
ghost use Rattle.acpi_configure.specs.Others.{barred_if};
ghost use Rattle.acpi_configure.specs.Stops.{StopsInFinding};
ghost use Rattle.acpi_configure.specs.WithOptions.{narrowed, found_by};

use crate::options::Options;
use crate::other_lines::barred;
use crate::others::{AskedDevice, ask_others};
use acpi_links::{Gathered, avoid_more, gather};
use acpi_machine::Machine;
use ar_space::{Result, Space};
use std::alloc::Global;
use std::marker::Model;

/// What a run found.
#[derive(Drop)]
pub(crate) struct Found {
    /// The devices that were asked, with what each of them said.
    pub asked: Vec<AskedDevice>,
    /// What gathering found, with the problem that is left.
    pub gathered: Gathered,
}

impl Model for Found {
    ghost use Rattle.acpi_configure.specs.WithOptions.{Findings};

    ghost Value = { Findings };

    ghost view = { λ f. record { asked = f.asked.items; gathering = f.gathered } };
}

/// Finds what there is: first the links, then the other devices.
#[tactic(auto, using(ar_space::proofs::Changes::changing), unfolding(crate::specs::WithOptions::found_by))]
pub(crate) fn find<S: Space>(
    alloc: Global,
    machine: &mut Machine<S>,
    sci: Option<u32>,
    options: &Options<'_>,
) -> Result<Found>
    requires { sci ≡ sci_of machine.old }
    ensures value { Does result machine.new (found_by S.accesses options.now sci) machine.old }
    ensures evaluated { StopsInFinding S.accesses options.now machine.old machine.new }
    ensures posed { IfOk result (λ f. f.gathering.problem ≡ problem_of
        (barred_if options.now.spare options.now.avoid f.asked) sci f.gathering.links f.gathering.pins) }
    ensures fits { IfOk result (λ f. Fits f.gathering.problem) }
    ensures few_pins { IfOk result (λ f. length f.gathering.pins ≤ 4096) }
    ensures unasked { IfOk result (λ f. options.now.spare ≡ false → f.asked ≡ []) }
{
    let first = gather(alloc, machine, options.avoid)?;
    let asked = ask_others(alloc, machine, options.spare, first.links())?;
    let gathered = narrow(alloc, options, sci, &asked, first)?;
    Ok(Found { asked, gathered })
}

/// What gathering found, where no link offers an interrupt of a device that is spared.
fn narrow(
    alloc: Global,
    options: &Options<'_>,
    sci: Option<u32>,
    asked: &[AskedDevice],
    first: Gathered,
) -> Result<Gathered>
    requires sources { length first.pins + length (option_to_list sci) ≤ 4096 }
    requires few { length first.links ≤ 256 }
    requires in_order { IsStrictlySortedBy path_cmp (map (λ link. link.0) first.links) }
    requires posed { first.problem ≡ problem_of options.now.avoid sci first.links first.pins }
    requires fits { Fits first.problem }
    ensures value { Answers result
        (narrowed options.now.spare (barred_if options.now.spare options.now.avoid asked.now) sci first) }
    ensures posed { IfOk result (λ g. g.problem ≡ problem_of (barred_if options.now.spare options.now.avoid asked.now)
        sci g.links g.pins) }
    ensures fits { IfOk result (λ g. Fits g.problem) }
    ensures few_pins { IfOk result (λ g. length g.pins ≤ 4096) }
{
    match options.spare {
        true => spare_all(alloc, options.avoid, sci, asked, first),
        false => Ok(first),
    }
}

/// What gathering found, where no link offers an interrupt to avoid, or one of a device that was asked.
fn spare_all(
    alloc: Global,
    avoid: &[u32],
    sci: Option<u32>,
    asked: &[AskedDevice],
    first: Gathered,
) -> Result<Gathered>
    requires sources { length first.pins + length (option_to_list sci) ≤ 4096 }
    requires few { length first.links ≤ 256 }
    requires in_order { IsStrictlySortedBy path_cmp (map (λ link. link.0) first.links) }
    ensures value { Answers result (narrowed true (barred_if true avoid.now asked.now) sci first) }
    ensures posed { IfOk result (λ g. g.problem ≡ problem_of (barred_if true avoid.now asked.now) sci g.links g.pins) }
    ensures fits { IfOk result (λ g. Fits g.problem) }
    ensures few_pins { IfOk result (λ g. length g.pins ≤ 4096) }
{
    let barred = barred(alloc, avoid, asked)?;
    avoid_more(alloc, &barred, sci, first)
}
