//! Which call of initializing is refused: they are made once more, until one is.
ghost use Rattle.std.specs.Prelude.{◌≡◌, [], ◌∷◌, IfOk, false, map, Ok};
ghost use Rattle.ar_space.specs.Change.{Does};
ghost use Rattle.aml_world.specs.state.Given.{given_of};
ghost use Rattle.aml_world.specs.declared.state.datum.Datum.TheVariants as datum;
ghost use Rattle.acpi_machine.specs.Calls.{called_where_it_stands, mode_number};
ghost use Rattle.acpi_machine.specs.FixedPaths.{at_root, below_root};
ghost use Rattle.acpi_explain.specs.Stages.{IsCall};

use crate::halt::is_refused;
use acpi_machine::{Machine, Mode, mode_number};
use acpi_prt::child_named;
use aml_path::Path;
use aml_world::Datum;
use ar_space::{Result, Space};
use std::alloc::{AllocError, Global};

/// The one argument of `\_PIC` for a mode, as a list.
fn mode_argument(alloc: Global, mode: Mode) -> Result<Vec<Datum>, AllocError>
    ensures { IfOk result (λ list. list.items ≡ datum.Integer (mode_number mode) ∷ []) }
{
    let mut list = Vec::new(alloc);
    list.push(Datum::Integer(mode_number(mode)))?;
    Ok(list)
}

/// The path of a name at the root.
fn at_root(alloc: Global, name: [u8; 4]) -> Result<Path, AllocError>
    ensures { IfOk result (λ path. at_root name ≡ Ok path) }
{
    let root = Path::root(alloc);
    match child_named(alloc, &root, name) {
        Ok(path) => Ok(path),
        Err(_) => Err(AllocError),
    }
}

/// The path of a name below one at the root.
fn below_root(alloc: Global, parent: [u8; 4], name: [u8; 4]) -> Result<Path, AllocError>
    ensures { IfOk result (λ path. below_root parent name ≡ Ok path) }
{
    let above = at_root(alloc, parent)?;
    match child_named(alloc, &above, name) {
        Ok(path) => Ok(path),
        Err(_) => Err(AllocError),
    }
}

/// Calls what stands at a path itself, if anything does. A refusal may be passed over in the wide profile.
fn call_at<S: Space>(
    alloc: Global,
    machine: &mut Machine<S>,
    path: &Path,
    arguments: Vec<Datum>,
) -> Result<()>
    ensures { machine.old.spent ≡ false → Does result machine.new (called_where_it_stands S.accesses path.now
        (map given_of arguments.items)) machine.old }
{
    if !machine.has_name(path) {
        return Ok(());
    }
    match machine.evaluate_object(alloc, path, arguments) {
        Ok(_) => Ok(()),
        Err(refusal) => machine.pass_call_over(path, refusal),
    }
}

/// Makes the calls of `Machine::initialize` one after the other, and gives the path of the first that is refused; none
/// where no call is. Nothing is said of a machine on which memory ran out, nor of the mode that is left.
///
/// Those before it are answered or passed over, and it is refused in the world that they leave.
pub fn refused_call<S: Space>(
    alloc: Global,
    mode: Mode,
    machine: &mut Machine<S>,
) -> Result<Option<Path>, AllocError>
    ensures { IfOk result (λ path. machine.old.spent ≡ false → IsCall S.accesses mode machine.old path) }
{
    let root_ini = at_root(alloc, *b"_INI")?;
    let bus_ini = below_root(alloc, *b"_SB_", *b"_INI")?;
    let pic = at_root(alloc, *b"_PIC")?;
    let arguments = mode_argument(alloc, mode)?;
    let root_arguments = Vec::new(alloc);
    let root_outcome = call_at(alloc, machine, &root_ini, root_arguments);
    let root_refused = is_refused(root_outcome)?;
    if root_refused {
        return Ok(Some(root_ini));
    }
    let bus_arguments = Vec::new(alloc);
    let bus_outcome = call_at(alloc, machine, &bus_ini, bus_arguments);
    let bus_refused = is_refused(bus_outcome)?;
    if bus_refused {
        return Ok(Some(bus_ini));
    }
    let pic_outcome = call_at(alloc, machine, &pic, arguments);
    let pic_refused = is_refused(pic_outcome)?;
    if pic_refused {
        return Ok(Some(pic));
    }
    Ok(None)
}
