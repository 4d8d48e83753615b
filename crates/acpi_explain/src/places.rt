//! Places as a machine text has them.
ghost use Rattle.std.specs.Prelude.{◌≡◌, ◌++◌, OnOk};
ghost use Rattle.ar_space.specs.declared.space.Place.TheVariants.{Pci};
ghost use Rattle.acpi_explain.specs.Explaining.{number_behind, place_words};

use acpiroute_shell::put_hexadecimal;
use ar_space::Place;
use std::alloc::AllocError;

/// A number behind a blank.
fn put_behind(text: &mut Vec<u8>, number: u64) -> Result<(), AllocError>
    ensures { OnOk result (text.new.items ≡ text.old.items ++ number_behind number) }
{
    text.extend_from_slice(b" ")?;
    put_hexadecimal(text, number)
}

/// A register behind its function.
fn put_register(
    text: &mut Vec<u8>,
    seg: u16,
    bus: u8,
    dev: u8,
    func: u8,
    reg: u16,
) -> Result<(), AllocError>
    ensures { OnOk result (text.new.items ≡ text.old.items ++ place_words (Pci seg bus dev func reg)) }
{
    text.extend_from_slice(b"pci ")?;
    put_hexadecimal(text, u64::from(seg))?;
    put_behind(text, u64::from(bus))?;
    put_behind(text, u64::from(dev))?;
    put_behind(text, u64::from(func))?;
    put_behind(text, u64::from(reg))
}

/// A place, as a line of a machine text begins.
pub fn put_place(text: &mut Vec<u8>, place: Place) -> Result<(), AllocError>
    ensures { OnOk result (text.new.items ≡ text.old.items ++ place_words place) }
{
    match place {
        Place::Memory(address) => {
            text.extend_from_slice(b"mem ")?;
            put_hexadecimal(text, address)
        }
        Place::Io(port) => {
            text.extend_from_slice(b"io ")?;
            put_hexadecimal(text, u64::from(port))
        }
        Place::Pci {
            seg,
            bus,
            dev,
            func,
            reg,
        } => put_register(text, seg, bus, dev, func, reg),
    }
}
