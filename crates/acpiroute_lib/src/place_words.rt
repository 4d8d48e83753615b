//! Places as a machine text has them, and the lines of bytes that it lacks.
ghost use Rattle.std.specs.Prelude.{◌≡◌, ◌++◌, IfOk, OnOk, None};
ghost use Rattle.acpiroute_lib.specs.MissingLines.{is_next, is_behind, byte_text, line_end, missing_lines};

use acpi_explain::put_place;
use ar_space::Place;
use std::alloc::{AllocError, Global};

/// Whether a number follows the one before, and begins no 16 bytes.
fn is_next(before: u64, number: u64) -> bool
    ensures { result ≡ is_next before number }
{
    before < u64::MAX && number == before + 1 && number % 16 != 0
}

/// Whether a place stands in the line of the one before.
fn is_behind(before: Place, place: Place) -> bool
    ensures { result ≡ is_behind before place }
{
    match (before, place) {
        (Place::Memory(a), Place::Memory(b)) => is_next(a, b),
        (Place::Io(a), Place::Io(b)) => is_next(u64::from(a), u64::from(b)),
        (
            Place::Pci {
                seg,
                bus,
                dev,
                func,
                reg,
            },
            Place::Pci {
                seg: seg2,
                bus: bus2,
                dev: dev2,
                func: func2,
                reg: reg2,
            },
        ) => {
            seg == seg2
                && bus == bus2
                && dev == dev2
                && func == func2
                && is_next(u64::from(reg), u64::from(reg2))
        }
        _ => false,
    }
}

/// A byte in a line of its own.
fn put_new(text: &mut Vec<u8>, place: Place) -> Result<(), AllocError>
    ensures { OnOk result (text.new.items ≡ text.old.items ++ byte_text None place) }
{
    put_place(text, place)?;
    text.extend_from_slice(b" 00")
}

/// A byte, as 0, in a line of its own or behind the one before.
fn put_byte(text: &mut Vec<u8>, before: Option<Place>, place: Place) -> Result<(), AllocError>
    ensures { OnOk result (text.new.items ≡ text.old.items ++ byte_text before place) }
{
    match before {
        None => put_new(text, place),
        Some(before) => {
            if is_behind(before, place) {
                return text.extend_from_slice(b"00");
            }
            text.extend_from_slice(b"\n")?;
            put_new(text, place)
        }
    }
}

fn put_end(text: &mut Vec<u8>, before: Option<Place>) -> Result<(), AllocError>
    ensures { OnOk result (text.new.items ≡ text.old.items ++ line_end before) }
{
    match before {
        None => Ok(()),
        Some(_) => text.extend_from_slice(b"\n"),
    }
}

/// The lines of bytes that are missing, each as 0.
pub(crate) fn missing_lines(alloc: Global, places: &[Place]) -> Result<Vec<u8>, AllocError>
    ensures { IfOk result (λ text. text.items ≡ missing_lines places.now) }
{
    let mut text = Vec::new(alloc);
    let mut before = None;
    for place in places {
        put_byte(&mut text, before, *place)?;
        before = Some(*place);
    }
    put_end(&mut text, before)?;
    Ok(text)
}
