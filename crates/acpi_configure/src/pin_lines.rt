//! The lines of pins.
ghost use Rattle.std.specs.Prelude.{◌≡◌, Ok, map};
ghost use Rattle.ar_space.specs.Outcome.{Answers, seen};
ghost use Rattle.acpi_configure.specs.Lines.{given_to, way_of, pin_route, pin_line};

use crate::pin_names::letter_of;
use acpi_prt::{Pin, Route};
use aml_path::Path;
use ar_space::Result;
use route_report::{PinLine, PinRoute};
use std::alloc::Global;

/// A line for each pin, by what the links are given.
pub(crate) fn pin_lines(
    alloc: Global,
    gives: &[(Path, u32)],
    pins: &[(Path, Pin)],
) -> Result<Vec<PinLine>>
    ensures { Answers (seen (λ list. list.items) result) (Ok (map (pin_line gives.now) pins.now)) }
{
    let mut list = Vec::new(alloc);
    for (device, pin) in pins {
        let line = pin_line(alloc, gives, device, pin)?;
        list.push(line)?;
    }
    Ok(list)
}

fn pin_line(alloc: Global, gives: &[(Path, u32)], device: &Path, pin: &Pin) -> Result<PinLine>
    ensures { Answers result (Ok (pin_line gives.now (device.now, pin.now))) }
{
    let device = device.copy(alloc)?;
    let route = pin_route(alloc, gives, &pin.route)?;
    Ok(PinLine {
        device,
        number: pin.number,
        pin: letter_of(pin.pin),
        route,
    })
}

fn pin_route(alloc: Global, gives: &[(Path, u32)], route: &Route) -> Result<PinRoute>
    ensures { Answers result (Ok (pin_route gives.now route.now)) }
{
    match route {
        Route::Wired(n) => Ok(PinRoute::Wired(*n)),
        Route::Link(path) => way_of(alloc, path, given_to(gives, path)),
    }
}

fn way_of(alloc: Global, path: &Path, given: Option<u32>) -> Result<PinRoute>
    ensures { Answers result (Ok (way_of path.now given)) }
{
    match given {
        None => Ok(PinRoute::Absent(path.copy(alloc)?)),
        Some(n) => Ok(PinRoute::Link(n, path.copy(alloc)?)),
    }
}

/// What a link is given, if it is given an interrupt.
fn given_to(gives: &[(Path, u32)], link: &Path) -> Option<u32>
    ensures { result ≡ given_to gives.now link.now }
{
    for (path, n) in gives {
        if path == link {
            return Some(*n);
        }
    }
    None
}
