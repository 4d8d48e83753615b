//! The pins of a report, as C has them, and the caller's places for them.
ghost use Rattle.std.specs.Prelude.{◌≡◌, ◌≤◌, IfOk, length, map};
ghost use Rattle.acpiroute_c.specs.Calls.{put_into};
ghost use Rattle.acpiroute_c.specs.PinCalls.{flag_form, name_form, pin_form, sci_form, pins_put, pin_sizes};
ghost use Rattle.acpiroute_c.specs.PinCalls.{code_of_pins, filled_by_pins};

use crate::call_reply::put_into;
use recorded_route::{Pin, RoutedInterrupt, WantedAccess};
use route_report::PinName;
use std::alloc::{AllocError, Global};
use std::marker::Model;

/// A pin of a PCI device whose interrupt is known.
#[repr(C)]
#[derive(Clone, Copy, Debug)]
pub struct CallPin {
    /// Its interrupt.
    pub interrupt: u32,
    /// The segment group of its bus, 0 where the bus isn't known.
    pub segment: u16,
    /// The number of its device on that bus.
    pub device: u16,
    /// The bus, 0 where it isn't known.
    pub bus: u8,
    /// 0 for A, 1 for B, 2 for C, 3 for D.
    pub pin: u8,
    /// 1 triggered by a level, 0 by an edge.
    pub level: u8,
    /// 1 active low, 0 active high.
    pub low: u8,
    /// 1 where the bus is known.
    pub has_bus: u8,
    /// 1 where the pin is wired, or its link is set to the interrupt as far as the link tells.
    pub is_set: u8,
}

/// The System Control Interrupt.
#[repr(C)]
#[derive(Clone, Copy, Debug)]
pub struct CallSci {
    /// Its interrupt, 0 where the machine has none.
    pub interrupt: u32,
    /// 1 triggered by a level, 0 by an edge, or where there is none.
    pub level: u8,
    /// 1 active low, 0 active high, or where there is none.
    pub low: u8,
    /// 1 where the machine has one.
    pub is_known: u8,
}

/// The sizes of a reply of pins, the System Control Interrupt, and the exit status.
#[repr(C)]
#[derive(Clone, Copy, Debug)]
pub struct PinsReply {
    /// How many pins there are.
    pub pins_length: usize,
    /// How many bytes the line for the errors has.
    pub line_length: usize,
    /// The System Control Interrupt: none after a refusal.
    pub sci: CallSci,
    /// The exit status of the program: 0, 1 or 3.
    pub status: u8,
}

/// The pins and the System Control Interrupt of a report with the status that it has, or the line of a refusal.
#[derive(Drop)]
pub(crate) struct SaidPins {
    pub pins: Vec<CallPin>,
    pub line: Vec<u8>,
    pub sci: CallSci,
    pub status: u8,
}

impl Model for SaidPins {
    ghost use Rattle.acpiroute_c.specs.SaidPins as said;

    ghost Value = { said.SaidPins };

    ghost view = { λ s. record { pins = s.pins.items; line = s.line.items; sci = s.sci; status = s.status } };
}

/// What a call whose pins are wanted has to say.
#[derive(Drop)]
pub(crate) enum PinsSaid {
    Pins(SaidPins),
    Wanted(WantedAccess),
}

fn flag_form(flag: bool) -> u8
    ensures { result ≡ flag_form flag }
{
    match flag {
        false => 0,
        true => 1,
    }
}

fn name_form(name: PinName) -> u8
    ensures { result ≡ name_form name }
{
    match name {
        PinName::A => 0,
        PinName::B => 1,
        PinName::C => 2,
        PinName::D => 3,
    }
}

/// A pin as C has it.
fn pin_form(pin: &Pin) -> CallPin
    ensures { result ≡ pin_form pin.now }
{
    let plain = CallPin {
        interrupt: pin.interrupt,
        segment: 0,
        device: pin.device,
        bus: 0,
        pin: name_form(pin.pin),
        level: flag_form(pin.triggering.is_level),
        low: flag_form(pin.triggering.is_low),
        has_bus: 0,
        is_set: flag_form(pin.is_set),
    };
    match pin.bus {
        None => plain,
        Some(bus) => CallPin {
            segment: bus.segment,
            bus: bus.bus,
            has_bus: 1,
            ..plain
        },
    }
}

/// Pins as C has them.
pub(crate) fn pin_forms(alloc: Global, pins: &[Pin]) -> Result<Vec<CallPin>, AllocError>
    ensures { IfOk result (λ list. list.items ≡ map pin_form pins.now) }
{
    let mut list = Vec::new(alloc);
    for pin in pins {
        list.push(pin_form(pin))?;
    }
    Ok(list)
}

/// The System Control Interrupt as C has it.
pub(crate) fn sci_form(sci: Option<RoutedInterrupt>) -> CallSci
    ensures { result ≡ sci_form sci }
{
    match sci {
        None => CallSci {
            interrupt: 0,
            level: 0,
            low: 0,
            is_known: 0,
        },
        Some(routed) => CallSci {
            interrupt: routed.interrupt,
            level: flag_form(routed.triggering.is_level),
            low: flag_form(routed.triggering.is_low),
            is_known: 1,
        },
    }
}

fn pin_sizes(said: &SaidPins) -> PinsReply
    ensures { result ≡ pin_sizes said.now }
{
    PinsReply {
        pins_length: said.pins.len(),
        line_length: said.line.len(),
        sci: said.sci,
        status: said.status,
    }
}

/// Puts pins at the start of an array.
fn pins_put(pins: &[CallPin], array: &mut [CallPin])
    requires { length pins.now ≤ length array.old }
    ensures { array.new ≡ pins_put pins.now array.old }
{
    array[..pins.len()].copy_from_slice(pins);
}

/// Puts a reply into the caller's places, where there is room for it, and tells its sizes in any case.
pub(crate) fn give_pins(
    said: &SaidPins,
    pins: &mut [CallPin],
    line: &mut [u8],
    reply: &mut PinsReply,
) -> u32
    ensures code { result ≡ code_of_pins said.now (record { pins = pins.old; line = line.old; reply = reply.old }) }
    ensures after { record { pins = pins.new; line = line.new; reply = reply.new } ≡
        filled_by_pins said.now (record { pins = pins.old; line = line.old; reply = reply.old }) }
{
    *reply = pin_sizes(said);
    if pins.len() < said.pins.len() || line.len() < said.line.len() {
        return 1;
    }
    pins_put(&said.pins, pins);
    put_into(&said.line, line);
    0
}
