//! Accesses of registers, as C has them.
ghost use Rattle.std.specs.Prelude.{◌≡◌, All, IfOk, IfErr, Some, map};
ghost use Rattle.acpiroute_c.specs.Accesses.{port_at, register_at, place_of, width_of, answer_of, done, read_with};
ghost use Rattle.acpiroute_c.specs.Accesses.{exchange_with, exchange_of, place_form, access_form, wanted_form, IsEntry};
ghost use Rattle.acpiroute_c.specs.declared.call_access.Unmade.TheVariants.{Malformed};

use ar_space::{Place, SpaceFault, Width};
use recorded_route::{Access, Exchange, WantedAccess};
use recorded_space::kept;
use std::alloc::Global;

/// An access of a register, and in a record what was answered.
#[repr(C)]
#[derive(Clone, Copy, Debug)]
pub struct CallAccess {
    /// The address in memory, the port, or the register of a PCI function.
    pub address: u64,
    /// The value that is written, or in a record the one that was read, which fits the width.
    pub value: u64,
    /// The segment group of a PCI function.
    pub segment: u16,
    /// Its bus.
    pub bus: u8,
    /// Its device.
    pub device: u8,
    /// Its function.
    pub function: u8,
    /// 0 memory, 1 I/O ports, 2 the configuration space of a PCI function.
    pub space: u8,
    /// How many bits it takes: 8, 16, 32 or 64.
    pub width: u8,
    /// 0 a read, 1 a write.
    pub kind: u8,
    /// 0 it was answered, 1 there is no register, 2 the device failed.
    pub answer: u8,
}

/// An access that is wanted, and where in the record.
#[repr(C)]
#[derive(Clone, Copy, Debug)]
pub struct CallWanted {
    /// The access.
    pub access: CallAccess,
    /// The entry of the record at which it is made, counted from 0: the record's length, where the record is of this
    /// run.
    pub entry: usize,
}

/// Why a call over a record is not made.
#[derive(Clone, Copy, Debug, PartialEq, Eq)]
pub(crate) enum Unmade {
    /// Memory ran out.
    OutOfMemory,
    /// The settings or an entry of the record has a value that means nothing.
    Malformed,
}

fn place_of(access: &CallAccess) -> Option<Place>
    ensures { result ≡ place_of access.now }
{
    match access.space {
        0 => Some(Place::Memory(access.address)),
        1 => port_at(access.address),
        2 => register_at(access),
        _ => None,
    }
}

fn port_at(address: u64) -> Option<Place>
    ensures { result ≡ port_at address }
{
    if address < 0x1_0000 {
        Some(Place::Io(address as u16))
    } else {
        None
    }
}

fn register_at(access: &CallAccess) -> Option<Place>
    ensures { result ≡ register_at access.now }
{
    if access.address < 0x1_0000 {
        Some(Place::Pci {
            seg: access.segment,
            bus: access.bus,
            dev: access.device,
            func: access.function,
            reg: access.address as u16,
        })
    } else {
        None
    }
}

fn width_of(bits: u8) -> Option<Width>
    ensures { result ≡ width_of bits }
{
    match bits {
        8 => Some(Width::W8),
        16 => Some(Width::W16),
        32 => Some(Width::W32),
        64 => Some(Width::W64),
        _ => None,
    }
}

fn answer_of(answer: u8, value: u64) -> Option<Result<u64, SpaceFault>>
    ensures { result ≡ answer_of answer value }
{
    match answer {
        0 => Some(Ok(value)),
        1 => Some(Err(SpaceFault::NoRegister)),
        2 => Some(Err(SpaceFault::Device)),
        _ => None,
    }
}

fn done(answer: Result<u64, SpaceFault>) -> Result<(), SpaceFault>
    ensures { result ≡ done answer }
{
    match answer {
        Ok(_) => Ok(()),
        Err(fault) => Err(fault),
    }
}

fn read_with(
    place: Place,
    width: Width,
    answer: Option<Result<u64, SpaceFault>>,
) -> Option<Exchange>
    ensures { result ≡ read_with place width answer }
{
    match answer {
        Some(answer) => Some(Exchange::Read(place, width, answer)),
        None => None,
    }
}

/// An access with its answer.
fn exchange_of(access: &CallAccess) -> Option<Exchange>
    ensures { result ≡ exchange_of access.now }
{
    let place = place_of(access)?;
    let width = width_of(access.width)?;
    let answer = answer_of(access.answer, access.value)?;
    exchange_with(access.kind, place, width, access.value, answer)
}

fn exchange_with(
    kind: u8,
    place: Place,
    width: Width,
    value: u64,
    answer: Result<u64, SpaceFault>,
) -> Option<Exchange>
    ensures { result ≡ exchange_with kind place width value answer }
{
    match kind {
        0 => read_with(place, width, kept(width, answer)),
        1 => Some(Exchange::Write(place, width, value, done(answer))),
        _ => None,
    }
}

/// The accesses of a record with their answers.
pub(crate) fn exchanges_of(alloc: Global, accesses: &[CallAccess]) -> Result<Vec<Exchange>, Unmade>
    ensures entries { IfOk result (λ list. map Some list.items ≡ map exchange_of accesses.now) }
    ensures fault { IfErr result (λ why. why ≡ Malformed → ¬ (All IsEntry accesses.now)) }
{
    let mut list = Vec::new(alloc);
    for access in accesses {
        match exchange_of(access) {
            Some(exchange) => {
                if list.push(exchange).is_err() {
                    return Err(Unmade::OutOfMemory);
                }
            }
            None => return Err(Unmade::Malformed),
        }
    }
    Ok(list)
}

/// A place as C has it: its space, its address, and the PCI function where it has one.
fn place_form(place: Place, width: Width, kind: u8, value: u64) -> CallAccess
    ensures { result ≡ place_form place width kind value }
{
    let plain = CallAccess {
        address: 0,
        value,
        segment: 0,
        bus: 0,
        device: 0,
        function: 0,
        space: 0,
        width: width.bits(),
        kind,
        answer: 0,
    };
    match place {
        Place::Memory(address) => CallAccess { address, ..plain },
        Place::Io(port) => CallAccess {
            address: u64::from(port),
            space: 1,
            ..plain
        },
        Place::Pci {
            seg,
            bus,
            dev,
            func,
            reg,
        } => CallAccess {
            address: u64::from(reg),
            segment: seg,
            bus,
            device: dev,
            function: func,
            space: 2,
            ..plain
        },
    }
}

/// An access that is wanted.
fn access_form(access: Access) -> CallAccess
    ensures { result ≡ access_form access }
{
    match access {
        Access::Read(place, width) => place_form(place, width, 0, 0),
        Access::Write(place, width, value) => place_form(place, width, 1, value),
    }
}

/// An access that is wanted, with its place in the record.
pub(crate) fn wanted_form(wanted: WantedAccess) -> CallWanted
    ensures { result ≡ wanted_form wanted }
{
    CallWanted {
        access: access_form(wanted.access),
        entry: wanted.entry,
    }
}
