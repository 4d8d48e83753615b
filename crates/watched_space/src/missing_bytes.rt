//! The bytes that a register space was asked for and doesn't have.
ghost use Rattle.std.specs.Prelude.{◌≡◌, ◌++◌, IfOk, IfErr, OnOk, map};
ghost use Rattle.ar_space.specs.declared.refusal.Refusal.TheVariants.{OutOfMemory};
ghost use Rattle.ar_space.specs.Registers.{counted};
ghost use Rattle.watched_space.specs.MissingPlaces.{no_missing, missing_read, missing_written, missing_places};
ghost use Rattle.watched_space.specs.MissingPlaces.{memory_place, port_place, register_place};

use crate::zeros::Zeros;
use ar_space::{Place, Result};
use std::alloc::{AllocError, Global};
use std::marker::Model;

/// The bytes that a register space was asked for and doesn't have, 0 until they are written: at most 4,096 of each
/// address space, for which there is room from the start.
#[derive(Drop)]
pub struct MissingBytes {
    memory: Zeros,
    ports: Zeros,
    /// By the number of the register, where the registers of all functions are counted in order.
    registers: Zeros,
}

impl Model for MissingBytes {
    ghost use Rattle.watched_space.specs.MissingPlaces.{Missing, missing_code};

    ghost Value = { Missing };

    ghost coded = { missing_code };

    ghost view = { λ m. record { memory = m.memory; ports = m.ports; registers = m.registers } };
}

/// The number of a register, where the registers of all functions are counted in order, 65,536 for each function.
fn register_number(seg: u16, bus: u8, dev: u8, func: u8, reg: u16) -> u64
    ensures { result ≡ counted (record { seg = seg; bus = bus; dev = dev; func = func; reg = reg }) }
{
    let device = (u64::from(seg) * 256 + u64::from(bus)) * 256 + u64::from(dev);
    (device * 256 + u64::from(func)) * 65_536 + u64::from(reg)
}

fn port_place(entry: &(u64, u8)) -> Place
    ensures { result ≡ port_place entry.now }
{
    Place::Io((entry.0 % 65_536) as u16)
}

fn register_place(entry: &(u64, u8)) -> Place
    ensures { result ≡ register_place entry.now }
{
    let function = entry.0 / 65_536;
    Place::Pci {
        seg: (function / 16_777_216 % 65_536) as u16,
        bus: (function / 65_536 % 256) as u8,
        dev: (function / 256 % 256) as u8,
        func: (function % 256) as u8,
        reg: (entry.0 % 65_536) as u16,
    }
}

/// The places of bytes of memory, put behind others.
fn put_memory(places: &mut Vec<Place>, entries: &[(u64, u8)]) -> Result<(), AllocError>
    ensures { OnOk result (places.new.items ≡ places.old.items ++ map memory_place entries.now) }
{
    for entry in entries {
        places.push(Place::Memory(entry.0))?;
    }
    Ok(())
}

fn put_ports(places: &mut Vec<Place>, entries: &[(u64, u8)]) -> Result<(), AllocError>
    ensures { OnOk result (places.new.items ≡ places.old.items ++ map port_place entries.now) }
{
    for entry in entries {
        places.push(port_place(entry))?;
    }
    Ok(())
}

fn put_registers(places: &mut Vec<Place>, entries: &[(u64, u8)]) -> Result<(), AllocError>
    ensures { OnOk result (places.new.items ≡ places.old.items ++ map register_place entries.now) }
{
    for entry in entries {
        places.push(register_place(entry))?;
    }
    Ok(())
}

impl MissingBytes {
    /// No bytes, and room for all that there may be.
    pub fn new(alloc: Global) -> Result<MissingBytes>
        ensures none { IfOk result (λ m. m ≡ no_missing) }
        ensures memory { IfErr result (λ refusal. refusal ≡ OutOfMemory) }
    {
        Ok(MissingBytes {
            memory: Zeros::new(alloc)?,
            ports: Zeros::new(alloc)?,
            registers: Zeros::new(alloc)?,
        })
    }

    /// The places of the bytes, each once, in ascending order: memory, then ports, then configuration registers by
    /// function.
    pub fn places(&self, alloc: Global) -> Result<Vec<Place>>
        ensures places { IfOk result (λ places. places.items ≡ missing_places self.now) }
        ensures memory { IfErr result (λ refusal. refusal ≡ OutOfMemory) }
    {
        let mut places = Vec::new(alloc);
        put_memory(&mut places, self.memory.entries())?;
        put_ports(&mut places, self.ports.entries())?;
        put_registers(&mut places, self.registers.entries())?;
        Ok(places)
    }

    /// The byte at a place: 0 where it wasn't asked for before. None where there is no more room.
    pub(crate) fn read(&mut self, place: Place) -> Option<u8>
        ensures answer { result ≡ (missing_read self.old place).0 }
        ensures state { self.new ≡ (missing_read self.old place).1 }
    {
        match place {
            Place::Memory(address) => self.memory.read(address),
            Place::Io(port) => self.ports.read(u64::from(port)),
            Place::Pci {
                seg,
                bus,
                dev,
                func,
                reg,
            } => self
                .registers
                .read(register_number(seg, bus, dev, func, reg)),
        }
    }

    /// Writes the byte at a place: `false` where there is no more room.
    pub(crate) fn write(&mut self, place: Place, byte: u8) -> bool
        ensures answer { result ≡ (missing_written self.old place byte).0 }
        ensures state { self.new ≡ (missing_written self.old place byte).1 }
    {
        match place {
            Place::Memory(address) => self.memory.write(address, byte),
            Place::Io(port) => self.ports.write(u64::from(port), byte),
            Place::Pci {
                seg,
                bus,
                dev,
                func,
                reg,
            } => self
                .registers
                .write(register_number(seg, bus, dev, func, reg), byte),
        }
    }
}
