//! A register space in which the bytes that another one doesn't have are 0 until they are written.
ghost use Rattle.std.specs.Prelude.{◌≡◌, ◌<◌, ◌≤◌, ◌+◌, ◌^◌, IfOk};
ghost use Rattle.watched_space.specs.Filling.{Makes, byte_read, byte_written, zero_read, zero_written, read_8, read_16};
ghost use Rattle.watched_space.specs.Filling.{read_32, read_64, write_8, write_16, write_32, write_64};
ghost use Rattle.watched_space.specs.Filling.{bytes_read, bytes_written, read_within, write_within};
ghost use Rattle.ar_space.specs.Accesses.{bit_count};

use crate::missing_bytes::MissingBytes;
use ar_space::{Place, Space, SpaceFault, Width};
use std::marker::Model;

/// A register space over another one. Where the space below refuses an access as `NoRegister`, each byte of it is
/// accessed there alone; a byte that it doesn't have is 0 until it is written, and its place is kept. An access past
/// the last place of its address space stays refused, and so does one of a further such byte where 4,096 stand in its
/// address space already.
///
/// So a run over it goes as over the space below with these bytes as 0 from the start, where the space below is one
/// of bytes.
#[derive(Drop)]
pub struct ZeroFilled<S> {
    inner: S,
    missing: MissingBytes,
}

impl<S> Model for ZeroFilled<S> {
    ghost use Rattle.watched_space.specs.Filling.{Filled, filled_code};

    ghost Value = { Filled S };

    ghost coded = { filled_code S.code };

    ghost view = { λ f. record { inner = f.inner; missing = f.missing } };
}

impl<S> ZeroFilled<S> {
    /// A register space over another one, of which these bytes are known to be missing. It takes no memory.
    pub fn new(inner: S, missing: MissingBytes) -> ZeroFilled<S>
        ensures { result ≡ record { inner = inner; missing = missing } }
    {
        ZeroFilled { inner, missing }
    }

    /// The bytes that were asked for and are missing in the space below.
    pub fn missing(&self) -> &MissingBytes
        ensures { result.now ≡ self.now.missing }
    {
        &self.missing
    }

    /// The register space below.
    pub fn inner(&self) -> &S
        ensures { result.now ≡ self.now.inner }
    {
        &self.inner
    }

    /// A byte that the space below doesn't have.
    fn zero(&mut self, place: Place) -> Result<u64, SpaceFault>
        ensures made { Makes result self.new (zero_read place) self.old }
        ensures fits { IfOk result (λ value. value < 2 ^ 8) }
    {
        match self.missing.read(place) {
            Some(byte) => Ok(u64::from(byte)),
            None => Err(SpaceFault::NoRegister),
        }
    }

    fn put_zero(&mut self, place: Place, byte: u8) -> Result<(), SpaceFault>
        ensures { Makes result self.new (zero_written place byte) self.old }
    {
        if self.missing.write(place, byte) {
            Ok(())
        } else {
            Err(SpaceFault::NoRegister)
        }
    }
}

impl<S: Space> ZeroFilled<S> {
    fn byte(&mut self, place: Place) -> Result<u64, SpaceFault>
        ensures made { Makes result self.new (byte_read S.accesses place) self.old }
        ensures fits { IfOk result (λ value. value < 2 ^ 8) }
    {
        match self.inner.read(place, Width::W8) {
            Ok(value) => Ok(value),
            Err(SpaceFault::NoRegister) => self.zero(place),
            Err(SpaceFault::Device) => Err(SpaceFault::Device),
        }
    }

    fn put_byte(&mut self, place: Place, byte: u8) -> Result<(), SpaceFault>
        ensures { Makes result self.new (byte_written S.accesses place byte) self.old }
    {
        match self.inner.write(place, Width::W8, u64::from(byte)) {
            Ok(()) => Ok(()),
            Err(SpaceFault::NoRegister) => self.put_zero(place, byte),
            Err(SpaceFault::Device) => Err(SpaceFault::Device),
        }
    }

    /// The byte `n` places on.
    #[tactic(auto, unfolding(crate::specs::Filling::read_8))]
    fn read_8(&mut self, place: Place, n: u8) -> Result<u64, SpaceFault>
        ensures made { Makes result self.new (read_8 S.accesses place n) self.old }
        ensures fits { IfOk result (λ value. value < 2 ^ 8) }
    {
        match place.offset_by(n) {
            Some(place) => self.byte(place),
            None => Err(SpaceFault::NoRegister),
        }
    }

    #[tactic(auto, using(crate::proofs::Filled::making), unfolding(crate::specs::Filling::read_16))]
    fn read_16(&mut self, place: Place, n: u8) -> Result<u64, SpaceFault>
        requires { n ≤ 6 }
        ensures made { Makes result self.new (read_16 S.accesses place n) self.old }
        ensures fits { IfOk result (λ value. value < 2 ^ 16) }
    {
        let low = self.read_8(place, n)?;
        let high = self.read_8(place, n + 1)?;
        Ok(low + 0x100 * high)
    }

    #[tactic(auto, using(crate::proofs::Filled::making), unfolding(crate::specs::Filling::read_32))]
    fn read_32(&mut self, place: Place, n: u8) -> Result<u64, SpaceFault>
        requires { n ≤ 4 }
        ensures made { Makes result self.new (read_32 S.accesses place n) self.old }
        ensures fits { IfOk result (λ value. value < 2 ^ 32) }
    {
        let low = self.read_16(place, n)?;
        let high = self.read_16(place, n + 2)?;
        Ok(low + 0x1_0000 * high)
    }

    #[tactic(auto, using(crate::proofs::Filled::making), unfolding(crate::specs::Filling::read_64))]
    fn read_64(&mut self, place: Place) -> Result<u64, SpaceFault>
        ensures made { Makes result self.new (read_64 S.accesses place) self.old }
        ensures fits { IfOk result (λ value. value < 2 ^ 64) }
    {
        let low = self.read_32(place, 0)?;
        let high = self.read_32(place, 4)?;
        Ok(low + 0x1_0000_0000 * high)
    }

    /// Each byte of a read alone.
    fn read_bytes(&mut self, place: Place, width: Width) -> Result<u64, SpaceFault>
        ensures made { Makes result self.new (bytes_read S.accesses place width) self.old }
        ensures fits { IfOk result (λ value. value < 2 ^ bit_count width) }
    {
        match width {
            Width::W8 => self.read_8(place, 0),
            Width::W16 => self.read_16(place, 0),
            Width::W32 => self.read_32(place, 0),
            Width::W64 => self.read_64(place),
        }
    }

    /// The lowest byte of a value, written `n` places on.
    #[tactic(auto, unfolding(crate::specs::Filling::write_8))]
    fn write_8(&mut self, place: Place, n: u8, value: u64) -> Result<(), SpaceFault>
        ensures { Makes result self.new (write_8 S.accesses place n value) self.old }
    {
        match place.offset_by(n) {
            Some(place) => self.put_byte(place, (value % 0x100) as u8),
            None => Err(SpaceFault::NoRegister),
        }
    }

    #[tactic(auto, using(crate::proofs::Filled::making), unfolding(crate::specs::Filling::write_16))]
    fn write_16(&mut self, place: Place, n: u8, value: u64) -> Result<(), SpaceFault>
        requires { n ≤ 6 }
        ensures { Makes result self.new (write_16 S.accesses place n value) self.old }
    {
        self.write_8(place, n, value)?;
        self.write_8(place, n + 1, value / 0x100)
    }

    #[tactic(auto, using(crate::proofs::Filled::making), unfolding(crate::specs::Filling::write_32))]
    fn write_32(&mut self, place: Place, n: u8, value: u64) -> Result<(), SpaceFault>
        requires { n ≤ 4 }
        ensures { Makes result self.new (write_32 S.accesses place n value) self.old }
    {
        self.write_16(place, n, value)?;
        self.write_16(place, n + 2, value / 0x1_0000)
    }

    #[tactic(auto, using(crate::proofs::Filled::making), unfolding(crate::specs::Filling::write_64))]
    fn write_64(&mut self, place: Place, value: u64) -> Result<(), SpaceFault>
        ensures { Makes result self.new (write_64 S.accesses place value) self.old }
    {
        self.write_32(place, 0, value)?;
        self.write_32(place, 4, value / 0x1_0000_0000)
    }

    /// Each byte of a write alone.
    fn write_bytes(&mut self, place: Place, width: Width, value: u64) -> Result<(), SpaceFault>
        ensures { Makes result self.new (bytes_written S.accesses place width value) self.old }
    {
        match width {
            Width::W8 => self.write_8(place, 0, value),
            Width::W16 => self.write_16(place, 0, value),
            Width::W32 => self.write_32(place, 0, value),
            Width::W64 => self.write_64(place, value),
        }
    }

    /// Each byte of a read alone, where all of them lie within the address space.
    #[tactic(auto, unfolding(crate::specs::Filling::read_within))]
    fn read_within(&mut self, place: Place, width: Width) -> Result<u64, SpaceFault>
        ensures made { Makes result self.new (read_within S.accesses place width) self.old }
        ensures fits { IfOk result (λ value. value < 2 ^ bit_count width) }
    {
        match place.offset_by(width.bytes() - 1) {
            Some(_) => self.read_bytes(place, width),
            None => Err(SpaceFault::NoRegister),
        }
    }

    /// Each byte of a write alone, where all of them lie within the address space.
    #[tactic(auto, unfolding(crate::specs::Filling::write_within))]
    fn write_within(&mut self, place: Place, width: Width, value: u64) -> Result<(), SpaceFault>
        ensures { Makes result self.new (write_within S.accesses place width value) self.old }
    {
        match place.offset_by(width.bytes() - 1) {
            Some(_) => self.write_bytes(place, width, value),
            None => Err(SpaceFault::NoRegister),
        }
    }
}

impl<S: Space> Space for ZeroFilled<S> {
    ghost use Rattle.watched_space.specs.Filling.{filled};

    ghost accesses = { filled S.accesses };

    #[tactic(auto, using(crate::proofs::Filled::made))]
    fn read(&mut self, place: Place, width: Width) -> Result<u64, SpaceFault> {
        match self.inner.read(place, width) {
            Ok(value) => Ok(value),
            Err(SpaceFault::NoRegister) => self.read_within(place, width),
            Err(SpaceFault::Device) => Err(SpaceFault::Device),
        }
    }

    #[tactic(auto, using(crate::proofs::Filled::made))]
    fn write(&mut self, place: Place, width: Width, value: u64) -> Result<(), SpaceFault> {
        match self.inner.write(place, width, value) {
            Ok(()) => Ok(()),
            Err(SpaceFault::NoRegister) => self.write_within(place, width, value),
            Err(SpaceFault::Device) => Err(SpaceFault::Device),
        }
    }
}
