//! The address spaces whose bytes a machine text gives.
ghost use Rattle.std.specs.Prelude.{◌≡◌, ◌≤◌, ◌<◌, ◌+◌, length, OnOk, IsOkUnless};
ghost use Rattle.ar_space.specs.declared.refusal.Refusal.TheVariants.{OutOfMemory};
ghost use Rattle.machine_text.specs.MachineText.{last_of, place_in, put_all};

use ar_space::{Place, Result, Sparse};

/// An address space; the configuration space of a PCI function is one of its own.
#[derive(Clone, Copy)]
pub(crate) enum AddressSpace {
    Memory,
    Io,
    Pci {
        seg: u16,
        bus: u8,
        dev: u8,
        func: u8,
    },
}

impl AddressSpace {
    /// The last place.
    pub(crate) fn last(self) -> u64
        ensures { result ≡ last_of self }
    {
        match self {
            AddressSpace::Memory => u64::MAX,
            AddressSpace::Io => 0xFFFF,
            AddressSpace::Pci { .. } => 0xFFF,
        }
    }

    fn place(self, n: u64) -> Place
        requires { n ≤ last_of self }
        ensures { result ≡ place_in self n }
    {
        match self {
            AddressSpace::Memory => Place::Memory(n),
            AddressSpace::Io => Place::Io(n as u16),
            AddressSpace::Pci {
                seg,
                bus,
                dev,
                func,
            } => Place::Pci {
                seg,
                bus,
                dev,
                func,
                reg: n as u16,
            },
        }
    }

    /// Puts bytes from a place on, over earlier ones.
    pub(crate) fn put_all(self, space: &mut Sparse, first: u64, bytes: &[u8]) -> Result<()>
        requires { first + length bytes.now ≤ last_of self + 1 }
        ensures value { OnOk result (space.new ≡ put_all self space.old first bytes.now) }
        ensures memory { IsOkUnless result OutOfMemory }
    {
        if bytes.is_empty() {
            return Ok(());
        }
        space.put_all(self.place(first), bytes)
    }
}
