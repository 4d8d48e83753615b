//! What a machine text describes.
ghost use Rattle.std.specs.Prelude.{◌≡◌, IfOk, map};
ghost use Rattle.ar_space.specs.Outcome.{Answers, seen};
ghost use Rattle.ar_tables.specs.FindTables.{tables_of};
ghost use Rattle.machine_description.specs.Descriptions.{described};

use aml_objects::Octets;
use ar_space::{Result, Sparse};
use ar_tables::{Tables, find_tables};
use machine_text::{MachineText, read_machine};
use std::alloc::{AllocError, Global};

/// What a machine is loaded from.
#[derive(Drop)]
pub struct MachineDescription {
    /// The tables in its memory.
    pub tables: Tables,
    /// The texts that `_OSI` knows (ACPI 6.5, 5.7.2).
    pub osi: Vec<Octets>,
    /// The bytes of memory, ports and PCI configuration space that the text gives.
    pub registers: Sparse,
}

/// The texts as `Octets`, which `load_tables` takes.
fn octets(alloc: Global, texts: Vec<Vec<u8>>) -> Result<Vec<Octets>, AllocError>
    ensures { IfOk result (λ list. list.items ≡ map (λ text. text.items) texts.items) }
{
    let mut list = Vec::new(alloc);
    for text in texts {
        list.push(Octets::from_vec(text))?;
    }
    Ok(list)
}

/// What a machine is loaded from, of a text that was read. It is refused as `find_tables` refuses its memory.
pub fn describe(alloc: Global, said: MachineText) -> Result<MachineDescription>
    ensures tables { Answers (seen (λ d. d.tables) result) (tables_of said.space.memory said.rsdp) }
    ensures osi { IfOk result (λ d. d.osi.items ≡ said.osi) }
    ensures registers { IfOk result (λ d. d.registers ≡ said.space) }
{
    let tables = find_tables(alloc, said.space.memory(), said.rsdp)?;
    let osi = octets(alloc, said.osi.into_vec())?;
    Ok(MachineDescription {
        tables,
        osi,
        registers: said.space,
    })
}

/// Reads a machine text, and finds the tables in its memory. It is refused first as `read_machine` refuses the text, then
/// as `find_tables` refuses its memory.
///
/// ```
/// let machine = read_description(alloc, text)?;
/// let loaded = load_tables(alloc, machine.tables, machine.registers, 1_000_000, machine.osi);
/// ```
#[tactic(auto, using(ar_space::proofs::Outcomes::answering), unfolding(crate::specs::Descriptions::described))]
pub fn read_description(alloc: Global, text: &[u8]) -> Result<MachineDescription>
    ensures { Answers (seen (λ d. (d.tables, (d.osi.items, d.registers))) result) (described text.now) }
{
    let said = read_machine(alloc, text)?;
    describe(alloc, said)
}
