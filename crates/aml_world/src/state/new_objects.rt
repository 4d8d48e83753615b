//! Objects that terms form (ACPI 6.5, 19.6: Buffer, Package, VarPackage).
ghost use Rattle.std.specs.Prelude.{◌≡◌, Ok};
ghost use Rattle.ar_space.specs.Change.{Does, DoesInPlace};
ghost use Rattle.ar_space.specs.Outcome.{Answers};
ghost use Rattle.aml_objects.specs.Objects.{make_buffer};
ghost use Rattle.aml_world.specs.state.State.{on_objects};
ghost use Rattle.aml_world.specs.state.NewObjects.{within, sized, filled, new_buffer, new_package};

use crate::state::world_state::WorldState;
use aml_objects::{Element, Elements, Octets, Value};
use ar_space::{EvaluationFault, Refusal, Result};

/// How many bytes a buffer may have.
const MAX_BYTES: u64 = 1_048_576;

/// How many elements a package may have.
pub const MAX_ELEMENTS: u64 = 65_535;

impl<S> WorldState<S> {
    /// A new buffer as long as its size says, or as its bytes where they are more, zero-filled; refused as
    /// `ObjectLimit` where it is too long, or one object too many.
    #[tactic(auto, using(ar_space::proofs::Changes::changing), unfolding(crate::specs::state::NewObjects::new_buffer))]
    pub fn new_buffer(&mut self, size: u64, bytes: Octets) -> Result<Value>
        ensures { Does result self.new (new_buffer size bytes) self.old }
    {
        self.within(MAX_BYTES, size)?;
        self.make_sized(size, bytes)
    }

    #[tactic(auto, using(crate::proofs::Lifted::making))]
    fn make_sized(&mut self, size: u64, bytes: Octets) -> Result<Value>
        ensures { Does result self.new (on_objects (make_buffer (sized size bytes))) self.old }
    {
        let bytes = sized(size, bytes)?;
        self.heap.make_buffer(bytes)
    }

    /// An object may have so many bytes or elements; more than `most` are refused as `ObjectLimit`.
    #[tactic(auto, unfolding(crate::specs::state::NewObjects::within))]
    pub fn within(&self, most: u64, count: u64) -> Result<()>
        ensures { DoesInPlace result self.now (within most count) self.now }
    {
        if most < count {
            return Err(Refusal::Evaluation(EvaluationFault::ObjectLimit));
        }
        Ok(())
    }

    /// A new package with as many elements as it says; those that are left out are uninitialized. Refused as
    /// `ObjectLimit` where it has too many, or one object too many.
    #[tactic(auto, using(crate::proofs::Lifted::making), unfolding(crate::specs::state::NewObjects::new_package))]
    pub fn new_package(&mut self, count: usize, elements: Elements) -> Result<Value>
        ensures { Does result self.new (new_package count elements) self.old }
    {
        let elements = filled(count, elements)?;
        self.heap.make_package(elements)
    }
}

/// Bytes, and zeros up to a length.
fn sized(size: u64, bytes: Octets) -> Result<Octets>
    ensures { Answers result (Ok (sized size bytes)) }
{
    let mut list = bytes.into_vec();
    if (list.len() as u64) < size {
        list.resize(size as usize, 0)?;
    }
    Ok(Octets::from_vec(list))
}

/// Elements, and uninitialized ones up to a count.
fn filled(count: usize, elements: Elements) -> Result<Elements>
    ensures { Answers result (Ok (filled count elements)) }
{
    let mut all = elements;
    while all.as_slice().len() < count {
        all.push(Element::Value(Value::Uninitialized))?;
    }
    Ok(all)
}
