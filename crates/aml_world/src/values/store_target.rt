//! Where values are stored.
ghost use Rattle.std.specs.Prelude.{◌≡◌};
ghost use Rattle.aml_world.specs.values.StoreTargets.{is_element};

use aml_namespace::Located;
use aml_objects::{Field, Reference, Slot, Value};

/// Where a value is read or stored to: the operand of Store, a target, and what Increment counts.
#[derive(Debug, Drop)]
pub enum StoreTarget {
    /// Nothing is kept: a target that is left out, or Debug.
    Nowhere,
    /// A local or an argument of the control method that runs.
    Slot(Slot),
    /// The name at a path, where it was found.
    Name(Located),
    /// What a reference refers to.
    Refers(Reference),
}

/// What a name holds.
#[derive(Clone, Copy, Debug, PartialEq, Eq)]
pub enum Holding {
    Value(Value),
    Field(Field),
    /// Nothing that is stored to: a device, a control method, a mutex.
    Nothing,
}

/// What a target holds that is read: a value, or a field, whose bits are read next.
#[derive(Clone, Copy, Debug, PartialEq, Eq)]
pub enum Held {
    Value(Value),
    Field(Field),
}

const _: () = prove!(size_of::<Held>() == 64);

/// What a store came to: it is done, or it leads to a field, which is written next.
#[derive(Clone, Copy, Debug, PartialEq, Eq)]
pub enum Stored {
    Done,
    Field(Field),
}

impl StoreTarget {
    /// Whether it is an element of a package.
    pub fn is_element(&self) -> bool
        ensures { result ≡ is_element self.now }
    {
        match self {
            StoreTarget::Refers(Reference::Element(_, _)) => true,
            StoreTarget::Refers(Reference::Name(_)) => false,
            StoreTarget::Refers(Reference::Slot(_, _)) => false,
            StoreTarget::Refers(Reference::Byte(_, _)) => false,
            StoreTarget::Nowhere => false,
            StoreTarget::Slot(_) => false,
            StoreTarget::Name(_) => false,
        }
    }
}
