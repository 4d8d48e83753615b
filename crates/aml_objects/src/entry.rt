//! What stands at a path of the namespace (ACPI 6.5, 5.3 and 5.5.2).

ghost use Rattle.std.specs.Prelude.{◌≡◌};
ghost use Rattle.aml_objects.specs.Fields.{bits_of_field};
ghost use Rattle.aml_objects.specs.Methods.{arguments_taken};

use crate::body::Body;
use crate::value::Value;
use aml_path::Path;
use ar_space::Width;

/// What stands at a path: the number of its declaration, by which references find it, and what was declared.
#[derive(Debug, Drop)]
pub struct Entry {
    pub number: u64,
    pub object: NamedObject,
}

/// What a name was declared as.
#[derive(Debug, Drop)]
pub enum NamedObject {
    /// A predefined scope, or the root.
    Scope,
    Device,
    Processor,
    PowerResource,
    ThermalZone,
    Method(Method),
    /// A name that holds a value: an integer, a string, a buffer, a package or a reference.
    Data(Value),
    OperationRegion(OperationRegion),
    FieldUnit(FieldUnit),
    BufferField(BufferField),
    /// A mutex, and how often it is acquired.
    Mutex(u64),
    /// An event, and how many of its signals no Wait has taken.
    Event(u64),
    /// Another name for what stands at this path.
    Alias(Path),
}

/// A control method: its flags, and what runs when it is called.
#[derive(Debug, Drop)]
pub struct Method {
    pub flags: MethodFlags,
    pub body: MethodBody,
}

/// The flags of a control method (ACPI 6.5, 20.2.5.2, MethodFlags): bits 0 to 2 are how many arguments it takes, bit
/// 3 is set where its calls are serialized, and bits 4 to 7 are its synchronization level.
#[derive(Clone, Copy, Debug, PartialEq, Eq)]
pub struct MethodFlags {
    pub byte: u8,
}

impl MethodFlags {
    /// How many arguments the control method takes, 0 to 7.
    pub fn arguments(self) -> u8
        ensures { result ≡ arguments_taken self }
    {
        self.byte % 8
    }
}

/// What runs when a control method is called.
#[derive(Debug, Drop)]
pub enum MethodBody {
    /// The predefined `_OSI`.
    Osi,
    /// AML.
    Aml(Body),
}

/// An operation region (ACPI 6.5, 5.5.2.4): its address space as AML numbers it, and where it begins and how long it
/// is, in bytes. Its scope is the parent of its path.
#[derive(Clone, Copy, Debug, PartialEq, Eq)]
pub struct OperationRegion {
    pub space: u8,
    pub offset: u64,
    pub length: u64,
}

/// A field unit (ACPI 6.5, 19.6, Field, IndexField and BankField): what it lies in, the offset of its first bit, how
/// many bits it has, how wide its accesses are, and what a write does with the other bits of a unit.
#[derive(Clone, Copy, Debug, PartialEq, Eq)]
pub struct FieldUnit {
    pub source: FieldSource,
    pub bit_offset: u64,
    pub bits: u32,
    pub access: Width,
    pub update: UpdateRule,
}

/// What a field unit lies in. Regions and fields are given by the numbers of their declarations.
#[derive(Clone, Copy, Debug, PartialEq, Eq)]
pub enum FieldSource {
    Region(u64),
    /// An index field, which is written with the offset of a unit, and the data field behind it.
    Index(u64, u64),
    /// A region, and the bank of it that is selected before each access of a unit.
    Bank(u64, Bank),
}

/// A bank of an operation region (ACPI 6.5, 19.6, BankField).
#[derive(Clone, Copy, Debug, PartialEq, Eq)]
pub struct Bank {
    /// The field that selects the bank, by the number of its declaration.
    pub field: u64,
    /// The value that is written to it.
    pub value: u64,
}

/// What a write does with the bits of a unit that are not the field's.
#[derive(Clone, Copy, Debug, PartialEq, Eq)]
pub enum UpdateRule {
    Preserve,
    WriteAsOnes,
    WriteAsZeros,
}

/// A buffer field (ACPI 6.5, 19.6, CreateField and its like): the buffer's object, the offset of its first bit, and
/// how many bits it has.
#[derive(Clone, Copy, Debug, PartialEq, Eq)]
pub struct BufferField {
    pub buffer: u32,
    pub bit_offset: u64,
    pub bits: u32,
}

/// What is read and written bit by bit: a field unit, by accesses of registers, or a buffer field, without any.
#[derive(Clone, Copy, Debug, PartialEq, Eq)]
pub enum Field {
    Unit(FieldUnit),
    Buffer(BufferField),
}

impl Field {
    /// How many bits it has.
    pub fn bits(self) -> u32
        ensures { result ≡ bits_of_field self }
    {
        match self {
            Field::Unit(unit) => unit.bits,
            Field::Buffer(field) => field.bits,
        }
    }
}
