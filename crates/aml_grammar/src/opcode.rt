//! Opcodes (ACPI 6.5, 20.3).
ghost use Rattle.std.specs.Prelude.{◌≡◌};
ghost use Rattle.aml_grammar.specs.Opcodes.{number_of};

/// An opcode of AML, by its name in the grammar (ACPI 6.5, 20.2 and 20.3).
///
/// The number is its byte, or `5B` (ExtOpPrefix) and its second byte.
#[derive(Clone, Copy, Debug, PartialEq, Eq)]
pub enum Opcode {
    // written by tools/opcodes.py from tables/opcodes.txt: codes: begin
    Zero = 0x00,
    One = 0x01,
    Alias = 0x06,
    Name = 0x08,
    BytePrefix = 0x0A,
    WordPrefix = 0x0B,
    DWordPrefix = 0x0C,
    StringPrefix = 0x0D,
    QWordPrefix = 0x0E,
    Scope = 0x10,
    Buffer = 0x11,
    Package = 0x12,
    VarPackage = 0x13,
    Method = 0x14,
    External = 0x15,
    Local0 = 0x60,
    Local1 = 0x61,
    Local2 = 0x62,
    Local3 = 0x63,
    Local4 = 0x64,
    Local5 = 0x65,
    Local6 = 0x66,
    Local7 = 0x67,
    Arg0 = 0x68,
    Arg1 = 0x69,
    Arg2 = 0x6A,
    Arg3 = 0x6B,
    Arg4 = 0x6C,
    Arg5 = 0x6D,
    Arg6 = 0x6E,
    Store = 0x70,
    RefOf = 0x71,
    Add = 0x72,
    Concat = 0x73,
    Subtract = 0x74,
    Increment = 0x75,
    Decrement = 0x76,
    Multiply = 0x77,
    Divide = 0x78,
    ShiftLeft = 0x79,
    ShiftRight = 0x7A,
    And = 0x7B,
    Nand = 0x7C,
    Or = 0x7D,
    Nor = 0x7E,
    Xor = 0x7F,
    Not = 0x80,
    FindSetLeftBit = 0x81,
    FindSetRightBit = 0x82,
    DerefOf = 0x83,
    ConcatRes = 0x84,
    Mod = 0x85,
    Notify = 0x86,
    SizeOf = 0x87,
    Index = 0x88,
    Match = 0x89,
    CreateDWordField = 0x8A,
    CreateWordField = 0x8B,
    CreateByteField = 0x8C,
    CreateBitField = 0x8D,
    ObjectType = 0x8E,
    CreateQWordField = 0x8F,
    LAnd = 0x90,
    LOr = 0x91,
    LNot = 0x92,
    LEqual = 0x93,
    LGreater = 0x94,
    LLess = 0x95,
    ToBuffer = 0x96,
    ToDecimalString = 0x97,
    ToHexString = 0x98,
    ToInteger = 0x99,
    ToString = 0x9C,
    CopyObject = 0x9D,
    Mid = 0x9E,
    Continue = 0x9F,
    If = 0xA0,
    Else = 0xA1,
    While = 0xA2,
    Noop = 0xA3,
    Return = 0xA4,
    Break = 0xA5,
    BreakPoint = 0xCC,
    Ones = 0xFF,
    Mutex = 0x5B01,
    Event = 0x5B02,
    CondRefOf = 0x5B12,
    CreateField = 0x5B13,
    LoadTable = 0x5B1F,
    Load = 0x5B20,
    Stall = 0x5B21,
    Sleep = 0x5B22,
    Acquire = 0x5B23,
    Signal = 0x5B24,
    Wait = 0x5B25,
    Reset = 0x5B26,
    Release = 0x5B27,
    FromBcd = 0x5B28,
    ToBcd = 0x5B29,
    Revision = 0x5B30,
    Debug = 0x5B31,
    Fatal = 0x5B32,
    Timer = 0x5B33,
    OpRegion = 0x5B80,
    Field = 0x5B81,
    Device = 0x5B82,
    Processor = 0x5B83,
    PowerRes = 0x5B84,
    ThermalZone = 0x5B85,
    IndexField = 0x5B86,
    BankField = 0x5B87,
    DataRegion = 0x5B88,
    // written by tools/opcodes.py from tables/opcodes.txt: codes: end
}

impl Opcode {
    /// The opcode's number: one byte, or two after `5B`.
    pub fn number(self) -> u16
        ensures { result ≡ number_of self }
    {
        self as u16
    }
}

/// What a term is: one with an opcode, a name without one, or a field element (ACPI 6.5, 20.2.5).
#[derive(Clone, Copy, Debug, PartialEq, Eq)]
pub enum TermCode {
    /// A term that begins with an opcode.
    Opcode(Opcode),
    /// An element of a package that is a name.
    Name,
    /// A name where a value may stand, and its arguments.
    MethodInvocation,
    /// A field element: a segment, and a count of bits.
    NamedField,
    /// A field element: bits that are passed over.
    ReservedField,
    /// A field element: an access byte and its attribute.
    AccessField,
    /// A field element: an access byte, its attribute and its length.
    ExtendedAccessField,
    /// A field element: a connection.
    ConnectField,
}
