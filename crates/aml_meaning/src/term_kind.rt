//! Which rule a term is evaluated by.

use aml_objects::Slot;
use aml_world::{BufferFieldSize, Conversion, Count, EventChange, OneOperand, Test, TwoOperands};

/// Which rule a term is evaluated by.
#[derive(Clone, Copy, Debug, PartialEq, Eq)]
pub enum TermKind {
    Data(DataKind),
    Declaration(DeclarationKind),
    Region(RegionKind),
    Operator(OperatorKind),
    Statement(StatementKind),
    /// A term that the wide profile evaluates, and the core profile doesn't.
    Wide(WideKind),
    /// A term that is not evaluated.
    Unsupported,
}

/// Data that a term forms.
#[derive(Clone, Copy, Debug, PartialEq, Eq)]
pub enum DataKind {
    /// An integer that the opcode says, as wide as integers are.
    Constant(u64),
    /// An integer that follows the opcode.
    Integer,
    String,
    Buffer,
    Package,
    VarPackage,
}

/// What a term declares, and Scope.
#[derive(Clone, Copy, Debug, PartialEq, Eq)]
pub enum DeclarationKind {
    Scope,
    Device,
    Processor,
    PowerResource,
    ThermalZone,
    Name,
    Alias,
    External,
    Method,
    Mutex,
    Event,
}

/// What declares an operation region, fields in one, or a buffer field.
#[derive(Clone, Copy, Debug, PartialEq, Eq)]
pub enum RegionKind {
    OperationRegion,
    Field,
    IndexField,
    /// CreateBitField, CreateByteField, CreateWordField, CreateDWordField and CreateQWordField.
    SizedBufferField(BufferFieldSize),
    /// CreateField.
    BufferField,
}

/// A term that has a value.
#[derive(Clone, Copy, Debug, PartialEq, Eq)]
pub enum OperatorKind {
    /// A local or an argument, where a value stands.
    Slot(Slot),
    Store,
    CopyObject,
    /// Two operands and a target.
    Two(TwoOperands),
    Divide,
    /// An operand and a target.
    One(OneOperand),
    /// Two operands, and no target.
    Test(Test),
    LNot,
    /// Increment and Decrement.
    Count(Count),
    SizeOf,
    ObjectType,
    Acquire,
    RefOf,
    CondRefOf,
    DerefOf,
}

/// A term without a value.
#[derive(Clone, Copy, Debug, PartialEq, Eq)]
pub enum StatementKind {
    If,
    Else,
    While,
    Break,
    Continue,
    /// Noop and BreakPoint.
    Noop,
    Return,
    Release,
    Notify,
    /// Stall and Sleep.
    Pause,
    Fatal,
}

/// A term of the wide profile.
#[derive(Clone, Copy, Debug, PartialEq, Eq)]
pub enum WideKind {
    /// An operand and a target, which takes what is formed.
    Convert(Conversion),
    /// ToString: two operands and a target, which takes what is formed.
    ToString,
    /// Three operands and a target.
    Mid,
    Match,
    /// Signal and Reset: an event.
    Event(EventChange),
    /// Wait: an event and a timeout.
    Wait,
    /// BankField: a region, a field of it, the value that selects a bank, and fields in that bank.
    BankField,
}

/// How a term names a target: it is Debug, a local or an argument, or it refers to one. No other term stands there.
#[derive(Clone, Copy, Debug, PartialEq, Eq)]
pub enum TargetKind {
    Nowhere,
    Slot(Slot),
    RefOf,
    DerefOf,
    Index,
    Other,
}
