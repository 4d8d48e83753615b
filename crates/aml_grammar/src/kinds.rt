//! Where a term may stand, and the kinds of its operands (ACPI 6.5, 20.2).

use crate::opcode::Opcode;

/// One operand of a term, by its name in the grammar.
#[derive(Clone, Copy, Debug, PartialEq, Eq)]
pub enum OperandKind {
    /// No operand, and none after it.
    Nothing,
    /// A name.
    NameString,
    /// The name of a Scope: its list stands under the path where the name is found.
    ScopeName,
    /// The first name of an Alias: what the second one stands for.
    AliasSource,
    /// The second name of an Alias: it is declared, with the number of arguments of the first.
    AliasName,
    /// A name that is declared.
    DeclaredName,
    /// The flags of a Method, with its number of arguments.
    MethodFlags,
    /// The name of an External.
    ExternalName,
    /// The object type of an External.
    ObjectType,
    /// The argument count of an External.
    ArgumentCount,
    /// One byte.
    ByteData,
    /// Two bytes.
    WordData,
    /// Four bytes.
    DWordData,
    /// Eight bytes.
    QWordData,
    /// Bytes up to a zero.
    AsciiCharList,
    /// A term that gives a value.
    TermArg,
    /// Data.
    DataObject,
    /// A place that is read or written.
    SuperName,
    /// A place that a result is stored to, or none.
    Target,
    /// A name, a local or an argument.
    SimpleName,
    /// The rest of the package as terms.
    TermList,
    /// The rest of the package as terms of a loop, which may break it off.
    LoopTermList,
    /// The rest of the package as bytes.
    ByteList,
    /// The rest of the package as elements of a Package.
    PackageElementList,
    /// The rest of the package as field elements.
    FieldList,
}

/// Where a term may stand.
#[derive(Clone, Copy, Debug, PartialEq, Eq)]
pub enum Class {
    /// In a list.
    Statement,
    /// In a list, but in none of the body of a control method.
    ModuleLevel,
    /// In a list inside a While.
    InLoop,
    /// In a list of the body of a control method.
    InBody,
    /// After an If.
    AfterIf,
    /// In a list, and where a value may stand.
    Expression,
    /// There, and where data may stand.
    Data,
    /// In a list, where a value may stand, and as a place.
    Reference,
    /// The same, and costs no level as a place: a local or an argument.
    Slot,
    /// As a place alone.
    DebugObject,
}

/// The operands of a term in their order, as many as there are.
#[derive(Clone, Copy, Debug, PartialEq, Eq)]
pub struct OperandKinds(
    pub OperandKind,
    pub OperandKind,
    pub OperandKind,
    pub OperandKind,
    pub OperandKind,
    pub OperandKind,
);

/// A row of the table: the opcode, where its term may stand, whether its operands stand in a package, and their kinds.
#[derive(Clone, Copy, Debug, PartialEq, Eq)]
pub struct Row(pub Opcode, pub Class, pub bool, pub OperandKinds);
