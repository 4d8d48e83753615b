//! The table of terms (ACPI 6.5, 20.2): where each may stand, and its operands.
ghost use Rattle.std.specs.Prelude.{◌≡◌, ◌<◌, Some, option_map};
ghost use Rattle.aml_grammar.specs.Table.{row_of};
ghost use Rattle.aml_scan.specs.RowPlaces.{place_of};
ghost use Rattle.aml_scan.specs.RowsAt.{row_at, row_at_any};

use crate::row_places::RowPlace;
use aml_grammar::Class::{
    AfterIf, Data, DebugObject, Expression, InBody, InLoop, ModuleLevel, Reference, Slot, Statement,
};
use aml_grammar::{Opcode as Op, OperandKind as Kind, OperandKinds, Row};

const N: Kind = Kind::Nothing;

const NO_OPERANDS: OperandKinds = OperandKinds(N, N, N, N, N, N);

const TEXT: OperandKinds = OperandKinds(Kind::AsciiCharList, N, N, N, N, N);

const BYTE: OperandKinds = OperandKinds(Kind::ByteData, N, N, N, N, N);

const DWORD: OperandKinds = OperandKinds(Kind::DWordData, N, N, N, N, N);

const DECLARED: OperandKinds = OperandKinds(Kind::DeclaredName, N, N, N, N, N);

const QWORD: OperandKinds = OperandKinds(Kind::QWordData, N, N, N, N, N);

const SUPER: OperandKinds = OperandKinds(Kind::SuperName, N, N, N, N, N);

const TERM: OperandKinds = OperandKinds(Kind::TermArg, N, N, N, N, N);

const LIST: OperandKinds = OperandKinds(Kind::TermList, N, N, N, N, N);

const WORD: OperandKinds = OperandKinds(Kind::WordData, N, N, N, N, N);

const SOURCE_ALIAS: OperandKinds = OperandKinds(Kind::AliasSource, Kind::AliasName, N, N, N, N);

const BYTE_ELEMENTS: OperandKinds = OperandKinds(
    Kind::ByteData,
    Kind::PackageElementList,
    N,
    N,
    N,
    N,
);

const DECLARED_BYTE: OperandKinds = OperandKinds(Kind::DeclaredName, Kind::ByteData, N, N, N, N);

const DECLARED_DATA: OperandKinds = OperandKinds(Kind::DeclaredName, Kind::DataObject, N, N, N, N);

const DECLARED_LIST: OperandKinds = OperandKinds(Kind::DeclaredName, Kind::TermList, N, N, N, N);

const NAME_TARGET: OperandKinds = OperandKinds(Kind::NameString, Kind::Target, N, N, N, N);

const SCOPE_LIST: OperandKinds = OperandKinds(Kind::ScopeName, Kind::TermList, N, N, N, N);

const SUPER_TARGET: OperandKinds = OperandKinds(Kind::SuperName, Kind::Target, N, N, N, N);

const SUPER_TERM: OperandKinds = OperandKinds(Kind::SuperName, Kind::TermArg, N, N, N, N);

const SUPER_WORD: OperandKinds = OperandKinds(Kind::SuperName, Kind::WordData, N, N, N, N);

const TERM_BYTES: OperandKinds = OperandKinds(Kind::TermArg, Kind::ByteList, N, N, N, N);

const TERM_LOOP_LIST: OperandKinds = OperandKinds(Kind::TermArg, Kind::LoopTermList, N, N, N, N);

const TERM_ELEMENTS: OperandKinds = OperandKinds(
    Kind::TermArg,
    Kind::PackageElementList,
    N,
    N,
    N,
    N,
);

const TERM_SIMPLE: OperandKinds = OperandKinds(Kind::TermArg, Kind::SimpleName, N, N, N, N);

const TERM_SUPER: OperandKinds = OperandKinds(Kind::TermArg, Kind::SuperName, N, N, N, N);

const TERM_TARGET: OperandKinds = OperandKinds(Kind::TermArg, Kind::Target, N, N, N, N);

const TERM_TERM: OperandKinds = OperandKinds(Kind::TermArg, Kind::TermArg, N, N, N, N);

const TERM_LIST: OperandKinds = OperandKinds(Kind::TermArg, Kind::TermList, N, N, N, N);

const BYTE_DWORD_TERM: OperandKinds = OperandKinds(
    Kind::ByteData,
    Kind::DWordData,
    Kind::TermArg,
    N,
    N,
    N,
);

const DECLARED_FLAGS_BYTES: OperandKinds = OperandKinds(
    Kind::DeclaredName,
    Kind::MethodFlags,
    Kind::ByteList,
    N,
    N,
    N,
);

const EXTERNAL_TYPE_COUNT: OperandKinds = OperandKinds(
    Kind::ExternalName,
    Kind::ObjectType,
    Kind::ArgumentCount,
    N,
    N,
    N,
);

const NAME_BYTE_FIELDS: OperandKinds = OperandKinds(
    Kind::NameString,
    Kind::ByteData,
    Kind::FieldList,
    N,
    N,
    N,
);

const TERM_TERM_DECLARED: OperandKinds = OperandKinds(
    Kind::TermArg,
    Kind::TermArg,
    Kind::DeclaredName,
    N,
    N,
    N,
);

const TERM_TERM_TARGET: OperandKinds = OperandKinds(
    Kind::TermArg,
    Kind::TermArg,
    Kind::Target,
    N,
    N,
    N,
);

const DECLARED_BYTE_TERM_TERM: OperandKinds = OperandKinds(
    Kind::DeclaredName,
    Kind::ByteData,
    Kind::TermArg,
    Kind::TermArg,
    N,
    N,
);

const DECLARED_BYTE_WORD_LIST: OperandKinds = OperandKinds(
    Kind::DeclaredName,
    Kind::ByteData,
    Kind::WordData,
    Kind::TermList,
    N,
    N,
);

const DECLARED_TERM_TERM_TERM: OperandKinds = OperandKinds(
    Kind::DeclaredName,
    Kind::TermArg,
    Kind::TermArg,
    Kind::TermArg,
    N,
    N,
);

const NAME_NAME_BYTE_FIELDS: OperandKinds = OperandKinds(
    Kind::NameString,
    Kind::NameString,
    Kind::ByteData,
    Kind::FieldList,
    N,
    N,
);

const TERM_TERM_TARGET_TARGET: OperandKinds = OperandKinds(
    Kind::TermArg,
    Kind::TermArg,
    Kind::Target,
    Kind::Target,
    N,
    N,
);

const TERM_TERM_TERM_DECLARED: OperandKinds = OperandKinds(
    Kind::TermArg,
    Kind::TermArg,
    Kind::TermArg,
    Kind::DeclaredName,
    N,
    N,
);

const TERM_TERM_TERM_TARGET: OperandKinds = OperandKinds(
    Kind::TermArg,
    Kind::TermArg,
    Kind::TermArg,
    Kind::Target,
    N,
    N,
);

const PROCESSOR: OperandKinds = OperandKinds(
    Kind::DeclaredName,
    Kind::ByteData,
    Kind::DWordData,
    Kind::ByteData,
    Kind::TermList,
    N,
);

const NAME_NAME_TERM_BYTE_FIELDS: OperandKinds = OperandKinds(
    Kind::NameString,
    Kind::NameString,
    Kind::TermArg,
    Kind::ByteData,
    Kind::FieldList,
    N,
);

const TERM_BYTE_TERM_BYTE_TERM_TERM: OperandKinds = OperandKinds(
    Kind::TermArg,
    Kind::ByteData,
    Kind::TermArg,
    Kind::ByteData,
    Kind::TermArg,
    Kind::TermArg,
);

const SIX_TERMS: OperandKinds = OperandKinds(
    Kind::TermArg,
    Kind::TermArg,
    Kind::TermArg,
    Kind::TermArg,
    Kind::TermArg,
    Kind::TermArg,
);

/// The rows, in the order of their opcodes; `true` where the operands stand in a package.
// written by tools/opcodes.py from tables/opcodes.txt: rows: begin
static TABLE: [Row; 112] = [
    Row(Op::Zero, Data, false, NO_OPERANDS),
    Row(Op::One, Data, false, NO_OPERANDS),
    Row(Op::Alias, ModuleLevel, false, SOURCE_ALIAS),
    Row(Op::Name, Statement, false, DECLARED_DATA),
    Row(Op::BytePrefix, Data, false, BYTE),
    Row(Op::WordPrefix, Data, false, WORD),
    Row(Op::DWordPrefix, Data, false, DWORD),
    Row(Op::StringPrefix, Data, false, TEXT),
    Row(Op::QWordPrefix, Data, false, QWORD),
    Row(Op::Scope, ModuleLevel, true, SCOPE_LIST),
    Row(Op::Buffer, Data, true, TERM_BYTES),
    Row(Op::Package, Data, true, BYTE_ELEMENTS),
    Row(Op::VarPackage, Data, true, TERM_ELEMENTS),
    Row(Op::Method, ModuleLevel, true, DECLARED_FLAGS_BYTES),
    Row(Op::External, ModuleLevel, false, EXTERNAL_TYPE_COUNT),
    Row(Op::Local0, Slot, false, NO_OPERANDS),
    Row(Op::Local1, Slot, false, NO_OPERANDS),
    Row(Op::Local2, Slot, false, NO_OPERANDS),
    Row(Op::Local3, Slot, false, NO_OPERANDS),
    Row(Op::Local4, Slot, false, NO_OPERANDS),
    Row(Op::Local5, Slot, false, NO_OPERANDS),
    Row(Op::Local6, Slot, false, NO_OPERANDS),
    Row(Op::Local7, Slot, false, NO_OPERANDS),
    Row(Op::Arg0, Slot, false, NO_OPERANDS),
    Row(Op::Arg1, Slot, false, NO_OPERANDS),
    Row(Op::Arg2, Slot, false, NO_OPERANDS),
    Row(Op::Arg3, Slot, false, NO_OPERANDS),
    Row(Op::Arg4, Slot, false, NO_OPERANDS),
    Row(Op::Arg5, Slot, false, NO_OPERANDS),
    Row(Op::Arg6, Slot, false, NO_OPERANDS),
    Row(Op::Store, Expression, false, TERM_SUPER),
    Row(Op::RefOf, Reference, false, SUPER),
    Row(Op::Add, Expression, false, TERM_TERM_TARGET),
    Row(Op::Concat, Expression, false, TERM_TERM_TARGET),
    Row(Op::Subtract, Expression, false, TERM_TERM_TARGET),
    Row(Op::Increment, Expression, false, SUPER),
    Row(Op::Decrement, Expression, false, SUPER),
    Row(Op::Multiply, Expression, false, TERM_TERM_TARGET),
    Row(Op::Divide, Expression, false, TERM_TERM_TARGET_TARGET),
    Row(Op::ShiftLeft, Expression, false, TERM_TERM_TARGET),
    Row(Op::ShiftRight, Expression, false, TERM_TERM_TARGET),
    Row(Op::And, Expression, false, TERM_TERM_TARGET),
    Row(Op::Nand, Expression, false, TERM_TERM_TARGET),
    Row(Op::Or, Expression, false, TERM_TERM_TARGET),
    Row(Op::Nor, Expression, false, TERM_TERM_TARGET),
    Row(Op::Xor, Expression, false, TERM_TERM_TARGET),
    Row(Op::Not, Expression, false, TERM_TARGET),
    Row(Op::FindSetLeftBit, Expression, false, TERM_TARGET),
    Row(Op::FindSetRightBit, Expression, false, TERM_TARGET),
    Row(Op::DerefOf, Reference, false, TERM),
    Row(Op::ConcatRes, Expression, false, TERM_TERM_TARGET),
    Row(Op::Mod, Expression, false, TERM_TERM_TARGET),
    Row(Op::Notify, Statement, false, SUPER_TERM),
    Row(Op::SizeOf, Expression, false, SUPER),
    Row(Op::Index, Reference, false, TERM_TERM_TARGET),
    Row(Op::Match, Expression, false, TERM_BYTE_TERM_BYTE_TERM_TERM),
    Row(Op::CreateDWordField, Statement, false, TERM_TERM_DECLARED),
    Row(Op::CreateWordField, Statement, false, TERM_TERM_DECLARED),
    Row(Op::CreateByteField, Statement, false, TERM_TERM_DECLARED),
    Row(Op::CreateBitField, Statement, false, TERM_TERM_DECLARED),
    Row(Op::ObjectType, Expression, false, SUPER),
    Row(Op::CreateQWordField, Statement, false, TERM_TERM_DECLARED),
    Row(Op::LAnd, Expression, false, TERM_TERM),
    Row(Op::LOr, Expression, false, TERM_TERM),
    Row(Op::LNot, Expression, false, TERM),
    Row(Op::LEqual, Expression, false, TERM_TERM),
    Row(Op::LGreater, Expression, false, TERM_TERM),
    Row(Op::LLess, Expression, false, TERM_TERM),
    Row(Op::ToBuffer, Expression, false, TERM_TARGET),
    Row(Op::ToDecimalString, Expression, false, TERM_TARGET),
    Row(Op::ToHexString, Expression, false, TERM_TARGET),
    Row(Op::ToInteger, Expression, false, TERM_TARGET),
    Row(Op::ToString, Expression, false, TERM_TERM_TARGET),
    Row(Op::CopyObject, Expression, false, TERM_SIMPLE),
    Row(Op::Mid, Expression, false, TERM_TERM_TERM_TARGET),
    Row(Op::Continue, InLoop, false, NO_OPERANDS),
    Row(Op::If, Statement, true, TERM_LIST),
    Row(Op::Else, AfterIf, true, LIST),
    Row(Op::While, Statement, true, TERM_LOOP_LIST),
    Row(Op::Noop, Statement, false, NO_OPERANDS),
    Row(Op::Return, InBody, false, TERM),
    Row(Op::Break, InLoop, false, NO_OPERANDS),
    Row(Op::BreakPoint, Statement, false, NO_OPERANDS),
    Row(Op::Ones, Data, false, NO_OPERANDS),
    Row(Op::Mutex, Statement, false, DECLARED_BYTE),
    Row(Op::Event, Statement, false, DECLARED),
    Row(Op::CondRefOf, Expression, false, SUPER_TARGET),
    Row(Op::CreateField, Statement, false, TERM_TERM_TERM_DECLARED),
    Row(Op::LoadTable, Expression, false, SIX_TERMS),
    Row(Op::Load, Expression, false, NAME_TARGET),
    Row(Op::Stall, Statement, false, TERM),
    Row(Op::Sleep, Statement, false, TERM),
    Row(Op::Acquire, Expression, false, SUPER_WORD),
    Row(Op::Signal, Statement, false, SUPER),
    Row(Op::Wait, Expression, false, SUPER_TERM),
    Row(Op::Reset, Statement, false, SUPER),
    Row(Op::Release, Statement, false, SUPER),
    Row(Op::FromBcd, Expression, false, TERM_TARGET),
    Row(Op::ToBcd, Expression, false, TERM_TARGET),
    Row(Op::Revision, Data, false, NO_OPERANDS),
    Row(Op::Debug, DebugObject, false, NO_OPERANDS),
    Row(Op::Fatal, Statement, false, BYTE_DWORD_TERM),
    Row(Op::Timer, Expression, false, NO_OPERANDS),
    Row(Op::OpRegion, Statement, false, DECLARED_BYTE_TERM_TERM),
    Row(Op::Field, Statement, true, NAME_BYTE_FIELDS),
    Row(Op::Device, ModuleLevel, true, DECLARED_LIST),
    Row(Op::Processor, ModuleLevel, true, PROCESSOR),
    Row(Op::PowerRes, ModuleLevel, true, DECLARED_BYTE_WORD_LIST),
    Row(Op::ThermalZone, ModuleLevel, true, DECLARED_LIST),
    Row(Op::IndexField, Statement, true, NAME_NAME_BYTE_FIELDS),
    Row(Op::BankField, Statement, true, NAME_NAME_TERM_BYTE_FIELDS),
    Row(Op::DataRegion, Statement, false, DECLARED_TERM_TERM_TERM),
];
// written by tools/opcodes.py from tables/opcodes.txt: rows: end

/// The number of rows: the place that stands for none.
// written by tools/opcodes.py from tables/opcodes.txt: number of rows: begin
const NO_ROW: u8 = 0x70;
// written by tools/opcodes.py from tables/opcodes.txt: number of rows: end

/// The places in `TABLE` of the rows of opcodes of one byte, by that byte, sixteen a line; `NO_ROW` for the other
/// bytes.
///
/// A proof compares them with the table, so no row is passed over.
static PLACES: [u8; 256] = [
    // written by tools/opcodes.py from tables/opcodes.txt: places: begin
    0x00, 0x01, 0x70, 0x70, 0x70, 0x70, 0x02, 0x70, 0x03, 0x70, 0x04, 0x05, 0x06, 0x07, 0x08, 0x70,
    0x09, 0x0A, 0x0B, 0x0C, 0x0D, 0x0E, 0x70, 0x70, 0x70, 0x70, 0x70, 0x70, 0x70, 0x70, 0x70, 0x70,
    0x70, 0x70, 0x70, 0x70, 0x70, 0x70, 0x70, 0x70, 0x70, 0x70, 0x70, 0x70, 0x70, 0x70, 0x70, 0x70,
    0x70, 0x70, 0x70, 0x70, 0x70, 0x70, 0x70, 0x70, 0x70, 0x70, 0x70, 0x70, 0x70, 0x70, 0x70, 0x70,
    0x70, 0x70, 0x70, 0x70, 0x70, 0x70, 0x70, 0x70, 0x70, 0x70, 0x70, 0x70, 0x70, 0x70, 0x70, 0x70,
    0x70, 0x70, 0x70, 0x70, 0x70, 0x70, 0x70, 0x70, 0x70, 0x70, 0x70, 0x70, 0x70, 0x70, 0x70, 0x70,
    0x0F, 0x10, 0x11, 0x12, 0x13, 0x14, 0x15, 0x16, 0x17, 0x18, 0x19, 0x1A, 0x1B, 0x1C, 0x1D, 0x70,
    0x1E, 0x1F, 0x20, 0x21, 0x22, 0x23, 0x24, 0x25, 0x26, 0x27, 0x28, 0x29, 0x2A, 0x2B, 0x2C, 0x2D,
    0x2E, 0x2F, 0x30, 0x31, 0x32, 0x33, 0x34, 0x35, 0x36, 0x37, 0x38, 0x39, 0x3A, 0x3B, 0x3C, 0x3D,
    0x3E, 0x3F, 0x40, 0x41, 0x42, 0x43, 0x44, 0x45, 0x46, 0x47, 0x70, 0x70, 0x48, 0x49, 0x4A, 0x4B,
    0x4C, 0x4D, 0x4E, 0x4F, 0x50, 0x51, 0x70, 0x70, 0x70, 0x70, 0x70, 0x70, 0x70, 0x70, 0x70, 0x70,
    0x70, 0x70, 0x70, 0x70, 0x70, 0x70, 0x70, 0x70, 0x70, 0x70, 0x70, 0x70, 0x70, 0x70, 0x70, 0x70,
    0x70, 0x70, 0x70, 0x70, 0x70, 0x70, 0x70, 0x70, 0x70, 0x70, 0x70, 0x70, 0x52, 0x70, 0x70, 0x70,
    0x70, 0x70, 0x70, 0x70, 0x70, 0x70, 0x70, 0x70, 0x70, 0x70, 0x70, 0x70, 0x70, 0x70, 0x70, 0x70,
    0x70, 0x70, 0x70, 0x70, 0x70, 0x70, 0x70, 0x70, 0x70, 0x70, 0x70, 0x70, 0x70, 0x70, 0x70, 0x70,
    0x70, 0x70, 0x70, 0x70, 0x70, 0x70, 0x70, 0x70, 0x70, 0x70, 0x70, 0x70, 0x70, 0x70, 0x70, 0x53,
    // written by tools/opcodes.py from tables/opcodes.txt: places: end
];

/// The same for opcodes of two bytes, by the byte behind ExtOpPrefix.
static EXTENDED_PLACES: [u8; 256] = [
    // written by tools/opcodes.py from tables/opcodes.txt: places behind 5B: begin
    0x70, 0x54, 0x55, 0x70, 0x70, 0x70, 0x70, 0x70, 0x70, 0x70, 0x70, 0x70, 0x70, 0x70, 0x70, 0x70,
    0x70, 0x70, 0x56, 0x57, 0x70, 0x70, 0x70, 0x70, 0x70, 0x70, 0x70, 0x70, 0x70, 0x70, 0x70, 0x58,
    0x59, 0x5A, 0x5B, 0x5C, 0x5D, 0x5E, 0x5F, 0x60, 0x61, 0x62, 0x70, 0x70, 0x70, 0x70, 0x70, 0x70,
    0x63, 0x64, 0x65, 0x66, 0x70, 0x70, 0x70, 0x70, 0x70, 0x70, 0x70, 0x70, 0x70, 0x70, 0x70, 0x70,
    0x70, 0x70, 0x70, 0x70, 0x70, 0x70, 0x70, 0x70, 0x70, 0x70, 0x70, 0x70, 0x70, 0x70, 0x70, 0x70,
    0x70, 0x70, 0x70, 0x70, 0x70, 0x70, 0x70, 0x70, 0x70, 0x70, 0x70, 0x70, 0x70, 0x70, 0x70, 0x70,
    0x70, 0x70, 0x70, 0x70, 0x70, 0x70, 0x70, 0x70, 0x70, 0x70, 0x70, 0x70, 0x70, 0x70, 0x70, 0x70,
    0x70, 0x70, 0x70, 0x70, 0x70, 0x70, 0x70, 0x70, 0x70, 0x70, 0x70, 0x70, 0x70, 0x70, 0x70, 0x70,
    0x67, 0x68, 0x69, 0x6A, 0x6B, 0x6C, 0x6D, 0x6E, 0x6F, 0x70, 0x70, 0x70, 0x70, 0x70, 0x70, 0x70,
    0x70, 0x70, 0x70, 0x70, 0x70, 0x70, 0x70, 0x70, 0x70, 0x70, 0x70, 0x70, 0x70, 0x70, 0x70, 0x70,
    0x70, 0x70, 0x70, 0x70, 0x70, 0x70, 0x70, 0x70, 0x70, 0x70, 0x70, 0x70, 0x70, 0x70, 0x70, 0x70,
    0x70, 0x70, 0x70, 0x70, 0x70, 0x70, 0x70, 0x70, 0x70, 0x70, 0x70, 0x70, 0x70, 0x70, 0x70, 0x70,
    0x70, 0x70, 0x70, 0x70, 0x70, 0x70, 0x70, 0x70, 0x70, 0x70, 0x70, 0x70, 0x70, 0x70, 0x70, 0x70,
    0x70, 0x70, 0x70, 0x70, 0x70, 0x70, 0x70, 0x70, 0x70, 0x70, 0x70, 0x70, 0x70, 0x70, 0x70, 0x70,
    0x70, 0x70, 0x70, 0x70, 0x70, 0x70, 0x70, 0x70, 0x70, 0x70, 0x70, 0x70, 0x70, 0x70, 0x70, 0x70,
    0x70, 0x70, 0x70, 0x70, 0x70, 0x70, 0x70, 0x70, 0x70, 0x70, 0x70, 0x70, 0x70, 0x70, 0x70, 0x70,
    // written by tools/opcodes.py from tables/opcodes.txt: places behind 5B: end
];

/// Where the row of an opcode stands in `TABLE`, or `NO_ROW`.
fn place_of(number: u16) -> u8
    ensures { result ≡ place_of number }
{
    let last = usize::from(number % 256);
    match number / 256 {
        0 => PLACES[last],
        0x5B => EXTENDED_PLACES[last],
        _ => NO_ROW,
    }
}

impl RowPlace {
    /// The row that stands there.
    pub fn row(self) -> &'static Row
        ensures { Some result.now ≡ row_at self }
    {
        &TABLE[usize::from(self.place)]
    }
}

/// Where the row of an opcode stands, where the table has one.
pub fn row_place(number: u16) -> Option<RowPlace>
    ensures { row_at_any result ≡ row_of number }
{
    let place = place_of(number);
    if place < NO_ROW {
        Some(RowPlace { place })
    } else {
        None
    }
}

/// The row of an opcode, where the table has one.
pub fn row_of(number: u16) -> Option<&'static Row>
    ensures { option_map (λ row. row.now) result ≡ row_of number }
{
    match row_place(number) {
        None => None,
        Some(place) => Some(place.row()),
    }
}
