//! The rule by which a term with an opcode is evaluated.
ghost use Rattle.std.specs.Prelude.{◌≡◌};
ghost use Rattle.aml_meaning.specs.Terms.{data_kind, declaration_kind, region_kind, statement_kind, slot_kind};
ghost use Rattle.aml_meaning.specs.Terms.{integer_operator, two_operands, one_operand, test_kind, other_operator};
ghost use Rattle.aml_meaning.specs.Terms.{wide_kind, kind_of, declaration_or, region_or, statement_or, slot_or};
ghost use Rattle.aml_meaning.specs.Terms.{integers_or, two_or, one_or, test_or, other_or, wide_or, slot_target};
ghost use Rattle.aml_meaning.specs.Terms.{target_kind_of, target_kind};

use crate::term_kind::{
    DataKind, DeclarationKind, OperatorKind, RegionKind, StatementKind, TargetKind, TermKind,
    WideKind,
};
use aml_convert::{BinaryOperator, Comparison, LogicalOperator, UnaryOperator};
use aml_grammar::{Opcode, TermCode};
use aml_objects::Slot;
use aml_world::{BufferFieldSize, Conversion, Count, EventChange, OneOperand, Test, TwoOperands};

/// Data.
#[inline(always)]
fn data_kind(opcode: Opcode) -> Option<DataKind>
    ensures { result ≡ data_kind opcode }
{
    match opcode {
        // written by tools/opcodes.py from tables/opcodes.txt: data_kind: begin
        Opcode::Zero => Some(DataKind::Constant(0)),
        Opcode::One => Some(DataKind::Constant(1)),
        Opcode::BytePrefix => Some(DataKind::Integer),
        Opcode::WordPrefix => Some(DataKind::Integer),
        Opcode::DWordPrefix => Some(DataKind::Integer),
        Opcode::StringPrefix => Some(DataKind::String),
        Opcode::QWordPrefix => Some(DataKind::Integer),
        Opcode::Buffer => Some(DataKind::Buffer),
        Opcode::Package => Some(DataKind::Package),
        Opcode::VarPackage => Some(DataKind::VarPackage),
        Opcode::Ones => Some(DataKind::Constant(u64::MAX)),
        Opcode::Revision => Some(DataKind::Constant(2)),
        // written by tools/opcodes.py from tables/opcodes.txt: data_kind: end
        _ => None,
    }
}

/// Declarations, and Scope.
#[inline(always)]
fn declaration_kind(opcode: Opcode) -> Option<DeclarationKind>
    ensures { result ≡ declaration_kind opcode }
{
    match opcode {
        // written by tools/opcodes.py from tables/opcodes.txt: declaration_kind: begin
        Opcode::Alias => Some(DeclarationKind::Alias),
        Opcode::Name => Some(DeclarationKind::Name),
        Opcode::Scope => Some(DeclarationKind::Scope),
        Opcode::Method => Some(DeclarationKind::Method),
        Opcode::External => Some(DeclarationKind::External),
        Opcode::Mutex => Some(DeclarationKind::Mutex),
        Opcode::Event => Some(DeclarationKind::Event),
        Opcode::Device => Some(DeclarationKind::Device),
        Opcode::Processor => Some(DeclarationKind::Processor),
        Opcode::PowerRes => Some(DeclarationKind::PowerResource),
        Opcode::ThermalZone => Some(DeclarationKind::ThermalZone),
        // written by tools/opcodes.py from tables/opcodes.txt: declaration_kind: end
        _ => None,
    }
}

/// Operation regions, fields in them, and buffer fields.
#[inline(always)]
fn region_kind(opcode: Opcode) -> Option<RegionKind>
    ensures { result ≡ region_kind opcode }
{
    match opcode {
        // written by tools/opcodes.py from tables/opcodes.txt: region_kind: begin
        Opcode::CreateDWordField => Some(RegionKind::SizedBufferField(BufferFieldSize::DWord)),
        Opcode::CreateWordField => Some(RegionKind::SizedBufferField(BufferFieldSize::Word)),
        Opcode::CreateByteField => Some(RegionKind::SizedBufferField(BufferFieldSize::Byte)),
        Opcode::CreateBitField => Some(RegionKind::SizedBufferField(BufferFieldSize::Bit)),
        Opcode::CreateQWordField => Some(RegionKind::SizedBufferField(BufferFieldSize::QWord)),
        Opcode::CreateField => Some(RegionKind::BufferField),
        Opcode::OpRegion => Some(RegionKind::OperationRegion),
        Opcode::Field => Some(RegionKind::Field),
        Opcode::IndexField => Some(RegionKind::IndexField),
        // written by tools/opcodes.py from tables/opcodes.txt: region_kind: end
        _ => None,
    }
}

/// Statements.
#[inline(always)]
fn statement_kind(opcode: Opcode) -> Option<StatementKind>
    ensures { result ≡ statement_kind opcode }
{
    match opcode {
        // written by tools/opcodes.py from tables/opcodes.txt: statement_kind: begin
        Opcode::Notify => Some(StatementKind::Notify),
        Opcode::Continue => Some(StatementKind::Continue),
        Opcode::If => Some(StatementKind::If),
        Opcode::Else => Some(StatementKind::Else),
        Opcode::While => Some(StatementKind::While),
        Opcode::Noop => Some(StatementKind::Noop),
        Opcode::Return => Some(StatementKind::Return),
        Opcode::Break => Some(StatementKind::Break),
        Opcode::BreakPoint => Some(StatementKind::Noop),
        Opcode::Stall => Some(StatementKind::Pause),
        Opcode::Sleep => Some(StatementKind::Pause),
        Opcode::Release => Some(StatementKind::Release),
        Opcode::Fatal => Some(StatementKind::Fatal),
        // written by tools/opcodes.py from tables/opcodes.txt: statement_kind: end
        _ => None,
    }
}

/// Locals and arguments.
#[inline(always)]
fn slot_kind(opcode: Opcode) -> Option<Slot>
    ensures { result ≡ slot_kind opcode }
{
    match opcode {
        // written by tools/opcodes.py from tables/opcodes.txt: slot_kind: begin
        Opcode::Local0 => Some(Slot::Local(0)),
        Opcode::Local1 => Some(Slot::Local(1)),
        Opcode::Local2 => Some(Slot::Local(2)),
        Opcode::Local3 => Some(Slot::Local(3)),
        Opcode::Local4 => Some(Slot::Local(4)),
        Opcode::Local5 => Some(Slot::Local(5)),
        Opcode::Local6 => Some(Slot::Local(6)),
        Opcode::Local7 => Some(Slot::Local(7)),
        Opcode::Arg0 => Some(Slot::Argument(0)),
        Opcode::Arg1 => Some(Slot::Argument(1)),
        Opcode::Arg2 => Some(Slot::Argument(2)),
        Opcode::Arg3 => Some(Slot::Argument(3)),
        Opcode::Arg4 => Some(Slot::Argument(4)),
        Opcode::Arg5 => Some(Slot::Argument(5)),
        Opcode::Arg6 => Some(Slot::Argument(6)),
        // written by tools/opcodes.py from tables/opcodes.txt: slot_kind: end
        _ => None,
    }
}

/// Operators on two integers.
#[inline(always)]
fn integer_operator(opcode: Opcode) -> Option<BinaryOperator>
    ensures { result ≡ integer_operator opcode }
{
    match opcode {
        // written by tools/opcodes.py from tables/opcodes.txt: integer_operator: begin
        Opcode::Add => Some(BinaryOperator::Add),
        Opcode::Subtract => Some(BinaryOperator::Subtract),
        Opcode::Multiply => Some(BinaryOperator::Multiply),
        Opcode::ShiftLeft => Some(BinaryOperator::ShiftLeft),
        Opcode::ShiftRight => Some(BinaryOperator::ShiftRight),
        Opcode::And => Some(BinaryOperator::And),
        Opcode::Nand => Some(BinaryOperator::Nand),
        Opcode::Or => Some(BinaryOperator::Or),
        Opcode::Nor => Some(BinaryOperator::Nor),
        Opcode::Xor => Some(BinaryOperator::Xor),
        Opcode::Mod => Some(BinaryOperator::Mod),
        // written by tools/opcodes.py from tables/opcodes.txt: integer_operator: end
        _ => None,
    }
}

/// Other operators with two operands and a target.
#[inline(always)]
fn two_operands(opcode: Opcode) -> Option<TwoOperands>
    ensures { result ≡ two_operands opcode }
{
    match opcode {
        // written by tools/opcodes.py from tables/opcodes.txt: two_operands: begin
        Opcode::Concat => Some(TwoOperands::Concatenate),
        Opcode::ConcatRes => Some(TwoOperands::ConcatenateResources),
        Opcode::Index => Some(TwoOperands::Index),
        // written by tools/opcodes.py from tables/opcodes.txt: two_operands: end
        _ => None,
    }
}

/// Operators with an operand and a target.
#[inline(always)]
fn one_operand(opcode: Opcode) -> Option<OneOperand>
    ensures { result ≡ one_operand opcode }
{
    match opcode {
        // written by tools/opcodes.py from tables/opcodes.txt: one_operand: begin
        Opcode::Not => Some(OneOperand::Integer(UnaryOperator::Not)),
        Opcode::FindSetLeftBit => Some(OneOperand::Integer(UnaryOperator::FindSetLeftBit)),
        Opcode::FindSetRightBit => Some(OneOperand::Integer(UnaryOperator::FindSetRightBit)),
        Opcode::ToBuffer => Some(OneOperand::ToBuffer),
        Opcode::ToInteger => Some(OneOperand::ToInteger),
        // written by tools/opcodes.py from tables/opcodes.txt: one_operand: end
        _ => None,
    }
}

/// Comparisons, and logical operators with two operands.
#[inline(always)]
fn test_kind(opcode: Opcode) -> Option<Test>
    ensures { result ≡ test_kind opcode }
{
    match opcode {
        // written by tools/opcodes.py from tables/opcodes.txt: test_kind: begin
        Opcode::LAnd => Some(Test::Logical(LogicalOperator::And)),
        Opcode::LOr => Some(Test::Logical(LogicalOperator::Or)),
        Opcode::LEqual => Some(Test::Compare(Comparison::Equal)),
        Opcode::LGreater => Some(Test::Compare(Comparison::Greater)),
        Opcode::LLess => Some(Test::Compare(Comparison::Less)),
        // written by tools/opcodes.py from tables/opcodes.txt: test_kind: end
        _ => None,
    }
}

/// The other terms that have a value.
#[inline(always)]
fn other_operator(opcode: Opcode) -> Option<OperatorKind>
    ensures { result ≡ other_operator opcode }
{
    match opcode {
        // written by tools/opcodes.py from tables/opcodes.txt: other_operator: begin
        Opcode::Store => Some(OperatorKind::Store),
        Opcode::RefOf => Some(OperatorKind::RefOf),
        Opcode::Increment => Some(OperatorKind::Count(Count::Increment)),
        Opcode::Decrement => Some(OperatorKind::Count(Count::Decrement)),
        Opcode::Divide => Some(OperatorKind::Divide),
        Opcode::DerefOf => Some(OperatorKind::DerefOf),
        Opcode::SizeOf => Some(OperatorKind::SizeOf),
        Opcode::ObjectType => Some(OperatorKind::ObjectType),
        Opcode::LNot => Some(OperatorKind::LNot),
        Opcode::CopyObject => Some(OperatorKind::CopyObject),
        Opcode::CondRefOf => Some(OperatorKind::CondRefOf),
        Opcode::Acquire => Some(OperatorKind::Acquire),
        // written by tools/opcodes.py from tables/opcodes.txt: other_operator: end
        _ => None,
    }
}

/// Terms of the wide profile.
#[inline(always)]
fn wide_kind(opcode: Opcode) -> Option<WideKind>
    ensures { result ≡ wide_kind opcode }
{
    match opcode {
        // written by tools/opcodes.py from tables/opcodes.txt: wide_kind: begin
        Opcode::Match => Some(WideKind::Match),
        Opcode::ToDecimalString => Some(WideKind::Convert(Conversion::DecimalString)),
        Opcode::ToHexString => Some(WideKind::Convert(Conversion::HexadecimalString)),
        Opcode::ToString => Some(WideKind::ToString),
        Opcode::Mid => Some(WideKind::Mid),
        Opcode::Signal => Some(WideKind::Event(EventChange::Signal)),
        Opcode::Wait => Some(WideKind::Wait),
        Opcode::Reset => Some(WideKind::Event(EventChange::Reset)),
        Opcode::FromBcd => Some(WideKind::Convert(Conversion::FromDecimal)),
        Opcode::ToBcd => Some(WideKind::Convert(Conversion::ToDecimal)),
        Opcode::BankField => Some(WideKind::BankField),
        // written by tools/opcodes.py from tables/opcodes.txt: wide_kind: end
        _ => None,
    }
}

/// The rule by which a term with an opcode is evaluated. Every term asks it, so all of its parts are compiled as one:
/// there each opcode is looked at once.
#[inline(always)]
pub fn kind_of(opcode: Opcode) -> TermKind
    ensures { result ≡ kind_of opcode }
{
    match data_kind(opcode) {
        Some(kind) => TermKind::Data(kind),
        None => declaration_or_other(opcode),
    }
}

#[inline(always)]
fn declaration_or_other(opcode: Opcode) -> TermKind
    ensures { result ≡ declaration_or opcode (declaration_kind opcode) }
{
    match declaration_kind(opcode) {
        Some(kind) => TermKind::Declaration(kind),
        None => region_or_other(opcode),
    }
}

#[inline(always)]
fn region_or_other(opcode: Opcode) -> TermKind
    ensures { result ≡ region_or opcode (region_kind opcode) }
{
    match region_kind(opcode) {
        Some(kind) => TermKind::Region(kind),
        None => statement_or_other(opcode),
    }
}

#[inline(always)]
fn statement_or_other(opcode: Opcode) -> TermKind
    ensures { result ≡ statement_or opcode (statement_kind opcode) }
{
    match statement_kind(opcode) {
        Some(kind) => TermKind::Statement(kind),
        None => slot_or_other(opcode),
    }
}

#[inline(always)]
fn slot_or_other(opcode: Opcode) -> TermKind
    ensures { result ≡ slot_or opcode (slot_kind opcode) }
{
    match slot_kind(opcode) {
        Some(slot) => TermKind::Operator(OperatorKind::Slot(slot)),
        None => integers_or_other(opcode),
    }
}

#[inline(always)]
fn integers_or_other(opcode: Opcode) -> TermKind
    ensures { result ≡ integers_or opcode (integer_operator opcode) }
{
    match integer_operator(opcode) {
        Some(operator) => TermKind::Operator(OperatorKind::Two(TwoOperands::Integers(operator))),
        None => two_or_other(opcode),
    }
}

#[inline(always)]
fn two_or_other(opcode: Opcode) -> TermKind
    ensures { result ≡ two_or opcode (two_operands opcode) }
{
    match two_operands(opcode) {
        Some(kind) => TermKind::Operator(OperatorKind::Two(kind)),
        None => one_or_other(opcode),
    }
}

#[inline(always)]
fn one_or_other(opcode: Opcode) -> TermKind
    ensures { result ≡ one_or opcode (one_operand opcode) }
{
    match one_operand(opcode) {
        Some(kind) => TermKind::Operator(OperatorKind::One(kind)),
        None => test_or_other(opcode),
    }
}

#[inline(always)]
fn test_or_other(opcode: Opcode) -> TermKind
    ensures { result ≡ test_or opcode (test_kind opcode) }
{
    match test_kind(opcode) {
        Some(kind) => TermKind::Operator(OperatorKind::Test(kind)),
        None => other_kind(opcode),
    }
}

#[inline(always)]
fn other_kind(opcode: Opcode) -> TermKind
    ensures { result ≡ other_or opcode (other_operator opcode) }
{
    match other_operator(opcode) {
        Some(kind) => TermKind::Operator(kind),
        None => wide_or_unsupported(opcode),
    }
}

#[inline(always)]
fn wide_or_unsupported(opcode: Opcode) -> TermKind
    ensures { result ≡ wide_or (wide_kind opcode) }
{
    match wide_kind(opcode) {
        Some(kind) => TermKind::Wide(kind),
        None => TermKind::Unsupported,
    }
}

/// How a term names a target where one is wanted.
pub fn target_kind(code: TermCode) -> TargetKind
    ensures { result ≡ target_kind code }
{
    match code {
        TermCode::Opcode(opcode) => target_kind_of(opcode),
        _ => TargetKind::Other,
    }
}

fn target_kind_of(opcode: Opcode) -> TargetKind
    ensures { result ≡ target_kind_of opcode }
{
    match opcode {
        Opcode::Debug => TargetKind::Nowhere,
        Opcode::RefOf => TargetKind::RefOf,
        Opcode::DerefOf => TargetKind::DerefOf,
        Opcode::Index => TargetKind::Index,
        _ => slot_target(slot_kind(opcode)),
    }
}

fn slot_target(slot: Option<Slot>) -> TargetKind
    ensures { result ≡ slot_target slot }
{
    match slot {
        None => TargetKind::Other,
        Some(slot) => TargetKind::Slot(slot),
    }
}
