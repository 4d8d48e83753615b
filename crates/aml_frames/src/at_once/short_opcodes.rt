//! The operators that may be evaluated at once, by the byte that is their opcode (ACPI 6.5, 19.6 and 20.3).
ghost use Rattle.std.specs.Prelude.{◌≡◌, IfSome};
ghost use Rattle.aml_meaning.specs.declared.term_kind.TermKind.TheVariants as kinds;
ghost use Rattle.aml_frames.specs.at_once.Known.{TakenOperator};
ghost use Rattle.aml_frames.specs.Operands.{row_kind};
ghost use Rattle.aml_frames.specs.at_once.ShortTerms.{row_alone};

use crate::activation::Activation;
use aml_convert::{BinaryOperator, Comparison, LogicalOperator};
use aml_meaning::{OperatorKind, Running};
use aml_world::{Count, Test, TwoOperands};

/// The operator with an opcode of this one byte, if one of two functions may evaluate it at once: `try_operator` does
/// Store, Increment, Decrement and operators on two integers; `operator_integer` does operators on two integers, tests
/// and LNot.
#[inline(always)]
#[tactic(auto, unfolding(aml_grammar::specs::Table::row_of, aml_grammar::specs::Names::starts_name))]
fn operator_at(byte: u8) -> Option<OperatorKind>
    ensures { IfSome result (λ kind. row_kind (row_alone byte) ≡ kinds.Operator kind) }
{
    match byte {
        // written by tools/opcodes.py from tables/opcodes.txt: operators that are known by a byte: begin
        0x70 => Some(OperatorKind::Store),
        0x72 => Some(OperatorKind::Two(TwoOperands::Integers(BinaryOperator::Add))),
        0x74 => Some(OperatorKind::Two(TwoOperands::Integers(BinaryOperator::Subtract))),
        0x75 => Some(OperatorKind::Count(Count::Increment)),
        0x76 => Some(OperatorKind::Count(Count::Decrement)),
        0x77 => Some(OperatorKind::Two(TwoOperands::Integers(BinaryOperator::Multiply))),
        0x79 => Some(OperatorKind::Two(TwoOperands::Integers(BinaryOperator::ShiftLeft))),
        0x7A => Some(OperatorKind::Two(TwoOperands::Integers(BinaryOperator::ShiftRight))),
        0x7B => Some(OperatorKind::Two(TwoOperands::Integers(BinaryOperator::And))),
        0x7C => Some(OperatorKind::Two(TwoOperands::Integers(BinaryOperator::Nand))),
        0x7D => Some(OperatorKind::Two(TwoOperands::Integers(BinaryOperator::Or))),
        0x7E => Some(OperatorKind::Two(TwoOperands::Integers(BinaryOperator::Nor))),
        0x7F => Some(OperatorKind::Two(TwoOperands::Integers(BinaryOperator::Xor))),
        0x85 => Some(OperatorKind::Two(TwoOperands::Integers(BinaryOperator::Mod))),
        0x90 => Some(OperatorKind::Test(Test::Logical(LogicalOperator::And))),
        0x91 => Some(OperatorKind::Test(Test::Logical(LogicalOperator::Or))),
        0x92 => Some(OperatorKind::LNot),
        0x93 => Some(OperatorKind::Test(Test::Compare(Comparison::Equal))),
        0x94 => Some(OperatorKind::Test(Test::Compare(Comparison::Greater))),
        0x95 => Some(OperatorKind::Test(Test::Compare(Comparison::Less))),
        // written by tools/opcodes.py from tables/opcodes.txt: operators that are known by a byte: end
        _ => None,
    }
}

/// Takes the step of the operator that stands next, goes over its opcode, and says which it is, where `operator_at`
/// knows it. In every other case nothing changes, also where no step or no level is left.
#[inline(always)]
#[tactic(auto, unfolding(aml_world::specs::state::Run::charge))]
pub fn take_operator<S>(
    run: &mut Running<S>,
    act: &mut Activation,
    levels: u8,
) -> Option<OperatorKind>
    ensures { TakenOperator result act.new run.new levels act.old run.old }
{
    if levels == 0 || run.steps == 0 {
        return None;
    }
    let Some(kind) = operator_at(act.next_byte()) else {
        return None;
    };
    run.steps -= 1;
    act.advance(1);
    Some(kind)
}
