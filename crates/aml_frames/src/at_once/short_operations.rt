//! Operators that store nothing, over what is an integer already: operators on two integers with a NullName as their
//! target, tests, and LNot (ACPI 6.5, 19.6). Their operands are short terms (`short_terms`), or such operators again,
//! as deep as terms may nest: conditions, indexes, shifts and masks of locals, arguments and constants need no frame.
//! These functions call one another, one level of the processor's stack for each level of operators, at most 64.
//!
//! Where a function answers none, steps may have been taken and the place may have moved, and nothing else has changed.
//! `operation_integer` restores both.
ghost use Rattle.std.specs.Prelude.{◌≡◌};
ghost use Rattle.aml_world.specs.declared.values.operation_kind.TwoOperands.TheVariants as two;
ghost use Rattle.aml_meaning.specs.declared.term_kind.OperatorKind.TheVariants as operators;
ghost use Rattle.aml_frames.specs.at_once.Known.{ShortInteger, ShortOperator};

use crate::activation::Activation;
use crate::at_once::short_opcodes::take_operator;
use crate::at_once::short_terms::short_integer;
use aml_convert::BinaryOperator;
use aml_meaning::{OperatorKind, Running};
use aml_world::{Test, TwoOperands};
use ar_space::Space;

/// The integer of the operator that stands next, where its operands are integers already, and it has no target. It
/// takes the steps of the operator and of its operands. In every other case nothing changes.
#[cycle(operations)]
#[tactic(auto, using(crate::proofs::ShortOperations::giving, crate::proofs::ShortOperators::begun))]
pub(crate) fn operation_integer<S: Space>(
    run: &mut Running<S>,
    act: &mut Activation,
    levels: u8,
) -> Option<u64>
    ensures { ShortInteger S.accesses result act.new run.new levels act.old run.old }
{
    if act.is_given_up_here() {
        return None;
    }
    let steps = run.steps;
    let position = act.position();
    let Some(kind) = take_operator(run, act, levels) else {
        return None;
    };
    let Some(number) = operator_integer(run, act, levels - 1, kind) else {
        run.steps = steps;
        act.give_up_from(position);
        return None;
    };
    Some(number)
}

/// The integer that an operator gives whose operands stand next.
#[cycle(operations)]
#[inline(always)]
#[tactic(auto)]
fn operator_integer<S: Space>(
    run: &mut Running<S>,
    act: &mut Activation,
    levels: u8,
    kind: OperatorKind,
) -> Option<u64>
    ensures operator { ShortOperator S.accesses result act.new run.new kind levels act.old run.old }
    ensures kept { run.new.0 ≡ run.old.0 }
{
    match kind {
        OperatorKind::Two(TwoOperands::Integers(operator)) => {
            binary_without_target(run, act, levels, operator)
        }
        OperatorKind::Test(test) => test_of_integers(run, act, levels, test),
        OperatorKind::LNot => lnot_of_integer(run, act, levels),
        _ => None,
    }
}

/// As `operator_integer`, of an operator on two integers whose target is left out: a NullName stands there.
#[cycle(operations)]
#[inline(always)]
#[tactic(auto, using(crate::proofs::ShortOperations::integers))]
fn binary_without_target<S: Space>(
    run: &mut Running<S>,
    act: &mut Activation,
    levels: u8,
    operator: BinaryOperator,
) -> Option<u64>
    ensures operator { ShortOperator S.accesses result act.new run.new (operators.Two (two.Integers operator)) levels
        act.old run.old }
    ensures kept { run.new.0 ≡ run.old.0 }
{
    let Some(x) = operand_integer(run, act, levels) else {
        return None;
    };
    let Some(y) = operand_integer(run, act, levels) else {
        return None;
    };
    // Anything but a NullName: a target is there.
    if act.next_byte() != 0 {
        return None;
    }
    // Mod by 0 is the only refusal. It is dropped: the caller evaluates the term again, and refuses it.
    let Ok(number) = run.world.operate_on_integers(operator, x, y) else {
        return None;
    };
    act.advance(1);
    Some(number)
}

/// As `operator_integer`, of a test of two operands.
#[cycle(operations)]
#[inline(always)]
#[tactic(auto, using(crate::proofs::ShortOperations::integers))]
fn test_of_integers<S: Space>(
    run: &mut Running<S>,
    act: &mut Activation,
    levels: u8,
    test: Test,
) -> Option<u64>
    ensures operator { ShortOperator S.accesses result act.new run.new (operators.Test test) levels act.old run.old }
    ensures kept { run.new.0 ≡ run.old.0 }
{
    let Some(x) = operand_integer(run, act, levels) else {
        return None;
    };
    let Some(y) = operand_integer(run, act, levels) else {
        return None;
    };
    Some(run.world.test_integers(test, x, y))
}

/// As `operator_integer`, of LNot.
#[cycle(operations)]
#[inline(always)]
#[tactic(auto, using(crate::proofs::ShortOperations::integers))]
fn lnot_of_integer<S: Space>(run: &mut Running<S>, act: &mut Activation, levels: u8) -> Option<u64>
    ensures operator { ShortOperator S.accesses result act.new run.new operators.LNot levels act.old run.old }
    ensures kept { run.new.0 ≡ run.old.0 }
{
    let Some(x) = operand_integer(run, act, levels) else {
        return None;
    };
    Some(run.world.lnot_integer(x))
}

/// The integer of an operand that is there already, or that an operator without a target gives.
#[cycle(operations)]
#[inline(always)]
pub(crate) fn operand_integer<S: Space>(
    run: &mut Running<S>,
    act: &mut Activation,
    levels: u8,
) -> Option<u64>
    ensures { ShortInteger S.accesses result act.new run.new levels act.old run.old }
{
    match short_integer(run, act, levels) {
        Some(number) => Some(number),
        None => operation_integer(run, act, levels),
    }
}
