//! Operators that are evaluated at once where they are items of a list (ACPI 6.5, 19.6): Increment and Decrement of a
//! local or an argument, Store of a short term, and operators on two integers whose operands are short terms or
//! operators of `short_operations`. The target is a local or an argument.
//!
//! `binary_to_slot` and `store_to_slot` may answer none after steps were taken and the place has moved; `try_operator`
//! restores both. Then `begin_operator` begins the operator, as any other one, behind its opcode.
//!
//! Names aren't tried here: `begin_operator` reads an operand that is a name, and stores to a target that is one
//! (`known`).
ghost use Rattle.std.specs.Prelude.{◌≡◌, ◌≤◌, Ok, None, IfSome};
ghost use Rattle.aml_objects.specs.declared.value.Value.TheVariants as values;
ghost use Rattle.aml_world.specs.declared.values.operation_kind.TwoOperands.TheVariants as two;
ghost use Rattle.aml_meaning.specs.declared.flow.Flow.TheVariants as flows;
ghost use Rattle.aml_meaning.specs.declared.term_kind.OperatorKind.TheVariants as operators;
ghost use Rattle.aml_meaning.specs.Meaning.{meaning};
ghost use Rattle.aml_frames.specs.declared.frames.Next.TheVariants as next;
ghost use Rattle.aml_frames.specs.Follow.{operator_run, behind_operator_at, Leads};
ghost use Rattle.aml_frames.specs.at_once.Known.{ShortOperator};

use crate::activation::Activation;
use crate::at_once::short_operations::operand_integer;
use crate::at_once::short_terms::{count_slot, put_integer_to_slot, short_integer};
use aml_convert::BinaryOperator;
use aml_meaning::{OperatorKind, Running};
use aml_world::TwoOperands;
use ar_space::Space;

/// Does Store, Increment, Decrement or an operator on two integers, whose operands stand next, with its store, and gives
/// its integer. It takes the steps of its operands. In every other case it answers none, and nothing changes.
#[tactic(auto, using(crate::proofs::ShortItems::items))]
pub fn try_operator<S: Space>(
    run: &mut Running<S>,
    act: &mut Activation,
    levels: u8,
    kind: OperatorKind,
) -> Option<u64>
    ensures integer { IfSome result (λ n. Leads S.accesses (meaning S.accesses)
        (Ok (next.Flow (flows.Value (values.Integer n)))) act.new run.new
        (operator_run S.accesses (meaning S.accesses) kind act.old levels) run.old) }
    ensures behind { IfSome result (λ n. act.new ≡ behind_operator_at kind act.old levels) }
    ensures spent { run.new.1 ≤ run.old.1 }
    ensures none { result ≡ None → run.new ≡ run.old }
    ensures stays { result ≡ None → act.new ≡ act.old }
{
    let steps = run.steps;
    let position = act.position();
    let done = match kind {
        OperatorKind::Two(TwoOperands::Integers(operator)) => {
            binary_to_slot(run, act, levels, operator)
        }
        OperatorKind::Count(count) => count_slot(run, act, levels, count),
        OperatorKind::Store => store_to_slot(run, act, levels),
        _ => None,
    };
    if done.is_none() {
        run.steps = steps;
        act.go_to(position);
    }
    done
}

/// An operator on two integers whose target is a local or an argument, with its store. Where it answers none, steps may
/// have been taken and the place may have moved; the world is as it was.
#[inline(always)]
#[tactic(auto, using(crate::proofs::ShortItems::items))]
fn binary_to_slot<S: Space>(
    run: &mut Running<S>,
    act: &mut Activation,
    levels: u8,
    operator: BinaryOperator,
) -> Option<u64>
    ensures operator { ShortOperator S.accesses result act.new run.new (operators.Two (two.Integers operator)) levels
        act.old run.old }
    ensures kept { result ≡ None → run.new.0 ≡ run.old.0 }
{
    let Some(x) = operand_integer(run, act, levels) else {
        return None;
    };
    let Some(y) = operand_integer(run, act, levels) else {
        return None;
    };
    // Without a target (a NullName stands there; ACPI 6.5, 20.2.2) the operator is left to `begin_operator`. The proof
    // rests on it that a target stands here.
    if act.next_byte() == 0 {
        return None;
    }
    // Mod by 0 is the only refusal. It is dropped: `begin_operator` evaluates the operands again, and refuses it.
    let Ok(number) = run.world.operate_on_integers(operator, x, y) else {
        return None;
    };
    if put_integer_to_slot(run, act, levels, number) {
        return Some(number);
    }
    None
}

/// A Store of a short term to a local or an argument. Where it answers none, a step may have been taken and the place
/// may have moved; the world is as it was.
#[inline(always)]
#[tactic(auto, using(crate::proofs::ShortItems::items))]
fn store_to_slot<S: Space>(run: &mut Running<S>, act: &mut Activation, levels: u8) -> Option<u64>
    ensures operator { ShortOperator S.accesses result act.new run.new operators.Store levels act.old run.old }
    ensures kept { result ≡ None → run.new.0 ≡ run.old.0 }
{
    let Some(number) = short_integer(run, act, levels) else {
        return None;
    };
    if put_integer_to_slot(run, act, levels, number) {
        return Some(number);
    }
    None
}
