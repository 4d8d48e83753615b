//! Operands that name a target, which is read or stored to (ACPI 6.5, 20.2.2).
ghost use Rattle.std.specs.Prelude.{◌≡◌, ◌<◌, ◌+◌, true, false, IfOk};
ghost use Rattle.ar_space.specs.Change.{Does};
ghost use Rattle.aml_grammar.specs.Apart.{code_of};
ghost use Rattle.aml_grammar.specs.Names.{starts_name};
ghost use Rattle.aml_marks.specs.Marked.{first, a_name};
ghost use Rattle.aml_world.specs.state.Run.{lift};
ghost use Rattle.aml_world.specs.values.StoreTargets.{target_named};
ghost use Rattle.aml_meaning.specs.Meaning.{meaning};
ghost use Rattle.aml_meaning.specs.Terms.{target_kind};
ghost use Rattle.aml_meaning.specs.declared.term_kind.TargetKind.TheVariants as kinds;
ghost use Rattle.aml_frames.specs.declared.frames.Frame.TheVariants as frames;
ghost use Rattle.aml_frames.specs.Places.{next_term, behind_term};
ghost use Rattle.aml_frames.specs.Uses.{super, optional, use_ends, operand_used};
ghost use Rattle.aml_frames.specs.Uses.{dereferenced_used};
ghost use Rattle.aml_frames.specs.Weights.{use_weight, target_weight, next_weight, charged};
ghost use Rattle.aml_frames.specs.Steps.{Steps, frame_at, next_target};

use crate::target_uses::use_target;
use aml_frames::{Activation, Frame, Next, Target, TargetForm, TargetUse, told_here, use_known};
use aml_meaning::{Flow, Running, TargetKind};
use aml_world::{StoreTarget, reference_in};
use ar_space::{NameFault, Refusal, Result, Space};

/// The target that stands next is found and used, or what it refers to is evaluated first.
#[inline(always)]
#[tactic(auto, using(aml_frames::proofs::Using::finding))]
pub fn begin_target<S: Space>(
    run: &mut Running<S>,
    act: &mut Activation,
    target: Target,
    target_use: TargetUse,
) -> Result<Next>
    ensures steps { Steps S.accesses (target_weight target_use + 1) result act.new run.new
        (next_target S.accesses target target_use act.old) run.old }
    ensures falls { IfOk result (λ n. charged run.new.1 + next_weight n <
        charged run.old.1 + target_weight target_use) }
{
    match target.form {
        TargetForm::SuperName => begin_super_name(run, act, target.levels, target_use),
        TargetForm::Target => begin_optional(run, act, target.levels, target_use),
    }
}

/// A target that may be left out: a NullName stands there then (ACPI 6.5, 20.2.2).
#[inline(always)]
#[tactic(auto, using(aml_frames::proofs::Using::finding))]
fn begin_optional<S: Space>(
    run: &mut Running<S>,
    act: &mut Activation,
    levels: u8,
    target_use: TargetUse,
) -> Result<Next>
    ensures steps { Steps S.accesses (target_weight target_use + 1) result act.new run.new
        (next_target S.accesses (optional levels) target_use act.old) run.old }
    ensures falls { IfOk result (λ n. charged run.new.1 + next_weight n <
        charged run.old.1 + target_weight target_use) }
{
    if act.next_byte() == 0 {
        act.advance(1);
        use_target(run, act, StoreTarget::Nowhere, target_use)
    } else {
        begin_super_name(run, act, levels, target_use)
    }
}

/// A name, or a term that refers to a target: one that takes an integer at once, or any other.
#[inline(always)]
#[tactic(auto, using(aml_frames::proofs::Knowing::knowing))]
fn begin_super_name<S: Space>(
    run: &mut Running<S>,
    act: &mut Activation,
    levels: u8,
    target_use: TargetUse,
) -> Result<Next>
    ensures steps { Steps S.accesses (target_weight target_use + 1) result act.new run.new
        (next_target S.accesses (super levels) target_use act.old) run.old }
    ensures falls { IfOk result (λ n. charged run.new.1 + next_weight n <
        charged run.old.1 + target_weight target_use) }
{
    match use_known(run, act, levels, target_use) {
        Ok(Some(value)) => Ok(Next::Flow(Flow::Value(value))),
        Ok(None) => begin_any_super_name(run, act, levels, target_use),
        Err(refusal) => Err(refusal),
    }
}

/// A name, or a term that refers to a target.
fn begin_any_super_name<S: Space>(
    run: &mut Running<S>,
    act: &mut Activation,
    levels: u8,
    target_use: TargetUse,
) -> Result<Next>
    ensures steps { Steps S.accesses (target_weight target_use + 1) result act.new run.new
        (next_target S.accesses (super levels) target_use act.old) run.old }
    ensures falls { IfOk result (λ n. charged run.new.1 + next_weight n <
        charged run.old.1 + target_weight target_use) }
{
    if act.is_at_name() {
        begin_named(run, act, levels, target_use)
    } else {
        begin_referring(run, act, levels, target_use)
    }
}

/// What a name names.
#[tactic(auto, using(aml_frames::proofs::Using::naming), unfolding(aml_marks::specs::Marked::a_name))]
fn begin_named<S: Space>(
    run: &mut Running<S>,
    act: &mut Activation,
    levels: u8,
    target_use: TargetUse,
) -> Result<Next>
    requires { starts_name (first act.old.place.rest) ≡ true }
    ensures steps { Steps S.accesses (target_weight target_use + 1) result act.new run.new
        (next_target S.accesses (super levels) target_use act.old) run.old }
    ensures falls { IfOk result (λ n. charged run.new.1 + next_weight n <
        charged run.old.1 + target_weight target_use) }
{
    let found = target_at_name(run, act);
    let target = told_here(&mut run.world, act, found)?;
    act.over_name();
    use_target(run, act, target, target_use)
}

/// The target that a name names.
#[tactic(auto, using(aml_meaning::proofs::Runs::running))]
fn target_at_name<S: Space>(run: &Running<S>, act: &Activation) -> Result<StoreTarget>
    ensures { Does result run.now (lift (target_named act.now.scope (a_name act.now.place).0)) run.now }
{
    let name = act.name(run.world.alloc)?;
    run.world.target_named(act.scope(), &name)
}

/// What a term refers to that stands as a target: Debug, a local, an argument, RefOf, DerefOf or Index.
#[tactic(auto, using(aml_frames::proofs::Using::referring))]
fn begin_referring<S: Space>(
    run: &mut Running<S>,
    act: &mut Activation,
    levels: u8,
    target_use: TargetUse,
) -> Result<Next>
    requires { starts_name (first act.old.place.rest) ≡ false }
    ensures steps { Steps S.accesses (target_weight target_use + 1) result act.new run.new
        (next_target S.accesses (super levels) target_use act.old) run.old }
    ensures falls { IfOk result (λ n. charged run.new.1 + next_weight n <
        charged run.old.1 + target_weight target_use) }
{
    match act.target_kind(levels) {
        TargetKind::Nowhere => {
            act.over_term(levels);
            use_target(run, act, StoreTarget::Nowhere, target_use)
        }
        TargetKind::Slot(slot) => {
            act.over_term(levels);
            use_target(run, act, StoreTarget::Slot(slot), target_use)
        }
        TargetKind::RefOf => begin_operand_target(run, act, levels, target_use),
        TargetKind::DerefOf => begin_dereferenced(run, act, levels, target_use),
        TargetKind::Index => Ok(Next::Term(levels, Frame::IndexTarget(target_use))),
        TargetKind::Other => Err(Refusal::Name(NameFault::BadName)),
    }
}

/// RefOf is what its operand names. It costs a step.
#[tactic(auto, using(aml_frames::proofs::Using::aimed_operands))]
fn begin_operand_target<S: Space>(
    run: &mut Running<S>,
    act: &mut Activation,
    levels: u8,
    target_use: TargetUse,
) -> Result<Next>
    requires { target_kind (code_of (next_term act.old levels)) ≡ kinds.RefOf }
    ensures steps { Steps S.accesses (target_weight target_use + 1) result act.new run.new (
      operand_used S.accesses (meaning S.accesses) levels target_use act.old,
      use_ends target_use (behind_term act.old levels),
    ) run.old }
    ensures falls { IfOk result (λ n. charged run.new.1 + next_weight n <
        charged run.old.1 + target_weight target_use) }
{
    run.charge()?;
    match act.take_opcode(levels) {
        // RefOf is an opcode
        None => Err(Refusal::Name(NameFault::BadName)),
        Some(_) => Ok(Next::Target(Target::super_name(levels - 1), target_use)),
    }
}

/// DerefOf is what its operand refers to, which has to stand there and isn't read. It costs a step.
#[tactic(auto, using(aml_frames::proofs::Using::aimed_operands), unfolding(aml_meaning::specs::TargetTerms::dereferenced_target))]
fn begin_dereferenced<S: Space>(
    run: &mut Running<S>,
    act: &mut Activation,
    levels: u8,
    target_use: TargetUse,
) -> Result<Next>
    requires { target_kind (code_of (next_term act.old levels)) ≡ kinds.DerefOf }
    ensures { Steps S.accesses (target_weight target_use) result act.new run.new (
      dereferenced_used S.accesses (meaning S.accesses) levels target_use act.old,
      use_ends target_use (behind_term act.old levels),
    ) run.old }
{
    run.charge()?;
    match act.take_opcode(levels) {
        // DerefOf is an opcode
        None => Err(Refusal::Name(NameFault::BadName)),
        Some(_) => Ok(Next::Term(levels - 1, Frame::DerefTarget(target_use))),
    }
}

/// A target that is an Index whose value was evaluated.
#[tactic(auto, using(aml_frames::proofs::Using::using_targets))]
pub fn resume_index_target<S: Space>(
    run: &mut Running<S>,
    act: &mut Activation,
    target_use: TargetUse,
    flow: Flow,
) -> Result<Next>
    ensures { Steps S.accesses (use_weight target_use) result act.new run.new
        (frame_at S.accesses (frames.IndexTarget target_use) act.old flow) run.old }
{
    let value = flow.value()?;
    let reference = reference_in(value)?;
    use_target(run, act, StoreTarget::Refers(reference), target_use)
}

/// A target that is a DerefOf whose operand was evaluated.
#[tactic(auto, using(aml_frames::proofs::Using::using_targets))]
pub fn resume_dereferenced<S: Space>(
    run: &mut Running<S>,
    act: &mut Activation,
    target_use: TargetUse,
    flow: Flow,
) -> Result<Next>
    ensures { Steps S.accesses (use_weight target_use) result act.new run.new
        (frame_at S.accesses (frames.DerefTarget target_use) act.old flow) run.old }
{
    let value = flow.value()?;
    let reference = reference_in(value)?;
    run.world.test_reference(reference)?;
    use_target(run, act, StoreTarget::Refers(reference), target_use)
}
