//! Names where values stand (ACPI 6.5, 5.5.2 and 20.2.5: MethodInvocation).
ghost use Rattle.std.specs.Prelude.{◌+◌, ◌*◌, false, IfSome};
ghost use Rattle.ar_space.specs.Change.{Does};
ghost use Rattle.aml_grammar.specs.Shape.{trees_of};
ghost use Rattle.aml_marks.specs.Marked.{a_name, turns_of};
ghost use Rattle.aml_world.specs.state.Invocations.{invocation_found};
ghost use Rattle.aml_meaning.specs.Meaning.{meaning};
ghost use Rattle.aml_meaning.specs.InvocationTerms.{invocation_rule};
ghost use Rattle.aml_frames.specs.Places.{at_place, terms};
ghost use Rattle.aml_frames.specs.at_once.ShortNames.{FindsAt};
ghost use Rattle.aml_frames.specs.Follow.{name_run, behind_name_at};
ghost use Rattle.aml_frames.specs.Weights.{most};
ghost use Rattle.aml_frames.specs.Steps.{Steps};

use aml_accesses::{begin_call, begin_read};
use aml_frames::{Activation, Call, Callee, Next, Reading, node_at, told_here};
use aml_meaning::{Flow, Running};
use aml_objects::NodeId;
use aml_world::{Invocation, WorldState};
use ar_space::{Result, Space};

/// Begins a name that stands for a value: finds what it names, and uses it with the arguments behind it.
#[tactic(auto, using(aml_frames::proofs::Using::using_targets), unfolding(aml_frames::specs::Follow::name_run, aml_marks::specs::Marked::a_name))]
pub fn begin_name<S: Space>(run: &mut Running<S>, act: &mut Activation, levels: u8) -> Result<Next>
    ensures { Steps S.accesses (3 * most + 100) result act.new run.new
        (name_run S.accesses (meaning S.accesses) act.old levels, behind_name_at act.old levels) run.old }
{
    let count = act.argument_count();
    let node = node_at(&run.world, act);
    let found = name_used(&run.world, act, node, count);
    let invocation = told_here(&mut run.world, act, found)?;
    act.over_name();
    begin_invocation(run, act, levels, count, node, invocation)
}

/// What the next name means with so many arguments; `node` is its node, where `node_at` found it.
fn name_used<S: Space>(
    world: &WorldState<S>,
    act: &Activation,
    node: Option<NodeId>,
    count: u8,
) -> Result<Invocation>
    requires { IfSome node (λ id. FindsAt world.now act.now.scope act.now.place id.number) }
    ensures { Does result world.now (invocation_found act.now.scope (a_name act.now.place).0 count) world.now }
{
    match node {
        Some(id) => world.use_with(id, usize::from(count)),
        None => long_name_used(world, act, count),
    }
}

/// The same of a name that `node_at` doesn't find: it has several segments or a prefix, or it isn't declared.
fn long_name_used<S: Space>(
    world: &WorldState<S>,
    act: &Activation,
    count: u8,
) -> Result<Invocation>
    ensures { Does result world.now (invocation_found act.now.scope (a_name act.now.place).0 count) world.now }
{
    match act.name(world.alloc) {
        Ok(name) => world.invocation(act.scope(), &name, usize::from(count)),
        Err(refusal) => Err(refusal),
    }
}

/// Uses what a name was found to be, with the arguments that stand next: how many they are, and the node of the name
/// where it is known. Only a control method and `\_OSI` take arguments.
#[tactic(auto, using(aml_frames::proofs::Using::using_targets), unfolding(aml_meaning::specs::InvocationTerms::call_rule, aml_meaning::specs::InvocationTerms::osi_rule, aml_meaning::specs::InvocationTerms::field_rule))]
fn begin_invocation<S: Space>(
    run: &mut Running<S>,
    act: &mut Activation,
    levels: u8,
    count: u8,
    node: Option<NodeId>,
    invocation: Invocation,
) -> Result<Next>
    ensures { Steps S.accesses (3 * most + 100) result act.new run.new (
      invocation_rule S.accesses (meaning S.accesses) act.old.scope act.old.depth
          (trees_of (turns_of (terms act.old levels false) count act.old.place).0) invocation,
      at_place act.old (turns_of (terms act.old levels false) count act.old.place).1,
    ) run.old }
{
    match invocation {
        Invocation::Value(value) => {
            act.over_arguments(levels, count);
            Ok(Next::Flow(Flow::Value(value)))
        }
        Invocation::Field(field) => {
            act.over_arguments(levels, count);
            begin_read(run, act, field, Reading::Value)
        }
        Invocation::Method(path, body) => {
            let call = Call {
                callee: Callee::Method(path, body),
                left: count,
                levels,
                node,
                done: Vec::new(run.world.alloc),
            };
            begin_call(run, act, call)
        }
        Invocation::Osi => {
            let call = Call {
                callee: Callee::Osi,
                left: count,
                levels,
                node: None,
                done: Vec::new(run.world.alloc),
            };
            begin_call(run, act, call)
        }
    }
}
